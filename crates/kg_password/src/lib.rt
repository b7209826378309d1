//! What is stored of a password.
#![tactic(auto)]

ghost use Rattle.std.specs.Prelude.{◌≡◌, ◌++◌, IfOk, codes};
ghost use Rattle.kg_row_types.specs.StoredPassword.{stored_password};
ghost use Rattle.sha2.specs.Sha256.{sha256};

use kg_row_types::id::Id;
use kg_text::{NoMemory, Text};
use sha2::{Digest, Sha256};
use std::alloc::Global;

/// The SHA-256 of the consumer's printed id, a colon and the password, as hexadecimal digits in
/// lower case.
#[tactic(auto, unfolding(kg_row_types::specs::StoredPassword::stored_password))]
pub fn hash_of(alloc: Global, consumer: Id, password: &[u8]) -> Result<Text, NoMemory>
    ensures { IfOk result (λ hash. hash ≡ stored_password consumer password.now) }
{
    let id = consumer.to_text(alloc)?;
    let digest = digest_of(id.as_bytes(), password);
    Ok(Text::from_string(hex::encode(alloc, digest)?))
}

fn digest_of(id: &[u8], password: &[u8]) -> [u8; 32]
    ensures { result ≡ sha256 (id.now ++ codes ":" ++ password.now) }
{
    let mut hasher = Sha256::new();
    hasher.update(id);
    hasher.update(b":");
    hasher.update(password);
    hasher.finalize()
}
