//! Whether a password is the one that is stored.

ghost use Rattle.std.specs.Prelude.{◌≡◌, IfOk};
ghost use Rattle.std.specs.Str.{bytes_eq};
ghost use Rattle.kg_row_types.specs.StoredPassword.{stored_password};

use kg_password::hash_of;
use kg_row_types::consumer::BasicCred;
use kg_text::NoMemory;
use std::alloc::Global;

/// Is the password the one that is stored of the credential? The two are compared to the end, so that the time that it
/// takes doesn't tell where they differ: it is written so, and not proved.
pub fn is_password_of(
    alloc: Global,
    credential: &BasicCred,
    password: &[u8],
) -> Result<bool, NoMemory>
    ensures { IfOk result (λ same. same ≡ bytes_eq credential.now.hash (stored_password credential.now.consumer password.now)) }
{
    let hash = hash_of(alloc, credential.consumer, password)?;
    Ok(is_same_secret(credential.hash.as_bytes(), hash.as_bytes()))
}

// What differs is gathered over all bytes, and looked at behind the last one.
#[tactic(auto, using(crate::proofs::SecretLemmas::further))]
fn is_same_secret(stored: &[u8], other: &[u8]) -> bool
    ensures { result ≡ bytes_eq stored.now other.now }
{
    if stored.len() != other.len() {
        return false;
    }
    let mut difference = 0;
    for i in 0..stored.len() {
        difference |= stored[i] ^ other[i];
    }
    difference == 0
}
