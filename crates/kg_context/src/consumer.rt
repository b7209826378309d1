//! Setting the consumer of a request.

ghost use Rattle.std.specs.Prelude.{◌≡◌, ◌++◌, ◌∷◌, [], IfOk, IsTrue, OnOk};
ghost use Rattle.std.specs.Str.{str_to_ascii_lowercase};
ghost use Rattle.kg_text.specs.Names.{is_token};
ghost use Rattle.kg_context.specs.Fields.{set_field};
ghost use Rattle.kg_context.specs.SetConsumer.{credential_field, identifier_of, identity_fields, with_consumer, without_identity};

use crate::context::{Credential, ReqCtx};
use crate::fields::{add_field, add_value};
use kg_message::Headers;
use kg_row_types::consumer::Consumer;
use kg_text::{Bytes, NoMemory, Text, TryClone};
use std::alloc::Global;

/// Makes the request this consumer's: what it told of a consumer before is dropped, and the upstream is told of
/// this one. Without a credential the consumer stands for requests that have none. After `NoMemory` the context
/// is to be dropped.
pub fn set_consumer(
    alloc: Global,
    ctx: &mut ReqCtx,
    consumer: &Consumer,
    credential: Option<Credential>,
) -> Result<(), NoMemory>
    ensures { OnOk result (ctx.new ≡ with_consumer consumer.now credential ctx.old) }
{
    let known = consumer.try_clone(alloc)?;
    drop_identity(&mut ctx.headers);
    add_identity(alloc, &mut ctx.headers, consumer, &credential)?;
    ctx.consumer = Some(known);
    ctx.credential = credential;
    Ok(())
}

// Drops the fields that tell who the consumer is.
fn drop_identity(headers: &mut Headers)
    ensures { headers.new ≡ without_identity headers.old }
{
    headers.remove(b"x-consumer-id");
    headers.remove(b"x-consumer-custom-id");
    headers.remove(b"x-consumer-username");
    headers.remove(b"x-credential-identifier");
    headers.remove(b"x-anonymous-consumer");
}

fn add_identity(
    alloc: Global,
    headers: &mut Headers,
    consumer: &Consumer,
    credential: &Option<Credential>,
) -> Result<(), NoMemory>
    ensures { OnOk result (headers.new ≡ headers.old ++ identity_fields consumer.now credential.now) }
{
    add_value(
        alloc,
        headers,
        b"x-consumer-id",
        consumer.id.to_bytes(alloc)?,
    )?;
    add_set(alloc, headers, b"x-consumer-custom-id", &consumer.custom_id)?;
    add_set(alloc, headers, b"x-consumer-username", &consumer.username)?;
    add_credential(alloc, headers, credential)
}

// Adds a field of this value, if there is one.
fn add_set(
    alloc: Global,
    headers: &mut Headers,
    name: &[u8],
    value: &Option<Text>,
) -> Result<(), NoMemory>
    requires { IsTrue (is_token name.now) }
    ensures { OnOk result (headers.new ≡ headers.old ++ set_field (str_to_ascii_lowercase name.now) value.now) }
{
    match value {
        Some(text) => add_field(alloc, headers, name, text.as_bytes()),
        None => Ok(()),
    }
}

// Tells the credential, or that there is none.
fn add_credential(
    alloc: Global,
    headers: &mut Headers,
    credential: &Option<Credential>,
) -> Result<(), NoMemory>
    ensures { OnOk result (headers.new ≡ headers.old ++ credential_field credential.now ∷ []) }
{
    match credential {
        Some(credential) => {
            let identifier = identifier_of(alloc, credential)?;
            add_value(alloc, headers, b"x-credential-identifier", identifier)
        }
        None => add_field(alloc, headers, b"x-anonymous-consumer", b"true"),
    }
}

// What a credential is known by: a key by its id, a password by its username.
fn identifier_of(alloc: Global, credential: &Credential) -> Result<Bytes, NoMemory>
    ensures { IfOk result (λ identifier. identifier ≡ identifier_of credential.now) }
{
    match credential {
        Credential::Key(cred) => cred.id.to_bytes(alloc),
        Credential::Basic(cred) => Bytes::from_slice(alloc, cred.username.as_bytes()),
    }
}
