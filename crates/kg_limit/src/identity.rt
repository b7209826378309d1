//! Which requests are counted together.

ghost use Rattle.std.specs.Prelude.{◌≡◌, ◌++◌, ◌∷◌, [], IfOk, OnOk, codes, decimal};
ghost use Rattle.std.specs.Net.Text.{ipv4_text};
ghost use Rattle.kg_row_types.specs.Ids.{printed};
ghost use Rattle.kg_limit.specs.Hits.{address_identity, identity_of};

use itoa::Buffer;
use kg_context::ReqCtx;
use kg_row_types::config::LimitBy;
use kg_row_types::id::Id;
use kg_text::{Bytes, NoMemory};
use std::alloc::Global;

/// What the requests have in common that are counted together with this one: a letter and the consumer's id, the
/// client's address or the service's id.
pub(crate) fn identity_of(alloc: Global, by: LimitBy, ctx: &ReqCtx) -> Result<Bytes, NoMemory>
    ensures { IfOk result (λ identity. identity ≡ identity_of by ctx.now) }
{
    match by {
        LimitBy::Consumer => match &ctx.consumer {
            Some(consumer) => of_id(alloc, b'c', consumer.id),
            None => of_address(alloc, ctx.request.address),
        },
        LimitBy::Ip => of_address(alloc, ctx.request.address),
        LimitBy::Service => of_id(alloc, b's', ctx.service),
    }
}

// A letter and an id, printed.
fn of_id(alloc: Global, letter: u8, id: Id) -> Result<Bytes, NoMemory>
    ensures { IfOk result (λ identity. identity ≡ letter ∷ printed id) }
{
    let mut identity = Bytes::with_capacity(alloc, 37)?;
    identity.push(letter)?;
    id.put_printed(&mut identity)?;
    Ok(identity)
}

// The letter of addresses and this one, in dotted decimal.
fn of_address(alloc: Global, address: [u8; 4]) -> Result<Bytes, NoMemory>
    ensures { IfOk result (λ identity. identity ≡ codes "i" ++ ipv4_text address) }
{
    let mut identity = Bytes::with_capacity(alloc, 16)?;
    identity.push(b'i')?;
    put_address(&mut identity, address)?;
    Ok(identity)
}

fn put_address(out: &mut Bytes, address: [u8; 4]) -> Result<(), NoMemory>
    ensures { OnOk result (out.new ≡ out.old ++ ipv4_text address) }
{
    let [first, second, third, fourth] = address;
    put_octet(out, first)?;
    out.push(b'.')?;
    put_octet(out, second)?;
    out.push(b'.')?;
    put_octet(out, third)?;
    out.push(b'.')?;
    put_octet(out, fourth)
}

fn put_octet(out: &mut Bytes, octet: u8) -> Result<(), NoMemory>
    ensures { OnOk result (out.new ≡ out.old ++ decimal octet) }
{
    out.extend_from_slice(Buffer::new().format(octet).as_bytes())
}
