//! ip-restriction: which addresses may send requests.

ghost use Rattle.std.specs.Prelude.{◌≡◌, IfOk, IsTrue};
ghost use Rattle.std.specs.List.{list_all};
ghost use Rattle.kg_row_types.specs.ConfigTexts.{is_ipv4_block};
ghost use Rattle.kg_row_types.specs.ValidRows.{IsValidIpRestriction};
ghost use Rattle.kg_guard.specs.Addresses.{is_in_some};
ghost use Rattle.kg_guard.specs.IpRestriction.{ip_restriction, is_address_refused};

use crate::address::is_in_block;
use kg_context::ReqCtx;
use kg_message::{Response, message};
use kg_row_types::config::IpRestriction;
use kg_text::{NoMemory, Text};
use std::alloc::Global;

/// The refusal, where the client's address is refused.
pub fn ip_restriction(
    alloc: Global,
    config: &IpRestriction,
    ctx: &ReqCtx,
) -> Result<Option<Response>, NoMemory>
    requires { IsValidIpRestriction config.now }
    ensures { IfOk result (λ end. end ≡ ip_restriction config.now ctx.now) }
{
    if is_address_refused(config, ctx.request.address) {
        Ok(Some(message(alloc, 403, b"Your IP address is not allowed")?))
    } else {
        Ok(None)
    }
}

// Deny has the address, or allow is set and hasn't.
fn is_address_refused(config: &IpRestriction, address: [u8; 4]) -> bool
    requires { IsValidIpRestriction config.now }
    ensures { result ≡ is_address_refused config.now address }
{
    is_in_some(address, config.deny.as_slice())
        || (!config.allow.is_empty() && !is_in_some(address, config.allow.as_slice()))
}

fn is_in_some(address: [u8; 4], blocks: &[Text]) -> bool
    requires { IsTrue (list_all is_ipv4_block blocks.now) }
    ensures { result ≡ is_in_some address blocks.now }
{
    for block in blocks {
        if is_in_block(address, block.as_bytes()) {
            return true;
        }
    }
    false
}
