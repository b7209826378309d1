//! request-size-limiting: how long a body may be.

ghost use Rattle.std.specs.Prelude.{◌≡◌, IfOk};
ghost use Rattle.kg_row_types.specs.ValidRows.{IsValidSizeLimit};
ghost use Rattle.kg_guard.specs.RequestSizeLimiting.{most_bytes, request_size_limiting};

use kg_context::ReqCtx;
use kg_message::{Response, message};
use kg_row_types::config::{SizeLimit, SizeUnit};
use kg_text::NoMemory;
use std::alloc::Global;

/// The refusal, where the body is longer.
pub fn request_size_limiting(
    alloc: Global,
    config: &SizeLimit,
    ctx: &ReqCtx,
) -> Result<Option<Response>, NoMemory>
    requires { IsValidSizeLimit config.now }
    ensures { IfOk result (λ end. end ≡ request_size_limiting config.now ctx.now) }
{
    if (ctx.request.body.len() as u64) > most_bytes(config) {
        Ok(Some(message(alloc, 413, b"Request size limit exceeded")?))
    } else {
        Ok(None)
    }
}

fn most_bytes(config: &SizeLimit) -> u64
    requires { IsValidSizeLimit config.now }
    ensures { result ≡ most_bytes config.now }
{
    let size = config.allowed_payload_size;
    match config.size_unit {
        SizeUnit::Megabytes => size * 1_048_576,
        SizeUnit::Kilobytes => size * 1024,
        SizeUnit::Bytes => size,
    }
}
