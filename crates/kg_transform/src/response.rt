//! response-transformer: the headers of the reply.

ghost use Rattle.std.specs.Prelude.{◌≡◌, OnOk};
ghost use Rattle.kg_row_types.specs.ValidRows.{IsValidResponseTransformer};
ghost use Rattle.kg_transform.specs.ResponseTransformer.{reply_fields, response_transformed};

use crate::fields;
use crate::step::Step;
use kg_message::{Headers, Response};
use kg_row_types::config::ResponseTransformer;
use kg_text::NoMemory;
use std::alloc::Global;

/// Runs the plugin in header_filter. After `NoMemory` the reply is to be dropped.
pub fn transform_response(
    alloc: Global,
    config: &ResponseTransformer,
    response: &mut Response,
) -> Result<(), NoMemory>
    requires { IsValidResponseTransformer config.now }
    ensures { OnOk result (response.new ≡ response_transformed config.now response.old) }
{
    transform_fields(alloc, config, &mut response.headers)
}

fn transform_fields(
    alloc: Global,
    config: &ResponseTransformer,
    headers: &mut Headers,
) -> Result<(), NoMemory>
    requires { IsValidResponseTransformer config.now }
    ensures { OnOk result (headers.new ≡ reply_fields config.now headers.old) }
{
    fields::edit_all(alloc, Step::Remove, config.remove.as_slice(), headers)?;
    fields::edit_all(alloc, Step::Rename, config.rename.as_slice(), headers)?;
    fields::edit_all(alloc, Step::Replace, config.replace.as_slice(), headers)?;
    fields::edit_all(alloc, Step::Add, config.add.as_slice(), headers)?;
    fields::edit_all(alloc, Step::Append, config.append.as_slice(), headers)
}
