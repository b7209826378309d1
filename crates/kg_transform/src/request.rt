//! request-transformer: the upstream headers and the query.

ghost use Rattle.std.specs.Prelude.{◌≡◌, OnOk};
ghost use Rattle.kg_row_types.specs.ValidRows.{IsValidRequestTransformer};
ghost use Rattle.kg_transform.specs.RequestTransformer.{request_transformed, transformed_fields, transformed_pairs};

use crate::step::Step;
use crate::{fields, pairs};
use kg_context::ReqCtx;
use kg_message::Headers;
use kg_row_types::config::RequestTransformer;
use kg_text::{List, NoMemory, Pair};
use std::alloc::Global;

/// Runs the plugin in access. After `NoMemory` the context is to be dropped.
pub fn transform_request(
    alloc: Global,
    config: &RequestTransformer,
    ctx: &mut ReqCtx,
) -> Result<(), NoMemory>
    requires { IsValidRequestTransformer config.now }
    ensures { OnOk result (ctx.new ≡ request_transformed config.now ctx.old) }
{
    transform_fields(alloc, config, &mut ctx.headers)?;
    transform_pairs(alloc, config, &mut ctx.query)
}

fn transform_fields(
    alloc: Global,
    config: &RequestTransformer,
    headers: &mut Headers,
) -> Result<(), NoMemory>
    requires { IsValidRequestTransformer config.now }
    ensures { OnOk result (headers.new ≡ transformed_fields config.now headers.old) }
{
    fields::edit_all(
        alloc,
        Step::Remove,
        config.remove.headers.as_slice(),
        headers,
    )?;
    fields::edit_all(
        alloc,
        Step::Rename,
        config.rename.headers.as_slice(),
        headers,
    )?;
    fields::edit_all(
        alloc,
        Step::Replace,
        config.replace.headers.as_slice(),
        headers,
    )?;
    fields::edit_all(alloc, Step::Add, config.add.headers.as_slice(), headers)?;
    fields::edit_all(
        alloc,
        Step::Append,
        config.append.headers.as_slice(),
        headers,
    )
}

fn transform_pairs(
    alloc: Global,
    config: &RequestTransformer,
    query: &mut List<Pair>,
) -> Result<(), NoMemory>
    ensures { OnOk result (query.new ≡ transformed_pairs config.now query.old) }
{
    pairs::edit_all(
        alloc,
        Step::Remove,
        config.remove.querystring.as_slice(),
        query,
    )?;
    pairs::edit_all(
        alloc,
        Step::Rename,
        config.rename.querystring.as_slice(),
        query,
    )?;
    pairs::edit_all(
        alloc,
        Step::Replace,
        config.replace.querystring.as_slice(),
        query,
    )?;
    pairs::edit_all(alloc, Step::Add, config.add.querystring.as_slice(), query)?;
    pairs::edit_all(
        alloc,
        Step::Append,
        config.append.querystring.as_slice(),
        query,
    )
}
