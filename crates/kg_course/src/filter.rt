//! The rows that were chosen, in the phase header_filter.

ghost use Rattle.std.specs.Prelude.{◌≡◌, List as Sequence, OnOk};
ghost use Rattle.kg_row_types.specs.ValidRows.{IsValidPlugin};
ghost use Rattle.kg_row_types.specs.declared.plugin.PluginRow.{PluginRow as ARow};
ghost use Rattle.kg_course.specs.Phases.{header_filter};
ghost use Rattle.kg_course.specs.Plain.{filtered};
ghost use Rattle.kg_course.specs.Walks.{in_walk, under_way};

use crate::limiting::show_limits;
use crate::walk::Walk;
use kg_guard::cors_headers;
use kg_limit::Verdict;
use kg_message::Response;
use kg_plugin_table::PluginGen;
use kg_row_types::config::Config;
use kg_row_types::plugin::PluginRow;
use kg_text::{List, NoMemory};
use kg_transform::transform_response;
use std::alloc::Global;

/// Runs the rows that were chosen over the reply, in the order of their turns. After `NoMemory` the reply is to be
/// dropped.
pub fn filter_all(
    alloc: Global,
    plugins: &PluginGen,
    verdicts: &List<Verdict>,
    walk: &Walk,
    reply: &mut Response,
) -> Result<(), NoMemory>
    ensures { OnOk result (reply.new ≡ filtered (under_way plugins.now.rows verdicts.now walk.now) reply.old) }
{
    for place in walk.turns.as_slice() {
        match plugins.row_at(*place) {
            Some(row) => filter(alloc, row, verdicts, walk, reply)?,
            None => {}
        }
    }
    Ok(())
}

fn filter(
    alloc: Global,
    row: &PluginRow,
    verdicts: &List<Verdict>,
    walk: &Walk,
    reply: &mut Response,
) -> Result<(), NoMemory>
    requires { IsValidPlugin row.now }
    ensures { OnOk result ((chosen : Sequence ARow) → reply.new ≡ header_filter (in_walk chosen verdicts.now walk.now) reply.old row.now) }
{
    match &row.config {
        Config::Cors(config) => cors_headers(alloc, config, &walk.ctx, reply),
        Config::ResponseTransformer(config) => transform_response(alloc, config, reply),
        Config::KeyAuth(_) => Ok(()),
        Config::BasicAuth(_) => Ok(()),
        Config::IpRestriction(_) => Ok(()),
        Config::RequestSizeLimiting(_) => Ok(()),
        Config::Acl(_) => Ok(()),
        Config::RateLimiting(config) => show_limits(alloc, config, &walk.limit, verdicts, reply),
        Config::RequestTransformer(_) => Ok(()),
        Config::RequestTermination(_) => Ok(()),
    }
}
