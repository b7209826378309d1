//! The way of a request through the phase access.

ghost use Rattle.std.specs.Prelude.{◌≡◌, IfOk, Some, slice_get};
ghost use Rattle.kg_row_types.specs.PluginNames.{plugins_in_order};
ghost use Rattle.kg_row_types.specs.ValidRows.{IsValidPlugin};
ghost use Rattle.kg_row_types.specs.declared.plugin.PluginRow.{PluginRow as ARow};
ghost use Rattle.kg_plugin_table.specs.PluginRows.{IsPlaceOf};
ghost use Rattle.kg_plugin_table.specs.Precedence.{chosen_row};
ghost use Rattle.kg_course.specs.Plain.{ran, scope_of};
ghost use Rattle.kg_course.specs.Walks.{BeginsWalk, Goes, KnowsRow, Runs, TakesTurn};

use crate::access::access;
use crate::moment::Moment;
use crate::want::Want;
use kg_context::{Given, ReqCtx};
use kg_limit::{Hit, Verdict};
use kg_message::Request;
use kg_plugin_table::PluginGen;
use kg_row_types::plugin::{PluginName, PluginRow, Scope};
use kg_text::{List, NoMemory};
use kg_upstream::Way;
use std::alloc::Global;

// All plugins, in the order of their priorities.
const PLUGINS: [PluginName; 10] = [
    PluginName::Cors,
    PluginName::KeyAuth,
    PluginName::BasicAuth,
    PluginName::IpRestriction,
    PluginName::RequestSizeLimiting,
    PluginName::Acl,
    PluginName::RateLimiting,
    PluginName::RequestTransformer,
    PluginName::ResponseTransformer,
    PluginName::RequestTermination,
];

/// A request on its walk over the plugins.
#[derive(Drop)]
pub struct Walk {
    pub ctx: ReqCtx,
    /// How many turns are over.
    pub taken: usize,
    /// The places of the rows that were chosen at these turns.
    pub turns: List<usize>,
    /// The place of the row whose turn a question stopped, if one did.
    pub asking: Option<usize>,
    /// The hit that was counted, if one was.
    pub limit: Option<Hit>,
}

impl Walk {
    /// A request on its way, before the first plugin.
    pub fn begin(alloc: Global, way: &Way, request: Request) -> Result<Walk, NoMemory>
        ensures { IfOk result (λ walk. BeginsWalk way.now request walk) }
    {
        let ctx = ReqCtx::start(alloc, way.service, way.route, request)?;
        Ok(Walk {
            ctx,
            taken: 0,
            turns: List::new(alloc),
            asking: None,
            limit: None,
        })
    }
}

/// Goes on with the plugin whose turn it is, up to the last, or up to one that lacks something.
pub fn go_on(
    alloc: Global,
    plugins: &PluginGen,
    moment: Moment,
    given: &Given,
    verdicts: &List<Verdict>,
    walk: &mut Walk,
) -> Result<Option<Want>, NoMemory>
    requires known { KnowsRow plugins.now.rows walk.old }
    ensures { IfOk result (λ lacking. Goes plugins.now.rows moment given.now verdicts.now walk.old lacking walk.new) }
{
    while let Some(name) = name_at(walk.taken) {
        match take_turn(alloc, plugins, moment, given, verdicts, name, walk)? {
            Some(lacking) => return Ok(Some(lacking)),
            None => {}
        }
    }
    Ok(None)
}

fn name_at(taken: usize) -> Option<PluginName>
    ensures { result ≡ slice_get plugins_in_order taken }
{
    PLUGINS.get(taken).copied()
}

// Takes the turn of a plugin: its row is chosen, and runs. A turn that lacks something isn't over.
fn take_turn(
    alloc: Global,
    plugins: &PluginGen,
    moment: Moment,
    given: &Given,
    verdicts: &List<Verdict>,
    name: PluginName,
    walk: &mut Walk,
) -> Result<Option<Want>, NoMemory>
    requires next { slice_get plugins_in_order walk.old.taken ≡ Some name }
    requires known { KnowsRow plugins.now.rows walk.old }
    ensures { IfOk result (λ lacking. TakesTurn plugins.now.rows moment given.now verdicts.now name walk.old lacking walk.new) }
{
    match place_of_row(plugins, name, walk) {
        Some(place) => match run_at(alloc, plugins, place, moment, given, verdicts, walk)? {
            Some(lacking) => {
                walk.asking = Some(place);
                return Ok(Some(lacking));
            }
            None => walk.turns.push(place)?,
        },
        None => {}
    }
    walk.asking = None;
    walk.taken += 1;
    Ok(None)
}

// Where the plugin's row stands: it is known at a turn that a question stopped.
fn place_of_row(plugins: &PluginGen, name: PluginName, walk: &Walk) -> Option<usize>
    requires next { slice_get plugins_in_order walk.now.taken ≡ Some name }
    requires known { KnowsRow plugins.now.rows walk.now }
    ensures { IsPlaceOf plugins.now.rows (chosen_row plugins.now.rows name (scope_of walk.now.ctx)) result }
{
    match walk.asking {
        Some(place) => Some(place),
        None => plugins.choose_place(name, &scope_of(&walk.ctx)),
    }
}

// Runs the row at a place.
fn run_at(
    alloc: Global,
    plugins: &PluginGen,
    place: usize,
    moment: Moment,
    given: &Given,
    verdicts: &List<Verdict>,
    walk: &mut Walk,
) -> Result<Option<Want>, NoMemory>
    ensures { (row : ARow) → slice_get plugins.now.rows place ≡ Some row
        → IfOk result (λ lacking. Runs (ran moment (Some row)) given.now verdicts.now walk.old lacking walk.new) }
{
    match plugins.row_at(place) {
        Some(row) => run_row(alloc, row, moment, given, verdicts, walk),
        None => Ok(None),
    }
}

// Runs a row, where no plugin has ended the request.
fn run_row(
    alloc: Global,
    row: &PluginRow,
    moment: Moment,
    given: &Given,
    verdicts: &List<Verdict>,
    walk: &mut Walk,
) -> Result<Option<Want>, NoMemory>
    requires { IsValidPlugin row.now }
    ensures { IfOk result (λ lacking. Runs (ran moment (Some row.now)) given.now verdicts.now walk.old lacking walk.new) }
{
    if walk.ctx.end.is_some() {
        return Ok(None);
    }
    access(alloc, row, moment, given, verdicts, walk)
}

/// The service, the route and the consumer of a request, as far as it is known by now.
pub fn scope_of(ctx: &ReqCtx) -> Scope
    ensures { result ≡ scope_of ctx.now }
{
    Scope {
        service: Some(ctx.service),
        route: Some(ctx.route),
        consumer: match &ctx.consumer {
            Some(consumer) => Some(consumer.id),
            None => None,
        },
    }
}
