//! What a request wants next, and the reply that its upstream's answer becomes.

ghost use Rattle.std.specs.Prelude.{◌≡◌, [], IfOk, OnOk};
ghost use Rattle.kg_context.specs.Echo.{echo_of};
ghost use Rattle.kg_context.specs.declared.upstream.Upstream.TheVariants.{Answered};
ghost use Rattle.kg_visit.specs.Visits.{BeginsStage, KnowsAsker, NextWant, RepliesTo};

use crate::stage::{Journey, Stage};
use kg_context::{Given, Upstream};
use kg_course::{Moment, Walk, Want, no_route, reply_by_echo, reply_to, wanted_on_route};
use kg_limit::Verdict;
use kg_message::{Request, Response};
use kg_plugin_table::PluginGen;
use kg_text::{Bytes, List, NoMemory};
use kg_upstream::Way;
use std::alloc::Global;
use std::mem;

/// A request on its way, before the first plugin, or one that no route takes.
pub fn stage_of(alloc: Global, way: Option<Way>, request: Request) -> Result<Stage, NoMemory>
    ensures { IfOk result (λ stage. BeginsStage way request stage) }
{
    match way {
        Some(way) => {
            let walk = Walk::begin(alloc, &way, request)?;
            let journey = Box::new(alloc, Journey { way, walk })?;
            Ok(Stage::OnRoute(journey))
        }
        None => Ok(Stage::NoRoute(Box::new(alloc, request)?)),
    }
}

/// What a request wants that has been told nothing.
pub fn first_want(
    alloc: Global,
    plugins: &PluginGen,
    moment: Moment,
    stage: &mut Stage,
) -> Result<Want, NoMemory>
    requires known { KnowsAsker plugins.now.rows stage.old }
    ensures { IfOk result (λ want. NextWant plugins.now.rows moment [] [] stage.old want stage.new) }
{
    let given = Given::new(alloc);
    let verdicts = List::new(alloc);
    next_want(alloc, plugins, moment, &given, &verdicts, stage)
}

/// Puts what a request wants next in the place of what it wanted.
pub fn renew_want(
    alloc: Global,
    plugins: &PluginGen,
    moment: Moment,
    given: &Given,
    verdicts: &List<Verdict>,
    stage: &mut Stage,
    want: &mut Want,
) -> Result<(), NoMemory>
    requires known { KnowsAsker plugins.now.rows stage.old }
    ensures { OnOk result (NextWant plugins.now.rows moment given.now verdicts.now stage.old want.new stage.new) }
{
    let next = next_want(alloc, plugins, moment, given, verdicts, stage)?;
    drop(mem::replace(want, next)); // let go by name: a short proof
    Ok(())
}

// What a request wants next.
fn next_want(
    alloc: Global,
    plugins: &PluginGen,
    moment: Moment,
    given: &Given,
    verdicts: &List<Verdict>,
    stage: &mut Stage,
) -> Result<Want, NoMemory>
    requires known { KnowsAsker plugins.now.rows stage.old }
    ensures { IfOk result (λ want. NextWant plugins.now.rows moment given.now verdicts.now stage.old want stage.new) }
{
    match stage {
        Stage::OnRoute(journey) => {
            let Journey { way, walk } = &mut **journey;
            wanted_on_route(alloc, plugins, way, moment, given, verdicts, walk)
        }
        Stage::NoRoute(_) => Ok(Want::Done(no_route(alloc)?)),
    }
}

/// The reply that the upstream's answer becomes.
pub fn reply_at(
    alloc: Global,
    plugins: &PluginGen,
    verdicts: &List<Verdict>,
    stage: &Stage,
    answer: &Upstream,
) -> Result<Response, NoMemory>
    ensures { IfOk result (λ reply. RepliesTo plugins.now.rows verdicts.now stage.now answer.now reply) }
{
    match stage {
        Stage::OnRoute(journey) => reply_to(alloc, plugins, verdicts, &journey.walk, answer),
        Stage::NoRoute(_) => no_route(alloc),
    }
}

/// The reply that the echo of the message becomes.
pub fn echo_at(
    alloc: Global,
    plugins: &PluginGen,
    verdicts: &List<Verdict>,
    stage: &Stage,
    message: Bytes,
) -> Result<Response, NoMemory>
    ensures { IfOk result (λ reply. RepliesTo plugins.now.rows verdicts.now stage.now (Answered (echo_of message)) reply) }
{
    match stage {
        Stage::OnRoute(journey) => {
            reply_by_echo(alloc, plugins, verdicts, &journey.walk, message)
        }
        Stage::NoRoute(_) => {
            drop(message);
            no_route(alloc)
        }
    }
}
