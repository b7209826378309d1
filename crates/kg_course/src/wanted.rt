//! What a request on its route wants next, and its reply.

ghost use Rattle.std.specs.Prelude.{◌≡◌, IfOk};
ghost use Rattle.kg_context.specs.Echo.{echo_of};
ghost use Rattle.kg_context.specs.declared.upstream.Upstream.TheVariants.{Answered};
ghost use Rattle.kg_upstream.specs.UpstreamMessage.{reply_of};
ghost use Rattle.kg_course.specs.Plain.{filtered, no_route};
ghost use Rattle.kg_course.specs.Walks.{KnowsRow, RepliesOrAsks, WantsOnRoute, under_way};

use crate::filter::filter_all;
use crate::moment::Moment;
use crate::walk::{Walk, go_on};
use crate::want::Want;
use kg_context::{Given, Upstream};
use kg_limit::Verdict;
use kg_message::{Response, message};
use kg_plugin_table::PluginGen;
use kg_text::{Bytes, List, NoMemory, TryClone};
use kg_upstream::{Way, reply_by_echo as echoed, reply_of, up_request};
use std::alloc::Global;

/// What its plugins lack, or the upstream's answer, or nothing more than the reply of the plugin that ended it.
pub fn wanted_on_route(
    alloc: Global,
    plugins: &PluginGen,
    way: &Way,
    moment: Moment,
    given: &Given,
    verdicts: &List<Verdict>,
    walk: &mut Walk,
) -> Result<Want, NoMemory>
    requires known { KnowsRow plugins.now.rows walk.old }
    ensures { IfOk result (λ want. WantsOnRoute plugins.now.rows way.now moment given.now verdicts.now walk.old want walk.new) }
{
    match go_on(alloc, plugins, moment, given, verdicts, walk)? {
        Some(lacking) => Ok(lacking),
        None => finished(alloc, plugins, way, verdicts, walk),
    }
}

// The reply of the plugin that ended the request, or the message whose answer is lacking.
fn finished(
    alloc: Global,
    plugins: &PluginGen,
    way: &Way,
    verdicts: &List<Verdict>,
    walk: &Walk,
) -> Result<Want, NoMemory>
    ensures { IfOk result (λ want. RepliesOrAsks plugins.now.rows way.now verdicts.now walk.now want) }
{
    match &walk.ctx.end {
        Some(reply) => {
            let mut reply = reply.try_clone(alloc)?;
            filter_all(alloc, plugins, verdicts, walk, &mut reply)?;
            Ok(Want::Done(reply))
        }
        None => Ok(Want::Upstream(up_request(alloc, way, &walk.ctx)?)),
    }
}

/// The reply that the upstream's answer becomes.
pub fn reply_to(
    alloc: Global,
    plugins: &PluginGen,
    verdicts: &List<Verdict>,
    walk: &Walk,
    answer: &Upstream,
) -> Result<Response, NoMemory>
    ensures { IfOk result (λ reply. reply ≡ filtered (under_way plugins.now.rows verdicts.now walk.now) (reply_of answer.now)) }
{
    let mut reply = reply_of(alloc, answer)?;
    filter_all(alloc, plugins, verdicts, walk, &mut reply)?;
    Ok(reply)
}

/// As `reply_to`, of the echo's answer to this message, which isn't copied.
pub fn reply_by_echo(
    alloc: Global,
    plugins: &PluginGen,
    verdicts: &List<Verdict>,
    walk: &Walk,
    message: Bytes,
) -> Result<Response, NoMemory>
    ensures { IfOk result (λ reply. reply ≡ filtered (under_way plugins.now.rows verdicts.now walk.now) (reply_of (Answered (echo_of message)))) }
{
    let mut reply = echoed(alloc, message)?;
    filter_all(alloc, plugins, verdicts, walk, &mut reply)?;
    Ok(reply)
}

/// The reply to a request that no route takes.
#[tactic(auto, unfolding(crate::specs::Plain::no_route))]
pub fn no_route(alloc: Global) -> Result<Response, NoMemory>
    ensures { IfOk result (λ response. response ≡ no_route) }
{
    message(alloc, 404, b"no Route matched with those values")
}
