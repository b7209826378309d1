//! The gateway of a dry run: one request, and its reply.

ghost use Rattle.std.specs.Prelude.{◌≡◌, ◌++◌, List as Sequence, IfOk};
ghost use Rattle.std.specs.Arc.{arc_value};
ghost use Rattle.kg_limit.specs.Representing.{Represents};
ghost use Rattle.kg_limit.specs.declared.hit.Hit.{Hit as AHit};
ghost use Rattle.kg_plain.specs.Driving.{Responds};
ghost use Rattle.kg_plain.specs.Starts.{IsWayOf, StartsSo, response_of};
ghost use Rattle.kg_print.specs.ReplyText.{reply_text};
ghost use Rattle.kg_plain.specs.DryReply.{bad_request, bad_request_text, counted, is_bodiless, reply_to};
ghost use Rattle.kg_visit.specs.Told.{begun};

use crate::drive::drive;
use kg_course::no_route;
use kg_direct::{echo_text, is_touched, straight_message};
use kg_entities::Rows;
use kg_limit::Windows;
use kg_message::{Request, Response, message};
use kg_plugin_table::PluginGen;
use kg_router::RouterGen;
use kg_text::{Bytes, NoMemory};
use kg_upstream::{Way, way_of};
use kg_visit::Visit;
use kg_wire::{Keeping, keeping_of, render_response};
use std::alloc::Global;
use std::marker::Model;
use std::sync::Arc;

// The one worker of a dry run.
const WORKER: u32 = 1;

/// What a request is answered.
#[derive(Drop)]
pub(crate) enum Answer {
    /// What the echo of this message becomes, where no plugin changes it.
    Echo(Bytes),
    Reply(Response),
}

/// What becomes of a request as the router finds its route.
#[derive(Drop)]
pub(crate) enum Start {
    /// No route takes it, or no plugin touches it: it has its answer.
    Straight(Answer),
    /// It goes on this way, over its plugins.
    Touched(Way),
}

/// A gateway over the rows that were declared, with an echo as its upstream. Contracts see the rows that it
/// answers by.
#[derive(Drop)]
pub struct Gateway {
    router: Arc<RouterGen>,
    plugins: Arc<PluginGen>,
    rows: Rows,
    // How many commands declared them.
    commands: u64,
}

impl Model for Gateway {
    ghost use Rattle.std.specs.Arc.{arc_value};
    ghost use Rattle.kg_plain.specs.DryReply.{GatewayRows};

    ghost Value = { GatewayRows };

    ghost view = { λ gateway. record { router = arc_value gateway.router; plugins = arc_value gateway.plugins; declared = gateway.rows; commands = gateway.commands } };
}

impl Gateway {
    /// The gateway by this router and these plugins, with the values of these rows, which so many commands declared.
    pub fn new(
        router: Arc<RouterGen>,
        plugins: Arc<PluginGen>,
        rows: Rows,
        commands: u64,
    ) -> Gateway
        ensures { result ≡ record { router = arc_value router; plugins = arc_value plugins; declared = rows; commands = commands } }
    {
        Gateway {
            router,
            plugins,
            rows,
            commands,
        }
    }

    /// The plugins that it answers by.
    pub fn plugins(&self) -> &PluginGen
        ensures { result.now ≡ self.now.plugins }
    {
        &self.plugins
    }

    /// The rows of which it takes the values of keys.
    pub fn rows(&self) -> &Rows
        ensures { result.now ≡ self.now.declared }
    {
        &self.rows
    }

    /// How many commands declared its rows.
    pub fn commands(&self) -> u64
        ensures { result ≡ self.now.commands }
    {
        self.commands
    }

    /// The text of the reply to the request at a time, in milliseconds, after the hits that the windows stand for;
    /// its own hit is counted. `last` says that the connection ends with it, whatever the request asks.
    #[tactic(auto, unfolding(crate::specs::DryReply::reply_to))]
    pub fn reply_to(
        &self,
        alloc: Global,
        windows: &mut Windows,
        request: Request,
        time: u64,
        last: bool,
    ) -> Result<Bytes, NoMemory>
        ensures { (hits : Sequence AHit) → Represents windows.old hits
            → IfOk result (λ text. (text ≡ reply_to self.now hits time last request) × Represents windows.new (hits ++ counted self.now time request)) }
    {
        let bodiless = is_bodiless(&request);
        let keeping = keeping_of(last, &request);
        let answer = self.answer(alloc, windows, request, time)?;
        answer_text(alloc, &answer, bodiless, keeping)
    }

    // The answer to the request.
    fn answer(
        &self,
        alloc: Global,
        windows: &mut Windows,
        request: Request,
        time: u64,
    ) -> Result<Answer, NoMemory>
        ensures { (hits : Sequence AHit) → Represents windows.old hits
            → IfOk result (λ answer. Responds self.now hits time request (response_of answer) windows.new) }
    {
        match self.start(alloc, &request) {
            Ok(Start::Straight(answer)) => {
                drop(request); // here and below let go by name: a short proof
                Ok(answer)
            }
            Ok(Start::Touched(way)) => {
                let response = self.driven(alloc, windows, way, request, time)?;
                Ok(Answer::Reply(response))
            }
            Err(e) => {
                drop(request);
                Err(e)
            }
        }
    }

    // What becomes of the request as the router finds its route.
    fn start(&self, alloc: Global, request: &Request) -> Result<Start, NoMemory>
        ensures { IfOk result (StartsSo self.now request.now) }
    {
        match self.router.find(alloc, request)? {
            Some(choice) => {
                if is_touched(&self.plugins, &choice) {
                    Ok(Start::Touched(way_of(alloc, &choice, request)?))
                } else {
                    let message = straight_message(alloc, &choice, request)?;
                    Ok(Start::Straight(Answer::Echo(message)))
                }
            }
            None => Ok(Start::Straight(Answer::Reply(no_route(alloc)?))),
        }
    }

    // The response that the request's plugins come to, on its way.
    fn driven(
        &self,
        alloc: Global,
        windows: &mut Windows,
        way: Way,
        request: Request,
        time: u64,
    ) -> Result<Response, NoMemory>
        requires { IsWayOf self.now request way }
        ensures { (hits : Sequence AHit) → Represents windows.old hits
            → IfOk result (λ response. Responds self.now hits time request response windows.new) }
    {
        match self.visit_on(alloc, way, request, time) {
            Ok(visit) => drive(alloc, self, windows, visit),
            Err(e) => Err(e),
        }
    }

    // The request as it begins on its way.
    fn visit_on(
        &self,
        alloc: Global,
        way: Way,
        request: Request,
        time: u64,
    ) -> Result<Visit, NoMemory>
        requires { IsWayOf self.now request way }
        ensures { IfOk result (λ visit. visit ≡ begun self.now.router self.now.plugins request (record { time = time; who = 1 })) }
    {
        match self.shares() {
            Ok((router, plugins)) => {
                Visit::begin_on(alloc, router, plugins, Some(way), request, time, WORKER)
            }
            Err(e) => {
                drop((way, request));
                Err(e)
            }
        }
    }

    /// The request as it begins, at a time in milliseconds.
    pub fn visit(&self, alloc: Global, request: Request, time: u64) -> Result<Visit, NoMemory>
        ensures { IfOk result (λ visit. visit ≡ begun self.now.router self.now.plugins request (record { time = time; who = 1 })) }
    {
        match self.shares() {
            Ok((router, plugins)) => { Visit::begin(alloc, router, plugins, request, time, WORKER) }
            Err(e) => {
                drop(request);
                Err(e)
            }
        }
    }

    fn shares(&self) -> Result<(Arc<RouterGen>, Arc<PluginGen>), NoMemory>
        ensures { IfOk result (λ shares. (arc_value shares.0 ≡ self.now.router) × (arc_value shares.1 ≡ self.now.plugins)) }
    {
        let router = Arc::try_clone(&self.router)?;
        Ok((router, Arc::try_clone(&self.plugins)?))
    }
}

// The text of the reply that an answer is.
fn answer_text(
    alloc: Global,
    answer: &Answer,
    bodiless: bool,
    keeping: Keeping,
) -> Result<Bytes, NoMemory>
    ensures { IfOk result (λ text. text ≡ reply_text (response_of answer.now) bodiless keeping) }
{
    match answer {
        Answer::Echo(message) => echo_text(alloc, message, bodiless, keeping),
        Answer::Reply(response) => render_response(alloc, response, bodiless, keeping),
    }
}

/// The text that answers a message which is refused.
#[tactic(auto, unfolding(crate::specs::DryReply::bad_request_text))]
pub fn bad_request_text(alloc: Global) -> Result<Bytes, NoMemory>
    ensures { IfOk result (λ text. text ≡ bad_request_text) }
{
    let response = bad_request(alloc)?;
    render_response(alloc, &response, false, Keeping::Close)
}

#[tactic(auto, unfolding(crate::specs::DryReply::bad_request))]
fn bad_request(alloc: Global) -> Result<Response, NoMemory>
    ensures { IfOk result (λ response. response ≡ bad_request) }
{
    message(alloc, 400, b"Bad request")
}

// A reply to HEAD has no body.
fn is_bodiless(request: &Request) -> bool
    ensures { result ≡ is_bodiless request.now }
{
    request.method.as_slice() == b"HEAD".as_slice()
}
