//! One request of the gateway, as it is answered.

ghost use Rattle.std.specs.Prelude.{◌≡◌, false, [], ◌∷◌, ◌++◌, None, IfOk, IsTrue, OnOk, option_map};
ghost use Rattle.std.specs.Arc.{arc_value};
ghost use Rattle.kg_context.specs.Echo.{echo_of};
ghost use Rattle.kg_context.specs.Given.{value_in};
ghost use Rattle.kg_context.specs.declared.upstream.UpRequest.{UpRequest as AMessage};
ghost use Rattle.kg_context.specs.declared.upstream.Upstream.TheVariants.{Answered};
ghost use Rattle.kg_limit.specs.declared.hit.Hit.{Hit as AHit};
ghost use Rattle.kg_row_types.specs.Values.{answers_key};
ghost use Rattle.kg_row_types.specs.declared.key.Key.{Key as AKey};
ghost use Rattle.kg_router.specs.Best.{best_choice};
ghost use Rattle.kg_upstream.specs.UpstreamMessage.{way_of};
ghost use Rattle.kg_course.specs.Wants.{IsReply, is_reply};
ghost use Rattle.kg_course.specs.declared.want.Want.TheVariants as AWant;
ghost use Rattle.kg_visit.specs.Told.{IsAsked, answer_of, begun, want_after, with_upstream, with_use, with_verdict};

use crate::next::{echo_at, first_want, renew_want, reply_at, stage_of};
use crate::stage::Stage;
use crate::used::Used;
use kg_context::{Given, Upstream};
use kg_course::{Moment, Want};
use kg_limit::Verdict;
use kg_message::{Request, Response};
use kg_plugin_table::PluginGen;
use kg_router::RouterGen;
use kg_row_types::key::Key;
use kg_text::{List, NoMemory, Text};
use kg_upstream::{Way, way_to};
use std::alloc::Global;
use std::marker::Model;
use std::mem;
use std::sync::Arc;

/// One request. Contracts see what it was told; what it wants is what the plain gateway lacks then.
///
/// It owns shares of the rows that it goes by, so it can be kept while its driver does something else. After
/// `NoMemory` it is lost, and to be dropped.
#[derive(Drop)]
pub struct Visit {
    router: Arc<RouterGen>,
    plugins: Arc<PluginGen>,
    moment: Moment,
    stage: Stage,
    given: Given,
    uses: List<Used>,
    verdicts: List<Verdict>,
    upstream: Option<Upstream>,
    want: Want,
    lost: bool,
}

impl Model for Visit {
    ghost use Rattle.std.specs.Arc.{arc_value};
    ghost use Rattle.kg_visit.specs.Told.{Told};
    ghost use Rattle.kg_visit.specs.Visits.{IsUnderWay, told_of};

    ghost Value = { Told };

    ghost view = { λ v. told_of (arc_value v.router) (arc_value v.plugins) v.stage v.moment v.uses v.verdicts v.upstream v.lost };

    ghost invariant = { λ v. IsUnderWay (told_of (arc_value v.router) (arc_value v.plugins) v.stage v.moment v.uses v.verdicts v.upstream v.lost) v.stage v.given v.want };
}

/// What a request has come to.
#[derive(Drop)]
pub struct Visited {
    pub response: Response,
    /// The keys that were asked, in the order asked, with their values.
    pub uses: List<Used>,
    pub verdicts: List<Verdict>,
    pub upstream: Option<Upstream>,
}

/// What a request was told that got no reply.
#[derive(Drop)]
pub struct GivenUp {
    /// The keys that were asked, in the order asked, with their values.
    pub uses: List<Used>,
    pub verdicts: List<Verdict>,
    pub upstream: Option<Upstream>,
}

impl Visit {
    /// A request that begins, over the rows of one router generation and one plugin generation. `now` is the clock
    /// in milliseconds, and `who` the worker's number.
    pub fn begin(
        alloc: Global,
        router: Arc<RouterGen>,
        plugins: Arc<PluginGen>,
        request: Request,
        now: u64,
        who: u32,
    ) -> Result<Visit, NoMemory>
        ensures { IfOk result (λ visit. visit ≡ begun (arc_value router) (arc_value plugins) request (record { time = now; who = who })) }
    {
        match way_to(alloc, &router, &request) {
            Ok(way) => Visit::begin_on(alloc, router, plugins, way, request, now, who),
            Err(e) => {
                drop((router, plugins, request)); // let go by name: a short proof
                Err(e)
            }
        }
    }

    /// The same, where the router was asked already: the way is that of the best route that takes the request.
    pub fn begin_on(
        alloc: Global,
        router: Arc<RouterGen>,
        plugins: Arc<PluginGen>,
        way: Option<Way>,
        request: Request,
        now: u64,
        who: u32,
    ) -> Result<Visit, NoMemory>
        requires best { way ≡ option_map (λ choice. way_of choice request) (best_choice (arc_value router).services (arc_value router).routes request) }
        ensures { IfOk result (λ visit. visit ≡ begun (arc_value router) (arc_value plugins) request (record { time = now; who = who })) }
    {
        let moment = Moment { time: now, who };
        let mut stage = stage_of(alloc, way, request)?;
        let want = first_want(alloc, &plugins, moment, &mut stage)?;
        Ok(Visit {
            router,
            plugins,
            moment,
            stage,
            given: Given::new(alloc),
            uses: List::new(alloc),
            verdicts: List::new(alloc),
            upstream: None,
            want,
            lost: false,
        })
    }

    /// What it wants.
    pub fn want(&self) -> &Want
        ensures { self.now.lost ≡ false → result.now ≡ want_after self.now }
    {
        &self.want
    }

    /// Is it answered?
    pub fn is_done(&self) -> bool
        ensures { self.now.lost ≡ false → result ≡ is_reply (want_after self.now) }
    {
        match &self.want {
            Want::Done(_) => true,
            Want::Entity(_) => false,
            Want::Count(_) => false,
            Want::Upstream(_) => false,
        }
    }

    /// Tells it the value of the key that it wants.
    pub fn give_entity(&mut self, alloc: Global, used: Used) -> Result<(), NoMemory>
        requires whole { self.old.lost ≡ false }
        requires wanted { want_after self.old ≡ AWant.Entity used.key }
        requires fits { IsTrue (answers_key used.key used.value) }
        ensures { OnOk result (self.new ≡ with_use used self.old) }
    {
        self.lost = true;
        let key = take_key(alloc, &mut self.want);
        keep(alloc, key, used, &mut self.given, &mut self.uses)?;
        renew_want(
            alloc,
            &self.plugins,
            self.moment,
            &self.given,
            &self.verdicts,
            &mut self.stage,
            &mut self.want,
        )?;
        self.lost = false;
        Ok(())
    }

    /// Tells it the verdict on the hit that it wants counted.
    pub fn give_verdict(&mut self, alloc: Global, verdict: Verdict) -> Result<(), NoMemory>
        requires whole { self.old.lost ≡ false }
        requires wanted { (hit : AHit) × (want_after self.old ≡ AWant.Count hit) }
        ensures { OnOk result (self.new ≡ with_verdict verdict self.old) }
    {
        self.lost = true;
        self.verdicts.push(verdict)?;
        renew_want(
            alloc,
            &self.plugins,
            self.moment,
            &self.given,
            &self.verdicts,
            &mut self.stage,
            &mut self.want,
        )?;
        self.lost = false;
        Ok(())
    }

    /// Tells it the answer to the message that it wants to send.
    pub fn give_upstream(&mut self, alloc: Global, upstream: Upstream) -> Result<(), NoMemory>
        requires whole { self.old.lost ≡ false }
        requires wanted { (message : AMessage) × (want_after self.old ≡ AWant.Upstream message) }
        ensures { OnOk result (self.new ≡ with_upstream upstream self.old) }
    {
        self.lost = true;
        let reply = reply_at(alloc, &self.plugins, &self.verdicts, &self.stage, &upstream);
        // let go by name: a short proof
        drop(self.upstream.replace(upstream));
        drop(mem::replace(&mut self.want, Want::Done(reply?)));
        self.lost = false;
        Ok(())
    }

    /// The reply, and what it was told on the way.
    pub fn finish(self) -> Visited
        requires whole { self.lost ≡ false }
        requires done { IsReply (want_after self) }
        ensures reply { want_after self ≡ AWant.Done result.response }
        ensures uses { result.uses ≡ self.uses }
        ensures verdicts { result.verdicts ≡ self.verdicts }
        ensures upstream { result.upstream ≡ self.upstream }
        ensures in_order { IsAsked self.asked result.uses result.verdicts result.upstream }
    {
        let Visit {
            router,
            plugins,
            stage,
            given,
            uses,
            verdicts,
            upstream,
            want,
            ..
        } = self;
        // let go by name: a short proof
        drop((router, plugins, stage, given));
        match want {
            Want::Done(response) => Visited {
                response,
                uses,
                verdicts,
                upstream,
            },
            Want::Entity(_) => unreachable!(),
            Want::Count(_) => unreachable!(),
            Want::Upstream(_) => unreachable!(),
        }
    }

    /// The reply with the echo as the upstream, where it wants an upstream's answer. The message becomes the
    /// echo's body without a copy, and nothing is kept of what it was told.
    pub fn finish_by_echo(self, alloc: Global) -> Result<Response, NoMemory>
        requires whole { self.lost ≡ false }
        requires wanted { (message : AMessage) × (want_after self ≡ AWant.Upstream message) }
        ensures { IfOk result (λ reply. (message : AMessage) → want_after self ≡ AWant.Upstream message
            → want_after (with_upstream (Answered (echo_of message.bytes)) self) ≡ AWant.Done reply) }
    {
        let Visit {
            router,
            plugins,
            stage,
            given,
            uses,
            verdicts,
            upstream,
            want,
            ..
        } = self;
        // let go by name: a short proof
        drop((router, given, uses, upstream));
        match want {
            Want::Upstream(message) => {
                let reply = echo_at(alloc, &plugins, &verdicts, &stage, message.bytes);
                drop((plugins, stage, verdicts));
                reply
            }
            Want::Entity(_) => unreachable!(),
            Want::Count(_) => unreachable!(),
            Want::Done(_) => unreachable!(),
        }
    }

    /// What it was told, where it is to get no reply of its own.
    pub fn give_up(self) -> GivenUp
        requires whole { self.lost ≡ false }
        ensures uses { result.uses ≡ self.uses }
        ensures verdicts { result.verdicts ≡ self.verdicts }
        ensures upstream { result.upstream ≡ self.upstream }
        ensures in_order { IsAsked self.asked result.uses result.verdicts result.upstream }
    {
        let Visit {
            router,
            plugins,
            stage,
            given,
            uses,
            verdicts,
            upstream,
            want,
            ..
        } = self;
        // let go by name: a short proof
        drop((router, plugins, stage, given));
        drop(want);
        GivenUp {
            uses,
            verdicts,
            upstream,
        }
    }
}

// Takes out the key that is wanted, before the want is written anew.
fn take_key(alloc: Global, want: &mut Want) -> Key
    requires { (key : AKey) × (want.old ≡ AWant.Entity key) }
    ensures { want.old ≡ AWant.Entity result }
{
    match want {
        Want::Entity(key) => mem::replace(key, Key::Cred(Text::new(alloc))),
        Want::Count(_) => unreachable!(),
        Want::Upstream(_) => unreachable!(),
        Want::Done(_) => unreachable!(),
    }
}

// Keeps the value of a key, for the plugins and for the trace.
fn keep(
    alloc: Global,
    key: Key,
    used: Used,
    given: &mut Given,
    uses: &mut List<Used>,
) -> Result<(), NoMemory>
    requires same { key ≡ used.key }
    requires new { value_in given.old used.key ≡ None }
    requires fits { IsTrue (answers_key used.key used.value) }
    ensures given { OnOk result (given.new ≡ given.old ++ answer_of used ∷ []) }
    ensures uses { OnOk result (uses.new ≡ uses.old ++ used ∷ []) }
{
    given.add(alloc, key, Arc::try_clone(&used.value)?)?;
    uses.push(used)
}
