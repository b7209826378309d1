//! Who sent a request, by the values that it was given, and what becomes of the request.

ghost use Rattle.std.specs.Prelude.{◌≡◌, ℕ, List as Sequence, IfOk, Ok, OnOk};
ghost use Rattle.std.specs.Option.{option_copied};
ghost use Rattle.kg_context.specs.Rule.{KeepsWhereAsked, after_step};
ghost use Rattle.kg_context.specs.declared.context.ReqCtx.{ReqCtx as Context};
ghost use Rattle.kg_auth.specs.Authentication.{authenticated, basic_cred_in, consumer_in, failed, key_cred_in, owner_of, stood_for, unauthorized};
ghost use Rattle.kg_auth.specs.Senders.{Finds, admitted, credential_at};

use kg_context::{AccessStep, Credential, Given, ReqCtx, add_field, set_consumer};
use kg_message::{Response, message};
use kg_row_types::consumer::{BasicCred, Consumer, KeyCred};
use kg_row_types::id::Id;
use kg_row_types::key::Key;
use kg_row_types::value::Value;
use kg_text::{NoMemory, Text, TryClone};
use std::alloc::Global;

/// What a consumer is known by.
#[derive(Clone, Copy)]
pub enum KnownBy<'a> {
    /// This key.
    Key(&'a KeyCred),
    /// This name and password.
    Basic(&'a BasicCred),
}

impl KnownBy<'_> {
    // The id of the consumer whose credential it is.
    fn owner(self) -> Id
        ensures { result ≡ owner_of (credential_at self.entry) }
    {
        match self {
            KnownBy::Key(credential) => credential.consumer,
            KnownBy::Basic(credential) => credential.consumer,
        }
    }

    fn copy(self, alloc: Global) -> Result<Credential, NoMemory>
        ensures { IfOk result (λ credential. credential ≡ credential_at self.entry) }
    {
        match self {
            KnownBy::Key(credential) => Ok(Credential::Key(credential.try_clone(alloc)?)),
            KnownBy::Basic(credential) => Ok(Credential::Basic(credential.try_clone(alloc)?)),
        }
    }
}

/// Who sent a request.
#[derive(Drop)]
pub enum Sender<'a> {
    /// The consumer whose credential it is.
    Known(&'a Consumer, KnownBy<'a>),
    /// The consumer that stands for requests that fail.
    Anonymous(&'a Consumer),
    /// Nobody, for this reason.
    Unknown(&'static str),
}

/// How far a search for the sender came.
#[derive(Drop)]
pub enum Search<'a> {
    /// It can't go on without the value of this key.
    Asks(Key),
    /// It came to its end.
    Found(Sender<'a>),
}

/// Goes on with a credential: its consumer is the sender.
pub fn authenticate<'a>(
    alloc: Global,
    anonymous: &Option<Text>,
    credential: KnownBy<'a>,
    given: &'a Given,
) -> Result<Search<'a>, NoMemory>
    ensures { IfOk result (λ search. Finds (authenticated anonymous.now (credential_at credential.entry)) given.now search) }
{
    let key = Key::Consumer(credential.owner());
    match given.get(&key) {
        None => Ok(Search::Asks(key)),
        Some(value) => match consumer_in(value) {
            Some(consumer) => Ok(Search::Found(Sender::Known(consumer, credential))),
            None => fail(alloc, anonymous, "Unauthorized", given),
        },
    }
}

/// Fails for this reason: the sender is the anonymous consumer, if there is one, and else nobody.
pub fn fail<'a>(
    alloc: Global,
    anonymous: &Option<Text>,
    reason: &'static str,
    given: &'a Given,
) -> Result<Search<'a>, NoMemory>
    ensures { IfOk result (λ search. Finds (failed anonymous.now reason.now) given.now search) }
{
    match anonymous {
        None => Ok(Search::Found(Sender::Unknown(reason))),
        Some(name) => {
            let key = Key::Named(name.try_clone(alloc)?);
            match given.get(&key) {
                None => Ok(Search::Asks(key)),
                Some(value) => Ok(Search::Found(anonymous_sender(value))),
            }
        }
    }
}

fn anonymous_sender(value: &Value) -> Sender<'_>
    ensures { (challenge : Sequence ℕ) (ctx : Context) → stood_for (consumer_in value.now) challenge ctx ≡ admitted challenge result ctx }
{
    match consumer_in(value) {
        Some(consumer) => Sender::Anonymous(consumer),
        None => Sender::Unknown("Unauthorized"),
    }
}

/// Makes the request its sender's, or ends it with 401 and the challenge. After `NoMemory` the context is to be
/// dropped.
pub fn admit(
    alloc: Global,
    challenge: &str,
    sender: Sender<'_>,
    ctx: &mut ReqCtx,
) -> Result<AccessStep, NoMemory>
    ensures step { IfOk result (λ step. after_step step ctx.new ≡ Ok (admitted challenge.now sender.entry ctx.old)) }
    ensures kept { IfOk result (λ step. (before : Context) → KeepsWhereAsked before step ctx.new) }
    ensures same { OnOk result (ctx.new.request ≡ ctx.old.request) }
{
    match sender {
        Sender::Known(consumer, credential) => {
            let credential = credential.copy(alloc)?;
            set_consumer(alloc, ctx, consumer, Some(credential))?;
            Ok(AccessStep::Pass)
        }
        Sender::Anonymous(consumer) => {
            set_consumer(alloc, ctx, consumer, None)?;
            Ok(AccessStep::Pass)
        }
        Sender::Unknown(reason) => Ok(AccessStep::End(unauthorized(alloc, challenge, reason)?)),
    }
}

fn unauthorized(alloc: Global, challenge: &str, reason: &str) -> Result<Response, NoMemory>
    ensures { IfOk result (λ reply. reply ≡ unauthorized challenge.now reason.now) }
{
    let mut reply = message(alloc, 401, reason.as_bytes())?;
    add_field(
        alloc,
        &mut reply.headers,
        b"www-authenticate",
        challenge.as_bytes(),
    )?;
    Ok(reply)
}

// ---- what a value tells

fn consumer_in(value: &Value) -> Option<&Consumer>
    ensures { option_copied result ≡ consumer_in value.now }
{
    match value {
        Value::Consumer(found) => found.as_ref(),
        _ => None,
    }
}

/// The credential with a key that the value tells.
pub fn key_cred_in(value: &Value) -> Option<&KeyCred>
    ensures { option_copied result ≡ key_cred_in value.now }
{
    match value {
        Value::Cred(found) => found.as_ref(),
        _ => None,
    }
}

/// The credential with a password that the value tells.
pub fn basic_cred_in(value: &Value) -> Option<&BasicCred>
    ensures { option_copied result ≡ basic_cred_in value.now }
{
    match value {
        Value::Basic(found) => found.as_ref(),
        _ => None,
    }
}
