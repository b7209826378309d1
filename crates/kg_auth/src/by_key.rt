//! key-auth: a key that stands in a header or in the query.

ghost use Rattle.std.specs.Prelude.{◌≡◌, IfOk, OnOk, option_map};
ghost use Rattle.std.specs.Option.{option_copied};
ghost use Rattle.kg_context.specs.Given.{value_in};
ghost use Rattle.kg_context.specs.Rule.{KeepsWhereAsked, access, after_step};
ghost use Rattle.kg_auth.specs.Authentication.{key_cred_in};
ghost use Rattle.kg_auth.specs.KeyAuth.{hidden, key_auth, of_credential, of_key, of_text, of_value, of_values};
ghost use Rattle.kg_auth.specs.KeyPlaces.{place_at, values_at};
ghost use Rattle.kg_auth.specs.Senders.{Finds};

use crate::key_place::{Place, hide, key_place, single_at};
use crate::sender::{KnownBy, Search, admit, authenticate, fail, key_cred_in};
use kg_context::{AccessStep, Given, ReqCtx};
use kg_row_types::config::KeyAuth;
use kg_row_types::key::Key;
use kg_row_types::value::Value;
use kg_text::{NoMemory, Text};
use std::alloc::Global;
use std::str::from_utf8;

/// Runs the plugin in access (Kong Gateway manual, "Key Authentication"): the request's key tells its consumer.
/// It asks for the credential with the key, then for its consumer; for the anonymous consumer, where it fails and
/// one is named. Without one a request that fails ends with 401. After `NoMemory` the context is to be dropped.
pub fn key_auth(
    alloc: Global,
    config: &KeyAuth,
    ctx: &mut ReqCtx,
    given: &Given,
) -> Result<AccessStep, NoMemory>
    ensures step { IfOk result (λ step. access (key_auth config.now ctx.old) (value_in given.now) ≡ after_step step ctx.new) }
    ensures kept { IfOk result (λ step. KeepsWhereAsked ctx.old step ctx.new) }
    ensures same { OnOk result (ctx.new.request ≡ ctx.old.request) }
{
    if config.anonymous.is_some() && ctx.credential.is_some() {
        return Ok(AccessStep::Pass);
    }
    let place = key_place(config, ctx);
    match search(alloc, config, &place, ctx, given)? {
        Search::Asks(key) => Ok(AccessStep::Ask(key)),
        Search::Found(sender) => {
            hide_key(config, &place, ctx);
            admit(alloc, "Key", sender, ctx)
        }
    }
}

fn search<'a>(
    alloc: Global,
    config: &KeyAuth,
    place: &Option<Place<'_>>,
    ctx: &ReqCtx,
    given: &'a Given,
) -> Result<Search<'a>, NoMemory>
    ensures { IfOk result (λ search. Finds (of_values config.now.anonymous (option_map (values_at ctx.now) (option_map place_at place.now))) given.now search) }
{
    match place {
        None => fail(
            alloc,
            &config.anonymous,
            "No API key found in request",
            given,
        ),
        Some(place) => search_at(alloc, &config.anonymous, single_at(place, ctx), given),
    }
}

// By the value at the key's place, where there is just one.
fn search_at<'a>(
    alloc: Global,
    anonymous: &Option<Text>,
    value: Option<&[u8]>,
    given: &'a Given,
) -> Result<Search<'a>, NoMemory>
    ensures { IfOk result (λ search. Finds (of_value anonymous.now (option_copied value.entry)) given.now search) }
{
    match value {
        None => fail(alloc, anonymous, "Duplicate API key found", given),
        Some(text) => search_by_key(alloc, anonymous, text, given),
    }
}

fn search_by_key<'a>(
    alloc: Global,
    anonymous: &Option<Text>,
    key: &[u8],
    given: &'a Given,
) -> Result<Search<'a>, NoMemory>
    ensures { IfOk result (λ search. Finds (of_key anonymous.now key.now) given.now search) }
{
    if key.is_empty() {
        return fail(alloc, anonymous, "No API key found in request", given);
    }
    match from_utf8(key) {
        Ok(text) => search_by_text(alloc, anonymous, text, given),
        Err(_) => fail(alloc, anonymous, "Unauthorized", given),
    }
}

fn search_by_text<'a>(
    alloc: Global,
    anonymous: &Option<Text>,
    text: &str,
    given: &'a Given,
) -> Result<Search<'a>, NoMemory>
    ensures { IfOk result (λ search. Finds (of_text anonymous.now text.now) given.now search) }
{
    match given.get_cred(text) {
        None => Ok(Search::Asks(Key::Cred(Text::from_str(alloc, text)?))),
        Some(value) => search_by_credential(alloc, anonymous, value, given),
    }
}

fn search_by_credential<'a>(
    alloc: Global,
    anonymous: &Option<Text>,
    value: &'a Value,
    given: &'a Given,
) -> Result<Search<'a>, NoMemory>
    ensures { IfOk result (λ search. Finds (of_credential anonymous.now (key_cred_in value.now)) given.now search) }
{
    match key_cred_in(value) {
        Some(credential) => authenticate(alloc, anonymous, KnownBy::Key(credential), given),
        None => fail(alloc, anonymous, "Unauthorized", given),
    }
}

// Hides the key from the upstream, where the plugin is told so.
fn hide_key(config: &KeyAuth, place: &Option<Place<'_>>, ctx: &mut ReqCtx)
    ensures { ctx.new ≡ hidden config.now (option_map place_at place.now) ctx.old }
{
    if config.hide_credentials
        && let Some(place) = place
    {
        hide(place, ctx);
    }
}
