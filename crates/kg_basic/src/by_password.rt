//! basic-auth: the name and password in the field Authorization.

ghost use Rattle.std.specs.Prelude.{◌≡◌, IfOk, OnOk};
ghost use Rattle.kg_context.specs.Given.{value_in};
ghost use Rattle.kg_context.specs.Rule.{KeepsWhereAsked, access, after_step};
ghost use Rattle.kg_auth.specs.Authentication.{basic_cred_in};
ghost use Rattle.kg_auth.specs.Senders.{Finds};
ghost use Rattle.kg_basic.specs.BasicAuth.{basic_auth, hidden, of_credential, of_login, of_username};
ghost use Rattle.kg_basic.specs.Logins.{login_of};

use crate::login::{Login, login_of};
use crate::password::is_password_of;
use kg_auth::{KnownBy, Search, admit, authenticate, basic_cred_in, fail};
use kg_context::{AccessStep, Given, ReqCtx};
use kg_message::Headers;
use kg_row_types::config::BasicAuth;
use kg_row_types::key::Key;
use kg_row_types::value::Value;
use kg_text::{NoMemory, Text, TryClone};
use std::alloc::Global;

/// Runs the plugin in access: the name and password tell the request's consumer. It asks for the credential with the
/// name, then for its consumer; for the anonymous consumer, where it fails and one is named. After `NoMemory` the
/// context is to be dropped.
pub fn basic_auth(
    alloc: Global,
    config: &BasicAuth,
    ctx: &mut ReqCtx,
    given: &Given,
) -> Result<AccessStep, NoMemory>
    ensures step { IfOk result (λ step. access (basic_auth config.now ctx.old) (value_in given.now) ≡ after_step step ctx.new) }
    ensures kept { IfOk result (λ step. KeepsWhereAsked ctx.old step ctx.new) }
    ensures same { OnOk result (ctx.new.request ≡ ctx.old.request) }
{
    if config.anonymous.is_some() && ctx.credential.is_some() {
        return Ok(AccessStep::Pass);
    }
    match search(alloc, &config.anonymous, &ctx.request.headers, given)? {
        Search::Asks(key) => Ok(AccessStep::Ask(key)),
        Search::Found(sender) => {
            hide_credentials(config, ctx);
            admit(alloc, "Basic realm=\"service\"", sender, ctx)
        }
    }
}

fn search<'a>(
    alloc: Global,
    anonymous: &Option<Text>,
    headers: &Headers,
    given: &'a Given,
) -> Result<Search<'a>, NoMemory>
    ensures { IfOk result (λ search. Finds (of_login anonymous.now (login_of headers.now)) given.now search) }
{
    match login_of(alloc, headers)? {
        Some(login) => search_by_username(alloc, anonymous, login, given),
        None => fail(alloc, anonymous, "Unauthorized", given),
    }
}

fn search_by_username<'a>(
    alloc: Global,
    anonymous: &Option<Text>,
    login: Login,
    given: &'a Given,
) -> Result<Search<'a>, NoMemory>
    ensures { IfOk result (λ search. Finds (of_username anonymous.now login) given.now search) }
{
    let Login { username, password } = login;
    let key = Key::Basic(username);
    match given.get(&key) {
        None => Ok(Search::Asks(key)),
        Some(value) => search_by_credential(alloc, anonymous, password.as_bytes(), value, given),
    }
}

fn search_by_credential<'a>(
    alloc: Global,
    anonymous: &Option<Text>,
    password: &[u8],
    value: &'a Value,
    given: &'a Given,
) -> Result<Search<'a>, NoMemory>
    ensures { IfOk result (λ search. Finds (of_credential anonymous.now password.now (basic_cred_in value.now)) given.now search) }
{
    if let Some(credential) = basic_cred_in(value)
        && is_password_of(alloc, credential, password)?
    {
        authenticate(alloc, anonymous, KnownBy::Basic(credential), given)
    } else {
        fail(alloc, anonymous, "Unauthorized", given)
    }
}

// Hides the fields Authorization from the upstream, where the plugin is told so.
fn hide_credentials(config: &BasicAuth, ctx: &mut ReqCtx)
    ensures { ctx.new ≡ hidden config.now ctx.old }
{
    if config.hide_credentials {
        ctx.headers.remove(b"authorization");
    }
}
