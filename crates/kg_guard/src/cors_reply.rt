//! cors in header_filter: who may read the reply.

ghost use Rattle.std.specs.Prelude.{◌≡◌, ◌++◌, IsTrue, OnOk, codes, decimal, option_map};
ghost use Rattle.std.specs.List.{list_any};
ghost use Rattle.std.specs.Option.{option_or};
ghost use Rattle.std.specs.Str.{bytes_eq, str_to_ascii_lowercase};
ghost use Rattle.kg_text.specs.Names.{is_token};
ghost use Rattle.kg_message.specs.HeaderLists.{first_value};
ghost use Rattle.kg_context.specs.Fields.{joined, set_field};
ghost use Rattle.kg_guard.specs.CorsHeaders.{Everyone, Only, allowed_at, allowed_origin, comma_list, cors_fields, cors_headers, credentials_fields, further_fields, has_any, one_origin, origin_fields, own_origin, preflight_fields};

use itoa::Buffer;
use kg_context::{ReqCtx, add_field, joined};
use kg_message::{Headers, Request, Response};
use kg_row_types::config::Cors;
use kg_text::{NoMemory, Text};
use std::alloc::Global;

/// Who may read a reply.
#[derive(Clone, Copy)]
pub enum Allowed<'a> {
    /// Every origin.
    Everyone,
    /// This origin.
    Only(&'a [u8]),
    /// No other origin.
    Nobody,
}

/// Adds what browsers are told of other origins, behind the reply's own fields. After `NoMemory` the reply is to
/// be dropped.
pub fn cors_headers(
    alloc: Global,
    config: &Cors,
    ctx: &ReqCtx,
    response: &mut Response,
) -> Result<(), NoMemory>
    ensures { OnOk result (response.new ≡ cors_headers config.now ctx.now response.old) }
{
    add_cors_fields(alloc, &mut response.headers, config, ctx)
}

fn add_cors_fields(
    alloc: Global,
    headers: &mut Headers,
    config: &Cors,
    ctx: &ReqCtx,
) -> Result<(), NoMemory>
    ensures { OnOk result (headers.new ≡ headers.old ++ cors_fields config.now ctx.now) }
{
    match allowed_origin(config, &ctx.request) {
        Allowed::Nobody => Ok(()),
        Allowed::Everyone => {
            add_any_origin(alloc, headers)?;
            add_further(alloc, headers, config, ctx)
        }
        Allowed::Only(origin) => {
            add_one_origin(alloc, headers, origin)?;
            add_further(alloc, headers, config, ctx)
        }
    }
}

fn add_any_origin(alloc: Global, headers: &mut Headers) -> Result<(), NoMemory>
    ensures { OnOk result (headers.new ≡ headers.old ++ origin_fields Everyone) }
{
    add_field(alloc, headers, b"access-control-allow-origin", b"*")
}

fn add_one_origin(alloc: Global, headers: &mut Headers, origin: &[u8]) -> Result<(), NoMemory>
    ensures { OnOk result (headers.new ≡ headers.old ++ origin_fields (Only origin.now)) }
{
    add_field(alloc, headers, b"access-control-allow-origin", origin)?;
    add_field(alloc, headers, b"vary", b"Origin")
}

// ---- who may read the reply

fn allowed_origin<'a>(config: &'a Cors, request: &'a Request) -> Allowed<'a>
    ensures { allowed_at result ≡ allowed_origin config.now request.now }
{
    if has_any(config) && !config.credentials {
        Allowed::Everyone
    } else {
        one_origin(config, request)
    }
}

// The one origin that there is, whatever the request's; else the request's.
fn one_origin<'a>(config: &'a Cors, request: &'a Request) -> Allowed<'a>
    ensures { allowed_at result ≡ one_origin config.now request.now config.now.origins }
{
    match config.origins.as_slice() {
        [origin] => {
            if origin.as_bytes() == b"*".as_slice() {
                own_origin(config, request)
            } else {
                Allowed::Only(origin.as_bytes())
            }
        }
        _ => own_origin(config, request),
    }
}

// The request's origin, where the origins have it or `*`.
fn own_origin<'a>(config: &'a Cors, request: &'a Request) -> Allowed<'a>
    ensures { allowed_at result ≡ own_origin config.now (first_value (codes "origin") request.now.headers) }
{
    match request.headers.first(b"origin") {
        Some(origin) => {
            if has_any(config) || has_origin(config.origins.as_slice(), origin) {
                Allowed::Only(origin)
            } else {
                Allowed::Nobody
            }
        }
        None => Allowed::Nobody,
    }
}

// Have the origins `*`? So they have where none are set.
fn has_any(config: &Cors) -> bool
    ensures { result ≡ has_any config.now }
{
    config.origins.is_empty() || has_origin(config.origins.as_slice(), b"*")
}

fn has_origin(origins: &[Text], origin: &[u8]) -> bool
    ensures { result ≡ list_any (bytes_eq origin.now) origins.now }
{
    origins.iter().any(|one| origin == one.as_bytes())
}

// ---- further fields

fn add_further(
    alloc: Global,
    headers: &mut Headers,
    config: &Cors,
    ctx: &ReqCtx,
) -> Result<(), NoMemory>
    ensures { OnOk result (headers.new ≡ headers.old ++ further_fields config.now ctx.now) }
{
    add_credentials(alloc, headers, config.credentials)?;
    if ctx.preflight {
        add_preflight(alloc, headers, config, &ctx.request)
    } else {
        add_list(
            alloc,
            headers,
            b"access-control-expose-headers",
            config.exposed_headers.as_slice(),
        )
    }
}

fn add_credentials(alloc: Global, headers: &mut Headers, credentials: bool) -> Result<(), NoMemory>
    ensures { OnOk result (headers.new ≡ headers.old ++ credentials_fields credentials) }
{
    if credentials {
        add_field(alloc, headers, b"access-control-allow-credentials", b"true")
    } else {
        Ok(())
    }
}

fn add_preflight(
    alloc: Global,
    headers: &mut Headers,
    config: &Cors,
    request: &Request,
) -> Result<(), NoMemory>
    ensures { OnOk result (headers.new ≡ headers.old ++ preflight_fields config.now request.now) }
{
    let methods = joined(alloc, b",", config.methods.as_slice())?;
    add_field(
        alloc,
        headers,
        b"access-control-allow-methods",
        methods.as_slice(),
    )?;
    add_allowed_headers(alloc, headers, config.headers.as_slice(), request)?;
    add_max_age(alloc, headers, config.max_age)
}

// The headers that are set, or those that the request asks for, if it does.
fn add_allowed_headers(
    alloc: Global,
    headers: &mut Headers,
    allowed: &[Text],
    request: &Request,
) -> Result<(), NoMemory>
    ensures { OnOk result (headers.new ≡ headers.old ++ set_field (codes "access-control-allow-headers")
        (option_or (comma_list allowed.now) (first_value (codes "access-control-request-headers") request.now.headers))) }
{
    if allowed.is_empty() {
        add_asked_headers(alloc, headers, request)
    } else {
        add_list(alloc, headers, b"access-control-allow-headers", allowed)
    }
}

fn add_asked_headers(
    alloc: Global,
    headers: &mut Headers,
    request: &Request,
) -> Result<(), NoMemory>
    ensures { OnOk result (headers.new ≡ headers.old ++ set_field (codes "access-control-allow-headers")
        (first_value (codes "access-control-request-headers") request.now.headers)) }
{
    match request.headers.first(b"access-control-request-headers") {
        Some(asked) => add_field(alloc, headers, b"access-control-allow-headers", asked),
        None => Ok(()),
    }
}

fn add_max_age(alloc: Global, headers: &mut Headers, max_age: Option<u64>) -> Result<(), NoMemory>
    ensures { OnOk result (headers.new ≡ headers.old ++ set_field (codes "access-control-max-age") (option_map decimal max_age)) }
{
    match max_age {
        Some(seconds) => add_field(
            alloc,
            headers,
            b"access-control-max-age",
            Buffer::new().format(seconds).as_bytes(),
        ),
        None => Ok(()),
    }
}

// The texts joined by commas, if some are set.
fn add_list(
    alloc: Global,
    headers: &mut Headers,
    name: &[u8],
    texts: &[Text],
) -> Result<(), NoMemory>
    requires { IsTrue (is_token name.now) }
    ensures { OnOk result (headers.new ≡ headers.old ++ set_field (str_to_ascii_lowercase name.now) (comma_list texts.now)) }
{
    if texts.is_empty() {
        return Ok(());
    }
    let value = joined(alloc, b",", texts)?;
    add_field(alloc, headers, name, value.as_slice())
}
