//! What the client is told of its limits.

ghost use Rattle.std.specs.Prelude.{◌≡◌, ◌++◌, ◌∷◌, [], IfOk, IsTrue, OnOk, codes, decimal, flat_map, map, zip};
ghost use Rattle.std.specs.Str.{str_to_ascii_lowercase};
ghost use Rattle.kg_text.specs.Names.{is_token};
ghost use Rattle.kg_context.specs.Fields.{field};
ghost use Rattle.kg_limit.specs.LimitHeaders.{limit_fields, limit_headers, quota_fields, quota_of, retry_fields, tightest_fields};
ghost use Rattle.kg_limit.specs.Refusal.{refusal};
ghost use Rattle.kg_limit.specs.WindowTimes.{window_name};

use crate::hit::{Hit, Verdict};
use crate::quota::{Quota, tightest};
use crate::window::Window;
use itoa::Buffer;
use kg_context::add_field;
use kg_message::{Headers, Response, message};
use kg_text::NoMemory;
use std::alloc::Global;

/// The reply to a request that isn't let through. It tells nothing of the limits: `limit_headers` does.
pub fn refusal(alloc: Global) -> Result<Response, NoMemory>
    ensures { IfOk result (λ response. response ≡ refusal) }
{
    message(alloc, 429, b"API rate limit exceeded")
}

/// Adds what the client is told of its limits, behind the reply's own fields: each limit and what is left of it,
/// then the limit with the least left and when its window ends, and for a refusal when to try again. After
/// `NoMemory` the reply is to be dropped.
pub fn limit_headers(
    alloc: Global,
    hit: &Hit,
    verdict: &Verdict,
    response: &mut Response,
) -> Result<(), NoMemory>
    ensures { OnOk result (response.new ≡ limit_headers hit.entry.now verdict.now response.old) }
{
    add_limit_fields(alloc, &mut response.headers, hit, verdict)
}

fn add_limit_fields(
    alloc: Global,
    headers: &mut Headers,
    hit: &Hit,
    verdict: &Verdict,
) -> Result<(), NoMemory>
    ensures { OnOk result (headers.new ≡ headers.old ++ limit_fields hit.entry.now verdict.now) }
{
    let limits = hit.limits.as_slice();
    let left = verdict.left.as_slice();
    add_quotas(alloc, headers, limits, left)?;
    match tightest(limits, left) {
        Some(quota) => add_tightest(alloc, headers, &quota, verdict),
        None => Ok(()),
    }
}

// ---- each limit

fn add_quotas(
    alloc: Global,
    headers: &mut Headers,
    limits: &[(Window, u64)],
    left: &[(Window, u64)],
) -> Result<(), NoMemory>
    ensures { OnOk result (headers.new ≡ headers.old ++ flat_map quota_fields (map quota_of (zip limits.now left.now))) }
{
    for (limit, left) in limits.iter().zip(left) {
        add_quota(alloc, headers, &Quota::of(limit, left))?;
    }
    Ok(())
}

fn add_quota(alloc: Global, headers: &mut Headers, quota: &Quota) -> Result<(), NoMemory>
    ensures { OnOk result (headers.new ≡ headers.old ++ quota_fields quota.now) }
{
    add_number(alloc, headers, limit_name(quota.window), quota.limit)?;
    add_number(alloc, headers, remaining_name(quota.window), quota.left)
}

fn limit_name(window: Window) -> &'static [u8]
    ensures name { result.now ≡ codes "x-ratelimit-limit-" ++ window_name window }
    ensures token { IsTrue (is_token result.now) }
    ensures lower { str_to_ascii_lowercase result.now ≡ result.now }
{
    match window {
        Window::Second => b"x-ratelimit-limit-second",
        Window::Minute => b"x-ratelimit-limit-minute",
        Window::Hour => b"x-ratelimit-limit-hour",
        Window::Day => b"x-ratelimit-limit-day",
    }
}

fn remaining_name(window: Window) -> &'static [u8]
    ensures name { result.now ≡ codes "x-ratelimit-remaining-" ++ window_name window }
    ensures token { IsTrue (is_token result.now) }
    ensures lower { str_to_ascii_lowercase result.now ≡ result.now }
{
    match window {
        Window::Second => b"x-ratelimit-remaining-second",
        Window::Minute => b"x-ratelimit-remaining-minute",
        Window::Hour => b"x-ratelimit-remaining-hour",
        Window::Day => b"x-ratelimit-remaining-day",
    }
}

// ---- the tightest limit

fn add_tightest(
    alloc: Global,
    headers: &mut Headers,
    quota: &Quota,
    verdict: &Verdict,
) -> Result<(), NoMemory>
    ensures { OnOk result (headers.new ≡ headers.old ++ tightest_fields verdict.now quota.now) }
{
    let seconds = quota.window.seconds_left(verdict.time);
    add_number(alloc, headers, b"ratelimit-limit", quota.limit)?;
    add_number(alloc, headers, b"ratelimit-remaining", quota.left)?;
    add_number(alloc, headers, b"ratelimit-reset", seconds)?;
    add_retry(alloc, headers, verdict.let_through, seconds)
}

// Tells a refused request when to come again.
fn add_retry(
    alloc: Global,
    headers: &mut Headers,
    let_through: bool,
    seconds: u64,
) -> Result<(), NoMemory>
    ensures { OnOk result (headers.new ≡ headers.old ++ retry_fields let_through seconds) }
{
    if let_through {
        Ok(())
    } else {
        add_number(alloc, headers, b"retry-after", seconds)
    }
}

fn add_number(
    alloc: Global,
    headers: &mut Headers,
    name: &[u8],
    number: u64,
) -> Result<(), NoMemory>
    requires { IsTrue (is_token name.now) }
    ensures { OnOk result (headers.new ≡ headers.old ++ field (str_to_ascii_lowercase name.now) (decimal number) ∷ []) }
{
    add_field(
        alloc,
        headers,
        name,
        Buffer::new().format(number).as_bytes(),
    )
}
