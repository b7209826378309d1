//! Requests that are counted, and verdicts on them.

ghost use Rattle.std.specs.Prelude.{◌≡◌, ◌+◌, ◌<◌, ◌≤◌, ◌++◌, IfOk, length};
ghost use Rattle.kg_limit.specs.Hits.{hit_of, limit_in, limits_of};

use crate::identity::identity_of;
use crate::limits::Limits;
use crate::window::Window;
use kg_context::ReqCtx;
use kg_row_types::config::RateLimiting;
use kg_row_types::id::Id;
use kg_text::{Bytes, NoMemory};
use std::alloc::Global;

/// A request that is to be counted.
#[derive(Drop)]
pub struct Hit {
    /// The id of the plugin row that counts it.
    pub row: Id,
    /// With which requests it is counted together.
    pub identity: Bytes,
    /// How many requests may come in which windows, from the shortest on.
    pub limits: Limits,
    /// The clock's reading in milliseconds.
    pub now: u64,
    /// The worker's number.
    pub who: u32,
}

/// What is judged of a hit.
#[derive(Drop)]
pub struct Verdict {
    /// The number of hits up to this one.
    pub place: u64,
    /// The hit's time in milliseconds: its reading, or the time of the hit before, where that is later.
    pub time: u64,
    pub let_through: bool,
    /// How many further requests may come in each window.
    pub left: Limits,
}

/// The hit of a request at the row of a plugin. `now` is the clock's reading in milliseconds, `who` the number of
/// the worker.
pub fn hit_of(
    alloc: Global,
    config: &RateLimiting,
    row: Id,
    ctx: &ReqCtx,
    now: u64,
    who: u32,
) -> Result<Hit, NoMemory>
    ensures { IfOk result (λ hit. hit ≡ hit_of config.now row ctx.now now who) }
{
    let identity = identity_of(alloc, config.limit_by, ctx)?;
    Ok(Hit {
        row,
        identity,
        limits: limits_of(config),
        now,
        who,
    })
}

// The limits that are set, from the shortest window on.
fn limits_of(config: &RateLimiting) -> Limits
    ensures { result ≡ limits_of config.now }
{
    let mut limits = Limits::new();
    add_limit(&mut limits, Window::Second, config.second);
    add_limit(&mut limits, Window::Minute, config.minute);
    add_limit(&mut limits, Window::Hour, config.hour);
    add_limit(&mut limits, Window::Day, config.day);
    limits
}

fn add_limit(limits: &mut Limits, window: Window, limit: Option<u64>)
    requires { length limits.old < 4 }
    ensures value { limits.new ≡ limits.old ++ limit_in window limit }
    ensures within { length limits.new ≤ length limits.old + 1 }
{
    match limit {
        Some(limit) => limits.push((window, limit)),
        None => {}
    }
}
