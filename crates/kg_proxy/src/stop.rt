//! Where a request stops that its worker can't take on.

ghost use Rattle.std.specs.Prelude.{◌≡◌, IfOk};
ghost use Rattle.kg_proxy.specs.Advancing.{IsStopAt};

use kg_course::Want;
use kg_row_types::key::Key;
use kg_text::{NoMemory, TryClone};
use std::alloc::Global;

/// What a request waits for. All but the key is read off the request itself.
#[derive(Drop)]
pub enum Stop {
    /// The value of this key, of which the worker has no live entry.
    Entity(Key),
    /// The verdict on its hit.
    Count,
    /// The answer of its upstream.
    Upstream,
    /// Nothing: it has its reply.
    Done,
}

/// The stop at a want.
pub(crate) fn stop_at(alloc: Global, want: &Want) -> Result<Stop, NoMemory>
    ensures { IfOk result (λ stop. IsStopAt want.now stop) }
{
    Ok(match want {
        Want::Entity(key) => Stop::Entity(key.try_clone(alloc)?),
        Want::Count(_) => Stop::Count,
        Want::Upstream(_) => Stop::Upstream,
        Want::Done(_) => Stop::Done,
    })
}
