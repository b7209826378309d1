//! What is left of limits.

ghost use Rattle.std.specs.Prelude.{◌≡◌, map, zip};
ghost use Rattle.kg_limit.specs.LimitHeaders.{is_tighter, quota_of, tighter, tightest};

use crate::window::Window;

/// A limit, with what is left of it.
#[derive(Clone, Copy)]
pub(crate) struct Quota {
    pub(crate) window: Window,
    /// How many requests may come in the window.
    pub(crate) limit: u64,
    /// How many further ones may come.
    pub(crate) left: u64,
}

impl Quota {
    /// Of a limit of a hit, and what its verdict leaves of it.
    pub(crate) fn of(limit: &(Window, u64), left: &(Window, u64)) -> Quota
        ensures { result ≡ quota_of (limit.now, left.now) }
    {
        Quota {
            window: limit.0,
            limit: limit.1,
            left: left.1,
        }
    }

    // Less is left, or as much and the window is longer.
    fn is_tighter(&self, other: &Quota) -> bool
        ensures { result ≡ is_tighter self.now other.now }
    {
        self.left < other.left
            || (self.left == other.left && self.window.length() > other.window.length())
    }

    // The tighter one of the two.
    fn tighter(self, found: Option<Quota>) -> Quota
        ensures { result ≡ tighter found self }
    {
        match found {
            Some(found) if !self.is_tighter(&found) => found,
            _ => self,
        }
    }
}

/// The limit with the least left, and with the longest window of these.
pub(crate) fn tightest(limits: &[(Window, u64)], left: &[(Window, u64)]) -> Option<Quota>
    ensures { result ≡ tightest (map quota_of (zip limits.now left.now)) }
{
    let mut found = None;
    for (limit, left) in limits.iter().zip(left) {
        found = Some(Quota::of(limit, left).tighter(found));
    }
    found
}
