//! How many hits of one row and identity were let through.

ghost use Rattle.std.specs.Prelude.{◌≡◌, ℕ, nat_lt};
ghost use Rattle.kg_limit.specs.Counting.{count_of, counted, is_over, used_in};
ghost use Rattle.kg_limit.specs.WindowTimes.{window_number};
ghost use Rattle.kg_limit.specs.declared.window.Window.{Window as AWindow};

use crate::window::Window;

/// How many hits of one row and identity were let through in each of the windows in which the last of them lies.
/// Of other windows there is nothing to keep: no later hit lies in an earlier one.
#[derive(Clone, Copy)]
pub(crate) struct Counts {
    /// When the last of them was let through, in milliseconds.
    pub(crate) last: u64,
    pub(crate) second: u64,
    pub(crate) minute: u64,
    pub(crate) hour: u64,
    pub(crate) day: u64,
}

impl Counts {
    /// No hits.
    pub(crate) fn none() -> Counts
        ensures none { (window : AWindow) (time : ℕ) → used_in result window time ≡ 0 }
        ensures last { result.last ≡ 0 }
    {
        Counts {
            last: 0,
            second: 0,
            minute: 0,
            hour: 0,
            day: 0,
        }
    }

    /// How many were let through in the window of a time, which isn't before the last of them.
    pub(crate) fn used(&self, window: Window, time: u64) -> u64
        ensures { result ≡ used_in self.now window time }
    {
        if window.number(self.last) == window.number(time) {
            self.count(window)
        } else {
            0
        }
    }

    fn count(&self, window: Window) -> u64
        ensures { result ≡ count_of self.now window }
    {
        match window {
            Window::Second => self.second,
            Window::Minute => self.minute,
            Window::Hour => self.hour,
            Window::Day => self.day,
        }
    }

    /// These and one that is let through at a time, which isn't before the last of them.
    pub(crate) fn with_hit(&self, time: u64) -> Counts
        ensures { result ≡ counted self.now time }
    {
        Counts {
            last: time,
            second: self.used(Window::Second, time).saturating_add(1),
            minute: self.used(Window::Minute, time).saturating_add(1),
            hour: self.used(Window::Hour, time).saturating_add(1),
            day: self.used(Window::Day, time).saturating_add(1),
        }
    }

    /// Is the longest window over by this time, and so each?
    pub(crate) fn is_over(&self, time: u64) -> bool
        ensures { result ≡ is_over self.now time }
    {
        Window::Day.number(self.last) < Window::Day.number(time)
    }
}
