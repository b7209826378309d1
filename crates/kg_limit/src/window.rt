//! Windows of time.

ghost use Rattle.std.specs.Prelude.{◌≡◌, ◌≤◌};
ghost use Rattle.kg_limit.specs.WindowTimes.{seconds_left, window_length, window_number};

/// A window of time in which requests are counted. Windows of a length follow one another from the time 0 on.
#[derive(Clone, Copy, PartialEq, Eq)]
pub enum Window {
    Second,
    Minute,
    Hour,
    Day,
}

impl Window {
    /// How long it lasts, in milliseconds.
    pub(crate) fn length(self) -> u64
        ensures value { result ≡ window_length self }
        ensures least { 1000 ≤ result }
        ensures most { result ≤ 86400000 }
    {
        match self {
            Window::Second => 1_000,
            Window::Minute => 60_000,
            Window::Hour => 3_600_000,
            Window::Day => 86_400_000,
        }
    }

    /// The number of the window of this length in which a time lies, in milliseconds.
    pub(crate) fn number(self, time: u64) -> u64
        ensures { result ≡ window_number self time }
    {
        match self {
            Window::Second => time / 1_000,
            Window::Minute => time / 60_000,
            Window::Hour => time / 3_600_000,
            Window::Day => time / 86_400_000,
        }
    }

    /// The time from a moment, in milliseconds, to the end of its window, in seconds, rounded up.
    pub(crate) fn seconds_left(self, time: u64) -> u64
        ensures { result ≡ seconds_left self time }
    {
        let length = self.length();
        (length - time % length).div_ceil(1_000)
    }
}
