//! The settings of a node.

ghost use Rattle.std.specs.Prelude.{◌≡◌};
ghost use Rattle.kg_settings.specs.Defaults.{default_settings};

/// What a node is set up with. Times are in milliseconds.
#[derive(Clone, Copy, Debug, PartialEq, Eq)]
pub struct Settings {
    /// How many workers it has, 1 to 64.
    pub workers: u32,
    /// The life of a value in the caches, 0 for one without an end.
    pub ttl: u64,
    /// The life of a value that says that there is no row.
    pub neg_ttl: u64,
    /// How long a value is used past its life where the rows can't be read, 0 for not at all.
    pub stale: u64,
    /// How many values a worker keeps for itself, at least 1.
    pub local: u32,
    /// How many values the workers share, at least 1.
    pub shared: u32,
    /// Of how many commits it is told what they touched.
    pub feed: u32,
    /// How many rows there may be of each kind.
    pub rows: u32,
    /// How many requests a connection may have.
    pub requests: u32,
}

impl Settings {
    /// The settings of a node that is told nothing else.
    pub fn standard() -> Settings
        ensures { result ≡ default_settings }
    {
        Settings {
            workers: 4,
            ttl: 0,
            neg_ttl: 0,
            stale: 30_000,
            local: 1_024,
            shared: 16_384,
            feed: 4_096,
            rows: 100_000,
            requests: 1_000,
        }
    }
}
