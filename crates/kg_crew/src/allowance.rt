//! How much of a connection is left.

ghost use Rattle.std.specs.Prelude.{◌≡◌};
ghost use Rattle.kg_crew.specs.AdminReplies.{allowance_of, is_spent, less};

use kg_message::Response;

// How many bytes the bodies of a connection's replies may have together, after which it ends.
const MOST_KEPT: u64 = 67_108_864;

/// How many more requests of a connection are answered, and how many more bytes the bodies of their replies may
/// have before it ends.
#[derive(Clone, Copy)]
pub struct Allowance {
    pub requests: u32,
    pub bytes: u64,
}

impl Allowance {
    /// That of a connection of which so many requests are answered.
    pub fn new(requests: u32) -> Allowance
        ensures { result ≡ allowance_of requests }
    {
        Allowance {
            requests,
            bytes: MOST_KEPT,
        }
    }

    /// Is no further request answered?
    pub fn is_spent(self) -> bool
        ensures { result ≡ is_spent self }
    {
        self.requests == 0 || self.bytes == 0
    }

    /// With one more reply.
    pub fn less(self, response: &Response) -> Allowance
        ensures { result ≡ less self response.now }
    {
        Allowance {
            requests: self.requests.saturating_sub(1),
            bytes: self.bytes.saturating_sub(response.body.len() as u64),
        }
    }
}
