//! The calls of an object in memory.

ghost use Rattle.std.specs.Prelude.{◌≡◌, ◌≤◌, ◌↔◌, IsTrue, IsErr};
ghost use Rattle.kg_outside.specs.Causes.{HasCause};
ghost use Rattle.kg_outside.specs.Counts.{one_more};
ghost use Rattle.kg_outside.specs.Memory.{IsNextListed};

use crate::source::Failed;
use kg_text::List;

/// How many calls there were, the numbers from 1 of those that fail, and how many have failed.
#[derive(Debug, Drop)]
pub struct Calls {
    pub made: u64,
    pub fails: List<u64>,
    pub faults: u64,
}

impl Calls {
    /// No calls yet, and those that will fail.
    pub fn new(fails: List<u64>) -> Calls
        ensures { result ≡ record { made = 0; fails = fails; faults = 0 } }
    {
        Calls {
            made: 0,
            fails,
            faults: 0,
        }
    }

    /// Counts one more call, and fails where it is listed.
    pub fn begin(&mut self) -> Result<(), Failed>
        ensures made { self.new.made ≡ one_more self.old.made }
        ensures listed { IsErr result ↔ IsNextListed self.old.made self.old.fails }
        ensures cause { HasCause self.old.faults self.new.faults result }
        ensures fails { self.new.fails ≡ self.old.fails }
    {
        let listed = is_next_listed(self.made, self.fails.as_slice());
        self.made = self.made.saturating_add(1);
        if listed {
            return Err(self.fail());
        }
        Ok(())
    }

    /// Counts one more fault.
    pub fn fail(&mut self) -> Failed
        ensures value { self.new ≡ record self.old { faults = one_more self.old.faults } }
        ensures later { self.old.faults ≤ self.new.faults }
    {
        self.faults = self.faults.saturating_add(1);
        Failed
    }
}

// Is the call after so many listed? No list of 64-bit numbers has the number of a call after
// these.
fn is_next_listed(calls: u64, fails: &[u64]) -> bool
    ensures { IsTrue result ↔ IsNextListed calls fails.now }
{
    match calls.checked_add(1) {
        Some(number) => fails.contains(&number),
        None => false,
    }
}
