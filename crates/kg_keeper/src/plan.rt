//! The calls of a store in memory, and which of them fail.

ghost use Rattle.std.specs.Prelude.{◌≡◌, ◌≤◌, ◌<◌, ◌^◌, ◌↔◌, All, Contains, IsTrue, max};
ghost use Rattle.kg_keeper.specs.Plans.{coming, failing, moved_on};
ghost use Rattle.kg_outside.specs.Memory.{IsNextListed};

use kg_text::List;
use std::marker::Model;

/// How many calls there were since the plan was made, how many failed, and which of the coming ones will.
#[derive(Drop)]
pub struct Plan {
    made: u64,
    faults: u64,
    announced: u32,
    fails: List<u64>,
}

impl Model for Plan {
    ghost use Rattle.kg_keeper.specs.Plans.{Planned, coming};

    ghost Value = { Planned };

    ghost view = { λ plan. record {
      calls = plan.made;
      faults = plan.faults;
      announced = plan.announced;
      listed = coming plan.made plan.fails;
    } };
}

impl Plan {
    /// No call yet. Those whose numbers from 1 are listed will fail.
    pub fn new(fails: List<u64>) -> Plan
        ensures { result ≡ record { calls = 0; faults = 0; announced = 0; listed = coming 0 fails } }
    {
        Plan {
            made: 0,
            faults: 0,
            announced: 0,
            fails,
        }
    }

    /// Those of the coming calls whose numbers from 1 are listed will fail, and no others.
    pub fn plan_anew(&mut self, fails: List<u64>)
        ensures { self.new ≡ record { calls = 0; faults = self.old.faults; announced = 0; listed = coming 0 fails } }
    {
        self.made = 0;
        self.announced = 0;
        self.fails = fails;
    }

    /// At least so many of the next calls will fail.
    pub fn announce(&mut self, calls: u32)
        ensures { self.new ≡ record self.old { announced = max self.old.announced calls } }
    {
        self.announced = self.announced.max(calls);
    }

    /// Counts a call, and tells whether it fails.
    pub fn next(&mut self) -> bool
        ensures moved { self.new ≡ moved_on result self.old }
        ensures planned { IsTrue result ↔ Contains (failing self.old) 1 }
        ensures later { self.old.faults ≤ self.new.faults }
    {
        numbers_are_small(self.made, self.fails.as_slice()); // a law, called for the proof
        let fails = self.is_next();
        self.made = self.made.saturating_add(1);
        self.announced = self.announced.saturating_sub(1);
        if fails {
            self.faults = self.faults.saturating_add(1);
        }
        fails
    }

    // Does the next call fail?
    fn is_next(&self) -> bool
        ensures { IsTrue result ↔ Contains (failing self.now) 1 }
    {
        self.announced > 0 || is_next_listed(self.made, self.fails.as_slice())
    }
}

// Is the call after so many listed? No list of 64-bit numbers has the number of a call after these.
fn is_next_listed(calls: u64, fails: &[u64]) -> bool
    ensures { IsTrue result ↔ IsNextListed calls fails.now }
{
    match calls.checked_add(1) {
        Some(number) => fails.contains(&number),
        None => false,
    }
}

// The numbers have 64 bits: a law, for proofs.
fn numbers_are_small(made: u64, numbers: &[u64])
    ensures made { made < 2 ^ 64 }
    ensures numbers { All (λ n. n < 2 ^ 64) numbers.now }
{}
