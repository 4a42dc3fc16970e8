//! Which calls of a stream over memory fail.
ghost use Rattle.std.specs.Prelude.{◌≡◌, IsTrue, ◌↔◌, ◌≤◌};
ghost use Rattle.palm_base.specs.Memory.{IsListed, after_call};

use crate::counts::next_count;
use crate::sequence::CallList;
use std::marker::Model;

/// Counts the calls and their faults; the listed calls fail.
#[derive(Debug, Drop)]
pub struct CallLog {
    failing: CallList,
    made: u64,
    faults: u64,
}

impl Model for CallLog {
    ghost use Rattle.palm_base.specs.Memory.{Calls};

    ghost Value = { Calls };

    ghost view = { λ c. record { failing = c.failing; made = c.made; faults = c.faults } };
}

impl CallLog {
    /// No call was made.
    pub fn new(failing: CallList) -> CallLog
        ensures { result ≡ record { failing = failing; made = 0; faults = 0 } }
    {
        CallLog {
            failing,
            made: 0,
            faults: 0,
        }
    }

    /// Counts one more call, and answers whether it is one that fails.
    pub fn is_failing(&mut self) -> bool
        ensures listed { IsTrue result ↔ IsListed self.old }
        ensures counted { self.new ≡ after_call self.old result }
        ensures later { self.old.faults ≤ self.new.faults }
    {
        self.made = next_count(self.made);
        let listed = self.failing.as_slice().contains(&self.made);
        if listed {
            self.faults = next_count(self.faults);
        }
        listed
    }
}
