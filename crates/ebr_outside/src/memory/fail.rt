//! Which calls fail, and how many did.

ghost use Rattle.std.specs.Prelude.{◌≡◌, ◌↔◌, IsTrue, IsErr, OnOk, OnErr, if◌then◌else◌};
ghost use Rattle.ebr_faults.specs.Faults.{one_more};
ghost use Rattle.ebr_outside.specs.Calls.{names, is_named, fails_next, after_call, after_fault, none_made};

use crate::source::Failed;
use ebr_base::{CloneIn, List, NoMemory};
use ebr_faults::one_more;
use std::alloc::Global;

/// A call that is to fail, by its number, counted from 1.
#[derive(Clone, Copy, Debug, PartialEq, Eq)]
pub struct Fail {
    /// The call's number.
    pub at: u32,
    /// Whether each later call fails too.
    pub onward: bool,
}

impl Fail {
    /// Whether this names the call of a number.
    fn names(self, call: u64) -> bool
        ensures { result ≡ names self call }
    {
        let at = u64::from(self.at);
        if self.onward { at <= call } else { at == call }
    }
}

impl CloneIn for Fail {
    /// It takes no memory.
    fn clone_in(&self, _alloc: Global) -> Result<Fail, NoMemory>
        ensures { result ≡ Ok self.now }
    {
        Ok(*self)
    }
}

/// The calls of an object. Both counts stand still at their end, 2^64 - 1.
#[derive(Debug, Drop)]
pub struct Calls {
    /// Which calls are to fail.
    pub failing: List<Fail>,
    /// How many calls were made.
    pub made: u64,
    /// How many of them failed.
    pub faults: u64,
}

impl Calls {
    /// No call yet.
    pub fn new(failing: List<Fail>) -> Calls
        ensures { result ≡ none_made failing }
    {
        Calls {
            failing,
            made: 0,
            faults: 0,
        }
    }

    /// Counts the next call. It fails exactly where it is named, and is a fault then.
    pub fn begin(&mut self) -> Result<(), Failed>
        ensures fails { IsErr result ↔ IsTrue (fails_next self.old) }
        ensures ok { OnOk result (self.new ≡ after_call self.old) }
        ensures err { OnErr result (self.new ≡ after_fault self.old) }
    {
        let failed = self.fails_next();
        self.made = one_more(self.made);
        if failed {
            self.count_fault();
            return Err(Failed);
        }
        Ok(())
    }

    /// Whether the next call is named.
    pub fn fails_next(&self) -> bool
        ensures { result ≡ fails_next self.now }
    {
        is_named(self.failing.as_slice(), one_more(self.made))
    }

    /// Counts a call that was made.
    pub fn count(&mut self, failed: bool)
        ensures { self.new ≡ if failed then after_fault self.old else after_call self.old }
    {
        self.made = one_more(self.made);
        if failed {
            self.count_fault();
        }
    }

    /// Counts a fault of the call that was begun last.
    pub fn count_fault(&mut self)
        ensures { self.new ≡ record self.old { faults = one_more self.old.faults } }
    {
        self.faults = one_more(self.faults);
    }
}

/// Whether one of these names the call.
fn is_named(failing: &[Fail], call: u64) -> bool
    ensures { result ≡ is_named failing.now call }
{
    failing.iter().any(|fail| fail.names(call))
}
