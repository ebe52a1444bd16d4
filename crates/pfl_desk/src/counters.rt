//! What a node counts.

ghost use Rattle.std.specs.Prelude.{◌≡◌};
ghost use Rattle.pfl_desk.specs.Nodes.{no_counts};

use crate::edit::Counter;

/// What a node counts.
#[derive(Clone, Copy, Debug, PartialEq, Eq)]
pub struct Counters {
    /// Packets that went on at once.
    pub passed: u64,
    /// Packets that were dropped.
    pub blocked: u64,
    /// Held packets that went on.
    pub freed: u64,
    /// Held packets that were dropped.
    pub lost: u64,
    /// Records that could not be used.
    pub bad: u64,
    /// Records that were behind what is held.
    pub stale: u64,
    /// Frames that could not be read.
    pub broken: u64,
}

impl Counters {
    /// Nothing is counted.
    pub fn none() -> Counters
        ensures { result ≡ no_counts }
    {
        Counters {
            passed: 0,
            blocked: 0,
            freed: 0,
            lost: 0,
            bad: 0,
            stale: 0,
            broken: 0,
        }
    }
}

impl Counters {
    ghost use Rattle.std.specs.Prelude.{◌≡◌};
    ghost use Rattle.pfl_desk.specs.Edits.{count_of, with_count};

    /// One number.
    pub fn get(&self, counter: Counter) -> u64
        ensures number { result ≡ count_of counter self.now }
    {
        match counter {
            Counter::Passed => self.passed,
            Counter::Blocked => self.blocked,
            Counter::Freed => self.freed,
            Counter::Lost => self.lost,
            Counter::Bad => self.bad,
            Counter::Stale => self.stale,
            Counter::Broken => self.broken,
        }
    }

    /// Sets one number.
    pub fn set(&mut self, counter: Counter, number: u64)
        ensures set { self.new ≡ with_count counter self.old number }
    {
        match counter {
            Counter::Passed => self.passed = number,
            Counter::Blocked => self.blocked = number,
            Counter::Freed => self.freed = number,
            Counter::Lost => self.lost = number,
            Counter::Bad => self.bad = number,
            Counter::Stale => self.stale = number,
            Counter::Broken => self.broken = number,
        }
    }
}
