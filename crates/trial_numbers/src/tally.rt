// Counts of what was tried.

use std::fmt;

/// How many of how many.
#[derive(Clone, Copy)]
pub struct Tally {
    good: u64,
    all: u64,
}

impl Tally {
    /// Of none.
    pub fn new() -> Tally {
        Tally { good: 0, all: 0 }
    }

    /// One more.
    pub fn count(&mut self, good: bool) {
        self.all = self.all.saturating_add(1);
        if good {
            self.good = self.good.saturating_add(1);
        }
    }
}

impl fmt::Display for Tally {
    fn fmt<W: fmt::Write>(&self, f: &mut fmt::Formatter<W>) -> fmt::Result {
        write!(f, "{} of {}", self.good, self.all)
    }
}
