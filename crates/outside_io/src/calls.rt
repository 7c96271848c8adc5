// The calls of a fake, counted from 1, some of which are to fail.

use c_syntax_written::Numbers;
use std::marker::Model;

#[derive(Drop)]
pub struct Calls {
    failing: Numbers,
    made: u64,
}

impl Model for Calls {
    ghost use Rattle.outside_io.specs.Memory.{CallCount};

    ghost Value = { CallCount };

    ghost view = { λ c. record { failing = c.failing; made = c.made } };
}

impl Calls {
    ghost use Rattle.std.specs.Prelude.{◌≡◌, ◌↔◌, IsTrue, Contains};
    ghost use Rattle.outside_io.specs.Io.{raised};

    // No call was made yet.
    pub fn new(failing: Numbers) -> Calls
        ensures failing { result.failing ≡ failing }
        ensures made { result.made ≡ 0 }
    {
        Calls { failing, made: 0 }
    }

    // Counts a call, and says whether it is to fail.
    pub fn next_fails(&mut self) -> bool
        ensures failing { self.new.failing ≡ self.old.failing }
        ensures made { self.new.made ≡ raised self.old.made }
        ensures listed { IsTrue result ↔ Contains self.old.failing (raised self.old.made) }
    {
        self.made = self.made.saturating_add(1);
        self.failing.as_slice().contains(&self.made)
    }
}
