// The steps at which widening stops.

ghost use Rattle.std.specs.Prelude.{◌≡◌, ℤ, pos, neg_ℤ, ◌<ℤ◌, ◌≤ℤ◌, List, [], IfSome, Some};
ghost use Rattle.std.specs.Option.{option_map};
ghost use Rattle.num_api.specs.Steps.{IsSmall, least, greatest};
ghost use Rattle.num_api.specs.Powers.{power_steps, powers_from};
ghost use Rattle.num_api.specs.Told.{Answers, Keeps};

use std::marker::Brand;

/// Names a list of steps, for proofs alone.
pub trait Steps {
    ghost list: { List ℤ };
}

/// The list that a proof picks where the ramp is made.
impl Steps for Brand {
    ghost list = { [] };
}

/// Names the 257 steps that `power_step` answers by.
pub struct Powers;

impl Steps for Powers {
    ghost list = { power_steps };
}

/// The steps at which widening stops: how many there are, and a closure that finds the least one
/// not below a number of size at most 2^100.
#[derive(Drop)]
pub struct Ramp<U> {
    steps: u64,
    up: U,
}

impl<U: Fn(i128) -> Option<i128>> Ramp<U> {
    /// The ramp of `steps` steps that `up` finds.
    pub fn new<S: Steps>(steps: u64, up: U) -> Ramp<U>
        requires { Answers U.pre U.post steps up S.list }
        ensures { Keeps U.pre U.post result S.list }
    {
        Ramp { steps, up }
    }

    /// The least step that is not below `n`, or `None` where there is none.
    pub fn rise<S: Steps>(&self, n: i128) -> Option<i128>
        requires small { IsSmall n }
        requires told { Keeps U.pre U.post self.now S.list }
        ensures step { result ≡ least S.list n }
        ensures small { IfSome result IsSmall }
    {
        (self.up)(n)
    }

    /// The greatest step that is not above `n`, or `None` where there is none. It is the negation of
    /// the least step that is not below `-n`.
    pub fn fall<S: Steps>(&self, n: i128) -> Option<i128>
        requires small { IsSmall n }
        requires told { Keeps U.pre U.post self.now S.list }
        ensures step { result ≡ greatest S.list n }
        ensures negation { result ≡ option_map neg_ℤ (least S.list (neg_ℤ n)) }
        ensures small { IfSome result IsSmall }
    {
        match self.rise::<S>(-n) {
            Some(step) => Some(-step),
            None => None,
        }
    }
}

/// The least of the powers steps that is not below `n`, or `None` above the last one. These are 0,
/// the powers of two from 1 to 2^64, those less one, and the negations of all these.
pub fn power_step(n: i128) -> Option<i128>
    ensures { result ≡ least power_steps n }
{
    if n > 0 {
        step_above_zero(n)
    } else {
        Some(step_up_to_zero(n))
    }
}

// The least power step that is not below a number above 0.
fn step_above_zero(n: i128) -> Option<i128>
    requires { pos 0 <ℤ n }
    ensures { result ≡ least (powers_from 1 64) n }
{
    for k in 1..65_u32 {
        let power = 1_i128 << k;
        if n < power {
            return Some(power - 1);
        }
        if n == power {
            return Some(power);
        }
    }
    None
}

// The least power step that is not below a number up to 0.
fn step_up_to_zero(n: i128) -> i128
    requires { n ≤ℤ pos 0 }
    ensures { least power_steps n ≡ Some result }
{
    for k in (1..65_u32).rev() {
        let power = 1_i128 << k;
        if n <= -power {
            return -power;
        }
        if n <= 1 - power {
            return 1 - power;
        }
    }
    0
}
