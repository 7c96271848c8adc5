// The steps of powers, and their ramp.

ghost use Rattle.std.specs.Prelude.{◌≡◌};
ghost use Rattle.num_api.specs.Steps.{IsSmall, least};
ghost use Rattle.num_api.specs.Powers.{power_steps};

use num_api::{Powers, Ramp, power_step};
use std::alloc::{AllocError, Global};
use std::fmt;

/// The greatest number that a ramp is asked for.
const LARGEST: i128 = 1 << 100;

/// The line of a row about a number.
pub fn line(alloc: Global, words: &[&str]) -> Result<Option<String>, AllocError> {
    let [word, n] = words else {
        return Ok(None);
    };
    let Ok(n) = n.parse::<i128>() else {
        return Ok(None);
    };
    if *word == "step" {
        return Ok(Some(format!(in alloc; "{}", Step(power_step(n)))?));
    }
    if n < -LARGEST || LARGEST < n {
        return Ok(None);
    }
    let (up, down) = up_and_down(n);
    Ok(Some(format!(in alloc; "{} {}", Step(up), Step(down))?))
}

/// A step, as it is printed.
#[derive(Clone, Copy)]
struct Step(Option<i128>);

impl fmt::Display for Step {
    fn fmt<W: fmt::Write>(&self, f: &mut fmt::Formatter<W>) -> fmt::Result {
        match self.0 {
            Some(n) => write!(f, "{n}"),
            None => write!(f, "none"),
        }
    }
}

fn up_and_down(n: i128) -> (Option<i128>, Option<i128>)
    requires { IsSmall n }
{
    let ramp = Ramp::<_>::new::<Powers>(
        257,
        |n: i128| -> Option<i128>
            ensures { result ≡ least power_steps n }
        { power_step(n) },
    );
    (ramp.rise::<Powers>(n), ramp.fall::<Powers>(n))
}
