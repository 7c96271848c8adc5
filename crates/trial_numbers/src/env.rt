// A value for each variable, beside what expressions and tests come to, and runs to be timed.

mod exprs;
mod runs;
mod trials;

use env_lift::Env;
use intervals::Interval;
use residues::{Class, Pair};
pub use runs::{join, run};
pub use trials::{Told, tried};

/// The domain that is tried.
pub type State = Env<Pair<Interval, Class>>;
