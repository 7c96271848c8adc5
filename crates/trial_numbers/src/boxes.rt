// Boxes of three variables.

ghost use Rattle.std.specs.Prelude.{◌≡◌};
ghost use Rattle.ext_int.specs.Valuation.{value_at};

use ext_int::Ext;
use num_api::Range;
use std::alloc::{AllocError as NoMemory, Global};
use trial_boxes::{Valuation, numbers_between, valuations};

/// The range of a variable.
#[derive(Clone, Copy, Debug)]
pub struct Bounds {
    pub lo: i128,
    pub hi: i128,
}

impl Bounds {
    /// The numbers between both ends.
    pub fn range(&self) -> Range {
        Range {
            lo: Ext::Fin(self.lo),
            hi: Ext::Fin(self.hi),
        }
    }
}

/// All valuations of the box.
pub fn valuations_in(alloc: Global, bounds: &[Bounds; 3]) -> Result<Vec<Valuation>, NoMemory> {
    let firsts = numbers_between(alloc, bounds[0].lo, bounds[0].hi)?;
    let seconds = numbers_between(alloc, bounds[1].lo, bounds[1].hi)?;
    let thirds = numbers_between(alloc, bounds[2].lo, bounds[2].hi)?;
    valuations(alloc, &firsts, &seconds, &thirds)
}

/// The numbers of a variable in these valuations.
pub fn numbers_of(alloc: Global, all: &[Valuation], x: usize) -> Result<Vec<i128>, NoMemory> {
    let mut numbers = Vec::new(alloc);
    for valuation in all {
        if let Some(n) = valuation.get(x) {
            numbers.push(*n)?;
        }
    }
    Ok(numbers)
}

/// The number of a variable, 0 past the last one.
pub fn number_of(numbers: &[i128], x: u64) -> i128
    ensures { result ≡ value_at numbers.now x }
{
    let at = x as usize;
    if at < numbers.len() { numbers[at] } else { 0 }
}
