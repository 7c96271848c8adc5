// Objects that are cut with their copies.

ghost use Rattle.std.specs.Prelude.{◌≡◌};
ghost use Rattle.mem_objects.specs.Cells.{cut_one, cut_by, copied_has_number, are_cells_left};

use crate::{Cells, Copies};
use mem_temps::Ranges;
use num_api::Range;

// Cuts an object, where there is one, to the range of its copy.
fn cut_one(cells: &mut Cells, object: Option<u64>, range: Range)
    ensures { cells.new ≡ cut_one object range cells.old }
{
    if let Some(x) = object {
        cells.cut(x, range);
    }
}

/// Cuts each object of which one of these temporaries is a copy to the range of that temporary.
pub fn cut_cells(cells: &mut Cells, copies: &Copies, ranges: &Ranges, temps: &[u64])
    ensures { cells.new ≡ cut_by copies.now ranges.now temps.now cells.old }
{
    for temp in temps {
        cut_one(cells, copies.get(*temp), ranges.at(*temp));
    }
}

// Whether numbers are left of an object, where there is one.
fn has_number(cells: &Cells, object: Option<u64>) -> bool
    ensures { result ≡ copied_has_number cells.now object }
{
    match object {
        Some(x) => match cells.get(x) {
            Some(cell) => cell.range.holds_some(),
            None => true,
        },
        None => true,
    }
}

/// Whether numbers are left of each object of which one of these temporaries is a copy.
pub fn are_left(cells: &Cells, copies: &Copies, temps: &[u64]) -> bool
    ensures { result ≡ are_cells_left copies.now temps.now cells.now }
{
    for temp in temps {
        if !has_number(cells, copies.get(*temp)) {
            return false;
        }
    }
    true
}
