// The cells in use by their places.

ghost use Rattle.std.specs.Prelude.{◌≡◌, ◌++◌, OnOk};
ghost use Rattle.std.specs.BTreeMap.{IsOrdered};
ghost use Rattle.cell_table.specs.Places.{place_cmp, numbers_in};

use std::alloc::AllocError as NoMemory;
use std::collections::BTreeMap;

/// The cell in use at an offset of an object.
#[derive(Clone, Copy)]
pub struct Place {
    pub number: u64,
    pub size: u64,
}

/// Appends the numbers of the cells that have a byte of the object from `from` up to before `to`.
pub fn push_overlapping(
    places: &BTreeMap<(u64, u64), Place>,
    object: u64,
    from: u64,
    to: u64,
    numbers: &mut Vec<u64>,
) -> Result<(), NoMemory>
    ensures numbers { OnOk result (numbers.new.items
        ≡ numbers.old.items ++ numbers_in object from to places.now.entries) }
    ensures ordered { OnOk result (IsOrdered place_cmp places.now) }
{
    for ((_, offset), place) in places.range((object, 0)..(object, to)) {
        if from < to && from.saturating_sub(*offset) < place.size {
            numbers.push(place.number)?;
        }
    }
    Ok(())
}
