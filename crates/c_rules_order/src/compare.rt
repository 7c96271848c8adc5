// The first of the comparisons that clash.
#![tactic(auto, using(crate::proofs::FirstFound::the_firsts))]

ghost use Rattle.std.specs.Prelude.{◌≡◌, ◌≤◌, ◌++◌, length, None, IfOk, OnOk};
ghost use Rattle.c_syntax.specs.TypedExpr.{texpr_tree, tlvalue_tree};
ghost use Rattle.c_rules_effects.specs.Places.{place_of};
ghost use Rattle.c_rules_effects.specs.Joined.{change_at, read_at, write_at};
ghost use Rattle.c_rules_order.specs.Firsts.{or_first};
ghost use Rattle.c_rules_order.specs.Made.{only, sides_joined, with_own};
ghost use Rattle.c_rules_order.specs.Sides.{all_pairs, made_beside, side_of, store_of, stored_beside, two, with_each, writes_alone};

use crate::clash::{clash, effects_of_side};
use crate::earlier::Earlier;
use crate::known::Known;
use crate::side::{Comparison, Side};
use c_rules_effects::Touch;
use c_syntax::{Pos, TExpr, TLvalue};
use std::alloc::{AllocError as NoMemory, Global};

// What was found before, or else these two sides, where they clash.
pub(crate) fn compare(
    alloc: Global,
    known: &Known,
    pos: Pos,
    left: &Side,
    right: &Side,
    found: &mut Option<Comparison>,
) -> Result<(), NoMemory>
    ensures { OnOk result (found.new ≡ or_first known.now found.old (two pos left.now right.now)) }
{
    match found {
        Some(_) => Ok(()),
        None => {
            *found = found_here(alloc, known, pos, left, right)?;
            Ok(())
        }
    }
}

fn found_here(
    alloc: Global,
    known: &Known,
    pos: Pos,
    left: &Side,
    right: &Side,
) -> Result<Option<Comparison>, NoMemory>
    ensures { IfOk result (λ found. found ≡ or_first known.now None (two pos left.now right.now)) }
{
    if clash(alloc, known, left, right)? {
        Ok(Some(Comparison {
            pos,
            left: left.copy(alloc)?,
            right: right.copy(alloc)?,
        }))
    } else {
        Ok(None)
    }
}

// Any two of these sides. Each is compared with all before it at once, and one by one only where that finds something.
pub(crate) fn compare_all(
    alloc: Global,
    known: &Known,
    pos: Pos,
    sides: &[Side],
    found: &mut Option<Comparison>,
) -> Result<(), NoMemory>
    ensures { OnOk result (found.new ≡ or_first known.now found.old (all_pairs pos sides.now)) }
{
    let taken = known.taken.as_slice();
    let mut earlier = Earlier::new(alloc);
    for (at, side) in sides.iter().enumerate() {
        let effects = effects_of_side(alloc, known, side)?;
        if earlier.clashes(taken, &effects) {
            compare_with(alloc, known, pos, &sides[..at], side, found)?;
        }
        earlier.add(taken, &effects)?;
    }
    Ok(())
}

// A side with each that stands before it.
fn compare_with(
    alloc: Global,
    known: &Known,
    pos: Pos,
    earlier: &[Side],
    side: &Side,
    found: &mut Option<Comparison>,
) -> Result<(), NoMemory>
    ensures { OnOk result (found.new ≡ or_first known.now found.old (with_each pos earlier.now side.now)) }
{
    for before in earlier {
        compare(alloc, known, pos, before, side, found)?;
    }
    Ok(())
}

// A further side, compared with this one and joined to it.
pub(crate) fn join_compared(
    alloc: Global,
    known: &Known,
    pos: Pos,
    other: &Side,
    side: &mut Side,
    found: &mut Option<Comparison>,
) -> Result<(), NoMemory>
    ensures side { OnOk result (side.new ≡ sides_joined side.old other.now) }
    ensures found { OnOk result (found.new ≡ or_first known.now found.old (two pos side.old other.now)) }
{
    compare(alloc, known, pos, side, other, found)?;
    side.join(alloc, other)
}

// The right side of an `=`, and then the store.
pub(crate) fn join_stored(
    alloc: Global,
    known: &Known,
    pos: Pos,
    place: &TLvalue,
    value: &TExpr,
    right: &Side,
    side: &mut Side,
    found: &mut Option<Comparison>,
) -> Result<(), NoMemory>
    requires { right.now ≡ side_of (texpr_tree value.now) }
    ensures side { OnOk result (side.new ≡ with_own (sides_joined side.old right.now) (write_at (place_of (tlvalue_tree place.now)))) }
    ensures found { OnOk result
        (found.new ≡ or_first known.now found.old (two pos side.old right.now ++ stored_beside pos (tlvalue_tree place.now) (texpr_tree value.now))) }
{
    join_compared(alloc, known, pos, right, side, found)?;
    compare_stored(alloc, known, pos, place, value, right, found)?;
    side.write(alloc, place)?;
    Ok(())
}

// The right side of an `op=`, and then the change.
pub(crate) fn join_changed(
    alloc: Global,
    known: &Known,
    pos: Pos,
    place: &TLvalue,
    right: &Side,
    side: &mut Side,
    found: &mut Option<Comparison>,
) -> Result<(), NoMemory>
    ensures side { OnOk result (side.new ≡ with_own (sides_joined side.old right.now) (change_at (place_of (tlvalue_tree place.now)))) }
    ensures found { OnOk result
        (found.new ≡ or_first known.now found.old (two pos side.old right.now ++ two pos (only (read_at (place_of (tlvalue_tree place.now)))) right.now)) }
{
    join_compared(alloc, known, pos, right, side, found)?;
    compare_read(alloc, known, pos, place, right, found)?;
    side.change(alloc, place)?;
    Ok(())
}

// The read of the place that an `op=` changes, with its right side.
fn compare_read(
    alloc: Global,
    known: &Known,
    pos: Pos,
    place: &TLvalue,
    right: &Side,
    found: &mut Option<Comparison>,
) -> Result<(), NoMemory>
    ensures { OnOk result (found.new ≡ or_first known.now found.old (two pos (only (read_at (place_of (tlvalue_tree place.now)))) right.now)) }
{
    let read = Side::reading(alloc, place)?;
    compare(alloc, known, pos, &read, right, found)
}

// The place that an `=` stores, with the writes that its right side makes itself, of which these are the effects.
fn compare_stored(
    alloc: Global,
    known: &Known,
    pos: Pos,
    place: &TLvalue,
    value: &TExpr,
    right: &Side,
    found: &mut Option<Comparison>,
) -> Result<(), NoMemory>
    requires { right.now ≡ side_of (texpr_tree value.now) }
    ensures { OnOk result (found.new ≡ or_first known.now found.old (stored_beside pos (tlvalue_tree place.now) (texpr_tree value.now))) }
{
    let stored = Side::writing(alloc, place)?;
    compare_made(alloc, known, pos, &stored, made_beside(value, right), found)
}

// A store, with these writes.
fn compare_made(
    alloc: Global,
    known: &Known,
    pos: Pos,
    stored: &Side,
    writes: &[Touch],
    found: &mut Option<Comparison>,
) -> Result<(), NoMemory>
    ensures { OnOk result (found.new ≡ or_first known.now found.old (two pos stored.now (writes_alone writes.now))) }
{
    let made = Side::writing_all(alloc, writes)?;
    compare(alloc, known, pos, stored, &made, found)
}

// The writes that a right side makes itself, without its own store.
fn made_beside<'a>(value: &TExpr, right: &'a Side) -> &'a [Touch]
    requires { right.now ≡ side_of (texpr_tree value.now) }
    ensures { result.now ≡ made_beside (texpr_tree value.now) }
{
    let writes = right.own.writes.as_slice();
    &writes[..writes.len() - own_stores(value, right)]
}

// How many of its writes are the store that an `=` ends with.
fn own_stores(value: &TExpr, right: &Side) -> usize
    requires { right.now ≡ side_of (texpr_tree value.now) }
    ensures count { result ≡ length (store_of (texpr_tree value.now)) }
    ensures inside { result ≤ length right.now.own.writes }
{
    match value {
        TExpr::Assign { .. } => 1,
        TExpr::AssignStruct { .. } => 1,
        _ => 0,
    }
}
