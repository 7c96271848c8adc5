// Checks of pointers, by where they point.
ghost use Rattle.std.specs.Prelude.{◌≡◌, ◌<◌, pos, ◌∷◌, [], List, map, option_map, slice_get};
ghost use Rattle.c_syntax.specs.Types.{ObjectTree, object_tree};
ghost use Rattle.c_syntax.specs.Operand.{Point, Points};
ghost use Rattle.c_syntax.specs.Failing as failing;
ghost use Rattle.c_syntax.specs.Failing.{is_at, is_end_of, is_unrelated, is_null_spot, is_dead_spot};
ghost use Rattle.c_layout.specs.Checks.{equality_checks, move_checks, pair_check, plain_check};
ghost use Rattle.c_values.specs.Answers.{Finds};
ghost use Rattle.c_values.specs.Looks.{judge, looks};
ghost use Rattle.c_values.specs.Operators.{move_operand, pair_operand};
ghost use Rattle.c_values.specs.Typed.{IsNear};

use crate::values::Wrong;
use c_syntax::{Example, Object, Spot, WrongKind};

/// Asks whether a pointer may be moved from one spot to another of its object. It is refused with
/// the spot that it has, for NullUse and Dangling, or would have, for Bounds.
pub fn check_move(objects: &[Object], from: Spot, to: Spot) -> Result<(), Wrong>
    ensures { Finds result (judge (map object_tree objects.now) (looks (move_operand (Some from) (Some to)) move_checks)) }
{
    let kind = match from {
        Spot::Null => WrongKind::NullUse,
        Spot::Dead => WrongKind::Dangling,
        Spot::At(_, _) if is_out_of_bounds(objects, to) => {
            return Err(Wrong {
                kind: WrongKind::Bounds,
                operand: Example::Point(to),
            });
        }
        Spot::At(_, _) => return Ok(()),
    };
    Err(Wrong {
        kind,
        operand: Example::Point(from),
    })
}

// Whether the offset is below 0 or above the object's size.
fn is_out_of_bounds(objects: &[Object], at: Spot) -> bool
    ensures { result ≡ is_at (map object_tree objects.now) (λ object d. failing.is_outside (pos 0) (pos object.size) d) (Point at) }
{
    match at {
        Spot::At(object, offset) => match size_of(objects, object) {
            Some(size) => offset < 0 || i128::from(size) < offset,
            None => false,
        },
        Spot::Null | Spot::Dead => false,
    }
}

fn size_of(objects: &[Object], object: u64) -> Option<u64>
    ensures { result ≡ option_map (λ object. object.size) (slice_get (map object_tree objects.now) object) }
{
    match objects.get(object as usize) {
        Some(object) => Some(object.size),
        None => None,
    }
}

/// Asks whether two pointers may be ordered, which is the size 1, or how many elements of so many
/// bytes lie between them. It is refused with both spots: NullUse, Dangling, then Unrelated, for
/// two objects, or for a distance that is no multiple of the size.
pub fn check_same_object(size: u64, left: Spot, right: Spot) -> Result<(), Wrong>
    requires size { 0 < size }
    requires left { IsNear left }
    requires right { IsNear right }
    ensures { (objects : List ObjectTree) → Finds result (judge objects (looks (pair_operand (Some left) (Some right))
        (plain_check WrongKind.NullUse ∷ plain_check WrongKind.Dangling ∷ pair_check size ∷ []))) }
{
    let kind = if is_null(left) || is_null(right) {
        WrongKind::NullUse
    } else if is_dead(left) || is_dead(right) {
        WrongKind::Dangling
    } else if is_apart(size, left, right) {
        WrongKind::Unrelated
    } else {
        return Ok(());
    };
    Err(Wrong {
        kind,
        operand: Example::Points(left, right),
    })
}

/// Asks whether two pointers may be told equal or unequal. It is refused with both spots: Dangling,
/// then Unrelated, for two objects where one pointer is one past the end of its own.
pub fn check_equality(objects: &[Object], left: Spot, right: Spot) -> Result<(), Wrong>
    ensures { Finds result (judge (map object_tree objects.now) (looks (pair_operand (Some left) (Some right)) equality_checks)) }
{
    let kind = if is_dead(left) || is_dead(right) {
        WrongKind::Dangling
    } else if is_doubtful(objects, left, right) {
        WrongKind::Unrelated
    } else {
        return Ok(());
    };
    Err(Wrong {
        kind,
        operand: Example::Points(left, right),
    })
}

fn is_null(spot: Spot) -> bool
    ensures { result ≡ is_null_spot spot }
{
    matches!(spot, Spot::Null)
}

fn is_dead(spot: Spot) -> bool
    ensures { result ≡ is_dead_spot spot }
{
    matches!(spot, Spot::Dead)
}

// Two objects, or a distance that is no multiple of the size.
fn is_apart(size: u64, left: Spot, right: Spot) -> bool
    requires size { 0 < size }
    requires left { IsNear left }
    requires right { IsNear right }
    ensures { (objects : List ObjectTree) → result ≡ is_unrelated objects size (Points left right) }
{
    match left {
        Spot::At(object, offset) => match right {
            Spot::At(other, place) => {
                object != other || (offset - place).unsigned_abs() % u128::from(size) != 0
            }
            Spot::Null | Spot::Dead => false,
        },
        Spot::Null | Spot::Dead => false,
    }
}

// Two objects, and one of the two offsets is one past the end.
fn is_doubtful(objects: &[Object], left: Spot, right: Spot) -> bool
    ensures { result ≡ is_unrelated (map object_tree objects.now) 0 (Points left right) }
{
    match left {
        Spot::At(object, offset) => match right {
            Spot::At(other, place) => {
                object != other
                    && (is_end(objects, object, offset) || is_end(objects, other, place))
            }
            Spot::Null | Spot::Dead => false,
        },
        Spot::Null | Spot::Dead => false,
    }
}

fn is_end(objects: &[Object], object: u64, offset: i128) -> bool
    ensures { result ≡ is_end_of (map object_tree objects.now) object offset }
{
    match size_of(objects, object) {
        Some(size) => offset == i128::from(size),
        None => false,
    }
}

/// Asks whether a pointer may be compared with null. It is refused with its spot, for Dangling.
pub fn check_test(at: Spot) -> Result<(), Wrong>
    ensures { (objects : List ObjectTree) → Finds result (judge objects (looks (λ kind. Some (Point at)) (plain_check WrongKind.Dangling ∷ []))) }
{
    if is_dead(at) {
        return Err(Wrong {
            kind: WrongKind::Dangling,
            operand: Example::Point(at),
        });
    }
    Ok(())
}
