// Two pointers that fail.

ghost use Rattle.std.specs.Prelude.{◌≡◌, ◌≤◌, ℕ, ℤ, length, map, MatchOption};
ghost use Rattle.c_syntax.specs.declared.alarm.Spot.{Spot};
ghost use Rattle.c_syntax.specs.declared.alarm.Spot.TheVariants.{At};
ghost use Rattle.c_syntax.specs.Types.{object_tree};
ghost use Rattle.c_syntax.specs.Operand.{Points};
ghost use Rattle.c_syntax.specs.Admission.{IsProperSet, Fails, IsUnrelated};
ghost use Rattle.mem_shown.specs.Decisions.{NamesBelow};
ghost use Rattle.mem_shown.specs.Offsets.{IsAsked};
ghost use Rattle.mem_shown.specs.Pairs.{AreIn, IsNowhere, IsWithOne, AreWanted, AreUnlike};

use crate::place::{Place, first_place};
use crate::span::Span;
use crate::spot::{has, some_spot};
use crate::wanted::Wanted;
use c_syntax::{Check, Object, Pointers, Spot, WrongKind};

// Two pointers, of a comparison or a difference.
#[derive(Clone, Copy)]
pub struct Pair {
    pub left: Spot,
    pub right: Spot,
}

// Two pointers of the sets that fail.
pub fn failing_pair(
    check: &Check,
    left: &Pointers,
    right: &Pointers,
    objects: &[Object],
) -> Option<Pair>
    requires left { IsProperSet left.now }
    requires right { IsProperSet right.now }
    requires left_names { NamesBelow (length objects.now) left.now }
    requires right_names { NamesBelow (length objects.now) right.now }
    ensures { MatchOption result
        ((s t : Spot) → AreIn (map object_tree objects.now) left.now right.now s t → Fails (map object_tree objects.now) check.now (Points s t) → ⊥)
        (λ p. AreIn (map object_tree objects.now) left.now right.now p.left p.right × Fails (map object_tree objects.now) check.now (Points p.left p.right)) }
{
    match check.kind {
        WrongKind::NullUse => with_one(Spot::Null, left, right, objects),
        WrongKind::Dangling => with_one(Spot::Dead, left, right, objects),
        WrongKind::Unrelated if check.size == 0 => at_an_end(left, right, objects),
        WrongKind::Unrelated => unrelated(check.size, left, right, objects),
        _ => None,
    }
}

// Two pointers of which one is this one, which is null or dead: the left one before the right one.
fn with_one(bad: Spot, left: &Pointers, right: &Pointers, objects: &[Object]) -> Option<Pair>
    requires left { IsProperSet left.now }
    requires right { IsProperSet right.now }
    requires left_names { NamesBelow (length objects.now) left.now }
    requires right_names { NamesBelow (length objects.now) right.now }
    requires nowhere { IsNowhere bad }
    ensures { MatchOption result ((s t : Spot) → IsWithOne (map object_tree objects.now) left.now right.now bad s t → ⊥)
        (λ p. IsWithOne (map object_tree objects.now) left.now right.now bad p.left p.right) }
{
    let partner = some_spot(right, objects)?;
    if has(left, bad) {
        return Some(Pair {
            left: bad,
            right: partner,
        });
    }
    let partner = some_spot(left, objects)?;
    if has(right, bad) {
        Some(Pair {
            left: partner,
            right: bad,
        })
    } else {
        None
    }
}

// Two pointers to different objects of which one is one past the end: the left one before the right one.
fn at_an_end(left: &Pointers, right: &Pointers, objects: &[Object]) -> Option<Pair>
    requires left { IsProperSet left.now }
    requires right { IsProperSet right.now }
    requires left_names { NamesBelow (length objects.now) left.now }
    requires right_names { NamesBelow (length objects.now) right.now }
    ensures { MatchOption result
        ((s t : Spot) → AreIn (map object_tree objects.now) left.now right.now s t → IsUnrelated (map object_tree objects.now) 0 (Points s t) → ⊥)
        (λ p. AreIn (map object_tree objects.now) left.now right.now p.left p.right × IsUnrelated (map object_tree objects.now) 0 (Points p.left p.right)) }
{
    match two_objects(left, Wanted::End, right, Wanted::Any, objects) {
        Some(pair) => Some(pair),
        None => two_objects(left, Wanted::Any, right, Wanted::End, objects),
    }
}

// Two pointers to different objects, else two that differ by no multiple of the size.
fn unrelated(size: u64, left: &Pointers, right: &Pointers, objects: &[Object]) -> Option<Pair>
    requires left { IsProperSet left.now }
    requires right { IsProperSet right.now }
    requires left_names { NamesBelow (length objects.now) left.now }
    requires right_names { NamesBelow (length objects.now) right.now }
    requires size { 1 ≤ size }
    ensures { MatchOption result
        ((s t : Spot) → AreIn (map object_tree objects.now) left.now right.now s t → IsUnrelated (map object_tree objects.now) size (Points s t) → ⊥)
        (λ p. AreIn (map object_tree objects.now) left.now right.now p.left p.right × IsUnrelated (map object_tree objects.now) size (Points p.left p.right)) }
{
    match two_objects(left, Wanted::Any, right, Wanted::Any, objects) {
        Some(pair) => Some(pair),
        None => unlike(size, left, right, objects),
    }
}

// Two pointers to different objects, each of which is what is looked for in its set.
fn two_objects(
    left: &Pointers,
    of_left: Wanted,
    right: &Pointers,
    of_right: Wanted,
    objects: &[Object],
) -> Option<Pair>
    requires left { IsProperSet left.now }
    requires right { IsProperSet right.now }
    requires left_names { NamesBelow (length objects.now) left.now }
    requires right_names { NamesBelow (length objects.now) right.now }
    requires of_left { IsAsked of_left }
    requires of_right { IsAsked of_right }
    ensures { MatchOption result
        ((o : ℕ) (d : ℤ) (p : ℕ) (e : ℤ) → AreWanted (map object_tree objects.now) left.now of_left right.now of_right o d p e → ⊥)
        (λ pair. (o : ℕ) × (d : ℤ) × (p : ℕ) × (e : ℤ) × (pair.left ≡ At o d) × (pair.right ≡ At p e) ×
        AreWanted (map object_tree objects.now) left.now of_left right.now of_right o d p e) }
{
    let first = first_place(left, objects, of_left, None)?;
    if let Some(second) = first_place(right, objects, of_right, Some(first.object)) {
        return Some(to_places(first, second));
    }
    let second = first_place(right, objects, of_right, None)?;
    let first = first_place(left, objects, of_left, Some(second.object))?;
    Some(to_places(first, second))
}

// Two pointers into objects whose offsets differ by no multiple of the size.
fn unlike(size: u64, left: &Pointers, right: &Pointers, objects: &[Object]) -> Option<Pair>
    requires left { IsProperSet left.now }
    requires right { IsProperSet right.now }
    requires left_names { NamesBelow (length objects.now) left.now }
    requires right_names { NamesBelow (length objects.now) right.now }
    requires size { 1 ≤ size }
    ensures { MatchOption result
        ((o : ℕ) (d : ℤ) (p : ℕ) (e : ℤ) → AreUnlike (map object_tree objects.now) left.now right.now size o d p e → ⊥)
        (λ pair. (o : ℕ) × (d : ℤ) × (p : ℕ) × (e : ℤ) × (pair.left ≡ At o d) × (pair.right ≡ At p e) ×
        AreUnlike (map object_tree objects.now) left.now right.now size o d p e) }
{
    let first = first_place(left, objects, Wanted::Any, None)?;
    let second = first_place(right, objects, Wanted::Any, None)?;
    if let Some(offset) = Span::of_set(left).unlike(second.offset, size) {
        let first = Place {
            object: first.object,
            offset,
        };
        return Some(to_places(first, second));
    }
    let offset = Span::of_set(right).unlike(first.offset, size)?;
    let second = Place {
        object: second.object,
        offset,
    };
    Some(to_places(first, second))
}

// The pointers to the two places.
fn to_places(left: Place, right: Place) -> Pair
    ensures left { result.left ≡ At left.object left.offset }
    ensures right { result.right ≡ At right.object right.offset }
{
    Pair {
        left: Spot::At(left.object, left.offset),
        right: Spot::At(right.object, right.offset),
    }
}
