// Pointers of a set that fail.

ghost use Rattle.std.specs.Prelude.{◌≡◌, ◌↔◌, ℕ, ℤ, List, length, map, MatchOption, IsTrue, None};
ghost use Rattle.c_syntax.specs.declared.alarm.Spot.{Spot};
ghost use Rattle.c_syntax.specs.declared.alarm.Spot.TheVariants.{At};
ghost use Rattle.c_syntax.specs.Types.{ObjectTree, object_tree};
ghost use Rattle.c_syntax.specs.Operand.{Point};
ghost use Rattle.c_syntax.specs.Admission.{IsProperSet, IsSpotIn, Fails};
ghost use Rattle.mem_shown.specs.Decisions.{HasFields, NamesBelow};
ghost use Rattle.mem_shown.specs.Offsets.{IsAsked, IsWanted};
ghost use Rattle.mem_shown.specs.Pairs.{IsNowhere};

use crate::place::first_place;
use crate::wanted::Wanted;
use c_syntax::{Check, Object, Pointers, Spot, WrongKind};

// The pointer of the set that fails: in the least object, nearest to it.
pub fn failing_spot(check: &Check, set: &Pointers, objects: &[Object]) -> Option<Spot>
    requires fields { HasFields check.now }
    requires proper { IsProperSet set.now }
    requires names { NamesBelow (length objects.now) set.now }
    ensures { MatchOption result
        ((s : Spot) → IsSpotIn (map object_tree objects.now) set.now s → Fails (map object_tree objects.now) check.now (Point s) → ⊥)
        (λ s. IsSpotIn (map object_tree objects.now) set.now s × Fails (map object_tree objects.now) check.now (Point s)) }
{
    match check.kind {
        WrongKind::NullUse => nowhere(set, Spot::Null),
        WrongKind::Dangling => nowhere(set, Spot::Dead),
        WrongKind::Bounds => at_object(set, objects, Wanted::Outside),
        WrongKind::Access => at_object(set, objects, Wanted::NoRoom(check.size)),
        WrongKind::Alignment => at_object(set, objects, Wanted::Unaligned(check.align)),
        WrongKind::ReadOnly => at_object(set, objects, Wanted::ReadOnly),
        _ => None,
    }
}

// This pointer, which is null or dead, where the set has it.
fn nowhere(set: &Pointers, spot: Spot) -> Option<Spot>
    requires { IsNowhere spot }
    ensures { (objects : List ObjectTree) → MatchOption result (IsSpotIn objects set.now spot → ⊥) (λ s. (s ≡ spot) × IsSpotIn objects set.now spot) }
{
    if has(set, spot) { Some(spot) } else { None }
}

// The pointer of the set to what is looked for, in the least object.
fn at_object(set: &Pointers, objects: &[Object], wanted: Wanted) -> Option<Spot>
    requires proper { IsProperSet set.now }
    requires names { NamesBelow (length objects.now) set.now }
    requires asked { IsAsked wanted }
    ensures { MatchOption result ((o : ℕ) (d : ℤ) → IsWanted (map object_tree objects.now) set.now wanted None o d → ⊥)
        (λ s. (o : ℕ) × (d : ℤ) × (s ≡ At o d) × IsWanted (map object_tree objects.now) set.now wanted None o d) }
{
    let place = first_place(set, objects, wanted, None)?;
    Some(Spot::At(place.object, place.offset))
}

// Whether the set has this pointer, which is null or dead.
pub fn has(set: &Pointers, spot: Spot) -> bool
    requires { IsNowhere spot }
    ensures { (objects : List ObjectTree) → IsTrue result ↔ IsSpotIn objects set.now spot }
{
    match spot {
        Spot::Null => set.any || set.null,
        Spot::Dead => set.any || set.dead,
        Spot::At(_, _) => false,
    }
}

// A pointer of the set: null before dead before one in the least object.
pub fn some_spot(set: &Pointers, objects: &[Object]) -> Option<Spot>
    requires proper { IsProperSet set.now }
    requires names { NamesBelow (length objects.now) set.now }
    ensures { MatchOption result ((s : Spot) → IsSpotIn (map object_tree objects.now) set.now s → ⊥)
        (λ s. IsSpotIn (map object_tree objects.now) set.now s) }
{
    if has(set, Spot::Null) {
        Some(Spot::Null)
    } else if has(set, Spot::Dead) {
        Some(Spot::Dead)
    } else {
        at_object(set, objects, Wanted::Any)
    }
}
