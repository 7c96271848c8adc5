// Places in the objects of a set.

ghost use Rattle.std.specs.Prelude.{◌≡◌, ◌<◌, ◌⊎◌, ℕ, ℤ, length, map, Contains, All, MatchOption, None, Some};
ghost use Rattle.c_syntax.specs.Types.{object_tree};
ghost use Rattle.c_syntax.specs.Admission.{IsProperSet};
ghost use Rattle.mem_shown.specs.Decisions.{NamesBelow};
ghost use Rattle.mem_shown.specs.Spans.{IsSpan};
ghost use Rattle.mem_shown.specs.Offsets.{IsAsked, IsHitAt, IsWanted};

use crate::span::Span;
use crate::wanted::{Search, Wanted};
use c_syntax::{Object, Pointers};

// An offset in bytes in an object.
#[derive(Clone, Copy)]
pub struct Place {
    pub object: u64,
    pub offset: i128,
}

// The place that is looked for in the set, but in one object that may be left out: that in the least object.
pub fn first_place(
    set: &Pointers,
    objects: &[Object],
    wanted: Wanted,
    except: Option<u64>,
) -> Option<Place>
    requires proper { IsProperSet set.now }
    requires names { NamesBelow (length objects.now) set.now }
    requires asked { IsAsked wanted }
    ensures { MatchOption result ((o : ℕ) (d : ℤ) → IsWanted (map object_tree objects.now) set.now wanted except o d → ⊥)
        (λ p. IsWanted (map object_tree objects.now) set.now wanted except p.object p.offset) }
{
    let search = Search {
        span: Span::of_set(set),
        wanted,
        except,
    };
    if set.any {
        first_of_all(objects, search)
    } else {
        first_named(set.names.as_slice(), objects, search)
    }
}

// The place that is looked for in the least object.
fn first_of_all(objects: &[Object], search: Search) -> Option<Place>
    requires span { IsSpan search.span }
    requires asked { IsAsked search.wanted }
    ensures { MatchOption result ((o : ℕ) (d : ℤ) → IsHitAt (map object_tree objects.now) search o d → ⊥)
        (λ p. IsHitAt (map object_tree objects.now) search p.object p.offset) }
{
    for (number, object) in objects.iter().enumerate() {
        if let Some(offset) = search.offset(number as u64, object) {
            return Some(Place {
                object: number as u64,
                offset,
            });
        }
    }
    None
}

// The place that is looked for in the least object of these.
fn first_named(names: &[u64], objects: &[Object], search: Search) -> Option<Place>
    requires span { IsSpan search.span }
    requires asked { IsAsked search.wanted }
    requires names { All (λ o. o < length objects.now) names.now }
    ensures { MatchOption result ((o : ℕ) (d : ℤ) → Contains names.now o → IsHitAt (map object_tree objects.now) search o d → ⊥)
        (λ p. Contains names.now p.object × IsHitAt (map object_tree objects.now) search p.object p.offset) }
{
    let mut first = None;
    for number in names {
        let object = &objects[*number as usize];
        let offset = search.offset(*number, object);
        first = lesser(first, *number, offset);
    }
    first
}

// The place in the lesser object of two, either of which may be missing.
fn lesser(first: Option<Place>, number: u64, offset: Option<i128>) -> Option<Place>
    ensures { MatchOption result ((first ≡ None) × (offset ≡ None)) (λ p. (first ≡ Some p) ⊎ ((p.object ≡ number) × (offset ≡ Some p.offset))) }
{
    match offset {
        None => first,
        Some(offset) => match first {
            Some(other) if other.object < number => Some(other),
            _ => Some(Place {
                object: number,
                offset,
            }),
        },
    }
}
