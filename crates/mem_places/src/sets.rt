// What is shown of an address in a named object.

ghost use Rattle.std.specs.Prelude.{◌≡◌, ◌≤ℤ◌, ℕ, ℤ, pos, neg_ℤ, ◌^◌, List, IfOk, IfSome, IsTrue, ◌↔◌};
ghost use Rattle.mem_shown.specs.Sets.{IsModerate};
ghost use Rattle.num_api.specs.Fold.{IsAlignment};
ghost use Rattle.csharp.specs.Formed.{AreOperandsTyped};
ghost use Rattle.csharp.specs.Trees.{CsProgramTree, csexpr_tree};
ghost use Rattle.mem_places.specs.ShownPlaces.{IsShownOffset, IsShownPlace, set_at, set_of};

use crate::offsets::fixed_offset;
use crate::places::{NamedPlace, named_place};
use c_syntax::{Numbers, Pointers};
use csharp::CsExpr;
use std::alloc::{AllocError as NoMemory, Global};

// The greatest size of an offset that may be shown.
const GREATEST: i128 = 0x4000_0000_0000_0000_0000_0000_0000_0000;

// Whether the offset may be shown.
fn is_moderate(offset: i128) -> bool
    ensures { IsTrue result ↔ IsModerate offset }
{
    -GREATEST <= offset && offset <= GREATEST
}

// The one offset of an address, where that is known and may be shown.
fn shown_offset(alloc: Global, e: &CsExpr) -> Result<Option<i128>, NoMemory>
    requires { (q : CsProgramTree) × AreOperandsTyped q (csexpr_tree e.now) }
    ensures { IfOk result (λ o. IsShownOffset (csexpr_tree e.now) o) }
{
    match fixed_offset(alloc, e)? {
        Some(offset) => {
            if is_moderate(offset) {
                Ok(Some(offset))
            } else {
                Ok(None)
            }
        }
        None => Ok(None),
    }
}

// One offset of an object.
fn at_offset(names: Numbers, offset: i128) -> Pointers
    ensures { result ≡ set_at names offset }
{
    Pointers {
        any: false,
        null: false,
        dead: false,
        names,
        lo: Some(offset),
        hi: Some(offset),
        modulus: 0,
        rem: offset,
    }
}

// The multiples of an alignment as offsets of an object.
fn multiples(names: Numbers, unit: i128) -> Pointers
    ensures { result ≡ set_of names unit }
{
    Pointers {
        any: false,
        null: false,
        dead: false,
        names,
        lo: None,
        hi: None,
        modulus: unit,
        rem: 0,
    }
}

/// What is shown of an address in a named object: the object alone, at its one offset where that is known and may
/// be shown, and else at the multiples of the greatest alignment of which its steps are.
pub fn shown_place(alloc: Global, e: &CsExpr) -> Result<Option<Pointers>, NoMemory>
    requires { (q : CsProgramTree) × AreOperandsTyped q (csexpr_tree e.now) }
    ensures { IfOk result (λ shown. IsShownPlace (csexpr_tree e.now) shown) }
{
    let NamedPlace { object, unit } = match named_place(e) {
        Some(place) => place,
        None => return Ok(None),
    };
    let names = Numbers::from_vec(vec![in alloc; object; 1]?);
    match shown_offset(alloc, e)? {
        Some(offset) => Ok(Some(at_offset(names, offset))),
        None => Ok(Some(multiples(names, unit))),
    }
}
