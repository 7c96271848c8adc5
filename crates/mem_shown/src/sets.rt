// Sets of no pointer, of all, and of one alone.

ghost use Rattle.std.specs.Prelude.{◌≡◌, ℤ, ℕ, if◌then◌else◌, IfOk};
ghost use Rattle.c_syntax.specs.declared.alarm.Spot.TheVariants.{Null, Dead, At};
ghost use Rattle.mem_shown.specs.Sets.{IsModerate, IsModerateSpot, HasNone, HasAll, HasAlone};

use c_syntax::{Numbers, Pointers, Spot};
use std::alloc::{AllocError as NoMemory, Global};

/// The set of no pointer.
pub fn no_pointer(alloc: Global) -> Pointers
    ensures { HasNone result }
{
    Pointers {
        any: false,
        null: false,
        dead: false,
        names: Numbers::new(alloc),
        lo: None,
        hi: None,
        modulus: 1,
        rem: 0,
    }
}

/// The set of all pointers of the program.
pub fn any_pointer(alloc: Global) -> Pointers
    ensures { HasAll result }
{
    Pointers {
        any: true,
        null: true,
        dead: true,
        names: Numbers::new(alloc),
        lo: None,
        hi: None,
        modulus: 1,
        rem: 0,
    }
}

/// The set of the null pointer alone.
pub fn null_pointer(alloc: Global) -> Pointers
    ensures { HasAlone Null result }
{
    nowhere(alloc, true)
}

/// The set of this pointer alone. Its offset is at most 2^126 in size.
pub fn spot_pointer(alloc: Global, spot: Spot) -> Result<Pointers, NoMemory>
    requires { IsModerateSpot spot }
    ensures { IfOk result (λ set. HasAlone spot set) }
{
    match spot {
        Spot::Null => Ok(null_pointer(alloc)),
        Spot::Dead => Ok(nowhere(alloc, false)),
        Spot::At(object, offset) => at(alloc, object, offset),
    }
}

// The null pointer alone, or those to objects that have ended.
fn nowhere(alloc: Global, null: bool) -> Pointers
    ensures { HasAlone (if null then Null else Dead) result }
{
    Pointers {
        any: false,
        null,
        dead: !null,
        names: Numbers::new(alloc),
        lo: None,
        hi: None,
        modulus: 1,
        rem: 0,
    }
}

// The pointer to an offset of an object.
fn at(alloc: Global, object: u64, offset: i128) -> Result<Pointers, NoMemory>
    requires { IsModerate offset }
    ensures { IfOk result (λ set. HasAlone (At object offset) set) }
{
    let names = vec![in alloc; object; 1]?;
    Ok(Pointers {
        any: false,
        null: false,
        dead: false,
        names: Numbers::from_vec(names),
        lo: Some(offset),
        hi: Some(offset),
        modulus: 1,
        rem: 0,
    })
}
