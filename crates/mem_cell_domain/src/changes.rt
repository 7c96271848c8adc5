// Temporaries that get values.

ghost use Rattle.std.specs.Prelude.{◌≡◌, ◌<◌, List, OnOk, Some, length, slice_get};
ghost use Rattle.c_syntax.specs.Types.{ObjectTree};
ghost use Rattle.block_mem.specs.declared.types.Scalar.TheVariants as scalars;
ghost use Rattle.csharp.specs.Trees.{csexpr_tree};
ghost use Rattle.csharp.specs.States.{State};
ghost use Rattle.csharp.specs.Actions as acts;
ghost use Rattle.mem_cell_exprs.specs.Known.{StandsFor};
ghost use Rattle.mem_cell_domain.specs.Lives.{IsTypedIn};

use crate::values::content_of;
use block_mem::Scalar;
use c_syntax::IntType;
use csharp::CsExpr;
use mem_cell_exprs::{Known, temp_variable};
use mem_cell_loads::put_number;
use num_api::NumDomain;
use std::alloc::AllocError as NoMemory;

/// The type of a temporary.
pub fn type_at(types: &[Scalar], temp: u64) -> Scalar
    requires { temp < length types.now }
    ensures { slice_get types.now temp ≡ Some result }
{
    types[temp as usize]
}

/// Puts a value into a temporary of its type.
pub fn set<D: NumDomain>(
    known: &mut Known<D>,
    temp: u64,
    ty: Scalar,
    value: &CsExpr,
) -> Result<(), NoMemory>
    requires { slice_get known.old.types temp ≡ Some ty }
    ensures types { known.new.types ≡ known.old.types }
    ensures stands { OnOk result ((objects : List ObjectTree) (s t : State) → StandsFor D.admits objects known.old s → IsTypedIn ty (csexpr_tree value.now) s
        → acts.set temp (csexpr_tree value.now) s ≡ Some t → StandsFor D.admits objects known.new t) }
{
    let content = content_of(known, ty, value)?;
    let x = temp_variable(known.types.as_slice(), temp);
    put_number(&mut known.nums, x, ty, &content)?;
    known.pointers.put(temp, content.set);
    Ok(())
}

/// Puts the next input, wrapped to this type, into a temporary.
pub fn input<D: NumDomain>(known: &mut Known<D>, temp: u64, ty: IntType) -> Result<(), NoMemory>
    requires { slice_get known.old.types temp ≡ Some (scalars.Int ty) }
    ensures types { known.new.types ≡ known.old.types }
    ensures stands { OnOk result ((objects : List ObjectTree) (s t : State) → StandsFor D.admits objects known.old s
        → acts.input temp ty s ≡ Some t → StandsFor D.admits objects known.new t) }
{
    let x = temp_variable(known.types.as_slice(), temp);
    known.nums.havoc(x, ty)?;
    known.pointers.put(temp, None);
    Ok(())
}
