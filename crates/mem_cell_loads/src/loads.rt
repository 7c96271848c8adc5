// Loads.

ghost use Rattle.std.specs.Prelude.{◌≡◌, ◌*◌, ◌<◌, ◌≤◌, ℕ, List, IfOk, IfSome, OnOk, Some, slice_get};
ghost use Rattle.c_syntax.specs.Types.{ObjectTree};
ghost use Rattle.machine_nums.specs.MExprs.{mexpr_tree};
ghost use Rattle.csharp.specs.Trees.{csexpr_tree};
ghost use Rattle.csharp.specs.States.{State};
ghost use Rattle.csharp.specs.Actions as acts;
ghost use Rattle.mem_cell_bytes.specs.Stands.{Has};
ghost use Rattle.mem_cell_exprs.specs.Known.{StandsFor};
ghost use Rattle.mem_cell_loads.specs.Found.{IsNumberAt};
ghost use Rattle.mem_cell_loads.specs.Reads.{IsContentBehind};

use crate::along::read_all;
use crate::content::{Content, anything, put_number, set_for};
use crate::found::{find, scalar_size};
use crate::numbers::number_of;
use crate::reach::{Reach, place_at, reach_of};
use block_mem::Scalar;
use csharp::CsExpr;
use machine_nums::MExpr;
use mem_cell_exprs::{Known, temp_variable};
use num_api::NumDomain;
use std::alloc::AllocError as NoMemory;

// The number that a load gives, where there is one place.
fn only_number<D: NumDomain>(
    known: &Known<D>,
    reach: &Reach,
    ty: Scalar,
) -> Result<Option<MExpr>, NoMemory>
    ensures { IfOk result (λ found. IfSome found (λ m. (o i : ℕ) → Has reach.now.objects.items o → reach.now.first ≤ i → i < reach.now.end
        → IsNumberAt D.admits known.now o (i * reach.now.step) ty (mexpr_tree m))) }
{
    if reach.objects.len() != 1 {
        return Ok(None);
    }
    if reach.end > reach.first && reach.end - reach.first > 1 {
        return Ok(None);
    }
    let object = reach.objects[0];
    let at = place_at(reach.first, reach.step);
    let found = find(&known.grid, object, at, scalar_size(ty))?;
    number_of(known, object, at, ty, &found)
}

// What a load of a type through an address finds.
fn load_found<D: NumDomain>(
    known: &Known<D>,
    address: &CsExpr,
    ty: Scalar,
) -> Result<Content, NoMemory>
    ensures { IfOk result (λ l. IsContentBehind D.admits known.now (csexpr_tree address.now) ty l) }
{
    let Some(reach) = reach_of(known, address, ty)? else {
        return Ok(anything());
    };
    let reading = read_all(known, &reach, ty)?;
    let number = only_number(known, &reach, ty)?;
    Ok(Content {
        number,
        range: reading.range,
        set: reading.set,
    })
}

/// Puts what stands at an address into a temporary of this type.
pub fn load<D: NumDomain>(
    known: &mut Known<D>,
    temp: u64,
    address: &CsExpr,
    ty: Scalar,
) -> Result<(), NoMemory>
    requires { slice_get known.old.types temp ≡ Some ty }
    ensures types { known.new.types ≡ known.old.types }
    ensures grid { known.new.grid ≡ known.old.grid }
    ensures stands { OnOk result ((objects : List ObjectTree) (s t : State) → StandsFor D.admits objects known.old s
        → acts.load temp ty (csexpr_tree address.now) s ≡ Some t → StandsFor D.admits objects known.new t) }
{
    let loaded = load_found(known, address, ty)?;
    let x = temp_variable(known.types.as_slice(), temp);
    put_number(&mut known.nums, x, ty, &loaded)?;
    known.pointers.put(temp, set_for(ty, loaded.set));
    Ok(())
}
