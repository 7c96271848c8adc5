// Ends of exact results and of values.
#![tactic(auto)]

ghost use Rattle.std.specs.Prelude.{IfOk};
ghost use Rattle.machine_nums.specs.MExprs.{mexpr_tree};
ghost use Rattle.machine_nums.specs.Machine.{exact_value, machine_value};
ghost use Rattle.machine_nums.specs.Machines.{Admits};
ghost use Rattle.mem_cell_shows.specs.Ends.{HoldsNumbers};

use crate::ends::Ends;
use crate::nodes::convert_node;
use machine_nums::{MExpr, Machine};
use num_api::NumDomain;
use std::alloc::{AllocError as NoMemory, Global};

/// What holds the exact result of the outermost node.
pub fn exact_ends<D: NumDomain>(nums: &Machine<D>, m: &MExpr) -> Result<Ends, NoMemory>
    ensures { IfOk result (λ w. HoldsNumbers (Admits D.admits nums.now) (λ v. exact_value v (mexpr_tree m.now)) w) }
{
    let (range, class) = nums.check_range(m)?;
    Ok(Ends::of(range, class))
}

/// What holds the value.
pub fn value_ends<D: NumDomain>(
    alloc: Global,
    nums: &Machine<D>,
    m: MExpr,
) -> Result<Ends, NoMemory>
    ensures { IfOk result (λ w. HoldsNumbers (Admits D.admits nums.now) (λ v. machine_value v (mexpr_tree m)) w) }
{
    let ty = m.int_type();
    let whole = convert_node(alloc, ty, m)?;
    exact_ends(nums, &whole)
}
