// Exact results that pass their check.
#![tactic(auto, using(machine_nums::proofs::Trees::mexpr_trees))]

ghost use Rattle.std.specs.Prelude.{◌≡◌, ℤ, List, IfOk, IfSome};
ghost use Rattle.c_syntax_written.specs.declared.int_type.IntType.TheVariants.{Long};
ghost use Rattle.machine_nums.specs.MExprs.{mexpr_tree, type_of};
ghost use Rattle.machine_nums.specs.Machine.{exact_value};
ghost use Rattle.csharp.specs.Trees.{csexpr_tree};
ghost use Rattle.mem_cell_shows.specs.Changes.{HasExactIn, KeepsEach, KeepsShape};

use crate::betweens::keep_between;
use crate::exacts::exact;
use c_syntax::IntType;
use csharp::CsExpr;
use ext_int::Live;
use machine_nums::MExpr;
use mem_cell_exprs::{Known, is_long};
use num_api::NumDomain;
use std::alloc::AllocError as NoMemory;

// The outermost operator at the type of a long: its exact result is the same.
fn widened(m: MExpr) -> Option<MExpr>
    ensures exact { IfSome result (λ w. (v : List ℤ) → exact_value v (mexpr_tree w) ≡ exact_value v (mexpr_tree m)) }
    ensures long { IfSome result (λ w. type_of (mexpr_tree w) ≡ Long) }
{
    match m {
        MExpr::Unary(op, _, a) => Some(MExpr::Unary(op, IntType::Long, a)),
        MExpr::Binary(op, _, a, b) => Some(MExpr::Binary(op, IntType::Long, a, b)),
        MExpr::Const(_, _) | MExpr::Read(_, _) | MExpr::Convert(_, _) => None,
    }
}

/// Keeps the states in which the exact result of an expression lies between two numbers, where it is known to be a long.
pub fn keep_exact<D: NumDomain>(
    known: &mut Known<D>,
    e: &CsExpr,
    lo: i128,
    hi: i128,
) -> Result<Live, NoMemory>
    ensures shape { KeepsShape known.old known.new }
    ensures stands { IfOk result (λ live. KeepsEach D.admits known.old known.new live (λ objects s st. HasExactIn (csexpr_tree e.now) lo hi s)) }
{
    let Some(m) = exact(known.alloc, known.types.as_slice(), e)? else {
        return Ok(Live::Live);
    };
    let Some(wide) = widened(m) else {
        return Ok(Live::Live);
    };
    if !is_long(&known.nums, &wide)? {
        return Ok(Live::Live);
    }
    keep_between(known, wide, lo, hi)
}
