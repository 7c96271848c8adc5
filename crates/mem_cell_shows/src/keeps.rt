// One thing more that is known of each state.
#![tactic(auto, using(csharp::proofs::CodeTrees::the_code_trees))]

ghost use Rattle.std.specs.Prelude.{◌≡◌, ℤ, Some, IfOk, IsTrue};
ghost use Rattle.block_mem.specs.declared.types.Value.{Value};
ghost use Rattle.num_api.specs.Value.{has_truth};
ghost use Rattle.machine_nums.specs.MExprs.{mexpr_tree};
ghost use Rattle.machine_nums.specs.Machine.{machine_value};
ghost use Rattle.csharp.specs.Trees.{csexpr_tree};
ghost use Rattle.csharp.specs.States.{value_of};
ghost use Rattle.mem_cell_bytes.specs.Cells.{Points};
ghost use Rattle.mem_cell_shows.specs.Addresses.{IsAddress};
ghost use Rattle.mem_cell_shows.specs.Changes.{KeepsEach, KeepsShape, own_temp};

use crate::cuts::is_nothing;
use csharp::CsExpr;
use ext_int::Live;
use machine_nums::MExpr;
use mem_cell_bytes::SharedSet;
use mem_cell_exprs::Known;
use num_api::NumDomain;
use pointsets::Targets;
use std::alloc::AllocError as NoMemory;

/// Keeps the states in which numbers have a truth.
pub fn keep_number<D: NumDomain>(
    known: &mut Known<D>,
    m: &MExpr,
    truth: bool,
) -> Result<Live, NoMemory>
    ensures shape { KeepsShape known.old known.new }
    ensures stands { IfOk result (λ live. KeepsEach D.admits known.old known.new live
        (λ objects s st. (n : ℤ) × (machine_value st.v (mexpr_tree m.now) ≡ Some n) × IsTrue (has_truth truth n))) }
{
    known.nums.test(m, truth)
}

// The temporary that an expression is.
fn temp_of(e: &CsExpr) -> Option<u64>
    ensures { result ≡ own_temp (csexpr_tree e.now) }
{
    match e {
        CsExpr::Temp { temp } => Some(*temp),
        CsExpr::Const { .. }
        | CsExpr::Null
        | CsExpr::Address { .. }
        | CsExpr::Unary { .. }
        | CsExpr::Binary { .. }
        | CsExpr::Convert { .. } => None,
    }
}

/// Keeps the states in which an expression points to what a set has.
pub fn keep_set<D: NumDomain>(
    known: &mut Known<D>,
    e: &CsExpr,
    set: Targets,
) -> Result<Live, NoMemory>
    ensures shape { KeepsShape known.old known.new }
    ensures stands { IfOk result (λ live. KeepsEach D.admits known.old known.new live
        (λ objects s st. (u : Value) × (value_of (csexpr_tree e.now) s ≡ Some u) × IsAddress u × Points s.memory set u)) }
{
    if is_nothing(&set) {
        return Ok(Live::Dead);
    }
    match temp_of(e) {
        Some(temp) => {
            let shared = SharedSet::of(known.alloc, set)?;
            known.pointers.put(temp, Some(shared));
            Ok(Live::Live)
        }
        None => Ok(Live::Live),
    }
}
