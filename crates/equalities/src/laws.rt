// What ties the calls to each other.
#![tactic(auto, using(num_api::proofs::Trees::nexpr_trees))]

ghost use Rattle.std.specs.Prelude.{◌≡◌, false, IsTrue, IfOk};
ghost use Rattle.num_api.specs.Exprs.{nexpr_tree};
ghost use Rattle.num_api.specs.Reading.{reads};

use crate::state::Equalities;
use num_api::{Messages, NExpr, NumDomain, Oracle, Unknowing, Var};
use std::alloc::{AllocError as NoMemory, Global};

/// Assigns the expression, and tells whether `same` answers it then: it does wherever the expression does not
/// read the variable.
pub fn answers_assigned(
    alloc: Global,
    state: &mut Equalities,
    x: Var,
    e: &NExpr,
) -> Result<bool, NoMemory>
    ensures { IfOk result (λ answer. reads x.0 (nexpr_tree e.now) ≡ false → IsTrue answer) }
{
    let mut out = Messages::new(alloc);
    state.assign(x, e, &Unknowing, &mut out)?;
    match state.same(x) {
        Some(told) => Ok(told.is_same(e)),
        None => Ok(false),
    }
}
