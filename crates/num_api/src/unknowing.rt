// An oracle that knows nothing.

ghost use Rattle.std.specs.Prelude.{false, refl};
ghost use Rattle.num_api.specs.Ranges.{all_numbers};

use crate::{NExpr, Oracle, Range, Residue, Var};

/// Whom a domain asks where there is no other one: it admits every valuation and answers that
/// anything may be so.
#[derive(Clone, Copy)]
pub struct Unknowing;

impl Oracle for Unknowing {
    ghost admits = { λ s v. Unit {0} };

    ghost exact = { false };

    ghost known = { λ s x. all_numbers };

    ghost known_holds = { λ s v x a. record { low = tt; high = tt } };

    ghost known_some = { λ s x e. refl };

    ghost may_range = { λ s e r. Unit {0} };

    ghost may_residue = { λ s e r. Unit {0} };

    ghost may_be_same = { λ s x e. Unit {0} };

    fn range(&self, _e: &NExpr) -> Range {
        Range::all()
    }

    fn residue(&self, _e: &NExpr) -> Residue {
        Residue { rem: 0, modulus: 1 }
    }

    fn same(&self, _x: Var) -> Option<&NExpr> {
        None
    }
}
