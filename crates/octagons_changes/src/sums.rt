// Bounds of sums, by variables.

ghost use Rattle.std.specs.Prelude.{◌≡◌, ℤ, List, ◌+ℤ◌};
ghost use Rattle.ext_int.specs.Ext.{Above};
ghost use Rattle.bound_matrix.specs.Bound.{InRange};
ghost use Rattle.octagons_linear.specs.Forms.{signed_value};
ghost use Rattle.octagons_changes.specs.States.{Admits};
ghost use Rattle.octagons_changes.specs.Lowerings.{sum_bound};

use crate::lowering::index_of;
use crate::relations::Relations;
use ext_int::Ext;
use octagons_linear::Signed;
use octagons_pack::place_of;

impl Relations {
    /// The bound of the sum of two variables, each with its sign: `High` where there is none.
    pub fn sum_bound(&self, s: Signed, t: Signed) -> Ext
        ensures value { result ≡ sum_bound self.now s t }
        ensures range { InRange result }
        ensures above { (v : List ℤ) → Admits self.now v → Above result (signed_value v s +ℤ signed_value v t) }
    {
        let pack = self.pack();
        match (place_of(pack, s.var), place_of(pack, t.var)) {
            (Some(k), Some(l)) => { self.bound(index_of(l, !t.negated), index_of(k, s.negated)) }
            _ => Ext::High,
        }
    }
}
