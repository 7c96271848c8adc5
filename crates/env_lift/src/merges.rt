// Two states at once.

ghost use Rattle.std.specs.Prelude.{◌≡◌, ℕ, ℤ, ◌≤◌, ◌<◌, false, List, IsTrue, IfOk};
ghost use Rattle.num_api.specs.Told.{Keeps};
ghost use Rattle.num_api.specs.Ranges.{NoWider, IsUnder, hull};
ghost use Rattle.num_api.specs.declared.message.Range.{Range};
ghost use Rattle.env_lift.specs.Passes.{all_met};
ghost use Rattle.env_lift.specs.States.{AllAdmit, known_in};
ghost use Rattle.env_lift.specs.Laws.{total_weight};

use crate::map::VarMap;
use num_api::{Ramp, Steps, ValueDomain};
use std::alloc::{AllocError as NoMemory, Global};

// The variables that both states have, each with the join of its values.
pub fn joined<V: ValueDomain>(
    alloc: Global,
    first: &VarMap<V>,
    second: &VarMap<V>,
) -> Result<VarMap<V>, NoMemory>
    ensures left { IfOk result (λ s. (v : List ℤ) → AllAdmit V.admits first.now v → AllAdmit V.admits s v) }
    ensures right { IfOk result (λ s. (v : List ℤ) → AllAdmit V.admits second.now v → AllAdmit V.admits s v) }
    ensures plain { IfOk result (λ s. (given found : ℕ → Range) → IsTrue V.exact → IsUnder (known_in V.known first.now) given
        → IsUnder (known_in V.known second.now) found → IsUnder (known_in V.known s) (λ x. hull (given x) (found x))) }
{
    first.merge(
        second,
        alloc,
        |a: V, b: V| -> V
            ensures left { (n : ℤ) → V.admits a n → V.admits result n }
            ensures right { (n : ℤ) → V.admits b n → V.admits result n }
            ensures plain { IsTrue V.exact → NoWider (V.known result) (hull (V.known a) (V.known b)) }
        { a.join(&b) },
    )
}

// The variables that both states have, each with its value widened by the second one.
pub fn widened<V: ValueDomain, U: Fn(i128) -> Option<i128>, S: Steps>(
    alloc: Global,
    first: &VarMap<V>,
    second: &VarMap<V>,
    ramp: &Ramp<U>,
) -> Result<VarMap<V>, NoMemory>
    requires { Keeps U.pre U.post ramp.now S.list }
    ensures left { IfOk result (λ s. (v : List ℤ) → AllAdmit V.admits first.now v → AllAdmit V.admits s v) }
    ensures right { IfOk result (λ s. (v : List ℤ) → AllAdmit V.admits second.now v → AllAdmit V.admits s v) }
    ensures no_rise { IfOk result (λ s. total_weight (V.weight S.list) s ≤ total_weight (V.weight S.list) first.now) }
    ensures falls { IfOk result (λ s. all_met V.holds first.now second.now ≡ false
        → total_weight (V.weight S.list) s < total_weight (V.weight S.list) first.now) }
{
    first.merge(
        second,
        alloc,
        |a: V, b: V| -> V
            requires { Keeps U.pre U.post ramp.now S.list }
            ensures left { (n : ℤ) → V.admits a n → V.admits result n }
            ensures right { (n : ℤ) → V.admits b n → V.admits result n }
            ensures no_rise { V.weight S.list result ≤ V.weight S.list a }
            ensures falls { V.holds a b ≡ false → V.weight S.list result < V.weight S.list a }
        { a.widen::<U, S>(&b, ramp) },
    )
}

// Whether the second state has each variable of the first, with a value that the first's holds.
pub fn covers_all<V: ValueDomain>(first: &VarMap<V>, second: &VarMap<V>) -> bool
    ensures value { result ≡ all_met V.holds first.now second.now }
    ensures included { IsTrue result → (v : List ℤ) → AllAdmit V.admits second.now v → AllAdmit V.admits first.now v }
{
    first.all_met(
        second,
        |a: V, b: V| -> bool
            ensures value { result ≡ V.holds a b }
            ensures included { IsTrue result → (n : ℤ) → V.admits b n → V.admits a n }
        { a.covers(&b) },
    )
}
