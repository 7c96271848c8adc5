// Bounds as messages.

ghost use Rattle.std.specs.Prelude.{◌≡◌, ℤ, List, ◌*ℤ◌, IfSome};
ghost use Rattle.bound_matrix.specs.Points.{signed};
ghost use Rattle.num_api.specs.Messages.{Holds, IsProper, IsSign};
ghost use Rattle.octagons_linear.specs.Forms.{with_sign, signed_value};
ghost use Rattle.octagons_pack.specs.Packs.{picked};
ghost use Rattle.octagons_changes.specs.States.{Admits};

use crate::ranges::own_range;
use crate::reading::plus;
use ext_int::Ext;
use num_api::{Message, Var};
use octagons_changes::Relations;
use octagons_linear::{Signed, turned};

// The sign of a variable.
fn sign(s: Signed) -> i8
    ensures proper { IsSign result }
    ensures value { (n : ℤ) → (result *ℤ n) ≡ with_sign s.negated n }
{
    if s.negated { -1 } else { 1 }
}

// The variable that an index stands for, with its sign.
fn signed_at(pack: &[u64], p: u32) -> Option<Signed>
    ensures { IfSome result (λ s. (v : List ℤ) → signed_value v s ≡ signed (picked v pack.now) p) }
{
    let var = *pack.get((p / 2) as usize)?;
    Some(Signed {
        var,
        negated: p % 2 == 1,
    })
}

// That a variable lies in its range.
pub(crate) fn own_message(known: &Relations, x: u64) -> Message
    ensures proper { IsProper result }
    ensures holds { (v : List ℤ) → Admits known.now v → Holds v result }
{
    let x = Var(x);
    Message::Between(x, own_range(known, plus(x)))
}

// That a bound of two indices holds, where there is one.
pub(crate) fn pair_message(known: &Relations, p: u32, q: u32) -> Option<Message>
    ensures proper { IfSome result IsProper }
    ensures holds { IfSome result (λ m. (v : List ℤ) → Admits known.now v → Holds v m) }
{
    let s = signed_at(known.pack(), q)?;
    let t = turned(signed_at(known.pack(), p)?);
    match known.bound(p, q) {
        Ext::Fin(bound) => Some(Message::AtMost {
            sx: sign(s),
            x: Var(s.var),
            sy: sign(t),
            y: Var(t.var),
            bound,
        }),
        _ => None,
    }
}
