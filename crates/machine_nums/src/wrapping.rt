// Ranges wrapped into a type.

ghost use Rattle.std.specs.Prelude.{◌≡◌, ◌-ℤ◌, ◌+ℤ◌, ℤ, IfSome};
ghost use Rattle.std.specs.Int.RustNames.{FitsSigned};
ghost use mir.Syntax.{w128};
ghost use Rattle.c_syntax_written.specs.Integer.{wrapped};
ghost use Rattle.num_api.specs.Ranges.{InRange, IsPoint, NoWider};
ghost use Rattle.num_api.specs.Spans.{range_of};
ghost use Rattle.machine_nums.specs.Rule.{type_span};
ghost use Rattle.machine_nums.specs.Wrapping.{IsWrapping, IsTaken};

use crate::range_types::{is_above, lies_in, type_range};
use c_layout::wrap;
use c_syntax_written::IntType;
use ext_int::Ext;
use num_api::{Range, number};

/// What takes the numbers of a range into a type.
#[derive(Clone, Copy)]
pub enum Way {
    /// They are numbers of the type.
    Kept,
    /// They are so with this added, a multiple of how many numbers the type has.
    Shifted(i128),
    /// All of them are this number there.
    Only(i128),
    /// Each is what its bits are as a number of the type.
    ByBits,
}

/// The numbers of a range, wrapped into a type.
#[derive(Clone, Copy)]
pub struct Wrapping {
    pub way: Way,
    pub range: Range,
}

// The sum, where it is an i128.
fn sum(a: i128, b: i128) -> Option<i128>
    ensures { IfSome result (λ s. s ≡ a +ℤ b) }
{
    a.checked_add(b)
}

// The difference, where it is an i128.
fn difference(a: i128, b: i128) -> Option<i128>
    ensures { IfSome result (λ d. d ≡ a -ℤ b) }
{
    a.checked_sub(b)
}

// All numbers of the range with one number added, where that takes all into the type.
fn shifted(r: Range, t: IntType) -> Option<Wrapping>
    ensures taken { IfSome result (λ w. IsTaken t r w.way w.range) }
    ensures point { IfSome result (λ w. (n : ℤ) → IsPoint r n → IsPoint w.range (wrapped t n)) }
{
    let (Ext::Fin(lo), Ext::Fin(hi)) = (r.lo, r.hi) else {
        return None;
    };
    let least = wrap(t, lo);
    let shift = difference(least, lo)?;
    let greatest = sum(hi, shift)?;
    if is_above(greatest, t) {
        return None;
    }
    Some(Wrapping {
        way: Way::Shifted(shift),
        range: Range {
            lo: Ext::Fin(least),
            hi: Ext::Fin(greatest),
        },
    })
}

// The number of a point, and else the numbers of the type.
fn by_bits(r: Range, t: IntType) -> Wrapping
    ensures taken { IsTaken t r result.way result.range }
    ensures point { (n : ℤ) → IsPoint r n → IsPoint result.range (wrapped t n) }
{
    match number(r) {
        Some(n) => {
            let only = wrap(t, n);
            Wrapping {
                way: Way::Only(only),
                range: Range::point(only),
            }
        }
        None => Wrapping {
            way: Way::ByBits,
            range: type_range(t),
        },
    }
}

/// The numbers of the range, wrapped into the type: kept where they are numbers of it, else with one number
/// added where that takes all of them there, else the number of a point, else the numbers of the type.
pub fn wrap_range(r: Range, t: IntType) -> Wrapping
    ensures { IsWrapping t r result.way result.range }
{
    if lies_in(r, t) {
        return Wrapping {
            way: Way::Kept,
            range: r,
        };
    }
    match shifted(r, t) {
        Some(found) => found,
        None => by_bits(r, t),
    }
}
