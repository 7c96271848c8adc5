// How the two sides of a comparison stand to each other.

ghost use Rattle.std.specs.Prelude.{◌≡◌, ℤ, IfSome, IfNone, Some, None};
ghost use Rattle.num_api.specs.Value.{binary_value, has_truth};
ghost use Rattle.num_api.specs.Plain.{standing, turned};
ghost use Rattle.num_api.specs.Standings.{standing_of};

use crate::NOp;

/// How a number stands to another one.
#[derive(Clone, Copy, PartialEq, Eq)]
pub enum Standing {
    Less,
    AtMost,
    Greater,
    AtLeast,
    Same,
    Other,
}

/// How the left side of a comparison stands to the right one where it has this truth.
pub fn compared(op: NOp, truth: bool) -> Option<Standing>
    ensures some { IfSome result (λ how. standing op truth ≡ Some (standing_of how)) }
    ensures none { IfNone result (standing op truth ≡ None) }
{
    match op {
        NOp::Eq => Some(if truth {
            Standing::Same
        } else {
            Standing::Other
        }),
        NOp::Ne => Some(if truth {
            Standing::Other
        } else {
            Standing::Same
        }),
        NOp::Lt => Some(if truth {
            Standing::Less
        } else {
            Standing::AtLeast
        }),
        NOp::Le => Some(if truth {
            Standing::AtMost
        } else {
            Standing::Greater
        }),
        _ => None,
    }
}

/// How the right side then stands to the left one.
pub fn turned(how: Standing) -> Standing
    ensures { standing_of result ≡ turned (standing_of how) }
{
    match how {
        Standing::Less => Standing::Greater,
        Standing::AtMost => Standing::AtLeast,
        Standing::Greater => Standing::Less,
        Standing::AtLeast => Standing::AtMost,
        Standing::Same => Standing::Same,
        Standing::Other => Standing::Other,
    }
}
