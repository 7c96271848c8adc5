// What expressions give, and conversions.
#![tactic(auto, using(c_syntax::proofs::Trees::the_trees))]

ghost use Rattle.std.specs.Prelude.{◌≡◌, List, Some};
ghost use Rattle.c_syntax.specs.Types.{ObjectTree, ctype_tree};
ghost use Rattle.c_values.specs.Accesses.{end_looks};
ghost use Rattle.c_values.specs.Answers.{Finds};
ghost use Rattle.c_values.specs.Looks.{judge};
ghost use Rattle.c_values.specs.Typed.{IsConvertible};
ghost use Rattle.c_values.specs.Values as rules;
ghost use Rattle.c_values.specs.Values.{converted};

use block_mem::{Scalar, Value};
use c_layout::wrap;
use c_syntax::{CType, Example, IntType, WrongKind};

/// What an expression gives: a value, or nothing, as a call of a void function does.
#[derive(Clone, Copy, Debug, PartialEq, Eq)]
pub enum Given {
    /// A number or a pointer.
    Value(Value),
    /// The value of a void expression, and of a call that returned none.
    Nothing,
}

/// What is wrong, and the operand of the check that fails.
#[derive(Clone, Copy, Debug, PartialEq, Eq)]
pub struct Wrong {
    pub kind: WrongKind,
    pub operand: Example,
}

/// The scalar type that a type is, as that of an int or of any pointer. `None` for void, arrays,
/// structs and functions.
pub fn scalar_of(ty: &CType) -> Option<Scalar>
    ensures { result ≡ rules.scalar_of (ctype_tree ty.now) }
{
    match ty {
        CType::Int(t) => Some(Scalar::Int(*t)),
        CType::Pointer(_) => Some(Scalar::Pointer),
        CType::Void | CType::Array(_, _) | CType::Struct(_) | CType::Function(_) => None,
    }
}

/// What is given, at another type: an integer is wrapped to it, a pointer stays, and at void, which
/// is `None`, nothing is left. An integer goes to an integer type, a pointer to a pointer type.
pub fn convert(ty: Option<Scalar>, given: Given) -> Given
    requires { IsConvertible ty given }
    ensures { converted ty given ≡ Some result }
{
    match ty {
        None => Given::Nothing,
        Some(ty) => match given {
            Given::Value(v) => Given::Value(at_scalar(ty, v)),
            Given::Nothing => given,
        },
    }
}

fn at_scalar(ty: Scalar, v: Value) -> Value
    requires { IsConvertible (Some ty) (Given.Value v) }
    ensures { rules.converted_to ty v ≡ Some result }
{
    match ty {
        Scalar::Int(t) => match v {
            Value::Int(_, n) => Value::Int(t, wrap(t, n)),
            Value::Ptr(_) | Value::Null => v,
        },
        Scalar::Pointer => v,
    }
}

/// Whether a value compares unequal to 0.
pub fn truth(v: Value) -> bool
    ensures { result ≡ rules.truth v }
{
    match v {
        Value::Int(_, n) => n != 0,
        Value::Ptr(_) => true,
        Value::Null => false,
    }
}

/// 0 or 1 as an int.
pub fn bit(b: bool) -> Value
    ensures { result ≡ rules.bit b }
{
    Value::Int(IntType::Int, if b { 1 } else { 0 })
}

/// Asks whether a call whose value is used gave one. It is refused as NoValue.
pub fn check_end(given: Given) -> Result<(), Wrong>
    ensures { (objects : List ObjectTree) → Finds result (judge objects (end_looks given)) }
{
    match given {
        Given::Value(_) => Ok(()),
        Given::Nothing => Err(Wrong {
            kind: WrongKind::NoValue,
            operand: Example::Nothing,
        }),
    }
}
