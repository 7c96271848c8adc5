// Values of expressions.
#![tactic(auto, using(csharp::proofs::CodeTrees::the_code_trees))]

ghost use Rattle.std.specs.Prelude.{◌≡◌, IfOk, is_err, option_and_then};
ghost use Rattle.c_values.specs.Values.{converted_to};
ghost use Rattle.c_objects.specs.Opening as opening;
ghost use Rattle.csharp.specs.Trees.{csexpr_tree};
ghost use Rattle.csharp.specs.States.{value_of};
ghost use Rattle.csharp_state.specs.Unheld.{unheld};

use crate::error::Unheld;
use crate::operators::{taken_value, unary_value};
use crate::state::State;
use block_mem::{Scalar, Value};
use c_layout::wrap;
use c_syntax::IntType;
use csharp::CsExpr;

impl State {
    /// The value of an expression; none where an object that it names does not live, an operand is not of its
    /// operator's type, a divisor is 0, or an amount is not below the width.
    pub fn value(&self, expr: &CsExpr) -> Result<Option<Value>, Unheld>
        ensures is { IfOk result (λ v. v ≡ value_of (csexpr_tree expr.now) self.now) }
        ensures unheld { is_err result ≡ unheld (csexpr_tree expr.now) self.now }
    {
        match expr {
            CsExpr::Const { ty, value } => Ok(Some(Value::Int(*ty, *value))),
            CsExpr::Null => Ok(Some(Value::Null)),
            CsExpr::Temp { temp } => Ok(self.temp(*temp)),
            CsExpr::Address { object } => Ok(self.address(*object)),
            CsExpr::Unary { op, operand } => match self.value(operand)? {
                Some(v) => unary_value(*op, v),
                None => Ok(None),
            },
            CsExpr::Binary { op, left, right } => match self.value(left)? {
                Some(v) => match self.value(right)? {
                    Some(u) => taken_value(*op, v, u),
                    None => Ok(None),
                },
                None => Ok(None),
            },
            CsExpr::Convert { ty, operand } => Ok(converted(*ty, self.value(operand)?)),
        }
    }

    // The address of the first byte of an object that lives.
    fn address(&self, object: u64) -> Option<Value>
        ensures { result ≡ opening.address self.now.memory object 0 }
    {
        match self.memory.place(object) {
            Some(_) => Some(self.memory.address(object, 0)),
            None => None,
        }
    }
}

// An integer at another type.
fn converted(ty: IntType, v: Option<Value>) -> Option<Value>
    ensures { result ≡ option_and_then (converted_to (Scalar.Int ty)) v }
{
    match v {
        Some(Value::Int(_, n)) => Some(Value::Int(ty, wrap(ty, n))),
        Some(Value::Ptr(_) | Value::Null) | None => None,
    }
}
