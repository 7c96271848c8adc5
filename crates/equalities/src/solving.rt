// Equalities solved for a variable of their expression.
#![tactic(auto, using(num_api::proofs::Trees::nexpr_trees))]

ghost use Rattle.std.specs.Prelude.{◌≡◌, ℤ, List, OnOk, Some};
ghost use Rattle.ext_int.specs.Valuation.{value_at};
ghost use Rattle.num_api.specs.Exprs.{Unary, Binary, nexpr_tree};
ghost use Rattle.num_api.specs.Messages.{Adds, TellsOf};
ghost use Rattle.num_api.specs.Value.{value_of};

use crate::changes::variable;
use num_api::{Message, Messages, NExpr, NOp, Var};
use std::alloc::{AllocError as NoMemory, Global};

// Puts out that the variable has the expression's value.
fn tell_equal(x: Var, e: NExpr, out: &mut Messages) -> Result<(), NoMemory>
    ensures kept { OnOk result (Adds out.old out.new) }
    ensures told { OnOk result ((v : List ℤ) → value_of v (nexpr_tree e) ≡ Some (value_at v x.0) → TellsOf v out.old out.new) }
{
    out.push(Message::Equal(x, e))?;
    Ok(())
}

// Puts out that the variable has the value of an operator.
fn tell_operator(
    alloc: Global,
    x: Var,
    op: NOp,
    a: NExpr,
    b: NExpr,
    out: &mut Messages,
) -> Result<(), NoMemory>
    ensures kept { OnOk result (Adds out.old out.new) }
    ensures told { OnOk result ((v : List ℤ) → value_of v (Binary op (nexpr_tree a) (nexpr_tree b)) ≡ Some (value_at v x.0) → TellsOf v out.old out.new) }
{
    let a = Box::new(alloc, a)?;
    let b = Box::new(alloc, b)?;
    tell_equal(x, NExpr::Binary(op, a, b), out)
}

// Puts out what x = a op b says of a, where that is a variable and the operator is a sum or a difference.
fn tell_left(
    alloc: Global,
    x: Var,
    op: NOp,
    a: &NExpr,
    b: &NExpr,
    out: &mut Messages,
) -> Result<(), NoMemory>
    ensures kept { OnOk result (Adds out.old out.new) }
    ensures told { OnOk result ((v : List ℤ) → value_of v (Binary op (nexpr_tree a.now) (nexpr_tree b.now)) ≡ Some (value_at v x.0) → TellsOf v out.old out.new) }
{
    let Some(y) = variable(a) else {
        return Ok(());
    };
    match op {
        NOp::Add => tell_operator(alloc, y, NOp::Sub, NExpr::Read(x), b.copy(alloc)?, out),
        NOp::Sub => tell_operator(alloc, y, NOp::Add, NExpr::Read(x), b.copy(alloc)?, out),
        _ => Ok(()),
    }
}

// Puts out what x = a op b says of b, where that is a variable and the operator is a sum or a difference.
fn tell_right(
    alloc: Global,
    x: Var,
    op: NOp,
    a: &NExpr,
    b: &NExpr,
    out: &mut Messages,
) -> Result<(), NoMemory>
    ensures kept { OnOk result (Adds out.old out.new) }
    ensures told { OnOk result ((v : List ℤ) → value_of v (Binary op (nexpr_tree a.now) (nexpr_tree b.now)) ≡ Some (value_at v x.0) → TellsOf v out.old out.new) }
{
    let Some(y) = variable(b) else {
        return Ok(());
    };
    match op {
        NOp::Add => tell_operator(alloc, y, NOp::Sub, NExpr::Read(x), a.copy(alloc)?, out),
        NOp::Sub => tell_operator(alloc, y, NOp::Sub, a.copy(alloc)?, NExpr::Read(x), out),
        _ => Ok(()),
    }
}

// Puts out what x = e says of a variable that is an operand of e, or e itself.
fn tell_operands(alloc: Global, x: Var, e: &NExpr, out: &mut Messages) -> Result<(), NoMemory>
    ensures kept { OnOk result (Adds out.old out.new) }
    ensures told { OnOk result ((v : List ℤ) → value_of v (nexpr_tree e.now) ≡ Some (value_at v x.0) → TellsOf v out.old out.new) }
{
    match e {
        NExpr::Const(_) => Ok(()),
        NExpr::Read(y) => tell_equal(*y, NExpr::Read(x), out),
        NExpr::Unary(_, _) => Ok(()),
        NExpr::Binary(op, a, b) => {
            tell_left(alloc, x, *op, a, b, out)?;
            tell_right(alloc, x, *op, a, b, out)?;
            Ok(())
        }
    }
}

// Puts out an equality, and what it says of the variables of its expression.
pub fn tell_solved(alloc: Global, x: Var, e: &NExpr, out: &mut Messages) -> Result<(), NoMemory>
    ensures kept { OnOk result (Adds out.old out.new) }
    ensures told { OnOk result ((v : List ℤ) → value_of v (nexpr_tree e.now) ≡ Some (value_at v x.0) → TellsOf v out.old out.new) }
{
    tell_equal(x, e.copy(alloc)?, out)?;
    tell_operands(alloc, x, e, out)?;
    Ok(())
}
