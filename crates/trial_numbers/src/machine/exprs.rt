// Typed expressions of C, and what the machine is given for them.

use c_syntax::{Arithmetic, Comparison, IntType, Shift};
use machine_nums::{
    Compared, MExpr, arithmetic_operator, comparison_operator, complement, minus, shift_operator,
};
use num_api::{NOp, Var};
use std::alloc::{AllocError as NoMemory, Global};

/// A typed expression: both operands of an arithmetic operator and the left one of a shift have the type that
/// stands there, and both sides of a comparison have one type.
#[derive(Debug, Drop)]
pub enum Expr {
    Const(IntType, i128),
    Read(Var, IntType),
    Convert(IntType, Box<Expr>),
    Minus(IntType, Box<Expr>),
    Complement(IntType, Box<Expr>),
    Not(Box<Expr>),
    Arithmetic(Arithmetic, IntType, Box<Expr>, Box<Expr>),
    Shift(Shift, IntType, Box<Expr>, Box<Expr>),
    Compare(Comparison, Box<Expr>, Box<Expr>),
}

// The comparison of two sides, which may change their places.
fn comparison(alloc: Global, c: Comparison, a: MExpr, b: MExpr) -> Result<MExpr, NoMemory> {
    let Compared { op, is_turned } = comparison_operator(c);
    let (left, right) = if is_turned { (b, a) } else { (a, b) };
    let left = Box::new(alloc, left)?;
    Ok(MExpr::Binary(op, IntType::Int, left, Box::new(alloc, right)?))
}

/// The expression that the machine takes, by what stands for each operator of C.
pub fn machine_expr(alloc: Global, e: &Expr) -> Result<MExpr, NoMemory> {
    match e {
        Expr::Const(t, n) => Ok(MExpr::Const(*t, *n)),
        Expr::Read(x, t) => Ok(MExpr::Read(*x, *t)),
        Expr::Convert(t, a) => {
            let a = Box::new(alloc, machine_expr(alloc, a)?)?;
            Ok(MExpr::Convert(*t, a))
        }
        Expr::Minus(t, a) => minus(alloc, *t, machine_expr(alloc, a)?),
        Expr::Complement(t, a) => complement(alloc, *t, machine_expr(alloc, a)?),
        Expr::Not(a) => {
            let a = Box::new(alloc, machine_expr(alloc, a)?)?;
            Ok(MExpr::Unary(NOp::Not, IntType::Int, a))
        }
        Expr::Arithmetic(op, t, a, b) => {
            let a = Box::new(alloc, machine_expr(alloc, a)?)?;
            let b = Box::new(alloc, machine_expr(alloc, b)?)?;
            Ok(MExpr::Binary(arithmetic_operator(*op), *t, a, b))
        }
        Expr::Shift(way, t, a, amount) => {
            let a = Box::new(alloc, machine_expr(alloc, a)?)?;
            let amount = Box::new(alloc, machine_expr(alloc, amount)?)?;
            Ok(MExpr::Binary(shift_operator(*way), *t, a, amount))
        }
        Expr::Compare(c, a, b) => {
            let a = machine_expr(alloc, a)?;
            let b = machine_expr(alloc, b)?;
            comparison(alloc, *c, a, b)
        }
    }
}
