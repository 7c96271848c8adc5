// Expressions that are one.
#![tactic(auto, using(crate::proofs::CodeTrees::the_code_trees))]

ghost use Rattle.std.specs.Prelude.{◌≡◌};
ghost use Rattle.csharp.specs.Trees.{csexpr_tree, Const, Null, Temp, Address, Unary, Binary, Convert};
ghost use Rattle.csharp.specs.SameExprs.{is_same_expr};

use crate::expression::CsExpr;
use crate::same_operators::{same_binary, same_number, same_type, same_unary};
use c_syntax::{IntType, TBinaryOp, TUnaryOp};

/// Whether two expressions are one.
#[cycle(same)]
pub fn same_expr(a: &CsExpr, b: &CsExpr) -> bool
    ensures { result ≡ is_same_expr (csexpr_tree a.now) (csexpr_tree b.now) }
{
    match a {
        CsExpr::Const { ty, value } => is_const(b, *ty, value),
        CsExpr::Null => is_null(b),
        CsExpr::Temp { temp } => is_temp(b, *temp),
        CsExpr::Address { object } => is_address(b, *object),
        CsExpr::Unary { op, operand } => is_unary(b, *op, operand),
        CsExpr::Binary { op, left, right } => is_binary(b, *op, left, right),
        CsExpr::Convert { ty, operand } => is_convert(b, *ty, operand),
    }
}

// Whether the expression is this constant.
fn is_const(b: &CsExpr, ty: IntType, value: &i128) -> bool
    ensures { result ≡ is_same_expr (Const ty value.now) (csexpr_tree b.now) }
{
    match b {
        CsExpr::Const {
            ty: other,
            value: n,
        } => same_type(ty, *other) && same_number(value, n),
        CsExpr::Null
        | CsExpr::Temp { .. }
        | CsExpr::Address { .. }
        | CsExpr::Unary { .. }
        | CsExpr::Binary { .. }
        | CsExpr::Convert { .. } => false,
    }
}

// Whether the expression is the null pointer.
fn is_null(b: &CsExpr) -> bool
    ensures { result ≡ is_same_expr (Null) (csexpr_tree b.now) }
{
    match b {
        CsExpr::Null => true,
        CsExpr::Const { .. }
        | CsExpr::Temp { .. }
        | CsExpr::Address { .. }
        | CsExpr::Unary { .. }
        | CsExpr::Binary { .. }
        | CsExpr::Convert { .. } => false,
    }
}

// Whether the expression is this temporary.
fn is_temp(b: &CsExpr, temp: u64) -> bool
    ensures { result ≡ is_same_expr (Temp temp) (csexpr_tree b.now) }
{
    match b {
        CsExpr::Temp { temp: other } => temp == *other,
        CsExpr::Const { .. }
        | CsExpr::Null
        | CsExpr::Address { .. }
        | CsExpr::Unary { .. }
        | CsExpr::Binary { .. }
        | CsExpr::Convert { .. } => false,
    }
}

// Whether the expression is the address of this object.
fn is_address(b: &CsExpr, object: u64) -> bool
    ensures { result ≡ is_same_expr (Address object) (csexpr_tree b.now) }
{
    match b {
        CsExpr::Address { object: other } => object == *other,
        CsExpr::Const { .. }
        | CsExpr::Null
        | CsExpr::Temp { .. }
        | CsExpr::Unary { .. }
        | CsExpr::Binary { .. }
        | CsExpr::Convert { .. } => false,
    }
}

// Whether the expression is this operator on this operand.
#[cycle(same)]
fn is_unary(b: &CsExpr, op: TUnaryOp, e: &CsExpr) -> bool
    ensures { result ≡ is_same_expr (Unary op (csexpr_tree e.now)) (csexpr_tree b.now) }
{
    match b {
        CsExpr::Unary { op: other, operand } => same_unary(op, *other) && same_expr(e, operand),
        CsExpr::Const { .. }
        | CsExpr::Null
        | CsExpr::Temp { .. }
        | CsExpr::Address { .. }
        | CsExpr::Binary { .. }
        | CsExpr::Convert { .. } => false,
    }
}

// Whether the expression is this operator on these operands.
#[cycle(same)]
fn is_binary(b: &CsExpr, op: TBinaryOp, e: &CsExpr, f: &CsExpr) -> bool
    ensures { result ≡ is_same_expr (Binary op (csexpr_tree e.now) (csexpr_tree f.now)) (csexpr_tree b.now) }
{
    match b {
        CsExpr::Binary {
            op: other,
            left,
            right,
        } => same_binary(op, *other) && same_expr(e, left) && same_expr(f, right),
        CsExpr::Const { .. }
        | CsExpr::Null
        | CsExpr::Temp { .. }
        | CsExpr::Address { .. }
        | CsExpr::Unary { .. }
        | CsExpr::Convert { .. } => false,
    }
}

// Whether the expression is this conversion of this operand.
#[cycle(same)]
fn is_convert(b: &CsExpr, ty: IntType, e: &CsExpr) -> bool
    ensures { result ≡ is_same_expr (Convert ty (csexpr_tree e.now)) (csexpr_tree b.now) }
{
    match b {
        CsExpr::Convert { ty: other, operand } => same_type(ty, *other) && same_expr(e, operand),
        CsExpr::Const { .. }
        | CsExpr::Null
        | CsExpr::Temp { .. }
        | CsExpr::Address { .. }
        | CsExpr::Unary { .. }
        | CsExpr::Binary { .. } => false,
    }
}
