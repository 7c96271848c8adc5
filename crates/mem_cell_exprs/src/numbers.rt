// Integer expressions.
#![tactic(auto, using(csharp::proofs::CodeTrees::the_code_trees, machine_nums::proofs::Trees::mexpr_trees))]

ghost use Rattle.std.specs.Prelude.{◌≡◌, ◌<◌, ◌≤ℤ◌, pos, List, IsTrue, IfOk, IfSome, length};
ghost use Rattle.mem_cell_bytes.specs.Cells.{temp_var};
ghost use Rattle.machine_nums.specs.MExprs.{mexpr_tree, type_of};
ghost use Rattle.c_syntax_written.specs.Integer.{greatest, least};
ghost use Rattle.c_syntax_written.specs.declared.int_type.IntType.{IntType as CIntType};
ghost use Rattle.c_syntax.specs.declared.operator.TUnaryOp.TheVariants as unaries;
ghost use Rattle.c_syntax.specs.declared.operator.TBinaryOp.TheVariants as binaries;
ghost use Rattle.csharp.specs.Trees.{CsExprTree, csexpr_tree};
ghost use Rattle.csharp.specs.Trees as code;
ghost use Rattle.block_mem.specs.declared.types.Scalar.{Scalar as CScalar};
ghost use Rattle.mem_cell_exprs.specs.Exprs.{IsNumberFor};

use block_mem::Scalar;
use c_syntax::{Arithmetic, Comparison, IntType, Shift, TBinaryOp, TUnaryOp};
use csharp::CsExpr;
use machine_nums::{MExpr, arithmetic_operator, comparison_operator, shift_operator};
use num_api::{NOp, Var};
use std::alloc::{AllocError as NoMemory, Global};

// Whether a number is not above those of a type.
fn is_at_most(n: i128, ty: IntType) -> bool
    ensures { IsTrue result → n ≤ℤ pos (greatest ty) }
{
    n <= i128::from(ty.greatest())
}

// Whether a number is not below those of a type.
fn is_at_least(n: i128, ty: IntType) -> bool
    ensures { IsTrue result → least ty ≤ℤ n }
{
    ty.least() <= n
}

// A constant, where it is one of its type.
fn constant(ty: IntType, value: i128) -> Option<MExpr>
    ensures { IfSome result (λ m. (types : List CScalar) → IsNumberFor types (code.Const ty value) (mexpr_tree m)) }
{
    if is_at_least(value, ty) && is_at_most(value, ty) {
        Some(MExpr::Const(ty, value))
    } else {
        None
    }
}

/// The variable of a temporary.
pub fn temp_variable(types: &[Scalar], temp: u64) -> Var
    requires { temp < length types.now }
    ensures { result.0 ≡ temp_var temp }
{
    let _count = types.len();
    Var(2 * temp)
}

// A temporary of integer type.
fn temporary(types: &[Scalar], temp: u64) -> Option<MExpr>
    ensures { IfSome result (λ m. IsNumberFor types.now (code.Temp temp) (mexpr_tree m)) }
{
    if temp >= types.len() as u64 {
        return None;
    }
    match types[temp as usize] {
        Scalar::Int(ty) => Some(MExpr::Read(temp_variable(types, temp), ty)),
        Scalar::Pointer => None,
    }
}

// An expression that is converted.
fn converted(alloc: Global, ty: IntType, a: MExpr) -> Result<MExpr, NoMemory>
    ensures { IfOk result (λ m. (types : List CScalar) (e : CsExprTree) → IsNumberFor types e (mexpr_tree a) → IsNumberFor types (code.Convert ty e) (mexpr_tree m)) }
{
    Ok(MExpr::Convert(ty, Box::new(alloc, a)?))
}

// Whether an expression is of a type.
fn is_of(a: &MExpr, ty: IntType) -> bool
    ensures { IsTrue result → type_of (mexpr_tree a.now) ≡ ty }
{
    a.int_type() == ty
}

// A number of a type, once more.
fn plus(alloc: Global, ty: IntType, a: MExpr) -> Result<Option<MExpr>, NoMemory>
    ensures { IfOk result (λ found. IfSome found (λ m. (types : List CScalar) (e : CsExprTree) → IsNumberFor types e (mexpr_tree a) → IsNumberFor types (code.Unary (unaries.Plus ty) e) (mexpr_tree m))) }
{
    if is_of(&a, ty) {
        Ok(Some(MExpr::Convert(ty, Box::new(alloc, a)?)))
    } else {
        Ok(None)
    }
}

// The bits of a number, each turned: -1 less the number.
fn turned(alloc: Global, ty: IntType, a: MExpr) -> Result<MExpr, NoMemory>
    ensures { IfOk result (λ m. (types : List CScalar) (e : CsExprTree) → IsNumberFor types e (mexpr_tree a) → IsNumberFor types (code.Unary (unaries.Complement ty) e) (mexpr_tree m)) }
{
    let ones = Box::new(alloc, MExpr::Const(IntType::Int, -1))?;
    Ok(MExpr::Binary(NOp::Sub, ty, ones, Box::new(alloc, a)?))
}

// An operator on one number.
fn unary(alloc: Global, op: TUnaryOp, a: MExpr) -> Result<Option<MExpr>, NoMemory>
    ensures { IfOk result (λ found. IfSome found (λ m. (types : List CScalar) (e : CsExprTree)
        → IsNumberFor types e (mexpr_tree a) → IsNumberFor types (code.Unary op e) (mexpr_tree m))) }
{
    match op {
        TUnaryOp::Plus(ty) => plus(alloc, ty, a),
        TUnaryOp::Minus(ty) => Ok(Some(MExpr::Unary(NOp::Neg, ty, Box::new(alloc, a)?))),
        TUnaryOp::Complement(ty) => Ok(Some(turned(alloc, ty, a)?)),
        TUnaryOp::Not => Ok(Some(MExpr::Unary(NOp::Not, IntType::Int, Box::new(alloc, a)?))),
    }
}

// An operator on two numbers of its type.
fn arithmetic(
    alloc: Global,
    op: Arithmetic,
    ty: IntType,
    a: MExpr,
    b: MExpr,
) -> Result<Option<MExpr>, NoMemory>
    ensures { IfOk result (λ found. IfSome found (λ m. (types : List CScalar) (e f : CsExprTree)
        → IsNumberFor types e (mexpr_tree a) → IsNumberFor types f (mexpr_tree b)
        → IsNumberFor types (code.Binary (binaries.Arithmetic op ty) e f) (mexpr_tree m))) }
{
    if is_of(&a, ty) && is_of(&b, ty) {
        let left = Box::new(alloc, a)?;
        let right = Box::new(alloc, b)?;
        Ok(Some(MExpr::Binary(arithmetic_operator(op), ty, left, right)))
    } else {
        Ok(None)
    }
}

// A shift of a number of its type.
fn shift(
    alloc: Global,
    way: Shift,
    ty: IntType,
    a: MExpr,
    b: MExpr,
) -> Result<Option<MExpr>, NoMemory>
    ensures { IfOk result (λ found. IfSome found (λ m. (types : List CScalar) (e f : CsExprTree)
        → IsNumberFor types e (mexpr_tree a) → IsNumberFor types f (mexpr_tree b)
        → IsNumberFor types (code.Binary (binaries.Shift way ty) e f) (mexpr_tree m))) }
{
    if is_of(&a, ty) {
        let left = Box::new(alloc, a)?;
        let right = Box::new(alloc, b)?;
        Ok(Some(MExpr::Binary(shift_operator(way), ty, left, right)))
    } else {
        Ok(None)
    }
}

// A comparison of two numbers.
fn compared(alloc: Global, c: Comparison, a: MExpr, b: MExpr) -> Result<MExpr, NoMemory>
    ensures { IfOk result (λ m. (types : List CScalar) (t : CIntType) (e f : CsExprTree)
        → IsNumberFor types e (mexpr_tree a) → IsNumberFor types f (mexpr_tree b)
        → IsNumberFor types (code.Binary (binaries.CompareInts c t) e f) (mexpr_tree m)) }
{
    let a = Box::new(alloc, a)?;
    let b = Box::new(alloc, b)?;
    let way = comparison_operator(c);
    if way.is_turned {
        Ok(MExpr::Binary(way.op, IntType::Int, b, a))
    } else {
        Ok(MExpr::Binary(way.op, IntType::Int, a, b))
    }
}

// An operator on two numbers.
fn binary(alloc: Global, op: TBinaryOp, a: MExpr, b: MExpr) -> Result<Option<MExpr>, NoMemory>
    ensures { IfOk result (λ found. IfSome found (λ m. (types : List CScalar) (e f : CsExprTree)
        → IsNumberFor types e (mexpr_tree a) → IsNumberFor types f (mexpr_tree b) → IsNumberFor types (code.Binary op e f) (mexpr_tree m))) }
{
    match op {
        TBinaryOp::Arithmetic(op, ty) => arithmetic(alloc, op, ty, a, b),
        TBinaryOp::Shift(way, ty) => shift(alloc, way, ty, a, b),
        TBinaryOp::CompareInts(c, _ty) => Ok(Some(compared(alloc, c, a, b)?)),
        TBinaryOp::ComparePointers(_)
        | TBinaryOp::PointerPlusInt { .. }
        | TBinaryOp::IntPlusPointer { .. }
        | TBinaryOp::PointerMinusInt { .. }
        | TBinaryOp::PointerMinusPointer { .. } => Ok(None),
    }
}

/// The numbers that have the value of an expression, where it is an integer expression over the temporaries of these
/// types; `None` where a part is a pointer.
pub fn number(alloc: Global, types: &[Scalar], e: &CsExpr) -> Result<Option<MExpr>, NoMemory>
    ensures { IfOk result (λ found. IfSome found (λ m. IsNumberFor types.now (csexpr_tree e.now) (mexpr_tree m))) }
{
    match e {
        CsExpr::Const { ty, value } => Ok(constant(*ty, *value)),
        CsExpr::Null | CsExpr::Address { .. } => Ok(None),
        CsExpr::Temp { temp } => Ok(temporary(types, *temp)),
        CsExpr::Unary { op, operand } => match number(alloc, types, operand)? {
            Some(a) => unary(alloc, *op, a),
            None => Ok(None),
        },
        CsExpr::Binary { op, left, right } => {
            let Some(a) = number(alloc, types, left)? else {
                return Ok(None);
            };
            let Some(b) = number(alloc, types, right)? else {
                return Ok(None);
            };
            binary(alloc, *op, a, b)
        }
        CsExpr::Convert { ty, operand } => match number(alloc, types, operand)? {
            Some(a) => Ok(Some(converted(alloc, *ty, a)?)),
            None => Ok(None),
        },
    }
}
