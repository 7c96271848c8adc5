// Operators between two values.
#![tactic(auto)]

ghost use Rattle.std.specs.Prelude.{◌≡◌, IfOk, map, option_map};
ghost use Rattle.c_syntax.specs.Types.{ctype_tree};
ghost use Rattle.c_syntax.specs.TypedExpr.{texpr_tree};
ghost use Rattle.c_syntax.specs.Program.{structdef_tree};
ghost use Rattle.c_typing.specs.Nodes as nodes;
ghost use Rattle.c_typing.specs.Rows as rows;
ghost use Rattle.c_typing.specs.World.{World};
ghost use Rattle.c_check_operators.specs.OperandViews.{operand_tree};
ghost use Rattle.c_check_names.specs.Views.{Answers};

use crate::given::{given, given_place};
use c_check_names::TypeError;
use c_check_operators::{
    Operand, and_row, arithmetic_row, equality_row, index_row, minus_row, or_row, order_row,
    plus_row, shift_row,
};
use c_syntax::{Arithmetic, BinaryOp, CType, Comparison, Op, Pos, Shift, StructDefs, TExpr};
use std::alloc::{AllocError as NoMemory, Global};

/// An operator between two typed values. Where no row has their types it is NoRule, at the operator.
pub fn binary(
    alloc: Global,
    structs: &StructDefs,
    pos: Pos,
    op: BinaryOp,
    a: TExpr,
    b: TExpr,
) -> Result<Operand, TypeError>
    ensures { (w : World) → w.structs ≡ map structdef_tree structs.now
        → Answers (λ out. out ≡ nodes.binary w pos op (texpr_tree a) (texpr_tree b)) operand_tree w result }
{
    let left = a.ty()?;
    let right = b.ty()?;
    let row = binary_row(alloc, structs, pos, op, &left, &right, a, b)?;
    given(alloc, structs, pos, binary_op(op), left, Some(right), row)
}

/// `a[b]`, on two typed values. Where no row has their types it is NoRule, at the bracket.
pub fn indexed(
    alloc: Global,
    structs: &StructDefs,
    pos: Pos,
    a: TExpr,
    b: TExpr,
) -> Result<Operand, TypeError>
    ensures { (w : World) → w.structs ≡ map structdef_tree structs.now
        → Answers (λ out. out ≡ nodes.indexed w pos (texpr_tree a) (texpr_tree b)) operand_tree w result }
{
    let left = a.ty()?;
    let right = b.ty()?;
    let row = index_row(alloc, structs, pos, &left, &right, a, b)?;
    given_place(alloc, structs, pos, Op::Index, left, Some(right), row)
}

// The row of an operator, by the types of its operands.
fn binary_row(
    alloc: Global,
    structs: &StructDefs,
    pos: Pos,
    op: BinaryOp,
    left: &CType,
    right: &CType,
    a: TExpr,
    b: TExpr,
) -> Result<Option<TExpr>, NoMemory>
    ensures { IfOk result (λ row. option_map texpr_tree row
        ≡ rows.binary_row (map structdef_tree structs.now) pos op (ctype_tree left.now) (ctype_tree right.now) (texpr_tree a) (texpr_tree b)) }
{
    match op {
        BinaryOp::Multiply => arithmetic_row(alloc, Arithmetic::Multiply, pos, left, right, a, b),
        BinaryOp::Divide => arithmetic_row(alloc, Arithmetic::Divide, pos, left, right, a, b),
        BinaryOp::Remainder => arithmetic_row(alloc, Arithmetic::Remainder, pos, left, right, a, b),
        BinaryOp::Plus => plus_row(alloc, structs, pos, left, right, a, b),
        BinaryOp::Minus => minus_row(alloc, structs, pos, left, right, a, b),
        BinaryOp::ShiftLeft => shift_row(alloc, Shift::Left, pos, left, right, a, b),
        BinaryOp::ShiftRight => shift_row(alloc, Shift::Right, pos, left, right, a, b),
        BinaryOp::Less => order_row(alloc, Comparison::Less, pos, left, right, a, b),
        BinaryOp::Greater => order_row(alloc, Comparison::Greater, pos, left, right, a, b),
        BinaryOp::AtMost => order_row(alloc, Comparison::AtMost, pos, left, right, a, b),
        BinaryOp::AtLeast => order_row(alloc, Comparison::AtLeast, pos, left, right, a, b),
        BinaryOp::Equal => equality_row(alloc, Comparison::Equal, pos, left, right, a, b),
        BinaryOp::Unequal => equality_row(alloc, Comparison::Unequal, pos, left, right, a, b),
        BinaryOp::BitAnd => arithmetic_row(alloc, Arithmetic::BitAnd, pos, left, right, a, b),
        BinaryOp::BitXor => arithmetic_row(alloc, Arithmetic::BitXor, pos, left, right, a, b),
        BinaryOp::BitOr => arithmetic_row(alloc, Arithmetic::BitOr, pos, left, right, a, b),
        BinaryOp::And => and_row(alloc, pos, left, right, a, b),
        BinaryOp::Or => or_row(alloc, pos, left, right, a, b),
    }
}

// An operator as refusals print it.
fn binary_op(op: BinaryOp) -> Op
    ensures { result ≡ nodes.binary_op op }
{
    match op {
        BinaryOp::Multiply => Op::Multiply,
        BinaryOp::Divide => Op::Divide,
        BinaryOp::Remainder => Op::Remainder,
        BinaryOp::Plus => Op::Plus,
        BinaryOp::Minus => Op::Minus,
        BinaryOp::ShiftLeft => Op::ShiftLeft,
        BinaryOp::ShiftRight => Op::ShiftRight,
        BinaryOp::Less => Op::Less,
        BinaryOp::Greater => Op::Greater,
        BinaryOp::AtMost => Op::AtMost,
        BinaryOp::AtLeast => Op::AtLeast,
        BinaryOp::Equal => Op::Equal,
        BinaryOp::Unequal => Op::Unequal,
        BinaryOp::BitAnd => Op::BitAnd,
        BinaryOp::BitXor => Op::BitXor,
        BinaryOp::BitOr => Op::BitOr,
        BinaryOp::And => Op::And,
        BinaryOp::Or => Op::Or,
    }
}
