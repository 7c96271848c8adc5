// Expressions.
#![tactic(auto)]

use super::rows::{Fault, Stacks};
use crate::common;
use c_syntax::{Arithmetic, Comparison, IntType, Shift, TBinaryOp, TUnaryOp};
use csharp::CsExpr;

/// The expression of a word, if it is that of one.
pub fn expr(stacks: &mut Stacks, head: &str, rest: &str) -> Result<Option<CsExpr>, Fault> {
    if let Some(leaf) = leaf(head, rest)? {
        return Ok(Some(leaf));
    }
    let alloc = stacks.alloc;
    if let Some(op) = unary(head) {
        let operand = Box::new(alloc, stacks.expr()?)?;
        return Ok(Some(CsExpr::Unary { op, operand }));
    }
    if let Some(op) = binary(head) {
        let right = Box::new(alloc, stacks.expr()?)?;
        let left = Box::new(alloc, stacks.expr()?)?;
        return Ok(Some(CsExpr::Binary { op, left, right }));
    }
    if head != "conv" {
        return Ok(None);
    }
    let ty = integer(rest)?;
    let operand = Box::new(alloc, stacks.expr()?)?;
    Ok(Some(CsExpr::Convert { ty, operand }))
}

fn leaf(head: &str, rest: &str) -> Result<Option<CsExpr>, Fault> {
    if head == "null" {
        return Ok(Some(CsExpr::Null));
    }
    if let Some(value) = head.parse::<i128>().ok() {
        let ty = if rest.is_empty() {
            IntType::Int
        } else {
            integer(rest)?
        };
        return Ok(Some(CsExpr::Const { ty, value }));
    }
    if let Some(temp) = numbered(head, "t") {
        return Ok(Some(CsExpr::Temp { temp }));
    }
    match numbered(head, "a") {
        Some(object) => Ok(Some(CsExpr::Address { object })),
        None => Ok(None),
    }
}

// The number behind a letter.
fn numbered(word: &str, letter: &str) -> Option<u64> {
    match word.strip_prefix(letter) {
        Some(digits) => digits.parse::<u64>().ok(),
        None => None,
    }
}

fn unary(word: &str) -> Option<TUnaryOp> {
    match word {
        "neg" => Some(TUnaryOp::Minus(IntType::Int)),
        "~" => Some(TUnaryOp::Complement(IntType::Int)),
        "!" => Some(TUnaryOp::Not),
        _ => None,
    }
}

fn binary(word: &str) -> Option<TBinaryOp> {
    let int = IntType::Int;
    match word {
        "+" => Some(TBinaryOp::Arithmetic(Arithmetic::Add, int)),
        "-" => Some(TBinaryOp::Arithmetic(Arithmetic::Subtract, int)),
        "*" => Some(TBinaryOp::Arithmetic(Arithmetic::Multiply, int)),
        "/" => Some(TBinaryOp::Arithmetic(Arithmetic::Divide, int)),
        "%" => Some(TBinaryOp::Arithmetic(Arithmetic::Remainder, int)),
        "<<" => Some(TBinaryOp::Shift(Shift::Left, int)),
        ">>" => Some(TBinaryOp::Shift(Shift::Right, int)),
        "<" => Some(TBinaryOp::CompareInts(Comparison::Less, int)),
        "==" => Some(TBinaryOp::CompareInts(Comparison::Equal, int)),
        "p+" => Some(TBinaryOp::PointerPlusInt { element: 1 }),
        "p-p" => Some(TBinaryOp::PointerMinusPointer { element: 1 }),
        "p==" => Some(TBinaryOp::ComparePointers(Comparison::Equal)),
        _ => None,
    }
}

/// An integer type, from its word.
pub fn integer(word: &str) -> Result<IntType, Fault> {
    match common::integer(word) {
        Some(ty) => Ok(ty),
        None => Err(Fault::NoRow),
    }
}
