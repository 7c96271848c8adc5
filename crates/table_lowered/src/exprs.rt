// Expressions in the short notation.
#![tactic(auto, using(csharp::proofs::CodeTrees::the_code_trees, csharp::proofs::CodeTrees::the_code_sizes))]

use crate::files::Written;
use block_mem::Scalar;
use c_syntax::{IntType, TBinaryOp, TUnaryOp};
use csharp::{CsExpr, CsExprs};

/// The letters of the types of a row's temporaries.
const LETTERS: [char; 12] = ['c', 'b', 'C', 's', 'H', 'i', 'u', 'l', 'L', 'q', 'Q', 'p'];

/// A temporary, as `i2` of the int in row 2.
pub fn temp_name(temp: u64, out: &mut String) -> Written {
    out.push(LETTERS[(temp % 12) as usize])?;
    let row = temp / 12;
    write!(out, "{row}")
}

/// The letter of an integer type.
pub fn letter(t: IntType) -> char {
    match t {
        IntType::Char => 'c',
        IntType::SChar => 'b',
        IntType::UChar => 'C',
        IntType::Short => 's',
        IntType::UShort => 'H',
        IntType::Int => 'i',
        IntType::UInt => 'u',
        IntType::Long => 'l',
        IntType::ULong => 'L',
        IntType::LLong => 'q',
        IntType::ULLong => 'Q',
    }
}

/// What stands at an address, as `i[&0]`.
pub fn at_address(ty: Scalar, address: &CsExpr, out: &mut String) -> Written {
    out.push(match ty {
        Scalar::Int(t) => letter(t),
        Scalar::Pointer => 'p',
    })?;
    out.push('[')?;
    expr(address, out)?;
    out.push(']')
}

/// A word and an expression behind it.
pub fn behind(word: &str, e: &CsExpr, out: &mut String) -> Written {
    out.push_str(word)?;
    expr(e, out)
}

/// The same, with the end of a statement.
pub fn ended(word: &str, e: &CsExpr, out: &mut String) -> Written {
    behind(word, e, out)?;
    out.push(';')
}

/// Expressions, with a text between.
pub fn list(exprs: &CsExprs, between: &str, out: &mut String) -> Written {
    let mut word = "";
    for e in exprs.as_slice() {
        behind(word, e, out)?;
        word = between;
    }
    Ok(())
}

pub fn expr(e: &CsExpr, out: &mut String) -> Written {
    match e {
        CsExpr::Const { ty, value } => write!(out, "{value}{}", letter(*ty)),
        CsExpr::Null => out.push_str("null"),
        CsExpr::Temp { temp } => temp_name(*temp, out),
        CsExpr::Address { object } => write!(out, "&{object}"),
        CsExpr::Unary { op, operand } => {
            unary(*op, out)?;
            expr(operand, out)?;
            out.push(')')
        }
        CsExpr::Binary { op, left, right } => {
            out.push('(')?;
            expr(left, out)?;
            binary(*op, out)?;
            expr(right, out)?;
            out.push(')')
        }
        CsExpr::Convert { ty, operand } => {
            write!(out, "({})", letter(*ty))?;
            expr(operand, out)
        }
    }
}

fn unary(op: TUnaryOp, out: &mut String) -> Written {
    match op {
        TUnaryOp::Plus(t) => write!(out, "(+{} ", letter(t)),
        TUnaryOp::Minus(t) => write!(out, "(-{} ", letter(t)),
        TUnaryOp::Complement(t) => write!(out, "(~{} ", letter(t)),
        TUnaryOp::Not => out.push_str("(! "),
    }
}

fn binary(op: TBinaryOp, out: &mut String) -> Written {
    match op {
        TBinaryOp::Arithmetic(op, t) => write!(out, " {op:?}:{} ", letter(t)),
        TBinaryOp::Shift(way, t) => write!(out, " {way:?}:{} ", letter(t)),
        TBinaryOp::CompareInts(comparison, t) => write!(out, " {comparison:?}:{} ", letter(t)),
        TBinaryOp::ComparePointers(comparison) => write!(out, " {comparison:?}:p "),
        TBinaryOp::PointerPlusInt { element } => write!(out, " p+{element} "),
        TBinaryOp::IntPlusPointer { element } => write!(out, " +p{element} "),
        TBinaryOp::PointerMinusInt { element } => write!(out, " p-{element} "),
        TBinaryOp::PointerMinusPointer { element } => write!(out, " p-p{element} "),
    }
}
