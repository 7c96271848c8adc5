// Expressions of C with each operator behind its operands.

use crate::words::{binary, unary, variable};
use c_syntax_written::IntType;
use machine_nums::MExpr;
use std::alloc::{AllocError as NoMemory, Global};

/// The type of a word.
pub fn int_type(word: &str) -> Option<IntType> {
    match word {
        "char" => Some(IntType::Char),
        "schar" => Some(IntType::SChar),
        "uchar" => Some(IntType::UChar),
        "short" => Some(IntType::Short),
        "ushort" => Some(IntType::UShort),
        "int" => Some(IntType::Int),
        "uint" => Some(IntType::UInt),
        "long" => Some(IntType::Long),
        "ulong" => Some(IntType::ULong),
        "llong" => Some(IntType::LLong),
        "ullong" => Some(IntType::ULLong),
        _ => None,
    }
}

// Takes the operands of a word from the pile, and puts the expression there.
fn read_word(
    alloc: Global,
    t: IntType,
    word: &str,
    pile: &mut Vec<MExpr>,
) -> Result<bool, NoMemory> {
    let made = if let Some(op) = binary(word) {
        let (Some(b), Some(a)) = (pile.pop(), pile.pop()) else {
            return Ok(false);
        };
        MExpr::Binary(op, t, Box::new(alloc, a)?, Box::new(alloc, b)?)
    } else if let Some(op) = unary(word) {
        let Some(a) = pile.pop() else {
            return Ok(false);
        };
        MExpr::Unary(op, t, Box::new(alloc, a)?)
    } else if word == "to" {
        let Some(a) = pile.pop() else {
            return Ok(false);
        };
        MExpr::Convert(t, Box::new(alloc, a)?)
    } else if let Some(x) = variable(word) {
        MExpr::Read(x, t)
    } else if let Ok(n) = word.parse::<i128>() {
        MExpr::Const(t, n)
    } else {
        return Ok(false);
    };
    pile.push(made)?;
    Ok(true)
}

/// The expression of these words, where they are one.
pub fn expression(alloc: Global, words: &[&str]) -> Result<Option<MExpr>, NoMemory> {
    let mut pile = Vec::new(alloc);
    let mut last = IntType::Int;
    for word in words {
        if let Some(t) = int_type(word) {
            last = t;
        } else if !read_word(alloc, last, word, &mut pile)? {
            return Ok(None);
        }
    }
    let whole = pile.pop();
    Ok(if pile.is_empty() { whole } else { None })
}
