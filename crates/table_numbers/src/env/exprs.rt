// Expressions with each operator behind its operands.

use crate::words::{binary, unary, variable};
use num_api::NExpr;
use std::alloc::{AllocError as NoMemory, Global};

// Takes the operands of a word from the pile, and puts the expression there.
fn read_word(alloc: Global, word: &str, pile: &mut Vec<NExpr>) -> Result<bool, NoMemory> {
    let made = if let Some(op) = binary(word) {
        let (Some(b), Some(a)) = (pile.pop(), pile.pop()) else {
            return Ok(false);
        };
        NExpr::Binary(op, Box::new(alloc, a)?, Box::new(alloc, b)?)
    } else if let Some(op) = unary(word) {
        let Some(a) = pile.pop() else {
            return Ok(false);
        };
        NExpr::Unary(op, Box::new(alloc, a)?)
    } else if let Some(x) = variable(word) {
        NExpr::Read(x)
    } else if let Ok(n) = word.parse::<i128>() {
        NExpr::Const(n)
    } else {
        return Ok(false);
    };
    pile.push(made)?;
    Ok(true)
}

/// The expression of these words, where they are one.
pub fn expression(alloc: Global, words: &[&str]) -> Result<Option<NExpr>, NoMemory> {
    let mut pile = Vec::new(alloc);
    for word in words {
        if !read_word(alloc, word, &mut pile)? {
            return Ok(None);
        }
    }
    let whole = pile.pop();
    Ok(if pile.is_empty() { whole } else { None })
}
