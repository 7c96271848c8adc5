// Ends, which are numbers or infinite.

use crate::words::{Printed, end};
use ext_int::{
    Ext, add_high, add_low, cmp, half_floor, max, min, mul_high, mul_low, neg_high, neg_low,
};
use std::alloc::{AllocError, Global};
use std::cmp::Ordering;

/// The line of a row about one end or two.
pub fn line(alloc: Global, words: &[&str]) -> Result<Option<String>, AllocError> {
    let line = match words {
        ["end", a] => match end(a) {
            Some(a) => of_one(alloc, a)?,
            None => return Ok(None),
        },
        [word, a, b] => match (end(a), end(b)) {
            (Some(a), Some(b)) => of_two(alloc, word, a, b)?,
            _ => return Ok(None),
        },
        _ => return Ok(None),
    };
    Ok(Some(line))
}

fn of_one(alloc: Global, a: Ext) -> Result<String, AllocError> {
    let (low, high) = (Printed(neg_low(a)), Printed(neg_high(a)));
    format!(in alloc; "{low} {high} {}", Printed(half_floor(a)))
}

fn of_two(alloc: Global, word: &str, a: Ext, b: Ext) -> Result<String, AllocError> {
    if word == "ends" {
        let (low, high) = (Printed(add_low(a, b)), Printed(add_high(a, b)));
        let (product_low, product_high) = (Printed(mul_low(a, b)), Printed(mul_high(a, b)));
        return format!(in alloc; "{low} {high} {product_low} {product_high}");
    }
    let standing = match cmp(a, b) {
        Ordering::Less => "less",
        Ordering::Equal => "equal",
        Ordering::Greater => "greater",
    };
    format!(in alloc; "{standing} {} {}", Printed(min(a, b)), Printed(max(a, b)))
}
