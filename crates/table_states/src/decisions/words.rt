// What the words of a row say.

use crate::common;
use c_syntax::{Check, Numbers, Object, Pointers, Shown, WrongKind};
use std::alloc::{AllocError as NoMemory, Global};

// An end, which `*` leaves out.
fn end(word: &str) -> Option<Option<i128>> {
    if word == "*" {
        return Some(None);
    }
    match word.parse::<i128>() {
        Ok(n) => Some(Some(n)),
        Err(_) => None,
    }
}

/// An object of so many bytes; one that may not be written has an `r` behind its size.
pub fn object(alloc: Global, word: &str) -> Option<Object> {
    let (size, read_only) = match word.strip_suffix("r") {
        Some(size) => (size, true),
        None => (word, false),
    };
    let size = size.parse::<u64>().ok()?;
    Some(common::object(alloc, size, read_only, false))
}

// The kind that a word names.
fn kind(word: &str) -> Option<WrongKind> {
    Some(match word {
        "overflow" => WrongKind::Overflow,
        "divide" => WrongKind::DivideByZero,
        "quotient" => WrongKind::Quotient,
        "amount" => WrongKind::ShiftAmount,
        "shifted" => WrongKind::ShiftResult,
        "undef" => WrongKind::Indeterminate,
        "fragment" => WrongKind::Fragment,
        "null" => WrongKind::NullUse,
        "dangling" => WrongKind::Dangling,
        "bounds" => WrongKind::Bounds,
        "access" => WrongKind::Access,
        "alignment" => WrongKind::Alignment,
        "readonly" => WrongKind::ReadOnly,
        "unrelated" => WrongKind::Unrelated,
        "novalue" => WrongKind::NoValue,
        "assert" => WrongKind::AssertFailed,
        _ => return None,
    })
}

/// The check of a kind and its fields.
pub fn check(words: &[&str]) -> Option<Check> {
    let [name, fields @ ..] = words else {
        return None;
    };
    let mut check = Check {
        kind: kind(name)?,
        lo: 0,
        hi: 0,
        size: 0,
        align: 0,
    };
    match (check.kind, fields) {
        (
            WrongKind::Overflow
            | WrongKind::Quotient
            | WrongKind::ShiftAmount
            | WrongKind::ShiftResult,
            [lo, hi],
        ) => {
            check.lo = lo.parse::<i128>().ok()?;
            check.hi = hi.parse::<i128>().ok()?;
        }
        (WrongKind::Access | WrongKind::Alignment, [size, align]) => {
            check.size = size.parse::<u64>().ok()?;
            check.align = align.parse::<u64>().ok()?;
        }
        (WrongKind::Unrelated, [size]) => check.size = size.parse::<u64>().ok()?,
        (_, []) => {}
        _ => return None,
    }
    Some(check)
}

/// The numbers of a range and a class.
pub fn numbers(words: &[&str]) -> Option<Shown> {
    let [lo, hi, rem, modulus] = words else {
        return None;
    };
    Some(Shown::Number {
        lo: end(lo)?,
        hi: end(hi)?,
        modulus: modulus.parse::<i128>().ok()?,
        rem: rem.parse::<i128>().ok()?,
    })
}

/// The pointers of a set.
pub fn pointers(alloc: Global, words: &[&str]) -> Result<Option<Pointers>, NoMemory> {
    let [names, lo, hi, rem, modulus] = words else {
        return Ok(None);
    };
    let (Some(lo), Some(hi)) = (end(lo), end(hi)) else {
        return Ok(None);
    };
    let (Ok(rem), Ok(modulus)) = (rem.parse::<i128>(), modulus.parse::<i128>()) else {
        return Ok(None);
    };
    let mut numbers = Vec::new(alloc);
    for name in names.split(',') {
        if let Ok(number) = name.parse::<u64>() {
            numbers.push(number)?;
        }
    }
    Ok(Some(Pointers {
        any: has(names, "any"),
        null: has(names, "null"),
        dead: has(names, "dead"),
        names: Numbers::from_vec(numbers),
        lo,
        hi,
        modulus,
        rem,
    }))
}

// Whether the list has this word.
fn has(list: &str, word: &str) -> bool {
    list.split(',').any(|one| one == word)
}

/// The marks, or the ends, of a list.
pub fn marks(word: &str, list: &str) -> Option<Shown> {
    match word {
        "marks" => Some(Shown::Marks {
            undef: has(list, "undef"),
            value: has(list, "value"),
            broken: has(list, "broken"),
        }),
        "ends" => Some(Shown::Ends {
            value: has(list, "value"),
            none: has(list, "none"),
        }),
        _ => None,
    }
}
