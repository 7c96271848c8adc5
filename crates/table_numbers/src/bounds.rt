// Intervals by their own calls, and ranges.

use crate::words::{Between, range};
use intervals::Interval;
use num_api::{NExpr, Oracle, Range, Unknowing, ValueDomain, Var};
use std::alloc::{AllocError, Global};

/// The line of a row about one interval or two.
pub fn line(alloc: Global, words: &[&str]) -> Result<Option<String>, AllocError> {
    if let Some((a, b, c)) = arithmetic(words) {
        return Ok(Some(format!(in alloc; "{a} {b} {c}")?));
    }
    if let Some(made) = made(words) {
        return shown(alloc, made);
    }
    match words {
        ["unknowing"] => Ok(Some(unknowing(alloc)?)),
        _ => truth(alloc, held(words)),
    }
}

fn interval(word: &str) -> Option<Interval> {
    Interval::within(range(word)?)
}

fn arithmetic(words: &[&str]) -> Option<(Between, Between, Between)> {
    let ["bounds", a, b] = words else {
        return None;
    };
    let (a, b) = (interval(a)?, interval(b)?);
    Some((ends(&a.add(&b)), ends(&a.sub(&b)), ends(&a.mul(&b))))
}

fn ends(a: &Interval) -> Between {
    Between(Range {
        lo: a.lo(),
        hi: a.hi(),
    })
}

// What a row makes, which may be no interval.
fn made(words: &[&str]) -> Option<Option<Between>> {
    match words {
        ["quotients", a, b] => Some(Some(ends(&interval(a)?.quot(&interval(b)?)))),
        ["cut", a, lo, hi] => Some(cut(interval(a)?, number(lo)?, number(hi)?)),
        ["opposite", a] => Some(Some(ends(&interval(a)?.neg()))),
        ["point", n] => Some(Some(ends(&Interval::point(number(n)?)))),
        ["hull", a, b] => Some(Some(Between(range(a)?.hull(range(b)?)))),
        _ => None,
    }
}

fn number(word: &str) -> Option<i128> {
    word.parse::<i128>().ok()
}

fn cut(a: Interval, lo: i128, hi: i128) -> Option<Between> {
    Some(ends(&a.cut(lo, hi)?))
}

fn shown(alloc: Global, made: Option<Between>) -> Result<Option<String>, AllocError> {
    Ok(Some(match made {
        Some(a) => format!(in alloc; "{a}")?,
        None => String::from_str(alloc, "none")?,
    }))
}

fn held(words: &[&str]) -> Option<bool> {
    match words {
        ["holds", a] => Some(range(a)?.holds_some()),
        _ => None,
    }
}

fn unknowing(alloc: Global) -> Result<String, AllocError> {
    let five = NExpr::Const(5);
    let class = Unknowing.residue(&five);
    let same = if Unknowing.same(Var(0)).is_none() {
        "none"
    } else {
        "some"
    };
    let bounds = Between(Unknowing.range(&five));
    format!(in alloc; "{bounds} {}mod{} {same}", class.rem, class.modulus)
}

fn truth(alloc: Global, holds: Option<bool>) -> Result<Option<String>, AllocError> {
    let word = match holds {
        Some(true) => "yes",
        Some(false) => "no",
        None => return Ok(None),
    };
    Ok(Some(String::from_str(alloc, word)?))
}
