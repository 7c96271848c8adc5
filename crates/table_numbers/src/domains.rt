// Values of a domain.

ghost use Rattle.std.specs.Prelude.{◌≡◌, IfSome};
ghost use Rattle.num_api.specs.Residues.{IsResidue};
ghost use Rattle.num_api.specs.Steps.{least};
ghost use Rattle.num_api.specs.Powers.{power_steps};

use crate::words::{Between, binary, class, range, unary};
use intervals::Interval;
use num_api::{NOp, Powers, Ramp, Range, Residue, ValueDomain, power_step, settle_value};
use residues::{Class, Pair};
use std::alloc::{AllocError, Global};

/// A domain whose values a row can write.
pub trait Written: ValueDomain {
    /// The value of a range and a class, of which a domain takes what it knows; none where no number is in both.
    fn of(bounds: Range, residue: Residue) -> Option<Self>
        requires { IsResidue residue };
}

impl Written for Interval {
    fn of(bounds: Range, _residue: Residue) -> Option<Self> {
        Interval::within(bounds)
    }
}

impl Written for Class {
    fn of(_bounds: Range, residue: Residue) -> Option<Self> {
        Some(Class::new(residue))
    }
}

impl Written for Pair<Interval, Class> {
    fn of(bounds: Range, residue: Residue) -> Option<Self> {
        match Interval::within(bounds) {
            Some(interval) => Pair::new(interval, Class::new(residue)),
            None => None,
        }
    }
}

/// What a row is answered that gives no value.
#[derive(Clone, Copy)]
enum Told {
    Truth(bool),
    Nothing,
    NoRow,
}

/// The line of a row over a domain.
pub fn shown<V: Written>(alloc: Global, words: &[&str]) -> Result<Option<String>, AllocError> {
    let line = match last::<V>(alloc, words)? {
        Ok((bounds, residue)) => of_value(alloc, bounds, residue)?,
        Err(Told::NoRow) => return Ok(None),
        Err(told) => String::from_str(alloc, word_of(told))?,
    };
    Ok(Some(line))
}

fn of_value(alloc: Global, bounds: Range, residue: Residue) -> Result<String, AllocError> {
    let Residue { rem, modulus } = residue;
    format!(in alloc; "{} {rem}mod{modulus}", Between(bounds))
}

fn word_of(told: Told) -> &'static str {
    match told {
        Told::Truth(true) => "yes",
        Told::Truth(false) => "no",
        Told::Nothing => "none",
        Told::NoRow => "no such row",
    }
}

fn last<V: Written>(
    alloc: Global,
    words: &[&str],
) -> Result<Result<(Range, Residue), Told>, AllocError> {
    let mut pile = Vec::new(alloc);
    for word in words {
        match value::<V>(&mut pile, word) {
            Ok(value) => pile.push(value)?,
            Err(told) => return Ok(Err(told)),
        }
    }
    Ok(match pile.pop() {
        Some(value) => Ok((value.range(), value.residue())),
        None => Err(Told::NoRow),
    })
}

// The value that a word makes of those before it, or what the row is answered.
fn value<V: Written>(pile: &mut Vec<V>, word: &str) -> Result<V, Told> {
    if let Some(bounds) = bounds_of(word) {
        return V::within(bounds).ok_or(Told::Nothing);
    }
    if let Some((bounds, residue)) = classed(word) {
        return V::of(bounds, residue).ok_or(Told::Nothing);
    }
    if word == "top" {
        return Ok(V::top());
    }
    operated(pile, word)
}

fn operated<V: ValueDomain>(pile: &mut Vec<V>, word: &str) -> Result<V, Told> {
    let b = pile.pop().ok_or(Told::NoRow)?;
    match unary(word) {
        Some(op) => Ok(V::unary(op, &b)),
        None => of_two(word, pile.pop().ok_or(Told::NoRow)?, b),
    }
}

// A number or a range.
fn bounds_of(word: &str) -> Option<Range> {
    match word.parse::<i128>() {
        Ok(n) => Some(Range::point(n)),
        Err(_) => range(word),
    }
}

// A class, with a range before it or without.
fn classed(word: &str) -> Option<(Range, Residue)>
    ensures { IfSome result (λ made. IsResidue made.1) }
{
    match word.split_once("&") {
        Some((bounds, residue)) => Some((range(bounds)?, class(residue)?)),
        None => Some((Range::all(), class(word)?)),
    }
}

fn of_two<V: ValueDomain>(word: &str, a: V, b: V) -> Result<V, Told> {
    if let Some(op) = binary(word) {
        return Ok(V::binary(op, &a, &b));
    }
    match word {
        "meet" => a.meet(&b).ok_or(Told::Nothing),
        "join" => Ok(a.join(&b)),
        "widen" => Ok(widened(&a, &b)),
        "settle" => Ok(settled(a, b)),
        "covers" => Err(Told::Truth(a.covers(&b))),
        _ => Err(Told::NoRow),
    }
}

fn widened<V: ValueDomain>(a: &V, next: &V) -> V {
    let ramp = Ramp::<_>::new::<Powers>(
        257,
        |n: i128| -> Option<i128>
            ensures { result ≡ least power_steps n }
        { power_step(n) },
    );
    a.widen::<_, Powers>(next, &ramp)
}

// What holds the start, and with each value the sum of it and the other.
fn settled<V: ValueDomain>(start: V, added: V) -> V {
    let ramp = Ramp::<_>::new::<Powers>(
        257,
        |n: i128| -> Option<i128>
            ensures { result ≡ least power_steps n }
        { power_step(n) },
    );
    settle_value::<_, _, Powers, _>(start, |v: V| V::binary(NOp::Add, &v, &added), &ramp)
}
