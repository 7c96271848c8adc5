// Facts that two lists have.
#![tactic(auto)]

ghost use Rattle.std.specs.Prelude.{◌≡◌, IfOk, All, Contains, true};

use c_syntax::{Cell, Fact, Facts, Numbers, Pointers};
use std::alloc::{AllocError as NoMemory, Global};
use std::cmp::Ordering;

/// Facts that both lists have. Both lists are sorted by the cells of their facts, and gone through once.
pub(crate) fn common_facts(alloc: Global, first: Facts, second: Facts) -> Result<Facts, NoMemory>
    ensures first { IfOk result (λ both. All (Contains first) both) }
    ensures second { IfOk result (λ both. All (Contains second) both) }
{
    let mut facts = first.into_vec();
    let mut others = second.into_vec();
    facts.sort_by(|a, b| fact_order(b, a))?;
    others.sort_by(|a, b| fact_order(a, b))?;
    let mut rest = others.as_slice();
    let mut both = Vec::new(alloc);
    while let Some(fact) = facts.pop() {
        rest = from_fact(rest, &fact);
        if begins_with(rest, &fact) {
            both.push(fact)?;
        }
    }
    Ok(Facts::from_vec(both))
}

// The facts behind those that stand before this one.
fn from_fact<'a>(facts: &'a [Fact], fact: &Fact) -> &'a [Fact]
    ensures { All (Contains facts.now) result.now }
{
    let mut rest = facts;
    while let Some((first, more)) = rest.split_first() {
        match fact_order(first, fact) {
            Ordering::Less => rest = more,
            Ordering::Equal | Ordering::Greater => return rest,
        }
    }
    rest
}

// Whether this fact is the first.
fn begins_with(facts: &[Fact], fact: &Fact) -> bool
    ensures { result ≡ true → Contains facts.now fact.now }
{
    match facts.first() {
        None => false,
        Some(first) => same_fact(first, fact),
    }
}

fn same_fact(a: &Fact, b: &Fact) -> bool
    ensures { result ≡ true → a.now ≡ b.now }
{
    match (a, b) {
        (
            Fact::Between { x, lo, hi },
            Fact::Between {
                x: y,
                lo: low,
                hi: high,
            },
        ) => same_cell(*x, *y) && same_number(*lo, *low) && same_number(*hi, *high),
        (
            Fact::Class { x, rem, modulus },
            Fact::Class {
                x: y,
                rem: rest,
                modulus: step,
            },
        ) => same_cell(*x, *y) && same_number(*rem, *rest) && same_number(*modulus, *step),
        (
            Fact::AtMost {
                sx,
                x,
                sy,
                y,
                bound,
            },
            Fact::AtMost {
                sx: su,
                x: u,
                sy: sv,
                y: v,
                bound: other,
            },
        ) => same_cell(*x, *u)
            && same_cell(*y, *v)
            && *sx == *su
            && *sy == *sv
            && same_number(*bound, *other),
        (Fact::PointsTo { x, set }, Fact::PointsTo { x: y, set: other }) => {
            same_cell(*x, *y) && same_pointers(set, other)
        }
        _ => false,
    }
}

fn same_cell(a: Cell, b: Cell) -> bool
    ensures { result ≡ true → a ≡ b }
{
    a.object == b.object && a.offset == b.offset && a.size == b.size
}

fn same_pointers(a: &Pointers, b: &Pointers) -> bool
    ensures { result ≡ true → a.now ≡ b.now }
{
    same_spots(a, b) && same_offsets(a, b)
}

// Whether the sets have the same names and marks.
fn same_spots(a: &Pointers, b: &Pointers) -> bool
    ensures { result ≡ true → (a.now.any ≡ b.now.any) × (a.now.null ≡ b.now.null) × (a.now.dead ≡ b.now.dead) × (a.now.names ≡ b.now.names) }
{
    a.any == b.any && a.null == b.null && a.dead == b.dead && same_names(&a.names, &b.names)
}

fn same_names(a: &Numbers, b: &Numbers) -> bool
    ensures { result ≡ true → a.now ≡ b.now }
{
    a.as_slice() == b.as_slice()
}

// Whether the offsets of the sets lie in one range and class.
fn same_offsets(a: &Pointers, b: &Pointers) -> bool
    ensures { result ≡ true → (a.now.lo ≡ b.now.lo) × (a.now.hi ≡ b.now.hi) × (a.now.modulus ≡ b.now.modulus) × (a.now.rem ≡ b.now.rem) }
{
    same_end(a.lo, b.lo)
        && same_end(a.hi, b.hi)
        && same_number(a.modulus, b.modulus)
        && same_number(a.rem, b.rem)
}

fn same_end(a: Option<i128>, b: Option<i128>) -> bool
    ensures { result ≡ true → a ≡ b }
{
    match (a, b) {
        (None, None) => true,
        (Some(x), Some(y)) => same_number(x, y),
        _ => false,
    }
}

fn same_number(a: i128, b: i128) -> bool
    ensures { result ≡ true → a ≡ b }
{
    a == b
}

// By the cells, the form and the signs of the facts.
fn fact_order(a: &Fact, b: &Fact) -> Ordering {
    cell_order(first_cell(a), first_cell(b))
        .then(form_number(a).cmp(&form_number(b)))
        .then(cell_order(last_cell(a), last_cell(b)))
}

fn cell_order(a: Cell, b: Cell) -> Ordering {
    a.object
        .cmp(&b.object)
        .then(a.offset.cmp(&b.offset))
        .then(a.size.cmp(&b.size))
}

fn first_cell(fact: &Fact) -> Cell {
    match fact {
        Fact::Between { x, .. } => *x,
        Fact::Class { x, .. } => *x,
        Fact::AtMost { x, .. } => *x,
        Fact::PointsTo { x, .. } => *x,
    }
}

fn last_cell(fact: &Fact) -> Cell {
    match fact {
        Fact::AtMost { y, .. } => *y,
        Fact::Between { x, .. } => *x,
        Fact::Class { x, .. } => *x,
        Fact::PointsTo { x, .. } => *x,
    }
}

// A number for each form of facts, and for each pair of signs.
fn form_number(fact: &Fact) -> i8 {
    match fact {
        Fact::Between { .. } => 0,
        Fact::Class { .. } => 1,
        Fact::PointsTo { .. } => 2,
        Fact::AtMost { sx, sy, .. } => {
            let first: i8 = if *sx < 0 { 3 } else { 5 };
            let second: i8 = if *sy < 0 { 0 } else { 1 };
            first + second
        }
    }
}
