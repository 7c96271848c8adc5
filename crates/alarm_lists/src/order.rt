// The order of alarms.
#![tactic(auto)]

ghost use Rattle.std.specs.Prelude.{◌≡◌};
ghost use Rattle.std.specs.List.{flat_map};
ghost use Rattle.std.specs.Ordering.{nat_cmp};
ghost use Rattle.std.specs.Cmp.Lexicographic.{slice_cmp};
ghost use Rattle.c_steps.specs.Order as order;
ghost use Rattle.c_steps.specs.Order.{place_key};
ghost use Rattle.alarm_lists.specs.Lists.{order_of};

use c_syntax::{Alarm, Pos, WrongKind};
use std::cmp::Ordering;

/// How two alarms stand to each other: by place, then by the number of the kind, then by the chain.
pub fn alarm_order(a: &Alarm, b: &Alarm) -> Ordering
    ensures { result ≡ order_of a.now b.now }
{
    let first = place_order(a.pos, b.pos).then(kind_number(a.kind).cmp(&kind_number(b.kind)));
    match first {
        Ordering::Less => Ordering::Less,
        Ordering::Equal => chain_order(a.chain.as_slice(), b.chain.as_slice()),
        Ordering::Greater => Ordering::Greater,
    }
}

fn place_order(a: Pos, b: Pos) -> Ordering
    ensures { result ≡ slice_cmp nat_cmp (place_key a) (place_key b) }
{
    a.file
        .cmp(&b.file)
        .then(a.line.cmp(&b.line))
        .then(a.col.cmp(&b.col))
}

// By the first call in which they differ, a front before the whole.
fn chain_order(a: &[Pos], b: &[Pos]) -> Ordering
    ensures { result ≡ slice_cmp nat_cmp (flat_map place_key a.now) (flat_map place_key b.now) }
{
    let mut rest = a;
    let mut others = b;
    while let Some((call, more)) = rest.split_first() {
        let Some((other, last)) = others.split_first() else {
            return Ordering::Greater;
        };
        match place_order(*call, *other) {
            Ordering::Less => return Ordering::Less,
            Ordering::Greater => return Ordering::Greater,
            Ordering::Equal => {}
        }
        rest = more;
        others = last;
    }
    match others.first() {
        None => Ordering::Equal,
        Some(_) => Ordering::Less,
    }
}

// The number of a kind, from 1.
fn kind_number(kind: WrongKind) -> u8
    ensures { result ≡ order.kind_number kind }
{
    match kind {
        WrongKind::Overflow => 1,
        WrongKind::DivideByZero => 2,
        WrongKind::Quotient => 3,
        WrongKind::ShiftAmount => 4,
        WrongKind::ShiftResult => 5,
        WrongKind::Indeterminate => 6,
        WrongKind::Fragment => 7,
        WrongKind::NullUse => 8,
        WrongKind::Dangling => 9,
        WrongKind::Bounds => 10,
        WrongKind::Access => 11,
        WrongKind::Alignment => 12,
        WrongKind::ReadOnly => 13,
        WrongKind::Unrelated => 14,
        WrongKind::NoValue => 15,
        WrongKind::AssertFailed => 16,
    }
}
