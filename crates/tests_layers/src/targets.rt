use pointsets::*;
use std::alloc::Global;
use std::process::Abort;

/// The set of Null and Dead where marked, and of these objects, put in in this order.
fn set_of(alloc: Global, null: bool, dead: bool, names: &[u64]) -> Targets {
    let mut set = Targets::new(alloc);
    if null {
        set.with(Base::Null);
    }
    if dead {
        set.with(Base::Dead);
    }
    for n in names {
        set.with(Base::Object(*n));
    }
    set
}

fn has_names(rt: &impl Abort, set: &Targets, want: &[u64]) {
    assert_eq!(rt; set.names(), want);
}

fn has_marks(rt: &impl Abort, set: &Targets, null: bool, dead: bool) {
    assert!(rt; set.holds(Base::Null) == null);
    assert!(rt; set.holds(Base::Dead) == dead);
}

const SIXTEEN: [u64; 16] = [9, 1, 31, 5, 29, 3, 27, 7, 25, 11, 23, 13, 21, 15, 19, 17];

const SEVENTEEN: [u64; 17] = [9, 1, 31, 5, 29, 3, 27, 7, 25, 11, 23, 13, 21, 15, 19, 17, 2];

const RISING: [u64; 16] = [1, 3, 5, 7, 9, 11, 13, 15, 17, 19, 21, 23, 25, 27, 29, 31];

static PUT_IN: [(&[u64], &[u64], bool); 5] = [
    (&[], &[], false),
    (&[7, 7], &[7], false),
    (&[5, 2, 5, 9, 2], &[2, 5, 9], false),
    (&SIXTEEN, &RISING, false),
    (&SEVENTEEN, &[], true),
];

// Names put in, and then the names of the set, and whether it is All.
#[test]
fn sixteen_names_are_told_apart(rt: HostRuntime) {
    for (names, want, all) in &PUT_IN {
        let set = set_of(rt.alloc(), false, false, names);
        has_names(&rt, &set, want);
        assert!(rt; set.is_all() == *all);
    }
}

static LOW: [u64; 9] = [0, 2, 4, 6, 8, 10, 12, 14, 16];

static JOINED: [(&[u64], &[u64], bool); 3] = [
    (
        &[0, 1, 3, 5, 7, 9, 10, 11, 13],
        &[0, 1, 2, 3, 4, 5, 6, 7, 8, 9, 10, 11, 12, 13, 14, 16],
        false,
    ),
    (&[1, 3, 5, 7, 9, 11, 13, 15, 17], &[], true),
    (&SEVENTEEN, &[], true),
];

// Two sets of nine, and then the names of both, and whether they are All.
#[test]
fn joins(rt: HostRuntime) {
    for (names, want, all) in &JOINED {
        let mut set = set_of(rt.alloc(), true, false, &LOW);
        set.join(&set_of(rt.alloc(), false, true, names));
        has_names(&rt, &set, want);
        assert!(rt; set.is_all() == *all);
        has_marks(&rt, &set, true, true);
    }
}

/// A set by its marks and names.
type Marked = (bool, bool, &'static [u64]);

static COVERED: [(Marked, Marked, bool); 10] = [
    ((false, false, &SEVENTEEN), (false, false, &SEVENTEEN), true),
    ((false, false, &SEVENTEEN), (true, true, &SIXTEEN), true),
    ((true, true, &SIXTEEN), (false, false, &SEVENTEEN), false),
    ((true, true, &SIXTEEN), (true, true, &SIXTEEN), true),
    ((false, false, &[]), (false, false, &[]), true),
    ((false, false, &[4]), (false, false, &[]), true),
    ((false, false, &[]), (false, false, &[4]), false),
    ((false, true, &[4]), (true, false, &[4]), false),
    ((true, false, &[4]), (false, true, &[4]), false),
    ((true, false, &[1, 4, 9]), (true, false, &[4, 9]), true),
];

// Two sets, and whether the first covers the second.
#[test]
fn covers(rt: HostRuntime) {
    for ((null, dead, names), (other_null, other_dead, others), want) in &COVERED {
        let set = set_of(rt.alloc(), *null, *dead, names);
        let other = set_of(rt.alloc(), *other_null, *other_dead, others);
        assert_eq!(rt; set.covers(&other), *want);
    }
}

static KILLED: [(&[u64], &[u64], &[u64], bool); 5] = [
    (&[3, 5, 8], &[5], &[3, 8], true),
    (&[3, 5, 8], &[8, 4, 3], &[5], true),
    (&[3, 5, 8], &[4], &[3, 5, 8], false),
    (&[3, 5, 8], &[], &[3, 5, 8], false),
    (&SEVENTEEN, &[3], &[], true),
];

// A set, what ends, and then the names left, and whether Dead is there.
#[test]
fn kills(rt: HostRuntime) {
    for (names, ended, want, dead) in &KILLED {
        let mut set = set_of(rt.alloc(), false, false, names);
        set.kill(ended);
        has_names(&rt, &set, want);
        has_marks(&rt, &set, set.is_all(), *dead);
    }
}
