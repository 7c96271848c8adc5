ghost use Rattle.std.specs.Prelude.{◌≡◌, ◌≤◌, ◌<◌, ◌≤ℤ◌, pos};
ghost use Rattle.bound_matrix.specs.Points.{IsSmallNumber};

use bound_matrix::Live::{Dead, Live as Alive};
use bound_matrix::{Half, Matrix, Steps, close, close_counted, close_one, close_one_counted};
use ext_int::Ext;
use ext_int::Ext::{Fin, High};
use std::alloc::{AllocError, Global};
use std::marker::Brand;
use std::process::Abort;
use std::sync::ledger::{Blank, Ledger};

const LIMIT: i128 = 1 << 100;

const LARGE: i128 = 1 << 90;

// The variables, the bounds to lower, a place, and what closing answers of it: nothing where dead.
#[derive(Clone, Copy)]
struct Case<'a> {
    vars: u32,
    bounds: &'a [(u32, u32, i128)],
    at: (u32, u32),
    closed: Option<Ext>,
}

// Lowers the bounds whose places are those of the matrix.
fn lower_all(m: &mut Matrix, vars: u32, bounds: &[(u32, u32, i128)])
    requires vars { vars ≡ m.old.vars }
    requires few { vars ≤ 24 }
    ensures { m.new.vars ≡ m.old.vars }
{
    for (i, j, bound) in bounds {
        if *i < 2 * vars && *j < 2 * vars {
            m.lower(*i, *j, Fin(*bound));
        }
    }
}

// The closed bound of a place, or nothing where there is no point or no such place.
fn closed_bound(alloc: Global, case: &Case) -> Result<Option<Ext>, AllocError> {
    let (i, j) = case.at;
    if case.vars > 24 || i >= 2 * case.vars || j >= 2 * case.vars {
        return Ok(None);
    }
    let mut m = Matrix::new(alloc, case.vars)?;
    lower_all(&mut m, case.vars, case.bounds);
    match close(&mut m) {
        Alive => Ok(Some(m.get(i, j))),
        Dead => Ok(None),
    }
}

static CASES: [Case<'static>; 11] = [
    // x + y <= 3 and x - y <= 0 give 2x <= 3, and so 2x <= 2.
    Case {
        vars: 2,
        bounds: &[(3, 0, 3), (2, 0, 0)],
        at: (1, 0),
        closed: Some(Fin(2)),
    },
    // x - y <= -1 and y - x <= 0.
    Case {
        vars: 2,
        bounds: &[(2, 0, -1), (0, 2, 0)],
        at: (0, 0),
        closed: None,
    },
    // x + y <= 3, x - y <= 0 and -x <= -2.
    Case {
        vars: 2,
        bounds: &[(3, 0, 3), (2, 0, 0), (0, 1, -4)],
        at: (0, 0),
        closed: None,
    },
    // x = y and x + y = 3: a point, but none of whole numbers.
    Case {
        vars: 2,
        bounds: &[(2, 0, 0), (0, 2, 0), (3, 0, 3), (0, 3, -3)],
        at: (0, 0),
        closed: None,
    },
    // -2x <= -3 gives x >= 2.
    Case {
        vars: 1,
        bounds: &[(0, 1, -3)],
        at: (0, 1),
        closed: Some(Fin(-4)),
    },
    // x <= 1 and y <= 2 give x + y <= 3.
    Case {
        vars: 2,
        bounds: &[(1, 0, 2), (3, 2, 5)],
        at: (3, 0),
        closed: Some(Fin(3)),
    },
    // x - z <= 1 and z - y <= 2 give x - y <= 3.
    Case {
        vars: 3,
        bounds: &[(4, 0, 1), (2, 4, 2)],
        at: (2, 0),
        closed: Some(Fin(3)),
    },
    // The same of large bounds.
    Case {
        vars: 3,
        bounds: &[(4, 0, LARGE), (2, 4, LARGE)],
        at: (2, 0),
        closed: Some(Fin(2 * LARGE)),
    },
    Case {
        vars: 2,
        bounds: &[(2, 0, 7)],
        at: (0, 2),
        closed: Some(High),
    },
    // A bound of an index from itself.
    Case {
        vars: 1,
        bounds: &[],
        at: (1, 1),
        closed: Some(Fin(0)),
    },
    Case {
        vars: 1,
        bounds: &[(0, 0, -1)],
        at: (1, 1),
        closed: None,
    },
];

#[test]
fn closes(rt: HostRuntime) {
    for case in &CASES {
        let closed = closed_bound(rt.alloc(), case).expect(&rt, "memory");
        assert_eq!(rt; closed, case.closed);
    }
}

/// A bound, by its place.
type Row = (u32, u32, Ext);

fn lowers(rt: &impl Abort, m: &mut Matrix, (i, j, bound): Row) {
    assert!(rt; m.vars() == 2 && i < 4 && j < 4);
    m.lower(i, j, bound);
}

fn raises(rt: &impl Abort, m: &mut Matrix, (i, j, bound): Row) {
    assert!(rt; m.vars() == 2 && i < 4 && j < 4);
    m.raise(i, j, bound);
}

fn has(rt: &impl Abort, m: &Matrix, (i, j, bound): Row) {
    assert!(rt; m.vars() == 2 && i < 4 && j < 4);
    assert_eq!(rt; m.get(i, j), bound);
}

// What is lowered, and then the bound of a place.
static CUT: [(Row, Row); 5] = [
    ((2, 0, Fin(LIMIT + 1)), (2, 0, High)),
    ((2, 0, Fin(LIMIT)), (1, 3, Fin(LIMIT))),
    ((2, 0, Fin(-LIMIT - 1)), (1, 3, Fin(-LIMIT))),
    ((2, 0, Fin(5)), (1, 3, Fin(-LIMIT))),
    ((0, 2, Ext::Low), (3, 1, Fin(-LIMIT))),
];

#[test]
fn cuts_bounds(rt: HostRuntime) {
    let mut m = Matrix::new(rt.alloc(), 2).expect(&rt, "memory");
    for (lowered, found) in &CUT {
        lowers(&rt, &mut m, *lowered);
        has(&rt, &m, *found);
    }
}

// What is raised, and then the bounds of two places, which mirror each other.
static RAISED: [(Row, Row, Row); 3] = [
    ((2, 0, Fin(5)), (2, 0, Fin(5)), (1, 3, Fin(5))),
    ((1, 3, Fin(4)), (2, 0, Fin(5)), (1, 3, Fin(5))),
    ((1, 3, High), (2, 0, High), (1, 3, High)),
];

#[test]
fn raises_and_copies(rt: HostRuntime) {
    assert_eq!(rt; Matrix::empty(rt.alloc()).vars(), 0);
    let mut m = Matrix::new(rt.alloc(), 2).expect(&rt, "memory");
    lowers(&rt, &mut m, (2, 0, Fin(3)));
    let before = m.copy().expect(&rt, "memory");
    for (raised, found, mirrored) in &RAISED {
        raises(&rt, &mut m, *raised);
        has(&rt, &m, *found);
        has(&rt, &m, *mirrored);
    }
    assert_eq!(rt; m.vars(), 2);
    has(&rt, &before, (2, 0, Fin(3)));
    has(&rt, &before, (1, 3, Fin(3)));
}

// x(k) - x(k + 1) <= 1 for 24 variables.
#[test]
fn closes_a_chain(rt: HostRuntime) {
    let mut m = Matrix::new(rt.alloc(), 24).expect(&rt, "memory");
    assert_eq!(rt; m.stored(), 1200);
    for k in 0..23 {
        m.lower(2 * k + 2, 2 * k, Fin(1));
    }
    assert_eq!(rt; close(&mut m), Alive);
    assert_eq!(rt; m.get(46, 0), Fin(23));
}

// The closed bound of 1 and 0 of two variables, where the second bound was lowered after closing.
fn closed_after(
    alloc: Global,
    first: (u32, u32, i128),
    second: (u32, u32, i128),
) -> Result<Option<Ext>, AllocError>
    requires first { (first.0 < 4) × (first.1 < 4) × IsSmallNumber first.2 }
    requires second { (second.0 < 4) × (second.1 < 4) }
{
    let mut m = Matrix::new(alloc, 2)?;
    m.lower(first.0, first.1, Fin(first.2));
    match close(&mut m) {
        Dead => return Ok(None),
        Alive => m.lower(second.0, second.1, Fin(second.2)),
    }
    match close_one(&mut m, second.0, second.1) {
        Dead => Ok(None),
        Alive => Ok(Some(m.get(1, 0))),
    }
}

// The same of a half matrix, whose steps are counted.
fn counted<L: Ledger>(
    alloc: Global,
    first: (u32, u32, i128),
    second: (u32, u32, i128),
    blank: Blank,
) -> Result<Option<Ext>, AllocError>
    requires first { (first.0 < 4) × (first.1 < 4) × IsSmallNumber first.2 }
    requires second { (second.0 < 4) × (second.1 < 4) }
    requires name { blank.name ≡ L.name }
    requires parts { blank.parts ≡ L.parts }
    requires some_part { 0 < blank.parts }
{
    let mut steps = Steps::<L>::start(blank);
    let mut m = Half::new(alloc, 2)?;
    m.lower(first.0, first.1, Fin(first.2), &mut steps);
    match close_counted(&mut m, &mut steps) {
        Dead => return Ok(None),
        Alive => m.lower(second.0, second.1, Fin(second.2), &mut steps),
    }
    match close_one_counted(&mut m, second.0, second.1, &mut steps) {
        Dead => Ok(None),
        Alive => Ok(Some(m.get(1, 0, &mut steps))),
    }
}

#[test]
fn closes_after_one(rt: HostRuntime) {
    let sum = (3, 0, 3);
    let difference = (2, 0, 0);
    let closed = closed_after(rt.alloc(), sum, difference).expect(&rt, "memory");
    assert_eq!(rt; closed, Some(Fin(2)));
    let closed = closed_after(rt.alloc(), difference, sum).expect(&rt, "memory");
    assert_eq!(rt; closed, Some(Fin(2)));
    let closed = closed_after(rt.alloc(), (2, 0, -1), (0, 2, 0)).expect(&rt, "memory");
    assert_eq!(rt; closed, None);
    let closed = counted::<Brand>(rt.alloc(), sum, difference, Blank::new(1)).expect(&rt, "memory");
    assert_eq!(rt; closed, Some(Fin(2)));
}

// The steps of one closing after one bound, with as many variables as there may be.
fn steps_of_closing<L: Ledger>(alloc: Global, blank: Blank) -> Result<u64, AllocError>
    requires name { blank.name ≡ L.name }
    requires parts { blank.parts ≡ L.parts }
    requires some_part { 0 < blank.parts }
{
    let mut steps = Steps::<L>::start(blank);
    let mut m = Half::new(alloc, 24)?;
    m.lower(46, 2, Fin(23), &mut steps);
    match close_counted(&mut m, &mut steps) {
        Dead => return Ok(0),
        Alive => m.lower(2, 0, Fin(1), &mut steps),
    }
    let before = steps.taken();
    match close_one_counted(&mut m, 2, 0, &mut steps) {
        Dead => Ok(0),
        Alive => Ok(steps.taken().saturating_sub(before)),
    }
}

#[test]
fn counts_steps(rt: HostRuntime) {
    let steps = steps_of_closing::<Brand>(rt.alloc(), Blank::new(1)).expect(&rt, "memory");
    println!(rt; "closing 24 variables after one bound: {steps} steps").expect(&rt, "output");
    assert!(rt; steps > 0);
    assert!(rt; steps <= 4436);
}

// Of so many variables: how far from 0 their numbers reach, and how many points that box has.
const BOXES: [(i32, u32); 6] = [(13, 27), (6, 169), (3, 343), (2, 625), (1, 243), (1, 729)];

// The numbers of the indices at a point of the box.
fn numbers_of(point: u32, reach: i32) -> [i32; 12]
    requires low { pos 1 ≤ℤ reach }
    requires high { reach ≤ℤ pos 13 }
{
    let side = (2 * reach + 1) as u32;
    let mut numbers = [0; 12];
    let mut rest = point;
    for k in 0..6usize {
        let number = (rest % side) as i32 - reach;
        rest /= side;
        numbers[2 * k] = number;
        numbers[2 * k + 1] = -number;
    }
    numbers
}

// The number of `j` less that of `i`.
fn difference(numbers: &[i32; 12], i: u32, j: u32) -> i64 {
    let number_of = |k: u32| i64::from(numbers.get(k as usize).copied().unwrap_or(0));
    number_of(j) - number_of(i)
}

fn is_point(numbers: &[i32; 12], bounds: &[(u32, u32, i128)]) -> bool {
    bounds.iter().all(|(i, j, bound)| i128::from(difference(numbers, *i, *j)) <= *bound)
}

// Raises each difference to that of the point.
fn raise(greatest: &mut [i64; 144], numbers: &[i32; 12]) {
    for place in 0..144u32 {
        let found = difference(numbers, place / 12, place % 12);
        let most = &mut greatest[place as usize];
        *most = found.max(*most);
    }
}

// The greatest differences over the points of the box that meet the bounds, where there is one.
fn greatest_differences(points: u32, reach: i32, bounds: &[(u32, u32, i128)]) -> Option<[i64; 144]>
    requires low { pos 1 ≤ℤ reach }
    requires high { reach ≤ℤ pos 13 }
{
    let mut greatest = [i64::MIN; 144];
    let mut found = false;
    for point in 0..points {
        let numbers = numbers_of(point, reach);
        if is_point(&numbers, bounds) {
            raise(&mut greatest, &numbers);
            found = true;
        }
    }
    if found { Some(greatest) } else { None }
}

fn has_bounds(m: &Matrix, vars: u32, greatest: &[i64; 144]) -> bool
    requires vars { vars ≡ m.now.vars }
    requires few { vars ≤ 6 }
{
    for place in 0..144u32 {
        let (i, j) = (place / 12, place % 12);
        if i < 2 * vars && j < 2 * vars {
            let most = greatest[place as usize];
            if m.get(i, j) != Fin(i128::from(most)) {
                return false;
            }
        }
    }
    true
}

// Whether closing finds what trying all points finds.
fn agrees(
    alloc: Global,
    vars: u32,
    reach: i32,
    points: u32,
    bounds: &[(u32, u32, i128)],
) -> Result<bool, AllocError>
    requires few { vars ≤ 6 }
    requires low { pos 1 ≤ℤ reach }
    requires high { reach ≤ℤ pos 13 }
{
    let mut m = Matrix::new(alloc, vars)?;
    lower_all(&mut m, vars, bounds);
    match (close(&mut m), greatest_differences(points, reach, bounds)) {
        (Dead, None) => Ok(true),
        (Alive, Some(greatest)) => Ok(has_bounds(&m, vars, &greatest)),
        _ => Ok(false),
    }
}

// Numbers that look random.
#[derive(Drop)]
struct Random {
    state: u64,
}

impl Random {
    fn below(&mut self, n: u32) -> u32
        requires { 0 < n }
        ensures { result < n }
    {
        self.state = self
            .state
            .wrapping_mul(6364136223846793005)
            .wrapping_add(1442695040888963407);
        ((self.state >> 33) as u32) % n
    }
}

// The bounds of the box, and some more.
fn random_bounds(
    alloc: Global,
    random: &mut Random,
    vars: u32,
    reach: i32,
) -> Result<Vec<(u32, u32, i128)>, AllocError>
    requires some { 1 ≤ vars }
    requires few { vars ≤ 6 }
    requires low { pos 1 ≤ℤ reach }
    requires high { reach ≤ℤ pos 13 }
{
    let widest = 2 * i128::from(reach);
    let mut bounds = Vec::new(alloc);
    for k in 0..vars {
        bounds.push((2 * k, 2 * k + 1, widest))?;
        bounds.push((2 * k + 1, 2 * k, widest))?;
    }
    for _ in 0..vars + random.below(2 * vars) {
        let i = random.below(2 * vars);
        let j = random.below(2 * vars);
        let bound = i128::from(random.below(3 * reach as u32 + 1)) - i128::from(reach);
        bounds.push((i, j, bound))?;
    }
    Ok(bounds)
}

#[test]
fn closes_as_trying_all_points(rt: HostRuntime) {
    let mut random = Random { state: 1 };
    for _ in 0..200 {
        let vars = 1 + random.below(6);
        let (reach, points) = BOXES[vars as usize - 1];
        let bounds = random_bounds(rt.alloc(), &mut random, vars, reach).expect(&rt, "memory");
        let agree = agrees(rt.alloc(), vars, reach, points, &bounds).expect(&rt, "memory");
        assert!(rt; agree, "{bounds:?}");
    }
}
