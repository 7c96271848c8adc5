// Each call of `Machine` once, over each of the two domains.

ghost use Rattle.std.specs.Prelude.{◌≡◌};
ghost use Rattle.num_api.specs.Steps.{least};
ghost use Rattle.num_api.specs.Powers.{power_steps};

use crate::OneNumber;
use c_syntax_written::IntType;
use env_lift::Env;
use ext_int::Ext;
use intervals::Interval;
use machine_nums::{MExpr, Machine};
use num_api::{
    Live, Message, NOp, NumDomain, NumFacts, Powers, Ramp, Range, Residue, Var, power_step,
};
use residues::{Class, Pair};
use std::alloc::{AllocError as NoMemory, Global};
use std::process::Abort;
use std::test::Fail;

type Bounds = Env<Pair<Interval, Class>>;

const X: Var = Var(0);

const Y: Var = Var(1);

fn read(x: Var) -> MExpr {
    MExpr::Read(x, IntType::UChar)
}

fn two(alloc: Global, op: NOp, t: IntType, a: MExpr, n: i128) -> Result<MExpr, NoMemory> {
    let a = Box::new(alloc, a)?;
    Ok(MExpr::Binary(op, t, a, Box::new(alloc, MExpr::Const(t, n))?))
}

fn range_of<D: NumDomain>(machine: &Machine<D>, x: Var) -> Result<Range, NoMemory> {
    Ok(machine.check_range(&read(x))?.0)
}

// The machine at which x is this number of `unsigned char`.
fn machine_at<D: NumDomain>(alloc: Global, n: i128) -> Result<Machine<D>, NoMemory> {
    let mut machine = Machine::<D>::top(alloc);
    machine.set(X, &MExpr::Const(IntType::UChar, n))?;
    Ok(machine)
}

// A value wraps into its type, and the exact result does not.
fn sets<D: NumDomain>(rt: &impl Abort, alloc: Global) -> Result<(), NoMemory> {
    let mut machine = Machine::<D>::top(alloc);
    assert_eq!(rt; range_of(&machine, X)?, Range::all());
    machine.set(X, &MExpr::Const(IntType::UChar, 255))?;
    let next = two(alloc, NOp::Add, IntType::UChar, read(X), 45)?;
    let (range, residue) = machine.check_range(&next)?;
    assert_eq!(rt; range, Range::point(300));
    assert_eq!(rt;
        residue,
        Residue {
            rem: 300,
            modulus: 0
        }
    );
    machine.set(Y, &next)?;
    assert_eq!(rt; range_of(&machine, Y)?, Range::point(44));
    Ok(())
}

// A test keeps what passes, and is dead where nothing does.
fn tests<D: NumDomain>(rt: &impl Abort, alloc: Global) -> Result<(), NoMemory> {
    let mut machine = machine_at::<D>(alloc, 5)?;
    let less = two(alloc, NOp::Lt, IntType::Int, read(X), 6)?;
    assert_eq!(rt; machine.test(&less, true)?, Live::Live);
    assert_eq!(rt; range_of(&machine, X)?, Range::point(5));
    assert_eq!(rt; machine.test(&less, false)?, Live::Dead);
    Ok(())
}

// A variable that may be anything, of its type or at all.
fn forgets<D: NumDomain>(rt: &impl Abort, alloc: Global) -> Result<(), NoMemory> {
    let known = machine_at::<D>(alloc, 5)?;
    let mut machine = known.copy()?;
    assert_eq!(rt; range_of(&machine, X)?, Range::point(5));
    machine.havoc(X, IntType::UChar)?;
    assert!(rt; machine.covers(&known));
    assert!(rt; !known.covers(&machine));
    assert_eq!(rt; range_of(&known, X)?, Range::point(5));
    let mut machine = known.copy()?;
    machine.forget(X)?;
    assert_eq!(rt; range_of(&machine, X)?, Range::all());
    Ok(())
}

// A message is kept, or nothing is left.
fn accepts<D: NumDomain>(rt: &impl Abort, alloc: Global) -> Result<(), NoMemory> {
    let mut machine = Machine::<D>::top(alloc);
    let seven = Message::Between(X, Range::point(7));
    assert_eq!(rt; machine.accept(&seven)?, Live::Live);
    assert_eq!(rt; range_of(&machine, X)?, Range::point(7));
    let eight = Message::Between(X, Range::point(8));
    assert_eq!(rt; machine.accept(&eight)?, Live::Dead);
    Ok(())
}

// What is known of both machines stays known, and nothing else.
fn joins<D: NumDomain>(rt: &impl Abort, alloc: Global) -> Result<(), NoMemory> {
    let other = machine_at::<D>(alloc, 5)?;
    let mut machine = machine_at::<D>(alloc, 5)?;
    machine.join(&other)?;
    assert_eq!(rt; range_of(&machine, X)?, Range::point(5));
    let other = machine_at::<D>(alloc, 9)?;
    machine.join(&other)?;
    assert!(rt; machine.covers(&other));
    assert!(rt; range_of(&machine, X)? != Range::point(5));
    Ok(())
}

// Widening holds both machines, and then stays.
fn widens<D: NumDomain>(rt: &impl Abort, alloc: Global) -> Result<(), NoMemory> {
    let ramp = Ramp::<_>::new::<Powers>(
        257,
        |n: i128| -> Option<i128>
            ensures { result ≡ least power_steps n }
        { power_step(n) },
    );
    let mut machine = machine_at::<D>(alloc, 5)?;
    let next = machine_at::<D>(alloc, 9)?;
    assert!(rt; !machine.covers(&next));
    machine.widen::<_, Powers>(&next, &ramp)?;
    assert!(rt; machine.covers(&next));
    let found = range_of(&machine, X)?;
    assert!(rt; found.holds_some() && found != Range::point(9));
    machine.widen::<_, Powers>(&next, &ramp)?;
    assert_eq!(rt; range_of(&machine, X)?, found);
    Ok(())
}

// What is known is put out.
fn tells<D: NumDomain>(rt: &impl Abort, alloc: Global) -> Result<(), NoMemory> {
    let machine = machine_at::<D>(alloc, 5)?;
    let mut out = NumFacts::new(alloc);
    machine.facts(&mut out)?;
    let told =
        matches!(out.as_slice(), [Message::Between(x, range), ..] if x.0 == X.0 && *range == Range::point(5));
    assert!(rt; told);
    Ok(())
}

fn calls<D: NumDomain>(rt: &impl Abort, alloc: Global) -> Result<(), NoMemory> {
    sets::<D>(rt, alloc)?;
    tests::<D>(rt, alloc)?;
    forgets::<D>(rt, alloc)?;
    accepts::<D>(rt, alloc)?;
    joins::<D>(rt, alloc)?;
    widens::<D>(rt, alloc)?;
    tells::<D>(rt, alloc)
}

#[test]
fn ranges_and_classes_of_all_variables(rt: HostRuntime) -> Result<(), Fail> {
    let alloc = rt.alloc();
    Ok(calls::<Bounds>(&rt, alloc)?)
}

#[test]
fn the_number_of_one_variable(rt: HostRuntime) -> Result<(), Fail> {
    let alloc = rt.alloc();
    Ok(calls::<OneNumber>(&rt, alloc)?)
}

// What a test leaves of a range.
#[test]
fn cuts_ranges(rt: HostRuntime) -> Result<(), Fail> {
    let alloc = rt.alloc();
    let mut machine = Machine::<Bounds>::top(alloc);
    machine.havoc(X, IntType::UChar)?;
    let less = two(alloc, NOp::Lt, IntType::Int, read(X), 10)?;
    assert_eq!(rt; machine.test(&less, true)?, Live::Live);
    let left = Range {
        lo: Ext::Fin(0),
        hi: Ext::Fin(9),
    };
    assert_eq!(rt; range_of(&machine, X)?, left);
    Ok(())
}
