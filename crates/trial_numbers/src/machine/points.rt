// Each operator of C at each integer type, on points at the limits of the type.

use super::exprs::{Expr, machine_expr};
use super::outcomes::{Outcome, evaluate, exact};
use super::{State, TYPES};
use crate::tally::Tally;
use c_layout::wrap;
use c_syntax::{Arithmetic, Comparison, Example, IntType, Shift, WrongKind};
use c_values::Wrong;
use ext_int::Ext;
use machine_nums::MExpr;
use num_api::{Message, NOp, Range, Var};
use std::alloc::{AllocError as NoMemory, Global};
use std::fmt;

const ARITHMETIC: [Arithmetic; 8] = [
    Arithmetic::Multiply,
    Arithmetic::Divide,
    Arithmetic::Remainder,
    Arithmetic::Add,
    Arithmetic::Subtract,
    Arithmetic::BitAnd,
    Arithmetic::BitXor,
    Arithmetic::BitOr,
];

const SHIFTS: [Shift; 2] = [Shift::Left, Shift::Right];

const COMPARISONS: [Comparison; 6] = [
    Comparison::Less,
    Comparison::Greater,
    Comparison::AtMost,
    Comparison::AtLeast,
    Comparison::Equal,
    Comparison::Unequal,
];

/// The kinds of operators.
#[derive(Clone, Copy, Debug)]
pub enum Kind {
    Arithmetic,
    Shifts,
    Comparisons,
    OneOperand,
    Conversions,
}

/// All kinds.
pub const KINDS: [Kind; 5] = [
    Kind::Arithmetic,
    Kind::Shifts,
    Kind::Comparisons,
    Kind::OneOperand,
    Kind::Conversions,
];

impl fmt::Display for Kind {
    fn fmt<W: fmt::Write>(&self, f: &mut fmt::Formatter<W>) -> fmt::Result {
        f.write_str(match self {
            Kind::Arithmetic => "arithmetic",
            Kind::Shifts => "shifts",
            Kind::Comparisons => "comparisons",
            Kind::OneOperand => "operators of one operand",
            Kind::Conversions => "conversions",
        })
    }
}

/// What the operators of one kind came to.
#[derive(Drop)]
pub struct Walked {
    pub tally: Tally,
    /// The expressions and numbers at which the two were not the same.
    pub others: Vec<String>,
}

// The number of the first operand, and that of the second.
const FIRST: Var = Var(0);

const SECOND: Var = Var(1);

const VALUE: Var = Var(2);

// Seven numbers at the limits of the type.
fn limits(t: IntType) -> [i128; 7] {
    let (least, greatest) = t.limits();
    let (above, below) = (least.saturating_add(1), greatest.saturating_sub(1));
    if t.is_signed() {
        [least, above, -1, 0, 1, below, greatest]
    } else {
        let half = greatest / 2;
        [0, 1, 2, half, half.saturating_add(1), below, greatest]
    }
}

fn read(alloc: Global, x: Var, t: IntType) -> Result<Box<Expr>, NoMemory> {
    Ok(Box::new(alloc, Expr::Read(x, t))?)
}

fn arithmetic_at(alloc: Global, t: IntType) -> Result<Vec<Expr>, NoMemory> {
    let mut all = Vec::new(alloc);
    for op in ARITHMETIC {
        let a = read(alloc, FIRST, t)?;
        all.push(Expr::Arithmetic(op, t, a, read(alloc, SECOND, t)?))?;
    }
    Ok(all)
}

fn shifts_at(alloc: Global, t: IntType) -> Result<Vec<Expr>, NoMemory> {
    let mut all = Vec::new(alloc);
    for way in SHIFTS {
        let a = read(alloc, FIRST, t)?;
        all.push(Expr::Shift(way, t, a, read(alloc, SECOND, IntType::Int)?))?;
    }
    Ok(all)
}

fn comparisons_at(alloc: Global, t: IntType) -> Result<Vec<Expr>, NoMemory> {
    let mut all = Vec::new(alloc);
    for comparison in COMPARISONS {
        let a = read(alloc, FIRST, t)?;
        all.push(Expr::Compare(comparison, a, read(alloc, SECOND, t)?))?;
    }
    Ok(all)
}

fn one_operand_at(alloc: Global, t: IntType) -> Result<Vec<Expr>, NoMemory> {
    let mut all = Vec::new(alloc);
    all.push(Expr::Minus(t, read(alloc, FIRST, t)?))?;
    all.push(Expr::Complement(t, read(alloc, FIRST, t)?))?;
    all.push(Expr::Not(read(alloc, FIRST, t)?))?;
    Ok(all)
}

fn conversions_from(alloc: Global, t: IntType) -> Result<Vec<Expr>, NoMemory> {
    let mut all = Vec::new(alloc);
    for target in TYPES {
        all.push(Expr::Convert(target, read(alloc, FIRST, t)?))?;
    }
    Ok(all)
}

// Each operator of the kind on variables of the type.
fn operators_at(alloc: Global, kind: Kind, t: IntType) -> Result<Vec<Expr>, NoMemory> {
    match kind {
        Kind::Arithmetic => arithmetic_at(alloc, t),
        Kind::Shifts => shifts_at(alloc, t),
        Kind::Comparisons => comparisons_at(alloc, t),
        Kind::OneOperand => one_operand_at(alloc, t),
        Kind::Conversions => conversions_from(alloc, t),
    }
}

// The numbers of the second operand: those of the type, or amounts up to its width less one.
fn second_numbers(alloc: Global, kind: Kind, t: IntType) -> Result<Vec<i128>, NoMemory> {
    let mut all = Vec::new(alloc);
    match kind {
        Kind::Arithmetic | Kind::Comparisons => all.extend_from_slice(&limits(t))?,
        Kind::Shifts => {
            all.extend_from_slice(&[0, 1, i128::from(t.width().saturating_sub(1))])?;
        }
        Kind::OneOperand | Kind::Conversions => all.push(0)?,
    }
    Ok(all)
}

// The machine at which both variables are known.
fn state_at(alloc: Global, numbers: &[i128; 2]) -> Result<State, NoMemory> {
    let mut state = State::top(alloc);
    state.accept(&Message::Between(FIRST, Range::point(numbers[0])))?;
    state.accept(&Message::Between(SECOND, Range::point(numbers[1])))?;
    Ok(state)
}

// Whether the range is the point of the exact result; of one that is no `i128`, whether it has no upper end.
fn is_exact(exact: Option<i128>, found: Range) -> bool {
    match exact {
        Some(n) => found == Range::point(n),
        None => found.holds_some() && found.hi == Ext::High,
    }
}

// What the failing check looks at: a divisor, a quotient, or the exact result.
fn looked_at(alloc: Global, e: &Expr, kind: WrongKind) -> Result<MExpr, NoMemory> {
    match (kind, e) {
        (WrongKind::DivideByZero, Expr::Arithmetic(_, _, _, b)) => machine_expr(alloc, b),
        (WrongKind::Quotient, Expr::Arithmetic(_, t, a, b)) => {
            let a = Box::new(alloc, machine_expr(alloc, a)?)?;
            let b = Box::new(alloc, machine_expr(alloc, b)?)?;
            Ok(MExpr::Binary(NOp::Quot, *t, a, b))
        }
        _ => machine_expr(alloc, e),
    }
}

// Whether the machine knows the number at which C's check fails.
fn is_shown(alloc: Global, state: &State, e: &Expr, wrong: Wrong) -> Result<bool, NoMemory> {
    let Wrong { kind, operand } = wrong;
    let (found, _) = state.check_range(&looked_at(alloc, e, kind)?)?;
    Ok(match operand {
        Example::Number(n) => found == Range::point(n),
        _ => false,
    })
}

// Whether the machine knows the exact result, and the value of a variable that is given it.
fn is_known(
    alloc: Global,
    mut state: State,
    e: &Expr,
    exact: Option<i128>,
    t: IntType,
    n: i128,
) -> Result<bool, NoMemory> {
    let expr = machine_expr(alloc, e)?;
    let (found, _) = state.check_range(&expr)?;
    state.set(VALUE, &expr)?;
    let (value, _) = state.check_range(&MExpr::Read(VALUE, t))?;
    let wraps = match exact {
        Some(m) => wrap(t, m) == n,
        None => true,
    };
    Ok(wraps && value == Range::point(n) && is_exact(exact, found))
}

// Whether the machine knows what C gives for the expression at these numbers.
fn is_same(alloc: Global, e: &Expr, numbers: &[i128; 2]) -> Result<bool, NoMemory> {
    let state = state_at(alloc, numbers)?;
    match evaluate(e, numbers) {
        Outcome::Number(t, n) => is_known(alloc, state, e, exact(e, numbers), t, n),
        Outcome::Wrong(wrong) => is_shown(alloc, &state, e, wrong),
        Outcome::Nothing => Ok(false),
    }
}

// The operator at a number of the first operand and each of the second.
fn walk_row(
    alloc: Global,
    e: &Expr,
    first: i128,
    second: &[i128],
    walked: &mut Walked,
) -> Result<(), NoMemory> {
    for other in second {
        let numbers = [first, *other];
        let same = is_same(alloc, e, &numbers)?;
        walked.tally.count(same);
        if !same {
            walked
                .others
                .push(format!(in alloc; "{e:?} at {numbers:?}")?)?;
        }
    }
    Ok(())
}

// The operator at each number of both operands.
fn walk_operator(
    alloc: Global,
    e: &Expr,
    first: &[i128],
    second: &[i128],
    walked: &mut Walked,
) -> Result<(), NoMemory> {
    for number in first {
        walk_row(alloc, e, *number, second, walked)?;
    }
    Ok(())
}

fn walk_type(alloc: Global, kind: Kind, t: IntType, walked: &mut Walked) -> Result<(), NoMemory> {
    let second = second_numbers(alloc, kind, t)?;
    for e in &operators_at(alloc, kind, t)? {
        walk_operator(alloc, e, &limits(t), &second, walked)?;
    }
    Ok(())
}

/// What the operators of the kind come to, at all types.
pub fn walk(alloc: Global, kind: Kind) -> Result<Walked, NoMemory> {
    let mut walked = Walked {
        tally: Tally::new(),
        others: Vec::new(alloc),
    };
    for t in TYPES {
        walk_type(alloc, kind, t, &mut walked)?;
    }
    Ok(walked)
}
