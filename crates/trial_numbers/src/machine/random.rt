// Random typed expressions and ranges, from a seed.

use super::TYPES;
use super::exprs::Expr;
use crate::boxes::Bounds;
use crate::random::below;
use c_layout::wrap;
use c_syntax::{Arithmetic, Comparison, IntType, Shift};
use num_api::Var;
use rand_pcg::Pcg32;
use std::alloc::{AllocError as NoMemory, Global};

/// A type for each variable.
pub type Types = [IntType; 3];

/// An integer type.
pub fn some_type(random: &mut Pcg32) -> IntType {
    TYPES[below(random, 11) as usize]
}

// A number of the type, near 0 or near a limit.
fn some_number(random: &mut Pcg32, t: IntType) -> i128 {
    let (least, greatest) = t.limits();
    let step = i128::from(below(random, 8));
    match below(random, 4) {
        0 => least.saturating_add(step),
        1 => greatest.saturating_sub(step),
        _ => wrap(t, step - 4),
    }
}

/// A range of at most five numbers of the type.
pub fn some_bounds(random: &mut Pcg32, t: IntType) -> Bounds {
    let lo = some_number(random, t);
    let hi = lo.saturating_add(i128::from(below(random, 5)));
    Bounds {
        lo,
        hi: hi.min(i128::from(t.greatest())),
    }
}

fn some_arithmetic(random: &mut Pcg32) -> Arithmetic {
    match below(random, 12) {
        0..=2 => Arithmetic::Add,
        3..=5 => Arithmetic::Subtract,
        6 | 7 => Arithmetic::Multiply,
        8 => Arithmetic::Divide,
        9 => Arithmetic::Remainder,
        10 => Arithmetic::BitAnd,
        _ => match below(random, 2) {
            0 => Arithmetic::BitOr,
            _ => Arithmetic::BitXor,
        },
    }
}

fn some_comparison(random: &mut Pcg32) -> Comparison {
    match below(random, 6) {
        0 => Comparison::Less,
        1 => Comparison::Greater,
        2 => Comparison::AtMost,
        3 => Comparison::AtLeast,
        4 => Comparison::Equal,
        _ => Comparison::Unequal,
    }
}

// The expression at another type.
fn converted(alloc: Global, t: IntType, from: IntType, e: Expr) -> Result<Expr, NoMemory> {
    if t == from {
        Ok(e)
    } else {
        Ok(Expr::Convert(t, Box::new(alloc, e)?))
    }
}

// A constant, or a variable at the type.
fn leaf(alloc: Global, random: &mut Pcg32, types: &Types, t: IntType) -> Result<Expr, NoMemory> {
    if below(random, 3) == 0 {
        return Ok(Expr::Const(t, some_number(random, t)));
    }
    let x = below(random, 3);
    let own = types[x as usize];
    converted(alloc, t, own, Expr::Read(Var(u64::from(x)), own))
}

// A number of places: a constant, or the low bits of a variable.
fn amount(alloc: Global, random: &mut Pcg32, types: &Types) -> Result<Expr, NoMemory> {
    if below(random, 2) == 0 {
        return Ok(Expr::Const(IntType::Int, i128::from(below(random, 9))));
    }
    let a = Box::new(alloc, leaf(alloc, random, types, IntType::Int)?)?;
    let mask = Box::new(alloc, Expr::Const(IntType::Int, 7))?;
    Ok(Expr::Arithmetic(Arithmetic::BitAnd, IntType::Int, a, mask))
}

// What stands at the top of an expression.
#[derive(Clone, Copy)]
enum Form {
    Minus,
    Complement,
    Not,
    Convert,
    Shift,
    Compare,
    Arithmetic,
}

impl Form {
    // Whether the operands have the type of the whole.
    fn keeps_type(self) -> bool {
        match self {
            Form::Minus | Form::Complement | Form::Shift | Form::Arithmetic => true,
            Form::Not | Form::Convert | Form::Compare => false,
        }
    }
}

fn some_form(random: &mut Pcg32) -> Form {
    match below(random, 15) {
        0 => Form::Minus,
        1 => Form::Complement,
        2 => Form::Not,
        3..=5 => Form::Convert,
        6 => Form::Shift,
        7 => Form::Compare,
        _ => Form::Arithmetic,
    }
}

fn shifted(
    alloc: Global,
    random: &mut Pcg32,
    types: &Types,
    t: IntType,
    a: Expr,
) -> Result<Expr, NoMemory> {
    let places = amount(alloc, random, types)?;
    let way = if below(random, 2) == 0 {
        Shift::Left
    } else {
        Shift::Right
    };
    let a = Box::new(alloc, a)?;
    Ok(Expr::Shift(way, t, a, Box::new(alloc, places)?))
}

fn compared(alloc: Global, c: Comparison, a: Expr, b: Expr) -> Result<Expr, NoMemory> {
    let a = Box::new(alloc, a)?;
    Ok(Expr::Compare(c, a, Box::new(alloc, b)?))
}

/// An expression of the type of at most so many levels above its leaves.
pub fn expression(
    alloc: Global,
    random: &mut Pcg32,
    types: &Types,
    t: IntType,
    levels: u32,
) -> Result<Expr, NoMemory> {
    if levels == 0 || below(random, 16) == 0 {
        return leaf(alloc, random, types, t);
    }
    let form = some_form(random);
    let own = if form.keeps_type() {
        t
    } else {
        some_type(random)
    };
    let a = expression(alloc, random, types, own, levels - 1)?;
    match form {
        Form::Minus => Ok(Expr::Minus(t, Box::new(alloc, a)?)),
        Form::Complement => Ok(Expr::Complement(t, Box::new(alloc, a)?)),
        Form::Not => converted(alloc, t, IntType::Int, Expr::Not(Box::new(alloc, a)?)),
        Form::Convert => converted(alloc, t, own, a),
        Form::Shift => shifted(alloc, random, types, t, a),
        Form::Compare => {
            let b = expression(alloc, random, types, own, levels - 1)?;
            let truth = compared(alloc, some_comparison(random), a, b)?;
            converted(alloc, t, IntType::Int, truth)
        }
        Form::Arithmetic => {
            let b = expression(alloc, random, types, t, levels - 1)?;
            let a = Box::new(alloc, a)?;
            let op = some_arithmetic(random);
            Ok(Expr::Arithmetic(op, t, a, Box::new(alloc, b)?))
        }
    }
}

/// A comparison of two expressions of one type.
pub fn comparison(alloc: Global, random: &mut Pcg32, types: &Types) -> Result<Expr, NoMemory> {
    let t = some_type(random);
    let a = expression(alloc, random, types, t, 2)?;
    let b = expression(alloc, random, types, t, 1)?;
    compared(alloc, some_comparison(random), a, b)
}
