// Expressions in the short notation: a form stands between parentheses, with its operator in front.
#![tactic(auto, using(c_syntax_written::proofs::Trees::the_written_trees, c_syntax_written::proofs::Sizes::the_written_sizes))]

use crate::text::{Written, number, shown, word};
use crate::types::type_name;
use c_syntax_written::{
    AssignOp, BinaryOp, Bytes, Declarator, Expr, Exprs, Name, Specs, StepWay, UnaryOp,
};

/// An expression, as `(Plus a 1)`.
#[cycle(shape)]
pub fn expr(out: &mut String, e: &Expr) -> Written {
    match e {
        Expr::SizeofType {
            specs,
            declarator,
            ..
        } => sizeof_type(out, specs, declarator),
        Expr::Cast {
            specs,
            declarator,
            operand,
            ..
        } => cast(out, specs, declarator, operand),
        Expr::Binary {
            op,
            left,
            right,
            ..
        } => binary(out, *op, left, right),
        Expr::Cond {
            condition,
            then,
            otherwise,
            ..
        } => choice(out, condition, then, otherwise),
        Expr::Compound {
            op,
            left,
            right,
            ..
        } => compound(out, *op, left, right),
        _ => small(out, e),
    }
}

// The expressions of few parts.
#[cycle(shape)]
fn small(out: &mut String, e: &Expr) -> Written {
    match e {
        Expr::Word { name, .. } => word(out, name),
        Expr::Number { constant, .. } => number(out, u128::from(constant.value)),
        Expr::Character { byte, .. } => character(out, *byte),
        Expr::Strings { bytes, .. } => strings(out, bytes),
        Expr::Enclosed { inner, .. } => enclosed(out, inner),
        Expr::Index { base, index, .. } => form(out, "(at ", base, index),
        Expr::Call { name, args, .. } => call(out, name, args),
        Expr::Dot { base, member, .. } => member_of(out, "(. ", base, member),
        Expr::Arrow { base, member, .. } => member_of(out, "(-> ", base, member),
        Expr::PostStep { way, operand, .. } => operation(out, after(*way), operand),
        Expr::PreStep { way, operand, .. } => operation(out, before(*way), operand),
        Expr::Unary { op, operand, .. } => unary(out, *op, operand),
        Expr::SizeofExpr { operand, .. } => operation(out, "(sizeof ", operand),
        Expr::Assign { left, right, .. } => form(out, "(= ", left, right),
        Expr::Comma { left, right, .. } => form(out, "(, ", left, right),
        // `expr` writes these.
        Expr::SizeofType { .. } => Ok(()),
        Expr::Cast { .. } => Ok(()),
        Expr::Binary { .. } => Ok(()),
        Expr::Cond { .. } => Ok(()),
        Expr::Compound { .. } => Ok(()),
    }
}

fn after(way: StepWay) -> &'static str {
    match way {
        StepWay::Up => "(post++ ",
        StepWay::Down => "(post-- ",
    }
}

fn before(way: StepWay) -> &'static str {
    match way {
        StepWay::Up => "(pre++ ",
        StepWay::Down => "(pre-- ",
    }
}

fn character(out: &mut String, byte: u8) -> Written {
    out.push('\'')?;
    number(out, u128::from(byte))?;
    out.push('\'')
}

// How many bytes a text has.
fn strings(out: &mut String, bytes: &Bytes) -> Written {
    out.push('"')?;
    number(out, bytes.as_slice().len() as u128)?;
    out.push('"')
}

#[cycle(shape)]
fn enclosed(out: &mut String, inner: &Expr) -> Written {
    out.push('[')?;
    expr(out, inner)?;
    out.push(']')
}

#[cycle(shape)]
fn call(out: &mut String, name: &Name, args: &Exprs) -> Written {
    out.push_str("(call ")?;
    word(out, name)?;
    for arg in args.as_slice() {
        out.push(' ')?;
        expr(out, arg)?;
    }
    out.push(')')
}

#[cycle(shape)]
fn member_of(out: &mut String, head: &str, base: &Expr, member: &Name) -> Written {
    out.push_str(head)?;
    expr(out, base)?;
    out.push(' ')?;
    word(out, member)?;
    out.push(')')
}

// A head, an operand and the parenthesis that closes.
#[cycle(shape)]
pub fn operation(out: &mut String, head: &str, operand: &Expr) -> Written {
    out.push_str(head)?;
    expr(out, operand)?;
    out.push(')')
}

#[cycle(shape)]
fn unary(out: &mut String, op: UnaryOp, operand: &Expr) -> Written {
    out.push('(')?;
    shown(out, &op)?;
    operation(out, " ", operand)
}

// Two operands behind a head.
#[cycle(shape)]
fn form(out: &mut String, head: &str, left: &Expr, right: &Expr) -> Written {
    out.push_str(head)?;
    expr(out, left)?;
    operation(out, " ", right)
}

#[cycle(shape)]
fn binary(out: &mut String, op: BinaryOp, left: &Expr, right: &Expr) -> Written {
    out.push('(')?;
    shown(out, &op)?;
    form(out, " ", left, right)
}

#[cycle(shape)]
fn compound(out: &mut String, op: AssignOp, left: &Expr, right: &Expr) -> Written {
    out.push('(')?;
    shown(out, &op)?;
    form(out, "= ", left, right)
}

#[cycle(shape)]
fn choice(out: &mut String, condition: &Expr, then: &Expr, otherwise: &Expr) -> Written {
    out.push_str("(? ")?;
    expr(out, condition)?;
    form(out, " ", then, otherwise)
}

#[cycle(shape)]
fn sizeof_type(out: &mut String, specs: &Specs, declarator: &Declarator) -> Written {
    out.push_str("(sizeof ")?;
    type_name(out, specs, declarator)?;
    out.push(')')
}

#[cycle(shape)]
fn cast(out: &mut String, specs: &Specs, declarator: &Declarator, operand: &Expr) -> Written {
    out.push_str("(cast ")?;
    type_name(out, specs, declarator)?;
    operation(out, " ", operand)
}
