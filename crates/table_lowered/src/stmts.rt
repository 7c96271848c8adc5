// Statements in the short notation.
#![tactic(auto, using(csharp::proofs::CodeTrees::the_code_trees, csharp::proofs::CodeTrees::the_code_sizes))]

use crate::exprs::{at_address, behind, ended, expr, letter, list, temp_name};
use crate::files::Written;
use c_syntax::{IntType, Numbers};
use csharp::{CsCall, CsCheck, CsExpr, CsStmt, CsStmts};

/// A statement in braces.
#[cycle(statements)]
pub fn braced(s: &CsStmt, out: &mut String) -> Written {
    out.push('{')?;
    stmt(s, out)?;
    out.push('}')
}

#[cycle(statements)]
fn stmt(s: &CsStmt, out: &mut String) -> Written {
    match s {
        CsStmt::Sequence { first, second } => {
            stmt(first, out)?;
            stmt(second, out)
        }
        CsStmt::If {
            condition,
            then,
            otherwise,
        } => {
            behind("if ", condition, out)?;
            braced(then, out)?;
            out.push_str("else")?;
            braced(otherwise, out)
        }
        CsStmt::Loop { pos, body } => {
            write!(out, "loop@{}", pos.col)?;
            braced(body, out)
        }
        CsStmt::Block { body } => braced(body, out),
        CsStmt::Scope { objects, items } => {
            out.push_str("scope")?;
            all(objects, items, out)
        }
        CsStmt::Switch {
            value,
            objects,
            items,
        } => {
            behind("switch ", value, out)?;
            all(objects, items, out)
        }
        _ => single(s, out),
    }
}

// Objects, and items in braces.
#[cycle(statements)]
fn all(objects: &Numbers, items: &CsStmts, out: &mut String) -> Written {
    names(objects, out)?;
    out.push('{')?;
    for item in items.as_slice() {
        stmt(item, out)?;
    }
    out.push('}')
}

fn names(objects: &Numbers, out: &mut String) -> Written {
    for object in objects.as_slice() {
        write!(out, " {object}")?;
    }
    Ok(())
}

// A statement that holds no other.
fn single(s: &CsStmt, out: &mut String) -> Written {
    match s {
        CsStmt::Set { temp, value } => {
            temp_name(*temp, out)?;
            ended("=", value, out)
        }
        CsStmt::Load { temp, ty, address } => {
            temp_name(*temp, out)?;
            out.push('=')?;
            at_address(*ty, address, out)?;
            out.push(';')
        }
        CsStmt::Store { ty, address, value } => {
            at_address(*ty, address, out)?;
            ended("=", value, out)
        }
        CsStmt::CopyBytes { size, to, from } => copy(*size, to, from, out),
        CsStmt::Undefine { object } => write!(out, "undef {object};"),
        CsStmt::Checked { check } => checked(check, out),
        CsStmt::Input { temp, ty } => input(*temp, *ty, out),
        CsStmt::Assume { condition } => ended("assume ", condition, out),
        CsStmt::Exit { level } => write!(out, "exit {level};"),
        CsStmt::Goto { label } => write!(out, "goto {label};"),
        CsStmt::Call { call } => called(call, out),
        CsStmt::Return { value: None } => out.push_str("return;"),
        CsStmt::Return { value: Some(value) } => ended("return ", value, out),
        CsStmt::Label { pos, label } => write!(out, "label {label}@{}:", pos.col),
        CsStmt::Case { value } => write!(out, "case {value}:"),
        CsStmt::Default => out.push_str("default:"),
        _ => Ok(()),
    }
}

fn copy(size: u64, to: &CsExpr, from: &CsExpr, out: &mut String) -> Written {
    write!(out, "copy{size} ")?;
    expr(to, out)?;
    ended(" ", from, out)
}

fn input(temp: u64, t: IntType, out: &mut String) -> Written {
    temp_name(temp, out)?;
    write!(out, "=any {};", letter(t))
}

fn checked(check: &CsCheck, out: &mut String) -> Written {
    let kind = check.check.kind;
    let col = check.pos.col;
    write!(out, "?{kind:?}@{col} ")?;
    list(&check.operands, " ", out)?;
    out.push(';')
}

fn called(call: &CsCall, out: &mut String) -> Written {
    let function = call.function;
    let col = call.pos.col;
    write!(out, "f{function}@{col}(")?;
    list(&call.args, ",", out)?;
    out.push(')')?;
    given(" to ", call.value, out)?;
    given(" or ", call.flag, out)?;
    out.push(';')
}

// A temporary that a call sets.
fn given(word: &str, temp: Option<u64>, out: &mut String) -> Written {
    match temp {
        None => Ok(()),
        Some(temp) => {
            out.push_str(word)?;
            temp_name(temp, out)
        }
    }
}
