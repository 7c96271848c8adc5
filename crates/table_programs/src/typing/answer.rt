// What a row comes to, as a line.
#![tactic(auto)]

use crate::typing::rows::Fault;
use crate::typing::spelled;
use c_check_names::{Form, TypeError};
use c_check_operators::Operand;
use c_syntax::{CType, IntType, Pos};
use std::alloc::{AllocError, Global};

/// The letters of what an operand is: `@` and the type of a place, or the type of a value.
pub fn operand(alloc: Global, operand: &Operand) -> Result<String, AllocError> {
    match operand {
        Operand::Value(value) => letters(alloc, "", &value.ty()?, false),
        Operand::Place(place) => letters(alloc, "@", place.ty(), place.is_const()),
    }
}

/// The letters of a type as a declaration gives it.
pub fn form(alloc: Global, form: &Form) -> Result<String, AllocError> {
    match form {
        Form::Plain(ty, is_const) => letters(alloc, "", ty, *is_const),
        Form::Unsized(element, is_const) => letters(alloc, "[]", element, *is_const),
        Form::Callable(params, returned) => callable(alloc, params.as_slice(), returned),
    }
}

fn callable(alloc: Global, params: &[CType], returned: &CType) -> Result<String, AllocError> {
    let mut line = String::from_str(alloc, "f(")?;
    let mut between = "";
    for param in params {
        line.push_str(between)?;
        line.push_str(letters(alloc, "", param, false)?.as_str())?;
        between = ",";
    }
    line.push(')')?;
    line.push_str(letters(alloc, "", returned, false)?.as_str())?;
    Ok(line)
}

/// The line of a row that comes to nothing.
pub fn fault(alloc: Global, fault: &Fault) -> Result<String, AllocError> {
    match fault {
        Fault::NoRow => String::from_str(alloc, "no such row"),
        Fault::NoMemory => String::from_str(alloc, "no memory"),
        Fault::Refused(error) => refused(alloc, error),
    }
}

/// The line of a text that comes to nothing, with the columns that a refusal tells.
pub fn placed(alloc: Global, fault: &Fault) -> Result<String, AllocError> {
    let line = self::fault(alloc, fault)?;
    let Fault::Refused(error) = fault else {
        return Ok(line);
    };
    let Some(pos) = place_of(error) else {
        return Ok(line);
    };
    match error {
        TypeError::Redeclared(_, first) => {
            format!(in alloc; "{line} at {}, first at {}", pos.col, first.col)
        }
        _ => format!(in alloc; "{line} at {}", pos.col),
    }
}

fn place_of(error: &TypeError) -> Option<Pos> {
    match error {
        TypeError::NoRule { pos, .. } => Some(*pos),
        TypeError::NotLvalue(pos)
        | TypeError::Unsupported(pos, _)
        | TypeError::Undeclared(pos)
        | TypeError::Redeclared(pos, _)
        | TypeError::NotConstant(pos)
        | TypeError::ObjectTooLarge(pos, _)
        | TypeError::TotalTooLarge(pos, _) => Some(*pos),
        TypeError::NoMemory => None,
    }
}

fn refused(alloc: Global, error: &TypeError) -> Result<String, AllocError> {
    match error {
        TypeError::NoRule {
            op,
            left,
            right,
            ..
        } => {
            let op = spelled::op(*op);
            let left = letters(alloc, "", left, false)?;
            match right {
                None => format!(in alloc; "no rule: {op} {left}"),
                Some(right) => {
                    let right = letters(alloc, "", right, false)?;
                    format!(in alloc; "no rule: {op} {left} {right}")
                }
            }
        }
        TypeError::NotLvalue(_) => String::from_str(alloc, "no place"),
        TypeError::Unsupported(_, construct) => format!(in alloc; "left out: {construct:?}"),
        TypeError::Undeclared(_) => String::from_str(alloc, "undeclared"),
        TypeError::Redeclared(_, _) => String::from_str(alloc, "declared again"),
        TypeError::NotConstant(_) => String::from_str(alloc, "not constant"),
        TypeError::ObjectTooLarge(_, size) => format!(in alloc; "object too large: {size}"),
        TypeError::TotalTooLarge(_, size) => format!(in alloc; "objects too large: {size}"),
        TypeError::NoMemory => String::from_str(alloc, "no memory"),
    }
}

// The letters of a type, from the outermost.
fn letters(alloc: Global, front: &str, ty: &CType, is_const: bool) -> Result<String, AllocError> {
    let mut ty = ty;
    let mut line = String::from_str(alloc, front)?;
    constant(&mut line, is_const)?;
    loop {
        match ty {
            CType::Pointer(target) => {
                line.push('p')?;
                constant(&mut line, target.is_const)?;
                ty = &target.ty;
            }
            CType::Array(target, _) => {
                line.push('a')?;
                constant(&mut line, target.is_const)?;
                ty = &target.ty;
            }
            _ => {
                line.push(core(ty))?;
                return Ok(line);
            }
        }
    }
}

fn constant(line: &mut String, is_const: bool) -> Result<(), AllocError> {
    if is_const {
        line.push('k')?;
    }
    Ok(())
}

fn core(ty: &CType) -> char {
    match ty {
        CType::Void => 'v',
        CType::Struct(0) => 'S',
        CType::Struct(_) => 'T',
        CType::Function(_) => 'f',
        CType::Int(IntType::Char) => 'c',
        CType::Int(IntType::SChar) => 'b',
        CType::Int(IntType::UChar) => 'C',
        CType::Int(IntType::Short) => 's',
        CType::Int(IntType::UShort) => 'H',
        CType::Int(IntType::Int) => 'i',
        CType::Int(IntType::UInt) => 'u',
        CType::Int(IntType::Long) => 'l',
        CType::Int(IntType::ULong) => 'L',
        CType::Int(IntType::LLong) => 'q',
        CType::Int(IntType::ULLong) => 'Q',
        CType::Pointer(_) => 'p',
        CType::Array(_, _) => 'a',
    }
}
