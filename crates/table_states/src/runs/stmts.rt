// Statements.
#![tactic(auto)]

use super::exprs::integer;
use super::rows::{Fault, Stacks, count, number, parts, some_count};
use crate::common::at;
use block_mem::Scalar;
use c_syntax::{Check, WrongKind};
use csharp::{CsCall, CsCheck, CsStmt};

/// The statement of a word, if it is that of one.
pub fn stmt(stacks: &mut Stacks, head: &str, rest: &str) -> Result<Option<CsStmt>, Fault> {
    if let Some(stmt) = action(stacks, head, rest)? {
        return Ok(Some(stmt));
    }
    if let Some(stmt) = mark(head, rest)? {
        return Ok(Some(stmt));
    }
    nested(stacks, head, rest)
}

fn action(stacks: &mut Stacks, head: &str, rest: &str) -> Result<Option<CsStmt>, Fault> {
    Ok(Some(match head {
        "set" => CsStmt::Set {
            temp: count(rest)?,
            value: stacks.expr()?,
        },
        "load" => {
            let (temp, ty) = parts(rest)?;
            CsStmt::Load {
                temp: count(temp)?,
                ty: scalar(ty)?,
                address: stacks.expr()?,
            }
        }
        "store" => {
            let value = stacks.expr()?;
            CsStmt::Store {
                ty: scalar(rest)?,
                address: stacks.expr()?,
                value,
            }
        }
        "copy" => {
            let from = stacks.expr()?;
            CsStmt::CopyBytes {
                size: count(rest)?,
                to: stacks.expr()?,
                from,
            }
        }
        "assume" => CsStmt::Assume {
            condition: stacks.expr()?,
        },
        "check" => CsStmt::Checked {
            check: check(stacks, rest)?,
        },
        "call" => CsStmt::Call {
            call: call(stacks, rest)?,
        },
        _ => return leaf(stacks, head, rest),
    }))
}

fn leaf(stacks: &mut Stacks, head: &str, rest: &str) -> Result<Option<CsStmt>, Fault> {
    Ok(Some(match head {
        "nothing" => CsStmt::Nothing,
        "undef" => CsStmt::Undefine {
            object: count(rest)?,
        },
        "input" => {
            let (temp, ty) = parts(rest)?;
            CsStmt::Input {
                temp: count(temp)?,
                ty: integer(ty)?,
            }
        }
        "exit" => CsStmt::Exit {
            level: count(rest)?,
        },
        "goto" => CsStmt::Goto {
            label: count(rest)?,
        },
        "return" => CsStmt::Return {
            value: if rest == "1" {
                Some(stacks.expr()?)
            } else {
                None
            },
        },
        _ => return Ok(None),
    }))
}

fn mark(head: &str, rest: &str) -> Result<Option<CsStmt>, Fault> {
    Ok(Some(match head {
        "label" => CsStmt::Label {
            pos: at(1),
            label: count(rest)?,
        },
        "case" => CsStmt::Case {
            value: number(rest)?,
        },
        "default" => CsStmt::Default,
        _ => return Ok(None),
    }))
}

fn nested(stacks: &mut Stacks, head: &str, rest: &str) -> Result<Option<CsStmt>, Fault> {
    let alloc = stacks.alloc;
    Ok(Some(match head {
        "seq" => {
            let second = Box::new(alloc, stacks.stmt()?)?;
            let first = Box::new(alloc, stacks.stmt()?)?;
            CsStmt::Sequence { first, second }
        }
        "if" => {
            let otherwise = Box::new(alloc, stacks.stmt()?)?;
            let then = Box::new(alloc, stacks.stmt()?)?;
            CsStmt::If {
                condition: stacks.expr()?,
                then,
                otherwise,
            }
        }
        "loop" => CsStmt::Loop {
            pos: at(1),
            body: Box::new(alloc, stacks.stmt()?)?,
        },
        "block" => CsStmt::Block {
            body: Box::new(alloc, stacks.stmt()?)?,
        },
        "scope" => {
            let (object, items) = parts(rest)?;
            CsStmt::Scope {
                objects: stacks.numbers(object)?,
                items: stacks.items(items)?,
            }
        }
        "switch" => {
            let (object, items) = parts(rest)?;
            CsStmt::Switch {
                objects: stacks.numbers(object)?,
                items: stacks.items(items)?,
                value: stacks.expr()?,
            }
        }
        _ => return Ok(None),
    }))
}

fn scalar(word: &str) -> Result<Scalar, Fault> {
    match word {
        "pointer" => Ok(Scalar::Pointer),
        _ => Ok(Scalar::Int(integer(word)?)),
    }
}

fn check(stacks: &mut Stacks, word: &str) -> Result<CsCheck, Fault> {
    let (kind, word) = parts(word)?;
    let (lo, word) = parts(word)?;
    let (hi, word) = parts(word)?;
    let (size, word) = parts(word)?;
    let (align, word) = parts(word)?;
    let (ty, operands) = parts(word)?;
    Ok(CsCheck {
        check: Check {
            kind: self::kind(kind)?,
            lo: number(lo)?,
            hi: number(hi)?,
            size: count(size)?,
            align: count(align)?,
        },
        pos: at(4),
        ty: if ty == "-" { None } else { Some(scalar(ty)?) },
        operands: stacks.operands(operands)?,
    })
}

fn call(stacks: &mut Stacks, word: &str) -> Result<CsCall, Fault> {
    let (column, word) = parts(word)?;
    let (function, word) = parts(word)?;
    let (args, word) = parts(word)?;
    let (value, flag) = parts(word)?;
    let Ok(column) = column.parse::<u32>() else {
        return Err(Fault::NoRow);
    };
    Ok(CsCall {
        pos: at(column),
        function: count(function)?,
        args: stacks.operands(args)?,
        value: some_count(value)?,
        flag: some_count(flag)?,
    })
}

fn kind(word: &str) -> Result<WrongKind, Fault> {
    match word {
        "Overflow" => Ok(WrongKind::Overflow),
        "DivideByZero" => Ok(WrongKind::DivideByZero),
        "Quotient" => Ok(WrongKind::Quotient),
        "ShiftAmount" => Ok(WrongKind::ShiftAmount),
        "ShiftResult" => Ok(WrongKind::ShiftResult),
        "Indeterminate" => Ok(WrongKind::Indeterminate),
        "Fragment" => Ok(WrongKind::Fragment),
        "NullUse" => Ok(WrongKind::NullUse),
        "Dangling" => Ok(WrongKind::Dangling),
        "Bounds" => Ok(WrongKind::Bounds),
        "Access" => Ok(WrongKind::Access),
        "Alignment" => Ok(WrongKind::Alignment),
        "ReadOnly" => Ok(WrongKind::ReadOnly),
        "Unrelated" => Ok(WrongKind::Unrelated),
        "NoValue" => Ok(WrongKind::NoValue),
        "AssertFailed" => Ok(WrongKind::AssertFailed),
        _ => Err(Fault::NoRow),
    }
}
