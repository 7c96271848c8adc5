// What is told of a refusal of typing.

ghost use Rattle.std.specs.Prelude.{◌≡◌, IfOk, IfSome, option_map, string_bytes};
ghost use Rattle.c_syntax.specs.Types.{ctype_tree};
ghost use Rattle.c_check_names.specs.Views.{refusal_of};
ghost use Rattle.report.specs.TypeRefusals as told;
ghost use Rattle.report.specs.TypeRefusals.{no_rule_text, operands_text, redeclared_text};

use crate::type_words::{construct_name, op_name};
use crate::types::type_text;
use c_check_names::TypeError;
use c_syntax::{CType, Construct, Names, Op, Pos};
use std::alloc::{AllocError, Global};

/// What is told of a refusal. Out of memory, which is no refusal, is answered as itself.
pub fn refusal_text(alloc: Global, error: &TypeError) -> Result<Vec<u8>, AllocError>
    ensures { IfOk result (λ text. IfSome (refusal_of error.now) (λ r. text.items ≡ told.refusal_text r)) }
{
    match error {
        TypeError::NoRule {
            op,
            left,
            right,
            tags,
            ..
        } => no_rule_text(alloc, tags, *op, left, right),
        TypeError::Undeclared(_) => "undeclared".as_bytes().to_vec(alloc),
        TypeError::Redeclared(_, first) => redeclared_text(alloc, *first),
        TypeError::NotConstant(_) => "not a constant".as_bytes().to_vec(alloc),
        TypeError::NotLvalue(_) => "not a modifiable lvalue".as_bytes().to_vec(alloc),
        TypeError::ObjectTooLarge(_, size) => object_text(alloc, *size),
        TypeError::TotalTooLarge(_, size) => total_text(alloc, *size),
        TypeError::Unsupported(_, construct) => unsupported_text(alloc, *construct),
        TypeError::NoMemory => Err(AllocError),
    }
}

/// Where a refusal stands. Out of memory stands nowhere.
pub fn refusal_pos(error: &TypeError) -> Option<Pos>
    ensures { result ≡ option_map told.refusal_pos (refusal_of error.now) }
{
    match error {
        TypeError::NoRule { pos, .. } => Some(*pos),
        TypeError::Undeclared(pos)
        | TypeError::Redeclared(pos, _)
        | TypeError::NotConstant(pos)
        | TypeError::NotLvalue(pos)
        | TypeError::ObjectTooLarge(pos, _)
        | TypeError::TotalTooLarge(pos, _)
        | TypeError::Unsupported(pos, _) => Some(*pos),
        TypeError::NoMemory => None,
    }
}

fn no_rule_text(
    alloc: Global,
    tags: &Names,
    op: Op,
    left: &CType,
    right: &Option<CType>,
) -> Result<Vec<u8>, AllocError>
    ensures { IfOk result
        (λ text. text.items ≡ no_rule_text tags.now op (ctype_tree left.now) (option_map ctype_tree right.now)) }
{
    let op = op_name(op);
    let front = format!(in alloc; "no rule for {op} on ")?;
    let operands = operands_text(alloc, tags, left, right)?;
    let mut text = front.into_bytes();
    text.extend_from_slice(operands.as_slice())?;
    Ok(text)
}

fn operands_text(
    alloc: Global,
    tags: &Names,
    left: &CType,
    right: &Option<CType>,
) -> Result<Vec<u8>, AllocError>
    ensures { IfOk result
        (λ text. text.items ≡ operands_text tags.now (ctype_tree left.now) (option_map ctype_tree right.now)) }
{
    let mut text = type_text(alloc, tags, left)?;
    match right {
        None => Ok(text),
        Some(right) => {
            let right = type_text(alloc, tags, right)?;
            text.extend_from_slice(" and ".as_bytes())?;
            text.extend_from_slice(right.as_slice())?;
            Ok(text)
        }
    }
}

fn redeclared_text(alloc: Global, first: Pos) -> Result<Vec<u8>, AllocError>
    ensures { IfOk result (λ text. text.items ≡ redeclared_text first) }
{
    let line = first.line;
    let col = first.col;
    let text = format!(in alloc; "declared before at {line}:{col}")?;
    Ok(text.into_bytes())
}

fn object_text(alloc: Global, size: u64) -> Result<Vec<u8>, AllocError>
    ensures { IfOk result (λ text. text.items ≡ told.object_text size) }
{
    let text = format!(in alloc; "object of {size} bytes")?;
    Ok(text.into_bytes())
}

fn total_text(alloc: Global, size: u64) -> Result<Vec<u8>, AllocError>
    ensures { IfOk result (λ text. text.items ≡ told.total_text size) }
{
    let text = format!(in alloc; "objects of {size} bytes together")?;
    Ok(text.into_bytes())
}

fn unsupported_text(alloc: Global, construct: Construct) -> Result<Vec<u8>, AllocError>
    ensures { IfOk result (λ text. text.items ≡ told.unsupported_text construct) }
{
    let construct = construct_name(construct);
    let text = format!(in alloc; "unsupported {construct}")?;
    Ok(text.into_bytes())
}
