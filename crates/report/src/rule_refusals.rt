// What is told of a refusal by the rules.
#![tactic(auto)]

ghost use Rattle.std.specs.Prelude.{◌≡◌, ◌++◌, IfOk, IfSome, codes, decimal, option_and_then, option_map, slice_get};
ghost use Rattle.report.specs.RuleRefusals.{refusal_of};
ghost use Rattle.report.specs.RuleText as told;

use crate::rule_calls::calls_text;
use c_rules::RuleError;
use c_rules_calls::{Call, Calls};
use c_syntax::{Names, Pos};
use std::alloc::{AllocError, Global};

/// What is told of a refusal, where these are the names of the functions by their numbers. Out of memory, which is no
/// refusal, is answered as itself.
pub fn rule_text(alloc: Global, names: &Names, error: &RuleError) -> Result<Vec<u8>, AllocError>
    ensures { IfOk result (λ text. IfSome (refusal_of error.now) (λ r. text.items ≡ told.rule_text names.now r)) }
{
    match error {
        RuleError::Unsequenced(_, _, _) => "unsequenced".as_bytes().to_vec(alloc),
        RuleError::Recursion(calls) => recursion_text(alloc, names, calls),
        RuleError::NoMain => "no main".as_bytes().to_vec(alloc),
        RuleError::UndefinedFunction(_) => "no definition".as_bytes().to_vec(alloc),
        RuleError::TooDeepCalls(_) => "calls deeper than 64".as_bytes().to_vec(alloc),
        RuleError::TooLarge(size) => size_text(alloc, *size),
        RuleError::GotoIntoBlock(_) => "goto into block".as_bytes().to_vec(alloc),
        RuleError::NoMemory => Err(AllocError),
    }
}

fn recursion_text(alloc: Global, names: &Names, calls: &Calls) -> Result<Vec<u8>, AllocError>
    ensures { IfOk result (λ text. text.items ≡ codes "recursion " ++ told.calls_text names.now calls.now) }
{
    let calls = calls_text(alloc, names, calls)?;
    let mut text = "recursion ".as_bytes().to_vec(alloc)?;
    text.extend_from_slice(calls.as_slice())?;
    Ok(text)
}

fn size_text(alloc: Global, size: u64) -> Result<Vec<u8>, AllocError>
    ensures { IfOk result (λ text. text.items ≡ codes "inlined size " ++ decimal size) }
{
    let text = format!(in alloc; "inlined size {size}")?;
    Ok(text.into_bytes())
}

/// Where a refusal stands, if it is not one of the whole program. Calls stand at the first of them. Out of memory stands
/// nowhere.
pub fn rule_pos(error: &RuleError) -> Option<Pos>
    ensures { result ≡ option_and_then told.rule_pos (refusal_of error.now) }
{
    match error {
        RuleError::Unsequenced(pos, _, _)
        | RuleError::UndefinedFunction(pos)
        | RuleError::GotoIntoBlock(pos) => Some(*pos),
        RuleError::Recursion(calls) | RuleError::TooDeepCalls(calls) => first_place(calls),
        RuleError::NoMain | RuleError::TooLarge(_) | RuleError::NoMemory => None,
    }
}

fn first_place(calls: &Calls) -> Option<Pos>
    ensures { result ≡ told.first_place calls.now }
{
    match calls.as_slice().first() {
        None => None,
        Some(call) => Some(call.pos),
    }
}
