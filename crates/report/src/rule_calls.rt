// Calls, one after the other.
#![tactic(auto)]

ghost use Rattle.std.specs.Prelude.{◌≡◌, [], ◌++◌, IfOk, map, slice_get, unwrap_or};
ghost use Rattle.c_rules_calls.specs.Placed.{placed};
ghost use Rattle.report.specs.RuleText as told;

use c_rules_calls::{Call, Calls};
use c_syntax::Names;
use std::alloc::{AllocError, Global};

/// The calls, each by the function that it calls and its own place.
pub(crate) fn calls_text(alloc: Global, names: &Names, calls: &Calls) -> Result<Vec<u8>, AllocError>
    ensures { IfOk result (λ text. text.items ≡ told.calls_text names.now calls.now) }
{
    match calls.as_slice().split_first() {
        None => Ok(Vec::new(alloc)),
        Some((first, rest)) => {
            let text = call_text(alloc, names, *first)?;
            with_calls(alloc, text, names, rest)
        }
    }
}

// A text, and these calls behind it.
fn with_calls(
    alloc: Global,
    text: Vec<u8>,
    names: &Names,
    calls: &[Call],
) -> Result<Vec<u8>, AllocError>
    ensures { IfOk result (λ all. all.items ≡ text.items ++ told.calls_after names.now (map placed calls.now)) }
{
    let mut text = text;
    let mut left = calls;
    'each: while let Some((call, rest)) = left.split_first() {
        let next = call_text(alloc, names, *call)?;
        text.extend_from_slice(" > ".as_bytes())?;
        text.extend_from_slice(next.as_slice())?;
        left = rest;
    }
    Ok(text)
}

fn call_text(alloc: Global, names: &Names, call: Call) -> Result<Vec<u8>, AllocError>
    ensures { IfOk result (λ text. text.items ≡ told.call_text names.now (placed call)) }
{
    let line = call.pos.line;
    let col = call.pos.col;
    let place = format!(in alloc; "@{line}:{col}")?;
    let mut text = name_of(names, call.callee).to_vec(alloc)?;
    text.extend_from_slice(place.as_bytes())?;
    Ok(text)
}

// The name of the function of this number, or none.
fn name_of(names: &Names, n: u64) -> &[u8]
    ensures { result.now ≡ unwrap_or (slice_get names.now n) [] }
{
    match names.as_slice().get(n as usize) {
        Some(name) => name.as_slice(),
        None => &[],
    }
}
