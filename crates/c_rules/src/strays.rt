// The first goto in the text that leads into a block that is not around it.
#![tactic(auto)]

ghost use Rattle.std.specs.Prelude.{◌≡◌, ℕ, [], option_map, unwrap_or, slice_get, IfOk, MatchOption};
ghost use Rattle.c_syntax.specs.Program.{tfunction_tree, tprogram_tree};
ghost use Rattle.c_rules_calls.specs.Gotos.{strays};
ghost use Rattle.c_rules.specs.Earliest.{IsEarlier};
ghost use Rattle.c_rules.specs.Rules.{IsFirstStray, strays_by};

use c_rules_calls::{is_before, stray_goto};
use c_syntax::{Pos, TFunction, TProgram};
use std::alloc::{AllocError as NoMemory, Global};

// The first of all functions.
pub(crate) fn first_stray(alloc: Global, program: &TProgram) -> Result<Option<Pos>, NoMemory>
    ensures { IfOk result
        (λ found. MatchOption found ((f : ℕ) → strays_by (tprogram_tree program.now) f ≡ []) (IsFirstStray (tprogram_tree program.now))) }
{
    let mut found = None;
    for function in program.functions.as_slice() {
        found = earlier(found, stray_in(alloc, function)?);
    }
    Ok(found)
}

fn stray_in(alloc: Global, function: &TFunction) -> Result<Option<Pos>, NoMemory>
    ensures { IfOk result (λ place. place ≡ slice_get (unwrap_or (option_map (strays []) (tfunction_tree function.now).body) []) 0) }
{
    match &function.body {
        Some(body) => stray_goto(alloc, body),
        None => Ok(None),
    }
}

// The second place, where it is there and stands before the first or that is not there, and else the first.
fn earlier(found: Option<Pos>, next: Option<Pos>) -> Option<Pos>
    ensures { IsEarlier (λ at. at) found next result }
{
    match next {
        None => found,
        Some(next) => match found {
            None => Some(next),
            Some(first) => {
                if is_before(next, first) {
                    Some(next)
                } else {
                    Some(first)
                }
            }
        },
    }
}
