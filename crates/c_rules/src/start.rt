// The function with which a run begins.
#![tactic(auto)]

ghost use Rattle.std.specs.Prelude.{◌≡◌, ◌<◌, length, map, IfSome, MatchBool, MatchOption};
ghost use Rattle.std.specs.List.{position};
ghost use Rattle.c_syntax.specs.Program.{tfunction_tree, tprogram_tree};
ghost use Rattle.c_layout.specs.MainFunction.{is_named_main};
ghost use Rattle.c_layout.specs.Plans.{IsStart};
ghost use Rattle.c_rules.specs.Rules.{Begins, IsMain};

use c_syntax::{CType, IntType, TFunction, TProgram, same_type};

// The number of the function named main, where a run may begin with it.
pub(crate) fn main_function(program: &TProgram) -> Option<u64>
    ensures { MatchOption result (Begins (tprogram_tree program.now) → ⊥) (IsMain (tprogram_tree program.now)) }
{
    let functions = program.functions.as_slice();
    match named_main(functions) {
        None => None,
        Some(main) => {
            if is_start(&functions[main as usize]) {
                Some(main)
            } else {
                None
            }
        }
    }
}

fn named_main(functions: &[TFunction]) -> Option<u64>
    ensures place { result ≡ position is_named_main (map tfunction_tree functions.now) }
    ensures inside { IfSome result (λ main. main < length functions.now) }
{
    for (number, function) in functions.iter().enumerate() {
        if is_named_main(function) {
            return Some(number as u64);
        }
    }
    None
}

fn is_named_main(function: &TFunction) -> bool
    ensures { result ≡ is_named_main (tfunction_tree function.now) }
{
    function.name.as_slice() == b"main".as_slice()
}

fn is_start(function: &TFunction) -> bool
    ensures { MatchBool result (IsStart (tfunction_tree function.now)) (IsStart (tfunction_tree function.now) → ⊥) }
{
    if function.body.is_none() {
        return false;
    }
    if !function.params.as_slice().is_empty() {
        return false;
    }
    same_type(&function.result, &CType::Int(IntType::Int))
}
