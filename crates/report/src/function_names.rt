// The names of functions.
#![tactic(auto)]

ghost use Rattle.std.specs.Prelude.{◌≡◌, IfOk};
ghost use Rattle.c_syntax.specs.Program.{tprogram_tree};
ghost use Rattle.report.specs.RuleText as told;

use c_syntax::{Names, TProgram};
use std::alloc::{AllocError, Global};

/// The names of the functions of a program, by their numbers.
pub fn names_of(alloc: Global, program: &TProgram) -> Result<Names, AllocError>
    ensures { IfOk result (λ names. names ≡ told.names_of (tprogram_tree program.now)) }
{
    let mut names = Vec::new(alloc);
    for function in program.functions.as_slice() {
        names.push(function.name.copy()?)?;
    }
    Ok(Names::from_vec(names))
}
