// What a call gives where its function reaches its end.
#![tactic(auto, using(c_syntax::proofs::Trees::the_trees))]

ghost use Rattle.std.specs.Prelude.{◌≡◌};
ghost use Rattle.c_layout.specs.MainFunction.{is_main as is_main_of};
ghost use Rattle.c_layout.specs.RowTypes.{is_void as is_void_type};
ghost use Rattle.c_steps.specs.Calls.{at_end};
ghost use Rattle.c_syntax.specs.Program.{tprogram_tree};
ghost use Rattle.c_syntax.specs.Types.{ctype_tree};
ghost use Rattle.c_machine_work.specs.Views.{end_of};

use crate::items::AtEnd;
use c_syntax::{CType, TProgram};

/// What a call of the function of this number gives, whose result has this type, where its end is
/// reached without a `return`.
pub fn end_of_call(program: &TProgram, function: u64, ty: &CType, used: bool) -> AtEnd
    ensures { end_of result ≡ at_end (tprogram_tree program.now) function (ctype_tree ty.now) used }
{
    if is_void(ty) {
        AtEnd::GivesNothing
    } else if is_main(program, function) {
        AtEnd::GivesZero
    } else if used {
        AtEnd::IsWrong
    } else {
        AtEnd::GivesNothing
    }
}

fn is_void(ty: &CType) -> bool
    ensures { result ≡ is_void_type (ctype_tree ty.now) }
{
    match ty {
        CType::Void => true,
        CType::Int(_)
        | CType::Pointer(_)
        | CType::Array(_, _)
        | CType::Struct(_)
        | CType::Function(_) => false,
    }
}

// Whether the function of this number is named main.
fn is_main(program: &TProgram, function: u64) -> bool
    ensures { result ≡ is_main_of (tprogram_tree program.now) function }
{
    match program.functions.as_slice().get(function as usize) {
        None => false,
        Some(function) => function.name.as_slice() == b"main".as_slice(),
    }
}
