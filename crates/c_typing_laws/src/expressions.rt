// The law of expressions, and a small file to which it speaks.
#![tactic(auto)]

ghost use Rattle.c_typing_laws.specs.ExpressionLaws.{ExpressionsAreTyped};
ghost use Rattle.c_typing_laws.specs.LawSamples.{SamplesAreTyped};

/// An expression between the declarations of a file, settled, is typed in each program that goes on from there, where the
/// objects in scope are static or live, and where each function that is declared stands in that program as it is called
/// (C11 6.5).
pub fn expressions_are_typed()
    ensures { ExpressionsAreTyped }
{}

/// `k + 1` after `int k;` has what the law of expressions asks for, and is typed.
pub fn samples_are_typed()
    ensures { SamplesAreTyped }
{}
