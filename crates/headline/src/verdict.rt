// Laws of the verdict: bytes are one program, or are refused once.
ghost use Rattle.std.specs.Prelude.{◌≡◌, ◌≤◌, ℕ, List, length};
ghost use Rattle.c_syntax.specs.Program.{TProgramTree};
ghost use Rattle.headline.specs.Program.{IsAdmittedAs};
ghost use Rattle.report.specs.Refusal.{RefusalTree, without_calls};
ghost use Rattle.headline.specs.Verdict.{IsRefusedFor};

use c_grammar::{file_nor_refused, one_file, one_refusal};
use c_lexer::{cut_nor_uncut, one_cut, one_uncut};
use c_rules::{admitted_is_not_refused, refusals_are_one};
use c_typing::files_have_one;

/// Bytes are one program at most.
pub fn one_program()
    ensures { (bytes : List ℕ) (a b : TProgramTree) → IsAdmittedAs bytes a → IsAdmittedAs bytes b → a ≡ b }
{
    one_cut();
    one_file();
    files_have_one();
}

/// Bytes are refused for one reason at most, at one place, whichever calls are told.
pub fn one_verdict()
    ensures { (bytes : List ℕ) (a b : RefusalTree) → IsRefusedFor bytes a → IsRefusedFor bytes b → without_calls a ≡ without_calls b }
{
    one_cut();
    one_uncut();
    cut_nor_uncut();
    one_refusal();
    file_nor_refused();
    one_file();
    files_have_one();
    refusals_are_one();
    admitted_is_not_refused();
}

/// Bytes that are a program are refused only where they are too many.
pub fn program_nor_refused()
    ensures { (bytes : List ℕ) (program : TProgramTree) (r : RefusalTree) → length bytes ≤ 4194304 → IsAdmittedAs bytes program → IsRefusedFor bytes r → ⊥ }
{
    one_cut();
    cut_nor_uncut();
    one_file();
    file_nor_refused();
    files_have_one();
    admitted_is_not_refused();
}
