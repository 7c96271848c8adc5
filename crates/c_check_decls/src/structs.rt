// Structs that are declared alone.
#![tactic(auto)]

ghost use Rattle.std.specs.Prelude.{◌≡◌, [], map};
ghost use Rattle.c_syntax_written.specs.Written as written;
ghost use Rattle.c_syntax_written.specs.Written.{spec_tree, specs_tree};
ghost use Rattle.c_syntax_written.specs.WrittenDecl.{initdeclarator_tree};
ghost use Rattle.c_typing.specs.Decls as decls;

use c_syntax_written::{InitDeclarator, Spec, Specs};

/// Whether a declaration is `struct S;` and nothing more (C11 6.7.2.3p7).
pub(crate) fn is_struct_alone(words: &Specs, items: &[InitDeclarator]) -> bool
    ensures { result ≡ decls.is_struct_alone (specs_tree words.now) (map initdeclarator_tree items.now) }
{
    if !items.is_empty() {
        return false;
    }
    match words.as_slice().split_first() {
        None => false,
        Some((word, rest)) => {
            if rest.is_empty() {
                is_struct(word)
            } else {
                false
            }
        }
    }
}

// Whether this word alone is `struct S`.
#[tactic(auto, using(c_syntax_written::proofs::Trees::the_written_trees))]
fn is_struct(word: &Spec) -> bool
    ensures { result ≡ decls.is_struct_alone (written.more_specs (spec_tree word.now) written.no_specs) [] }
{
    match word {
        Spec::Struct { .. } => true,
        Spec::Storage { .. } | Spec::Const { .. } | Spec::Basic { .. } => false,
        Spec::TypedefName { .. } | Spec::StructBody { .. } => false,
        Spec::Enum { .. } | Spec::EnumBody { .. } => false,
    }
}
