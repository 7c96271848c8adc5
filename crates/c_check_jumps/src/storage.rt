// Storage words.
#![tactic(auto)]

ghost use Rattle.std.specs.Prelude.{◌≡◌, ◌||◌};
ghost use Rattle.c_syntax_written.specs.Written as written;
ghost use Rattle.c_syntax_written.specs.Written.{SpecTrees, spec_tree, specs_tree};
ghost use Rattle.c_typing.specs.Context as contexts;
ghost use Rattle.c_typing.specs.Decls as decls;

use c_syntax_written::{Spec, Specs, StorageWord};

/// Whether the word is one of these.
pub fn is_word(word: StorageWord, words: &[StorageWord]) -> bool
    ensures { result ≡ decls.is_word word words.now }
{
    let mut left = words;
    'each: while let Some((other, rest)) = left.split_first() {
        if is_storage(word, *other) {
            return true;
        }
        left = rest;
    }
    false
}

// Whether the two are one word.
fn is_storage(word: StorageWord, other: StorageWord) -> bool
    ensures { result ≡ contexts.is_storage word other }
{
    match word {
        StorageWord::Typedef => matches!(other, StorageWord::Typedef),
        StorageWord::Extern => matches!(other, StorageWord::Extern),
        StorageWord::Static => matches!(other, StorageWord::Static),
        StorageWord::Auto => matches!(other, StorageWord::Auto),
        StorageWord::Register => matches!(other, StorageWord::Register),
    }
}

/// Whether specs have the word, as they are written.
pub(crate) fn has_storage(word: StorageWord, specs: &Specs) -> bool
    ensures { result ≡ contexts.has_storage word (specs_tree specs.now) }
{
    let all = specs.as_slice();
    let mut left = all;
    'each: while let Some((spec, rest)) = left.split_first() {
        if is_storage_spec(word, spec) {
            return true;
        }
        left = rest;
    }
    false
}

// Whether it is this word.
#[tactic(auto, using(c_syntax_written::proofs::Trees::the_written_trees), unfolding(c_typing::specs::Context::has_storage))]
fn is_storage_spec(word: StorageWord, spec: &Spec) -> bool
    ensures { (rest : SpecTrees) → (result || contexts.has_storage word rest) ≡ contexts.has_storage word (written.more_specs (spec_tree spec.now) rest) }
{
    match spec {
        Spec::Storage { word: other, .. } => is_storage(word, *other),
        Spec::Const { .. } => false,
        Spec::Basic { .. } => false,
        Spec::TypedefName { .. } => false,
        Spec::Struct { .. } => false,
        Spec::StructBody { .. } => false,
        Spec::Enum { .. } => false,
        Spec::EnumBody { .. } => false,
    }
}
