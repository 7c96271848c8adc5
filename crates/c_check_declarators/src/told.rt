// The type that specs tell.
#![tactic(auto)]

ghost use Rattle.std.specs.Prelude.{◌≡◌, map, option_map};
ghost use Rattle.c_typing.specs.Specifiers as specifiers;
ghost use Rattle.c_typing.specs.World.{World};
ghost use Rattle.c_check_names.specs.Views.{Answers};
ghost use Rattle.c_check_names.specs.Trees.{form_tree};
ghost use Rattle.c_check_declarators.specs.FormViews.{made_tree, place_tree};

use crate::consts::qualified;
use crate::made::SpecsMade;
use crate::type_words::type_by_words;
use c_check_names::{Form, TypeError};
use c_syntax::{Pos, StorageWord, TypeWord};
use std::alloc::Global;

/// Where specs stand.
#[derive(Clone, Copy, PartialEq, Eq)]
pub enum SpecPlace {
    /// In a declaration, which may have one storage word.
    Declaration,
    /// In a parameter, which may have `register`.
    Parameter,
    /// In a member, a cast or a `sizeof`, which have none.
    PlainType,
}

/// The type that specs tell. Where a storage word may not stand in this place, or the words and types name no type, it
/// is Undeclared at the first token.
pub fn type_told(
    alloc: Global,
    place: SpecPlace,
    pos: Pos,
    specs: SpecsMade,
) -> Result<Form, TypeError>
    ensures { (w : World) → Answers (λ out. out ≡ specifiers.type_told (place_tree place) pos (made_tree specs) w) form_tree w result }
{
    let SpecsMade {
        storage,
        is_const,
        words,
        types,
    } = specs;
    if !is_storage_allowed(place, storage.as_slice()) {
        return Err(TypeError::Undeclared(pos));
    }
    match named_type(words.as_slice(), types) {
        None => Err(TypeError::Undeclared(pos)),
        Some(form) => {
            let told = qualified(alloc, is_const, form)?;
            Ok(told)
        }
    }
}

/// Whether these storage words may stand in this place.
pub fn is_storage_allowed(place: SpecPlace, words: &[StorageWord]) -> bool
    ensures { result ≡ specifiers.is_storage_allowed (place_tree place) words.now }
{
    match words {
        [] => true,
        [word] => match place {
            SpecPlace::Declaration => true,
            SpecPlace::Parameter => match *word {
                StorageWord::Register => true,
                StorageWord::Typedef
                | StorageWord::Extern
                | StorageWord::Static
                | StorageWord::Auto => false,
            },
            SpecPlace::PlainType => false,
        },
        [_, _, ..] => false,
    }
}

// The type that type words name, or one struct, enumeration or typedef name.
fn named_type(words: &[TypeWord], types: Vec<Form>) -> Option<Form>
    ensures { option_map form_tree result ≡ specifiers.named_type words.now (map form_tree types.items) }
{
    let mut types = types;
    match types.pop() {
        None => match type_by_words(words) {
            None => None,
            Some(ty) => Some(Form::Plain(ty, false)),
        },
        Some(form) => {
            if types.is_empty() && words.is_empty() {
                Some(form)
            } else {
                None
            }
        }
    }
}
