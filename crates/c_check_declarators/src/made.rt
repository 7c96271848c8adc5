// Specs so far.
#![tactic(auto)]

ghost use Rattle.std.specs.Prelude.{◌≡◌, OnOk};
ghost use Rattle.c_typing.specs.Specifiers as specifiers;

use c_check_names::Form;
use c_syntax::{StorageWord, TypeWord};
use std::alloc::{AllocError as NoMemory, Global};

/// The words and the types of specs so far.
#[derive(Drop)]
pub struct SpecsMade {
    pub storage: Vec<StorageWord>,
    pub is_const: bool,
    pub words: Vec<TypeWord>,
    pub types: Vec<Form>,
}

/// One of the words and types of specs.
#[derive(Drop)]
pub enum SpecPart {
    Storage(StorageWord),
    Const,
    Word(TypeWord),
    /// A struct, an enumeration or a typedef name, by its type.
    Type(Form),
}

impl SpecsMade {
    ghost use Rattle.std.specs.Prelude.{◌≡◌, OnOk};
    ghost use Rattle.c_typing.specs.Specifiers as specifiers;
    ghost use Rattle.c_check_declarators.specs.FormViews.{made_tree, part_tree};

    /// No specs.
    pub fn new(alloc: Global) -> SpecsMade
        ensures { made_tree result ≡ specifiers.no_specs_yet }
    {
        SpecsMade {
            storage: Vec::new(alloc),
            is_const: false,
            words: Vec::new(alloc),
            types: Vec::new(alloc),
        }
    }

    /// With one more at the end. Once out of memory they are only dropped.
    pub fn add(&mut self, part: SpecPart) -> Result<(), NoMemory>
        ensures { OnOk result (made_tree self.new ≡ specifiers.with_part (made_tree self.old) (part_tree part)) }
    {
        match part {
            SpecPart::Storage(word) => {
                self.storage.push(word)?;
                Ok(())
            }
            SpecPart::Const => {
                self.is_const = true;
                Ok(())
            }
            SpecPart::Word(word) => {
                self.words.push(word)?;
                Ok(())
            }
            SpecPart::Type(form) => {
                self.types.push(form)?;
                Ok(())
            }
        }
    }
}
