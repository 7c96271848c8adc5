// The tags of enumerations.

ghost use Rattle.std.specs.Prelude.{◌≡◌};

use crate::error::NameError;
use crate::types::TagMeaning;
use crate::world::World;
use c_syntax_written::Tag;
use std::alloc::AllocError as NoMemory;

impl World {
    ghost use Rattle.std.specs.Prelude.{◌≡◌, None, OnOk};
    ghost use Rattle.std.specs.Option.{option_map};
    ghost use Rattle.c_typing.specs.Names as names;
    ghost use Rattle.c_check_names.specs.Worlds.{world_of, ComesTo};

    /// `enum E`, which names an enumeration that is defined before.
    pub fn enum_named(&self, tag: &Tag) -> Result<(), NameError>
        ensures { ComesTo (names.enum_named (world_of self.now) tag.now) (world_of self.now) result }
    {
        match self.tag_here(tag.name.as_slice()) {
            None => self.enum_from_outside(tag),
            Some(here) => match here.meaning {
                TagMeaning::Struct(_) => Err(NameError::Redeclared(tag.pos, here.pos)),
                TagMeaning::Enum => Ok(()),
                TagMeaning::OpenEnum => Err(NameError::Undeclared(tag.pos)),
            },
        }
    }

    // That of an outer scope.
    fn enum_from_outside(&self, tag: &Tag) -> Result<(), NameError>
        ensures { ComesTo (names.enum_found (world_of self.now) tag.now None) (world_of self.now) result }
    {
        match self.tag_in_scope(tag.name.as_slice()) {
            None => Err(NameError::Undeclared(tag.pos)),
            Some(outer) => match outer.meaning {
                TagMeaning::Enum => Ok(()),
                TagMeaning::Struct(_) | TagMeaning::OpenEnum => {
                    Err(NameError::Undeclared(tag.pos))
                }
            },
        }
    }

    /// `enum E {`, or one without a tag. Once out of memory the program is only dropped.
    pub fn enum_opened(&mut self, tag: Option<&Tag>) -> Result<(), NameError>
        ensures { ComesTo (names.enum_opened (world_of self.old) (option_map (λ t. t.now) tag.entry)) (world_of self.new) result }
    {
        match tag {
            None => Ok(()),
            Some(tag) => self.enum_begun(tag),
        }
    }

    fn enum_begun(&mut self, tag: &Tag) -> Result<(), NameError>
        ensures { ComesTo (names.enum_begins (world_of self.old) tag.now (names.tag_here (world_of self.old) tag.now.name)) (world_of self.new) result }
    {
        match self.tag_here(tag.name.as_slice()) {
            Some(first) => Err(NameError::Redeclared(tag.pos, first.pos)),
            None => {
                self.add_tag(tag, Some(tag.pos), TagMeaning::OpenEnum)?;
                Ok(())
            }
        }
    }

    /// `}` of an enumeration. Once out of memory the program is only dropped.
    pub fn enum_closed(&mut self, tag: Option<&Tag>) -> Result<(), NoMemory>
        ensures { OnOk result (world_of self.new ≡ names.enum_closed (world_of self.old) (option_map (λ t. t.now) tag.entry)) }
    {
        match tag {
            None => Ok(()),
            Some(tag) => self.redefine(tag.name.as_slice(), Some(tag.pos), TagMeaning::Enum),
        }
    }
}
