// Structs, and the tags that name them.

ghost use Rattle.std.specs.Prelude.{◌≡◌};

use crate::error::NameError;
use crate::types::{TagBinding, TagMeaning};
use crate::world::World;
use c_syntax_written::{Name, Pos, Tag};
use std::alloc::AllocError as NoMemory;

impl World {
    ghost use Rattle.std.specs.Prelude.{◌≡◌, ◌<◌, length, map, Some, None, OnOk};
    ghost use Rattle.std.specs.Option.{option_map};
    ghost use Rattle.c_typing.specs.Names as names;
    ghost use Rattle.c_check_names.specs.Trees.{redefined_at, tag_meaning, tag_tree};
    ghost use Rattle.c_check_names.specs.Worlds.{world_of, ComesTo};

    // A struct that has no members yet.
    fn add_struct(&mut self, tag: Name) -> Result<(), NoMemory>
        ensures { OnOk result (world_of self.new ≡ names.with_struct (world_of self.old) tag) }
    {
        self.structs.push(tag)
    }

    /// Puts a tag into the innermost scope. Once out of memory the program is only dropped.
    pub fn add_tag(
        &mut self,
        tag: &Tag,
        defined: Option<Pos>,
        meaning: TagMeaning,
    ) -> Result<(), NoMemory>
        ensures { OnOk result (world_of self.new ≡ names.with_tag (world_of self.old) tag.now defined (tag_meaning meaning)) }
    {
        self.tags.push(TagBinding {
            tag: tag.name.copy()?,
            pos: tag.pos,
            defined,
            meaning,
        })?;
        Ok(())
    }

    // A struct by a new tag.
    fn new_struct(&mut self, tag: &Tag, defined: Option<Pos>) -> Result<u64, NameError>
        ensures { ComesTo (names.new_struct (world_of self.old) tag.now defined) (world_of self.new) result }
    {
        let number = self.structs.defs.as_slice().len() as u64;
        self.add_struct(tag.name.copy()?)?;
        self.add_tag(tag, defined, TagMeaning::Struct(number))?;
        Ok(number)
    }

    /// `struct S`, which may be all that its declaration says: the number of the struct. Once out of
    /// memory the program is only dropped.
    pub fn struct_named(&mut self, alone: bool, tag: &Tag) -> Result<u64, NameError>
        ensures { ComesTo (names.struct_named (world_of self.old) alone tag.now) (world_of self.new) result }
    {
        match self.tag_here(tag.name.as_slice()) {
            None => self.struct_from_outside(alone, tag),
            Some(here) => match here.meaning {
                TagMeaning::Struct(number) => Ok(number),
                TagMeaning::Enum | TagMeaning::OpenEnum => {
                    Err(NameError::Redeclared(tag.pos, here.pos))
                }
            },
        }
    }

    // That of an outer scope, unless the declaration has nothing else.
    fn struct_from_outside(&mut self, alone: bool, tag: &Tag) -> Result<u64, NameError>
        ensures { ComesTo (names.struct_found (world_of self.old) alone tag.now None) (world_of self.new) result }
    {
        match self.tag_in_scope(tag.name.as_slice()) {
            None => self.new_struct(tag, None),
            Some(outer) => match outer.meaning {
                TagMeaning::Struct(number) => {
                    if alone {
                        self.new_struct(tag, None)
                    } else {
                        Ok(number)
                    }
                }
                TagMeaning::Enum | TagMeaning::OpenEnum => self.new_struct(tag, None),
            },
        }
    }

    /// `struct S {`, or one without a tag: the number of the struct. Once out of memory the program is
    /// only dropped.
    pub fn struct_opened(&mut self, tag: Option<&Tag>) -> Result<u64, NameError>
        ensures { ComesTo (names.struct_opened (world_of self.old) (option_map (λ t. t.now) tag.entry)) (world_of self.new) result }
    {
        match tag {
            None => self.nameless_struct(),
            Some(tag) => self.struct_begun(tag),
        }
    }

    fn nameless_struct(&mut self) -> Result<u64, NameError>
        ensures { ComesTo (names.struct_opened (world_of self.old) None) (world_of self.new) result }
    {
        let number = self.structs.defs.as_slice().len() as u64;
        let nameless = Name::new(self.alloc);
        self.add_struct(nameless)?;
        Ok(number)
    }

    fn struct_begun(&mut self, tag: &Tag) -> Result<u64, NameError>
        ensures { ComesTo (names.struct_opened (world_of self.old) (Some tag.now)) (world_of self.new) result }
    {
        match self.tag_here(tag.name.as_slice()) {
            None => self.new_struct(tag, Some(tag.pos)),
            Some(here) => match here.meaning {
                TagMeaning::Struct(number) => match here.defined {
                    None => self.struct_defined(tag, number),
                    Some(first) => Err(NameError::Redeclared(tag.pos, first)),
                },
                TagMeaning::Enum | TagMeaning::OpenEnum => {
                    Err(NameError::Redeclared(tag.pos, here.pos))
                }
            },
        }
    }

    fn struct_defined(&mut self, tag: &Tag, number: u64) -> Result<u64, NameError>
        ensures { ComesTo (names.struct_defined (world_of self.old) tag.now number None) (world_of self.new) result }
    {
        self.redefine(
            tag.name.as_slice(),
            Some(tag.pos),
            TagMeaning::Struct(number),
        )?;
        Ok(number)
    }

    /// The tags of this name in the innermost scope now have this place of their definition and this
    /// meaning. Once out of memory the program is only dropped.
    pub fn redefine(
        &mut self,
        tag: &[u8],
        defined: Option<Pos>,
        meaning: TagMeaning,
    ) -> Result<(), NoMemory>
        ensures { OnOk result (world_of self.new ≡ names.with_tag_become (world_of self.old) tag.now defined (tag_meaning meaning)) }
    {
        let mut from = self.first_tag;
        while let Some(place) = self.tags.place_from(tag, from) {
            self.redefine_at(place, defined, meaning)?;
            from = place + 1;
        }
        Ok(())
    }

    fn redefine_at(
        &mut self,
        place: usize,
        defined: Option<Pos>,
        meaning: TagMeaning,
    ) -> Result<(), NoMemory>
        requires { place < length self.old.tags }
        ensures { OnOk result (world_of self.new
            ≡ record (world_of self.old) { tags = redefined_at defined (tag_meaning meaning) place (map tag_tree self.old.tags) }) }
    {
        let old = self.tags.get(place);
        let tag = old.tag.copy()?;
        let pos = old.pos;
        self.tags.replace(
            place,
            TagBinding {
                tag,
                pos,
                defined,
                meaning,
            },
        );
        Ok(())
    }
}
