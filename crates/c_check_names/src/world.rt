// The program so far.

ghost use Rattle.std.specs.Prelude.{◌≡◌, ◌≤◌};

use crate::cases::Cases;
use crate::given_initials::GivenInitials;
use crate::reserved::is_reserved;
use crate::structs::Structs;
use crate::table::Table;
use crate::types::{Binding, Labelled, Linked, Meaning, TagBinding};
use c_syntax::{CType, Object, TFunction};
use c_syntax_written::{Name, Pos};
use std::alloc::{AllocError as NoMemory, Global};

/// The program so far, with the names and tags in scope.
#[derive(Drop)]
pub struct World {
    pub(crate) alloc: Global,
    pub structs: Structs,
    pub objects: Vec<Object>,
    pub functions: Vec<TFunction>,
    /// The types of each function's parameters.
    pub signatures: Vec<Vec<CType>>,
    pub initial: GivenInitials,
    /// The sum of the sizes of all objects, in bytes.
    pub total: u64,
    pub linked: Table<Linked>,
    pub names: Table<Binding>,
    /// Where the names of the innermost scope begin.
    pub first_name: usize,
    pub tags: Table<TagBinding>,
    /// Where the tags of the innermost scope begin.
    pub first_tag: usize,
    pub labels: Table<Labelled>,
    pub cases: Cases,
    pub default: Option<Pos>,
    ghost small: { total ≤ 65536 },
}

/// The names and tags that were in scope where a scope began.
#[derive(Clone, Copy)]
pub struct Scope {
    names: usize,
    first_name: usize,
    tags: usize,
    first_tag: usize,
}

impl World {
    ghost use Rattle.std.specs.Prelude.{◌≡◌, [], ◌∷◌, ◌++◌, drop, length, map, IfOk, OnOk};
    ghost use Rattle.std.specs.Option.{option_map};
    ghost use Rattle.c_typing.specs.File.{nothing_yet};
    ghost use Rattle.c_typing.specs.Names as names;
    ghost use Rattle.c_typing.specs.World as typing;
    ghost use Rattle.c_check_names.specs.Trees.{binding_tree, meaning_tree, linked_tree, tag_tree};
    ghost use Rattle.c_check_names.specs.Worlds.{world_of, Encloses};

    /// The program before the first declaration.
    pub fn new(alloc: Global) -> World
        ensures { world_of result ≡ nothing_yet }
    {
        World {
            alloc,
            structs: Structs::new(alloc),
            objects: Vec::new(alloc),
            functions: Vec::new(alloc),
            signatures: Vec::new(alloc),
            initial: GivenInitials::new(alloc),
            total: 0,
            linked: Table::new(alloc),
            names: Table::new(alloc),
            first_name: 0,
            tags: Table::new(alloc),
            first_tag: 0,
            labels: Table::new(alloc),
            cases: Cases::new(alloc),
            default: None,
        }
    }

    /// The allocator of all that the program has.
    pub fn alloc(&self) -> Global {
        self.alloc
    }

    /// What the name stands for: its last declaration that is in scope.
    pub fn meaning_of(&self, name: &[u8]) -> Option<&Meaning>
        ensures { option_map (λ m. meaning_tree m.now) result ≡ names.meaning_of (world_of self.now) name.now }
    {
        match self.names.last(name) {
            Some(binding) => Some(&binding.meaning),
            None => None,
        }
    }

    /// The place of the first declaration of the name in the innermost scope.
    pub fn declared_here(&self, name: &[u8]) -> Option<Pos>
        ensures { result ≡ names.declared_here (world_of self.now) name.now }
    {
        match self.names.first_from(name, self.first_name) {
            Some(binding) => Some(binding.pos),
            None => None,
        }
    }

    /// What a declaration of the name here is declared again with, if it is: a reserved name with its
    /// own place.
    pub fn first_here(&self, at: Pos, name: &[u8]) -> Option<Pos>
        ensures { result ≡ names.first_here (world_of self.now) at name.now }
    {
        if is_reserved(name) {
            Some(at)
        } else {
            self.declared_here(name)
        }
    }

    /// Declares a name. Once out of memory the program is only dropped.
    pub fn declare(&mut self, at: Pos, name: Name, meaning: Meaning) -> Result<(), NoMemory>
        ensures { OnOk result (world_of self.new ≡ names.with_name (world_of self.old) at name (meaning_tree meaning)) }
    {
        self.names.push(Binding {
            name,
            pos: at,
            meaning,
        })?;
        Ok(())
    }

    /// Adds an object or a function of the file, by its name. Once out of memory the program is only
    /// dropped.
    pub fn link(&mut self, linked: Linked) -> Result<(), NoMemory>
        ensures { OnOk result (world_of self.new
            ≡ record (world_of self.old) { linked = map linked_tree self.old.linked ++ linked_tree linked ∷ [] }) }
    {
        self.linked.push(linked)?;
        Ok(())
    }

    /// The tag of this name in scope.
    pub fn tag_in_scope(&self, tag: &[u8]) -> Option<&TagBinding>
        ensures { option_map (λ b. tag_tree b.now) result ≡ names.tag_in_scope (world_of self.now) tag.now }
    {
        self.tags.last(tag)
    }

    /// The tag of this name in the innermost scope.
    pub fn tag_here(&self, tag: &[u8]) -> Option<&TagBinding>
        ensures { option_map (λ b. tag_tree b.now) result ≡ names.tag_here (world_of self.now) tag.now }
    {
        self.tags.first_from(tag, self.first_tag)
    }

    /// The object or function of the file that has the name.
    pub fn linked_as(&self, name: &[u8]) -> Option<&Linked>
        ensures { option_map (λ l. linked_tree l.now) result ≡ names.linked_as (world_of self.now) name.now }
    {
        self.linked.first_from(name, 0)
    }

    /// Begins a scope. What is given back ends it.
    pub fn open(&mut self) -> Scope
        ensures opened { world_of self.new ≡ names.opened (world_of self.old) }
        ensures scope { Encloses (world_of self.old) result }
    {
        let scope = Scope {
            names: self.names.len(),
            first_name: self.first_name,
            tags: self.tags.len(),
            first_tag: self.first_tag,
        };
        self.first_name = scope.names;
        self.first_tag = scope.tags;
        scope
    }

    /// Ends the scope that began here.
    pub fn close(&mut self, before: Scope)
        ensures { (outer : typing.World) → Encloses outer before → world_of self.new ≡ names.closed outer (world_of self.old) }
    {
        self.names.truncate(before.names);
        self.first_name = before.first_name;
        self.tags.truncate(before.tags);
        self.first_tag = before.first_tag;
    }

    /// Ends the scope that began here, and gives the names and the tags that it declared. Once out of memory the
    /// program is only dropped.
    pub fn close_apart(
        &mut self,
        before: Scope,
    ) -> Result<(Vec<Binding>, Vec<TagBinding>), NoMemory>
        ensures closed { (outer : typing.World) → Encloses outer before → OnOk result (world_of self.new ≡ names.closed outer (world_of self.old)) }
        ensures names { (outer : typing.World) → Encloses outer before
            → IfOk result (λ apart. map binding_tree apart.0.items ≡ drop (length outer.names) (world_of self.old).names) }
        ensures tags { (outer : typing.World) → Encloses outer before
            → IfOk result (λ apart. map tag_tree apart.1.items ≡ drop (length outer.tags) (world_of self.old).tags) }
    {
        let names = self.names.split_off(before.names)?;
        self.first_name = before.first_name;
        let tags = self.tags.split_off(before.tags)?;
        self.first_tag = before.first_tag;
        Ok((names, tags))
    }
}
