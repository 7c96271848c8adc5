// The structs of the program so far, and their members by name.

ghost use Rattle.std.specs.Prelude.{◌≡◌, map, IfOk};

use crate::name_index::NameIndex;
use c_syntax::{Member, Members, StructDef, StructDefs};
use c_syntax_written::Name;
use std::alloc::{AllocError as NoMemory, Global};
use std::mem;

/// The structs of the program so far, and where each member stands by its name. A look by name does not
/// depend on how many members there are.
#[derive(Drop)]
pub struct Structs {
    pub defs: StructDefs,
    /// The names of the members of each struct.
    places: Vec<NameIndex>,
    ghost indexed: { places.items ≡ map (λ def. map (λ member. member.name) def.members) defs },
}

impl Structs {
    ghost use Rattle.std.specs.Prelude.{◌≡◌, [], ◌∷◌, ◌++◌, map, set, position, OnOk, IfOk};
    ghost use Rattle.std.specs.Str.{bytes_eq};
    ghost use Rattle.c_syntax.specs.Program.{member_tree, structdef_tree};
    ghost use Rattle.c_layout.specs.Layout.{members_of};
    ghost use Rattle.c_typing.specs.Names.{tag_of};

    /// No structs.
    pub fn new(alloc: Global) -> Structs
        ensures { result.defs ≡ [] }
    {
        Structs {
            defs: StructDefs::new(alloc),
            places: Vec::new(alloc),
        }
    }

    /// The place of the member of this name in struct number `n`.
    pub fn place_of(&self, n: u64, name: &[u8]) -> Option<usize>
        ensures { result ≡ position (λ member. bytes_eq member.name name.now) (members_of (map structdef_tree self.now.defs) n) }
    {
        match self.places.get(n as usize) {
            None => None,
            Some(index) => index.first_from(name, 0),
        }
    }

    /// Adds a struct that has no members yet. Once out of memory the structs are only dropped.
    pub fn push(&mut self, tag: Name) -> Result<(), NoMemory>
        ensures { OnOk result (map structdef_tree self.new.defs
            ≡ map structdef_tree self.old.defs ++ record { tag = tag; members = []; size = 0; align = 1 } ∷ []) }
    {
        let none = Structs::new(*self.places.allocator());
        let structs = mem::replace(self, none);
        *self = structs.with(tag)?;
        Ok(())
    }

    fn with(self, tag: Name) -> Result<Structs, NoMemory>
        ensures { IfOk result (λ after. map structdef_tree after.defs
            ≡ map structdef_tree self.defs ++ record { tag = tag; members = []; size = 0; align = 1 } ∷ []) }
    {
        let Structs { defs, mut places } = self;
        let alloc = *places.allocator();
        let mut defs = defs.into_vec();
        defs.push(StructDef {
            tag,
            members: Members::new(alloc),
            size: 0,
            align: 1,
        })?;
        places.push(NameIndex::new(alloc))?;
        Ok(Structs {
            defs: StructDefs::from_vec(defs),
            places,
        })
    }

    /// Struct number `n` has these members, this size and this alignment from here on. Once out of memory the structs
    /// are only dropped.
    pub fn complete(
        &mut self,
        n: u64,
        members: Members,
        size: u64,
        align: u64,
    ) -> Result<(), NoMemory>
        ensures { OnOk result (map structdef_tree self.new.defs ≡ set (map structdef_tree self.old.defs) n (record {
          tag = tag_of (map structdef_tree self.old.defs) n;
          members = map member_tree members;
          size = size;
          align = align;
        })) }
    {
        let none = Structs::new(*self.places.allocator());
        let structs = mem::replace(self, none);
        *self = structs.with_members(n, members, size, align)?;
        Ok(())
    }

    fn with_members(
        self,
        n: u64,
        members: Members,
        size: u64,
        align: u64,
    ) -> Result<Structs, NoMemory>
        ensures { IfOk result (λ after. map structdef_tree after.defs ≡ set (map structdef_tree self.defs) n (record {
          tag = tag_of (map structdef_tree self.defs) n;
          members = map member_tree members;
          size = size;
          align = align;
        })) }
    {
        let Structs { defs, mut places } = self;
        let mut defs = defs.into_vec();
        let k = n as usize;
        if k >= defs.len() {
            return Ok(Structs {
                defs: StructDefs::from_vec(defs),
                places,
            });
        }
        let tag = defs[k].tag.copy()?;
        places[k] = names_of(*places.allocator(), members.as_slice())?;
        defs[k] = StructDef {
            tag,
            members,
            size,
            align,
        };
        Ok(Structs {
            defs: StructDefs::from_vec(defs),
            places,
        })
    }
}

// The names of these members.
fn names_of(alloc: Global, members: &[Member]) -> Result<NameIndex, NoMemory>
    ensures { IfOk result (λ names. names ≡ map (λ member. member.name) members.now) }
{
    let mut names = NameIndex::new(alloc);
    for member in members {
        let name = Vec::from_slice(alloc, member.name.as_slice())?;
        names = names.with(name)?;
    }
    Ok(names)
}
