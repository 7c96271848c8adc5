// Typed programs.
#![tactic(auto, using(crate::proofs::Trees::the_trees))]

use crate::{CType, Name, Numbers, Object, Pos, TStmt};
use std::alloc::{AllocError as NoMemory, Global};
use std::marker::Model;

/// A member of a struct, `offset` bytes after the struct's first one.
#[derive(Drop)]
pub struct Member {
    pub name: Name,
    pub ty: CType,
    pub offset: u64,
}

/// A struct. The tag is empty where it has none, and there are no members where the struct is not
/// complete. The size and the alignment are in bytes.
#[derive(Drop)]
pub struct StructDef {
    pub tag: Name,
    pub members: Members,
    pub size: u64,
    pub align: u64,
}

/// A function, with the objects that are its parameters. It has no body where the file only
/// declares it.
#[derive(Drop)]
pub struct TFunction {
    pub name: Name,
    pub pos: Pos,
    pub params: Numbers,
    pub result: CType,
    pub body: Option<TStmt>,
}

/// A byte of an initial value: a number, or byte `k`, from 0 to 7, of the pointer to this offset
/// of this object.
#[derive(Clone, Copy, PartialEq, Eq)]
pub enum InitByte {
    /// A byte of a number.
    Num(u8),
    /// A byte of a pointer.
    Piece { object: u64, offset: i64, k: u8 },
}

/// The bytes that an object of static duration has at the start.
#[derive(Drop)]
pub struct Initial {
    pub object: u64,
    pub bytes: InitBytes,
}

/// A typed program. Structs, objects and functions go by their places in these lists, in the order
/// of the text. `initial` has one value for each object of static duration, a string literal too.
#[derive(Drop)]
pub struct TProgram {
    pub structs: StructDefs,
    pub objects: Objects,
    pub functions: TFunctions,
    pub initial: Initials,
}

/// How a program is to be run and analysed: its functions that have a body, each after those that
/// it calls, and which of them is `main`.
#[derive(Drop)]
pub struct Plan {
    pub order: Numbers,
    pub main: u64,
}

/// The members of a struct in their order.
#[derive(Drop)]
pub struct Members {
    items: Vec<Member>,
}

impl Model for Members {
    ghost use Rattle.std.specs.Prelude.{List};
    ghost use Rattle.c_syntax.specs.declared.program.Member.{Member};
    ghost use Rattle.c_syntax.specs.contracts.types.CType as ctype;
    ghost use Rattle.std.specs.Coded.{codes};

    ghost Value = { List Member };

    ghost coded = { Prim.hlevel (codes, ctype.the_row.coded) };

    ghost view = { λ l. l.items.items };
}

impl Members {
    ghost use Rattle.std.specs.Prelude.{◌≡◌, []};

    /// The list with nothing in it.
    pub fn new(alloc: Global) -> Members
        ensures { result ≡ [] }
    {
        Members {
            items: Vec::new(alloc),
        }
    }

    /// The list of these items.
    pub fn from_vec(items: Vec<Member>) -> Members
        ensures { result ≡ items.items }
    {
        Members { items }
    }

    /// The items, given back without taking memory.
    pub fn into_vec(self) -> Vec<Member>
        ensures { result.items ≡ self }
    {
        let Members { items } = self;
        items
    }

    /// The members, in their order.
    pub fn as_slice(&self) -> &[Member]
        ensures { result.now ≡ self.now }
    {
        self.items.as_slice()
    }
}

/// The structs of a program.
#[derive(Drop)]
pub struct StructDefs {
    items: Vec<StructDef>,
}

impl Model for StructDefs {
    ghost use Rattle.std.specs.Prelude.{List};
    ghost use Rattle.c_syntax.specs.declared.program.StructDef.{StructDef};
    ghost use Rattle.c_syntax.specs.contracts.types.CType as ctype;
    ghost use Rattle.std.specs.Coded.{codes};

    ghost Value = { List StructDef };

    ghost coded = { Prim.hlevel (codes, ctype.the_row.coded) };

    ghost view = { λ l. l.items.items };
}

impl StructDefs {
    ghost use Rattle.std.specs.Prelude.{◌≡◌, []};

    /// The list with nothing in it.
    pub fn new(alloc: Global) -> StructDefs
        ensures { result ≡ [] }
    {
        StructDefs {
            items: Vec::new(alloc),
        }
    }

    /// The list of these items.
    pub fn from_vec(items: Vec<StructDef>) -> StructDefs
        ensures { result ≡ items.items }
    {
        StructDefs { items }
    }

    /// The items, given back without taking memory.
    pub fn into_vec(self) -> Vec<StructDef>
        ensures { result.items ≡ self }
    {
        let StructDefs { items } = self;
        items
    }

    /// The structs, in their order.
    pub fn as_slice(&self) -> &[StructDef]
        ensures { result.now ≡ self.now }
    {
        self.items.as_slice()
    }
}

/// The objects of a program.
#[derive(Drop)]
pub struct Objects {
    items: Vec<Object>,
}

impl Model for Objects {
    ghost use Rattle.std.specs.Prelude.{List};
    ghost use Rattle.c_syntax.specs.declared.types.Object.{Object};
    ghost use Rattle.c_syntax.specs.contracts.types.CType as ctype;
    ghost use Rattle.std.specs.Coded.{codes};

    ghost Value = { List Object };

    ghost coded = { Prim.hlevel (codes, ctype.the_row.coded) };

    ghost view = { λ l. l.items.items };
}

impl Objects {
    ghost use Rattle.std.specs.Prelude.{◌≡◌, []};

    /// The list with nothing in it.
    pub fn new(alloc: Global) -> Objects
        ensures { result ≡ [] }
    {
        Objects {
            items: Vec::new(alloc),
        }
    }

    /// The list of these items.
    pub fn from_vec(items: Vec<Object>) -> Objects
        ensures { result ≡ items.items }
    {
        Objects { items }
    }

    /// The items, given back without taking memory.
    pub fn into_vec(self) -> Vec<Object>
        ensures { result.items ≡ self }
    {
        let Objects { items } = self;
        items
    }

    /// The objects, in their order.
    pub fn as_slice(&self) -> &[Object]
        ensures { result.now ≡ self.now }
    {
        self.items.as_slice()
    }
}

/// The functions of a program.
#[derive(Drop)]
pub struct TFunctions {
    items: Vec<TFunction>,
}

impl Model for TFunctions {
    ghost use Rattle.std.specs.Prelude.{List};
    ghost use Rattle.c_syntax.specs.declared.program.TFunction.{TFunction};
    ghost use Rattle.c_syntax.specs.contracts.types.CType as ctype;
    ghost use Rattle.c_syntax.specs.contracts.statement.TStmt as tstmt;
    ghost use Rattle.std.specs.Coded.{codes};

    ghost Value = { List TFunction };

    ghost coded = { Prim.hlevel (codes, ctype.the_row.coded, tstmt.the_row.coded) };

    ghost view = { λ l. l.items.items };
}

impl TFunctions {
    ghost use Rattle.std.specs.Prelude.{◌≡◌, []};

    /// The list with nothing in it.
    pub fn new(alloc: Global) -> TFunctions
        ensures { result ≡ [] }
    {
        TFunctions {
            items: Vec::new(alloc),
        }
    }

    /// The list of these items.
    pub fn from_vec(items: Vec<TFunction>) -> TFunctions
        ensures { result ≡ items.items }
    {
        TFunctions { items }
    }

    /// The items, given back without taking memory.
    pub fn into_vec(self) -> Vec<TFunction>
        ensures { result.items ≡ self }
    {
        let TFunctions { items } = self;
        items
    }

    /// The functions, in their order.
    pub fn as_slice(&self) -> &[TFunction]
        ensures { result.now ≡ self.now }
    {
        self.items.as_slice()
    }
}

/// The bytes of an initial value.
#[derive(Drop)]
pub struct InitBytes {
    items: Vec<InitByte>,
}

impl Model for InitBytes {
    ghost use Rattle.std.specs.Prelude.{List};
    ghost use Rattle.c_syntax.specs.declared.program.InitByte.{InitByte};

    ghost Value = { List InitByte };

    ghost view = { λ l. l.items.items };
}

impl InitBytes {
    ghost use Rattle.std.specs.Prelude.{◌≡◌, []};

    /// The list with nothing in it.
    pub fn new(alloc: Global) -> InitBytes
        ensures { result ≡ [] }
    {
        InitBytes {
            items: Vec::new(alloc),
        }
    }

    /// The list of these items.
    pub fn from_vec(items: Vec<InitByte>) -> InitBytes
        ensures { result ≡ items.items }
    {
        InitBytes { items }
    }

    /// The items, given back without taking memory.
    pub fn into_vec(self) -> Vec<InitByte>
        ensures { result.items ≡ self }
    {
        let InitBytes { items } = self;
        items
    }

    /// The bytes, in their order.
    pub fn as_slice(&self) -> &[InitByte]
        ensures { result.now ≡ self.now }
    {
        self.items.as_slice()
    }
}

/// The initial values of a program.
#[derive(Drop)]
pub struct Initials {
    items: Vec<Initial>,
}

impl Model for Initials {
    ghost use Rattle.std.specs.Prelude.{List};
    ghost use Rattle.c_syntax.specs.declared.program.Initial.{Initial};

    ghost Value = { List Initial };

    ghost view = { λ l. l.items.items };
}

impl Initials {
    ghost use Rattle.std.specs.Prelude.{◌≡◌, []};

    /// The list with nothing in it.
    pub fn new(alloc: Global) -> Initials
        ensures { result ≡ [] }
    {
        Initials {
            items: Vec::new(alloc),
        }
    }

    /// The list of these items.
    pub fn from_vec(items: Vec<Initial>) -> Initials
        ensures { result ≡ items.items }
    {
        Initials { items }
    }

    /// The items, given back without taking memory.
    pub fn into_vec(self) -> Vec<Initial>
        ensures { result.items ≡ self }
    {
        let Initials { items } = self;
        items
    }

    /// The initial values, in their order.
    pub fn as_slice(&self) -> &[Initial]
        ensures { result.now ≡ self.now }
    {
        self.items.as_slice()
    }
}

impl Member {
    ghost use Rattle.std.specs.Prelude.{◌≡◌, IfOk};
    ghost use Rattle.c_syntax.specs.Program.{member_tree};

    /// The same member once more, which shares its type.
    pub fn copy(&self) -> Result<Member, NoMemory>
        ensures { IfOk result (λ copy. member_tree copy ≡ member_tree self.now) }
    {
        Ok(Member {
            name: self.name.copy()?,
            ty: self.ty.copy()?,
            offset: self.offset,
        })
    }
}

impl StructDef {
    ghost use Rattle.std.specs.Prelude.{◌≡◌, IfOk};
    ghost use Rattle.c_syntax.specs.Program.{structdef_tree};

    /// The same struct once more, which shares the types of its members.
    pub fn copy(&self) -> Result<StructDef, NoMemory>
        ensures { IfOk result (λ copy. structdef_tree copy ≡ structdef_tree self.now) }
    {
        Ok(StructDef {
            tag: self.tag.copy()?,
            members: self.members.copy()?,
            size: self.size,
            align: self.align,
        })
    }
}

impl Members {
    ghost use Rattle.std.specs.Prelude.{◌≡◌, IfOk, map};
    ghost use Rattle.c_syntax.specs.Program.{member_tree};

    /// The same members once more.
    pub fn copy(&self) -> Result<Members, NoMemory>
        ensures { IfOk result (λ copy. map member_tree copy ≡ map member_tree self.now) }
    {
        let mut items = Vec::new(*self.items.allocator());
        for item in &self.items {
            items.push(item.copy()?)?;
        }
        Ok(Members { items })
    }
}

impl StructDefs {
    ghost use Rattle.std.specs.Prelude.{◌≡◌, IfOk, map};
    ghost use Rattle.c_syntax.specs.Program.{structdef_tree};

    /// The same structs once more.
    pub fn copy(&self) -> Result<StructDefs, NoMemory>
        ensures { IfOk result (λ copy. map structdef_tree copy ≡ map structdef_tree self.now) }
    {
        let mut items = Vec::new(*self.items.allocator());
        for item in &self.items {
            items.push(item.copy()?)?;
        }
        Ok(StructDefs { items })
    }
}

impl Objects {
    ghost use Rattle.std.specs.Prelude.{◌≡◌, IfOk, map};
    ghost use Rattle.c_syntax.specs.Types.{object_tree};

    /// The same objects once more.
    pub fn copy(&self) -> Result<Objects, NoMemory>
        ensures { IfOk result (λ copy. map object_tree copy ≡ map object_tree self.now) }
    {
        let mut items = Vec::new(*self.items.allocator());
        for item in &self.items {
            items.push(item.copy()?)?;
        }
        Ok(Objects { items })
    }
}

impl Initial {
    ghost use Rattle.std.specs.Prelude.{◌≡◌, IfOk};

    /// The same initial value once more.
    pub fn copy(&self) -> Result<Initial, NoMemory>
        ensures { IfOk result (λ copy. copy ≡ self.now) }
    {
        let bytes = self.bytes.copy()?;
        Ok(Initial {
            object: self.object,
            bytes,
        })
    }
}

impl InitBytes {
    ghost use Rattle.std.specs.Prelude.{◌≡◌, IfOk};

    /// The same bytes once more.
    pub fn copy(&self) -> Result<InitBytes, NoMemory>
        ensures { IfOk result (λ copy. copy ≡ self.now) }
    {
        let items = self.items.clone()?;
        Ok(InitBytes { items })
    }
}

impl Initials {
    ghost use Rattle.std.specs.Prelude.{◌≡◌, IfOk};

    /// The same initial values once more.
    pub fn copy(&self) -> Result<Initials, NoMemory>
        ensures { IfOk result (λ copy. copy ≡ self.now) }
    {
        let mut items = Vec::new(*self.items.allocator());
        for item in &self.items {
            items.push(item.copy()?)?;
        }
        Ok(Initials { items })
    }
}
