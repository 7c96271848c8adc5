// Typed statements.
#![tactic(auto, using(crate::proofs::Trees::the_trees))]

ghost use Rattle.std.specs.Prelude.{◌≡◌};
ghost use Rattle.c_syntax.specs.TypedParts.{tstmt_pos};
ghost use Rattle.c_syntax.specs.TypedStmt.{none, tstmt_tree, tstmts_from, tstmts_tree};

use crate::{CType, Extent, Numbers, Pos, TExpr};
use std::alloc::Global;
use std::marker::Model;

/// Whether a block stands in the source, or was put round the statement that an `if`, a loop or a
/// `switch` has below it.
#[derive(Clone, Copy, PartialEq, Eq)]
pub enum BlockKind {
    /// `{ a = 1; }`
    Written,
    /// The block round `a = 1;` in `if (b) a = 1;`.
    Added,
}

/// An item of an initialiser, `offset` bytes after the object's first one.
pub enum TInit {
    /// The value is stored as an integer or a pointer of this type, which it has.
    Store {
        offset: u64,
        ty: CType,
        value: TExpr,
    },
    /// The bytes of a struct are copied.
    Copy {
        offset: u64,
        extent: Extent,
        source: TExpr,
    },
}

impl Drop for TInit {
    fn drop(self) {
        match self {
            TInit::Store {
                offset: _,
                ty: _ty,
                value: _value,
            } => {}
            TInit::Copy {
                offset: _,
                extent: _,
                source: _source,
            } => {}
        }
    }
}

/// A typed statement, or what stands before one: a label, a `case` or a `default`. These stand
/// right among the items of a block.
#[cycle(statements)]
pub enum TStmt {
    /// `;`
    Empty {
        pos: Pos,
    },
    /// `f(a);`
    Expr {
        pos: Pos,
        value: TExpr,
    },
    /// A block with the automatic objects that live in it, and its items in the order of the text.
    Block {
        pos: Pos,
        kind: BlockKind,
        objects: Numbers,
        items: TStmts,
    },
    /// The declaration of an automatic object, with the items of its initialiser. `zeroes_rest` tells
    /// that this has a list or a string, so that the bytes that no item names become 0.
    Declare {
        pos: Pos,
        object: u64,
        inits: TInits,
        zeroes_rest: bool,
    },
    /// The declaration, in a block, of an object of static duration. It does nothing.
    Static {
        pos: Pos,
        object: u64,
    },
    /// An `if` without `else` has an added block with nothing in it as its second statement.
    If {
        pos: Pos,
        condition: TExpr,
        then: Box<TStmt>,
        otherwise: Box<TStmt>,
    },
    /// `while (a) { .. }`
    While {
        pos: Pos,
        condition: TExpr,
        body: Box<TStmt>,
    },
    /// `do { .. } while (a);`
    DoWhile {
        pos: Pos,
        body: Box<TStmt>,
        condition: TExpr,
    },
    /// `head` has the declarations, or the expression, with which the loop begins. The objects
    /// that it declares live until the loop ends. A condition that is missing is 1.
    For {
        pos: Pos,
        objects: Numbers,
        head: TStmts,
        condition: Option<TExpr>,
        step: Option<TExpr>,
        body: Box<TStmt>,
    },
    /// The value has its promoted type. The kind, the objects and the items are those of the block
    /// below it, and the cases stand right among these items.
    Switch {
        pos: Pos,
        value: TExpr,
        kind: BlockKind,
        objects: Numbers,
        items: TStmts,
    },
    /// `break;`
    Break {
        pos: Pos,
    },
    /// `continue;`
    Continue {
        pos: Pos,
    },
    /// A label has a number in its function.
    Goto {
        pos: Pos,
        label: u64,
    },
    /// `return a;`, `return;`
    Return {
        pos: Pos,
        value: Option<TExpr>,
    },
    /// `again:`
    Label {
        pos: Pos,
        label: u64,
    },
    /// `value` is converted to the type of the switch.
    Case {
        pos: Pos,
        value: i128,
    },
    /// `default:`
    Default {
        pos: Pos,
    },
}

// A call of this crate, as for expressions; it goes as deep as the nesting.
impl Drop for TStmt {
    #[cycle(statements)]
    fn drop(self) {
        match self {
            TStmt::Empty { pos: _ } => {}
            TStmt::Expr {
                pos: _,
                value: _value,
            } => {}
            TStmt::Block {
                pos: _,
                kind: _,
                objects: _objects,
                items: _items,
            } => {}
            TStmt::Declare {
                pos: _,
                object: _,
                inits: _inits,
                zeroes_rest: _,
            } => {}
            TStmt::Static { pos: _, object: _ } => {}
            TStmt::If {
                pos: _,
                condition: _condition,
                then: _then,
                otherwise: _otherwise,
            } => {}
            TStmt::While {
                pos: _,
                condition: _condition,
                body: _body,
            } => {}
            TStmt::DoWhile {
                pos: _,
                body: _body,
                condition: _condition,
            } => {}
            TStmt::For {
                pos: _,
                objects: _objects,
                head: _head,
                condition: _condition,
                step: _step,
                body: _body,
            } => {}
            TStmt::Switch {
                pos: _,
                value: _value,
                kind: _,
                objects: _objects,
                items: _items,
            } => {}
            TStmt::Break { pos: _ } => {}
            TStmt::Continue { pos: _ } => {}
            TStmt::Goto { pos: _, label: _ } => {}
            TStmt::Return {
                pos: _,
                value: _value,
            } => {}
            TStmt::Label { pos: _, label: _ } => {}
            TStmt::Case { pos: _, value: _ } => {}
            TStmt::Default { pos: _ } => {}
        }
    }
}

/// Statements in their order.
#[cycle(statements)]
#[derive(Drop)]
pub struct TStmts {
    items: Vec<TStmt>,
}

impl TStmt {
    /// The place of the node.
    pub fn pos(&self) -> Pos
        ensures { result ≡ tstmt_pos (tstmt_tree self.now) }
    {
        match self {
            TStmt::Empty { pos, .. }
            | TStmt::Expr { pos, .. }
            | TStmt::Block { pos, .. }
            | TStmt::Declare { pos, .. }
            | TStmt::Static { pos, .. }
            | TStmt::If { pos, .. }
            | TStmt::While { pos, .. }
            | TStmt::DoWhile { pos, .. }
            | TStmt::For { pos, .. }
            | TStmt::Switch { pos, .. }
            | TStmt::Break { pos, .. }
            | TStmt::Continue { pos, .. }
            | TStmt::Goto { pos, .. }
            | TStmt::Return { pos, .. }
            | TStmt::Label { pos, .. }
            | TStmt::Case { pos, .. }
            | TStmt::Default { pos, .. } => *pos,
        }
    }
}

impl TStmts {
    /// The list with nothing in it.
    pub fn new(alloc: Global) -> TStmts
        ensures { tstmts_tree result ≡ none }
    {
        TStmts {
            items: Vec::new(alloc),
        }
    }

    /// The list of these items.
    pub fn from_vec(items: Vec<TStmt>) -> TStmts
        ensures { tstmts_tree result ≡ tstmts_from items.items }
    {
        TStmts { items }
    }

    /// The items, given back without taking memory.
    pub fn into_vec(self) -> Vec<TStmt>
        ensures { tstmts_from result.items ≡ tstmts_tree self }
    {
        let TStmts { items } = self;
        items
    }

    /// The statements, in their order.
    pub fn as_slice(&self) -> &[TStmt]
        ensures { tstmts_from result.now ≡ tstmts_tree self.now }
    {
        self.items.as_slice()
    }
}

/// The items of an initialiser in their order.
#[derive(Drop)]
pub struct TInits {
    items: Vec<TInit>,
}

impl Model for TInits {
    ghost use Rattle.std.specs.Prelude.{List};
    ghost use Rattle.c_syntax.specs.declared.statement.TInit.{TInit};
    ghost use Rattle.c_syntax.specs.contracts.types.CType as ctype;
    ghost use Rattle.c_syntax.specs.contracts.typed.TExpr as texpr;
    ghost use Rattle.std.specs.Coded.{codes};

    ghost Value = { List TInit };

    ghost coded = { Prim.hlevel (codes, ctype.the_row.coded, texpr.the_row.coded) };

    ghost view = { λ l. l.items.items };
}

impl TInits {
    ghost use Rattle.std.specs.Prelude.{◌≡◌, []};

    /// The list with nothing in it.
    pub fn new(alloc: Global) -> TInits
        ensures { result ≡ [] }
    {
        TInits {
            items: Vec::new(alloc),
        }
    }

    /// The list of these items.
    pub fn from_vec(items: Vec<TInit>) -> TInits
        ensures { result ≡ items.items }
    {
        TInits { items }
    }

    /// The items, given back without taking memory.
    pub fn into_vec(self) -> Vec<TInit>
        ensures { result.items ≡ self }
    {
        let TInits { items } = self;
        items
    }

    /// The initialisers, in their order.
    pub fn as_slice(&self) -> &[TInit]
        ensures { result.now ≡ self.now }
    {
        self.items.as_slice()
    }
}
