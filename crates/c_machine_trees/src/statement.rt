// Typed statements whose parts are shared.
#![tactic(auto, using(crate::proofs::SharedTrees::the_shared_trees))]

ghost use Rattle.std.specs.Prelude.{◌≡◌};
ghost use Rattle.c_machine_trees.specs.Statements.{inits_tree, inits_from, stmts_from, stmts_tree};

use crate::expression::SharedExpr;
use c_syntax::{BlockKind, CType, Extent, Numbers, Pos};
use std::rc::Rc;

/// An item of an initialiser, `offset` bytes after the object's first one, whose value is shared.
pub enum SharedInit {
    /// The value is stored as an integer or a pointer of this type, which it has.
    Store {
        offset: u64,
        ty: CType,
        value: Rc<SharedExpr>,
    },
    /// The bytes of a struct are copied.
    Copy {
        offset: u64,
        extent: Extent,
        source: Rc<SharedExpr>,
    },
}

impl Drop for SharedInit {
    fn drop(self) {
        match self {
            SharedInit::Store {
                offset: _,
                ty: _ty,
                value: _value,
            } => {}
            SharedInit::Copy {
                offset: _,
                extent: _,
                source: _source,
            } => {}
        }
    }
}

/// A typed statement, or what stands before one, whose parts are shared. Each form is that of `TStmt`.
#[cycle(statements)]
pub enum SharedStmt {
    /// `;`
    Empty {
        pos: Pos,
    },
    /// `f(a);`
    Expr {
        pos: Pos,
        value: Rc<SharedExpr>,
    },
    /// A block with the automatic objects that live in it, and its items in the order of the text.
    Block {
        pos: Pos,
        kind: BlockKind,
        objects: Rc<Numbers>,
        items: Rc<SharedStmts>,
    },
    /// The declaration of an automatic object, with the items of its initialiser. `zeroes_rest` tells
    /// that this has a list or a string, so that the bytes that no item names become 0.
    Declare {
        pos: Pos,
        object: u64,
        inits: Rc<SharedInits>,
        zeroes_rest: bool,
    },
    /// The declaration, in a block, of an object of static duration. It does nothing.
    Static {
        pos: Pos,
        object: u64,
    },
    /// An `if` without `else` has an added block with nothing in it as its second statement.
    If {
        pos: Pos,
        condition: Rc<SharedExpr>,
        then: Rc<SharedStmt>,
        otherwise: Rc<SharedStmt>,
    },
    /// `while (a) { .. }`
    While {
        pos: Pos,
        condition: Rc<SharedExpr>,
        body: Rc<SharedStmt>,
    },
    /// `do { .. } while (a);`
    DoWhile {
        pos: Pos,
        body: Rc<SharedStmt>,
        condition: Rc<SharedExpr>,
    },
    /// `head` has the declarations, or the expression, with which the loop begins. The objects
    /// that it declares live until the loop ends. A condition that is missing is 1.
    For {
        pos: Pos,
        objects: Rc<Numbers>,
        head: Rc<SharedStmts>,
        condition: Option<Rc<SharedExpr>>,
        step: Option<Rc<SharedExpr>>,
        body: Rc<SharedStmt>,
    },
    /// The value has its promoted type. The kind, the objects and the items are those of the block
    /// below it, and the cases stand right among these items.
    Switch {
        pos: Pos,
        value: Rc<SharedExpr>,
        kind: BlockKind,
        objects: Rc<Numbers>,
        items: Rc<SharedStmts>,
    },
    /// `break;`
    Break {
        pos: Pos,
    },
    /// `continue;`
    Continue {
        pos: Pos,
    },
    /// A label has a number in its function.
    Goto {
        pos: Pos,
        label: u64,
    },
    /// `return a;`, `return;`
    Return {
        pos: Pos,
        value: Option<Rc<SharedExpr>>,
    },
    /// `again:`
    Label {
        pos: Pos,
        label: u64,
    },
    /// `value` is converted to the type of the switch.
    Case {
        pos: Pos,
        value: i128,
    },
    /// `default:`
    Default {
        pos: Pos,
    },
}

// One call, as for expressions.
impl Drop for SharedStmt {
    #[cycle(statements)]
    fn drop(self) {
        match self {
            SharedStmt::Empty { pos: _ } => {}
            SharedStmt::Expr {
                pos: _,
                value: _value,
            } => {}
            SharedStmt::Block {
                pos: _,
                kind: _,
                objects: _objects,
                items: _items,
            } => {}
            SharedStmt::Declare {
                pos: _,
                object: _,
                inits: _inits,
                zeroes_rest: _,
            } => {}
            SharedStmt::Static { pos: _, object: _ } => {}
            SharedStmt::If {
                pos: _,
                condition: _condition,
                then: _then,
                otherwise: _otherwise,
            } => {}
            SharedStmt::While {
                pos: _,
                condition: _condition,
                body: _body,
            } => {}
            SharedStmt::DoWhile {
                pos: _,
                body: _body,
                condition: _condition,
            } => {}
            SharedStmt::For {
                pos: _,
                objects: _objects,
                head: _head,
                condition: _condition,
                step: _step,
                body: _body,
            } => {}
            SharedStmt::Switch {
                pos: _,
                value: _value,
                kind: _,
                objects: _objects,
                items: _items,
            } => {}
            SharedStmt::Break { pos: _ } => {}
            SharedStmt::Continue { pos: _ } => {}
            SharedStmt::Goto { pos: _, label: _ } => {}
            SharedStmt::Return {
                pos: _,
                value: _value,
            } => {}
            SharedStmt::Label { pos: _, label: _ } => {}
            SharedStmt::Case { pos: _, value: _ } => {}
            SharedStmt::Default { pos: _ } => {}
        }
    }
}

/// Statements in their order.
#[cycle(statements)]
#[derive(Drop)]
pub struct SharedStmts {
    items: Vec<Rc<SharedStmt>>,
}

impl SharedStmts {
    /// The list of these items.
    pub fn from_vec(items: Vec<Rc<SharedStmt>>) -> SharedStmts
        ensures { stmts_tree result ≡ stmts_from items.items }
    {
        SharedStmts { items }
    }

    /// The statements, in their order.
    pub fn as_slice(&self) -> &[Rc<SharedStmt>]
        ensures { stmts_from result.now ≡ stmts_tree self.now }
    {
        self.items.as_slice()
    }
}

/// The items of an initialiser in their order.
#[derive(Drop)]
pub struct SharedInits {
    items: Vec<SharedInit>,
}

impl SharedInits {
    /// The list of these items.
    pub fn from_vec(items: Vec<SharedInit>) -> SharedInits
        ensures { inits_tree result ≡ inits_from items.items }
    {
        SharedInits { items }
    }

    /// The items, in their order.
    pub fn as_slice(&self) -> &[SharedInit]
        ensures { inits_from result.now ≡ inits_tree self.now }
    {
        self.items.as_slice()
    }
}
