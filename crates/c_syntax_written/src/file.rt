// Statements and files as they are written.
#![tactic(auto, using(crate::proofs::Trees::the_written_trees))]

ghost use Rattle.std.specs.Prelude.{◌≡◌};
ghost use Rattle.c_syntax_written.specs.WrittenFile.{blockitems_from, blockitems_tree, none, stmt_tree};
ghost use Rattle.c_syntax_written.specs.WrittenParts.{stmt_pos};

use crate::{Decl, Declarator, Expr, Name, Pos, Specs};
use std::alloc::Global;
use std::marker::Model;

/// How a `for` begins.
#[derive(Drop)]
pub enum ForStart {
    Nothing,
    Value(Box<Expr>),
    Declares(Box<Decl>),
}

/// What stands between the parentheses of a `for`.
#[derive(Drop)]
pub struct ForHead {
    pub start: ForStart,
    pub condition: Option<Box<Expr>>,
    pub step: Option<Box<Expr>>,
}

/// A statement. Its place is that of its first token, but for one that is an expression, which has
/// the place of that. What is large stands in a box, so that a statement that is small takes little.
#[cycle(blocks)]
pub enum Stmt {
    Label {
        pos: Pos,
        name: Box<Name>,
        body: Box<Stmt>,
    },
    Case {
        pos: Pos,
        value: Box<Expr>,
        body: Box<Stmt>,
    },
    Default {
        pos: Pos,
        body: Box<Stmt>,
    },
    Block {
        pos: Pos,
        items: BlockItems,
    },
    Empty {
        pos: Pos,
    },
    Expression {
        pos: Pos,
        value: Box<Expr>,
    },
    If {
        pos: Pos,
        condition: Box<Expr>,
        then: Box<Stmt>,
    },
    IfElse {
        pos: Pos,
        condition: Box<Expr>,
        then: Box<Stmt>,
        otherwise: Box<Stmt>,
    },
    Switch {
        pos: Pos,
        value: Box<Expr>,
        body: Box<Stmt>,
    },
    While {
        pos: Pos,
        condition: Box<Expr>,
        body: Box<Stmt>,
    },
    DoWhile {
        pos: Pos,
        body: Box<Stmt>,
        condition: Box<Expr>,
    },
    For {
        pos: Pos,
        head: Box<ForHead>,
        body: Box<Stmt>,
    },
    Goto {
        pos: Pos,
        label: Name,
    },
    Continue {
        pos: Pos,
    },
    Break {
        pos: Pos,
    },
    Return {
        pos: Pos,
        value: Option<Box<Expr>>,
    },
}

/// What stands in a block.
#[cycle(blocks)]
#[derive(Drop)]
pub enum BlockItem {
    Declaration(Box<Decl>),
    Statement(Stmt),
}

/// The items of a block in their order.
#[cycle(blocks)]
#[derive(Drop)]
pub struct BlockItems {
    items: Vec<BlockItem>,
}

// As those of expressions.
impl Drop for Stmt {
    #[cycle(blocks)]
    fn drop(self) {
        match self {
            Stmt::Label {
                pos: _,
                name: _name,
                body: _body,
            } => {}
            Stmt::Case {
                pos: _,
                value: _value,
                body: _body,
            } => {}
            Stmt::Default {
                pos: _,
                body: _body,
            } => {}
            Stmt::Block {
                pos: _,
                items: _items,
            } => {}
            Stmt::Empty { pos: _ } => {}
            Stmt::Expression {
                pos: _,
                value: _value,
            } => {}
            Stmt::If {
                pos: _,
                condition: _condition,
                then: _then,
            } => {}
            Stmt::IfElse {
                pos: _,
                condition: _condition,
                then: _then,
                otherwise: _otherwise,
            } => {}
            Stmt::Switch {
                pos: _,
                value: _value,
                body: _body,
            } => {}
            Stmt::While {
                pos: _,
                condition: _condition,
                body: _body,
            } => {}
            Stmt::DoWhile {
                pos: _,
                body: _body,
                condition: _condition,
            } => {}
            Stmt::For {
                pos: _,
                head: _head,
                body: _body,
            } => {}
            Stmt::Goto {
                pos: _,
                label: _label,
            } => {}
            Stmt::Continue { pos: _ } => {}
            Stmt::Break { pos: _ } => {}
            Stmt::Return {
                pos: _,
                value: _value,
            } => {}
        }
    }
}

/// What stands in a file: a declaration, or a function with its body. The place of a function is
/// that of the first of its specs, and `brace` is that of the brace that opens its body.
#[derive(Drop)]
pub enum Outer {
    Declared(Decl),
    Function {
        pos: Pos,
        specs: Specs,
        declarator: Box<Declarator>,
        brace: Pos,
        body: BlockItems,
    },
}

/// A file as it is written.
#[derive(Drop)]
pub struct File {
    pub outers: Outers,
}

impl Stmt {
    /// The place of the node.
    pub fn pos(&self) -> Pos
        ensures { result ≡ stmt_pos (stmt_tree self.now) }
    {
        match self {
            Stmt::Label { pos, .. }
            | Stmt::Case { pos, .. }
            | Stmt::Default { pos, .. }
            | Stmt::Block { pos, .. }
            | Stmt::Empty { pos, .. }
            | Stmt::Expression { pos, .. }
            | Stmt::If { pos, .. }
            | Stmt::IfElse { pos, .. }
            | Stmt::Switch { pos, .. }
            | Stmt::While { pos, .. }
            | Stmt::DoWhile { pos, .. }
            | Stmt::For { pos, .. }
            | Stmt::Goto { pos, .. }
            | Stmt::Continue { pos, .. }
            | Stmt::Break { pos, .. }
            | Stmt::Return { pos, .. } => *pos,
        }
    }
}

impl BlockItems {
    /// The list with nothing in it.
    pub fn new(alloc: Global) -> BlockItems
        ensures { blockitems_tree result ≡ none }
    {
        BlockItems {
            items: Vec::new(alloc),
        }
    }

    /// The list of these items, in a block of their size.
    pub fn from_vec(items: Vec<BlockItem>) -> BlockItems
        ensures { blockitems_tree result ≡ blockitems_from items.items }
    {
        let mut items = items;
        items.shrink_to_fit();
        BlockItems { items }
    }

    /// The items, given back without taking memory.
    pub fn into_vec(self) -> Vec<BlockItem>
        ensures { blockitems_from result.items ≡ blockitems_tree self }
    {
        let BlockItems { items } = self;
        items
    }

    /// The items, in their order.
    pub fn as_slice(&self) -> &[BlockItem]
        ensures { blockitems_from result.now ≡ blockitems_tree self.now }
    {
        self.items.as_slice()
    }
}

/// What stands in a file, in its order.
#[derive(Drop)]
pub struct Outers {
    items: Vec<Outer>,
}

impl Model for Outers {
    ghost use Rattle.std.specs.Prelude.{List};
    ghost use Rattle.c_syntax_written.specs.declared.file.Outer.{Outer};
    ghost use Rattle.c_syntax_written.specs.contracts.written.Specs as specs;
    ghost use Rattle.c_syntax_written.specs.contracts.written.Declarator as declarator;
    ghost use Rattle.c_syntax_written.specs.contracts.declaration.Init as init;
    ghost use Rattle.c_syntax_written.specs.contracts.file.BlockItem as block_item;
    ghost use Rattle.std.specs.Coded.{codes};

    ghost Value = { List Outer };

    ghost coded = { Prim.hlevel (codes, specs.the_row.coded, declarator.the_row.coded, init.the_row.coded, block_item.the_row.coded) };

    ghost view = { λ l. l.items.items };
}

impl Outers {
    ghost use Rattle.std.specs.Prelude.{◌≡◌, []};

    /// The list with nothing in it.
    pub fn new(alloc: Global) -> Outers
        ensures { result ≡ [] }
    {
        Outers {
            items: Vec::new(alloc),
        }
    }

    /// The list of these items, in a block of their size.
    pub fn from_vec(items: Vec<Outer>) -> Outers
        ensures { result ≡ items.items }
    {
        let mut items = items;
        items.shrink_to_fit();
        Outers { items }
    }

    /// The items, given back without taking memory.
    pub fn into_vec(self) -> Vec<Outer>
        ensures { result.items ≡ self }
    {
        let Outers { items } = self;
        items
    }

    /// The declarations and functions, in their order.
    pub fn as_slice(&self) -> &[Outer]
        ensures { result.now ≡ self.now }
    {
        self.items.as_slice()
    }
}
