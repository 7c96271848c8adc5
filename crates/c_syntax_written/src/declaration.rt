// Declarations as they are written.
#![tactic(auto, using(crate::proofs::Trees::the_written_trees))]

ghost use Rattle.std.specs.Prelude.{◌≡◌};
ghost use Rattle.c_syntax_written.specs.WrittenDecl.{init_tree, inits_from, inits_tree};
ghost use Rattle.c_syntax_written.specs.WrittenParts.{init_pos};

use crate::{Declarator, Expr, Pos, Specs};
use std::alloc::Global;
use std::marker::Model;

/// An initialiser: an expression, or a list between braces.
#[cycle(initialisers)]
pub enum Init {
    Value { value: Expr },
    Braces { pos: Pos, items: Inits },
}

// As those of expressions.
impl Drop for Init {
    #[cycle(initialisers)]
    fn drop(self) {
        match self {
            Init::Value { value: _value } => {}
            Init::Braces {
                pos: _,
                items: _items,
            } => {}
        }
    }
}

/// The items of a list between braces in their order.
#[cycle(initialisers)]
#[derive(Drop)]
pub struct Inits {
    items: Vec<Init>,
}

/// A declarator with the initialiser behind its `=`, where there is one.
#[derive(Drop)]
pub struct InitDeclarator {
    pub declarator: Declarator,
    pub init: Option<Box<Init>>,
}

/// A declaration. The place is that of the first of its specs. It may have no declarator.
#[derive(Drop)]
pub struct Decl {
    pub pos: Pos,
    pub specs: Specs,
    pub inits: InitDeclarators,
}

impl Init {
    /// The place of the expression, or of the brace that opens the list.
    pub fn pos(&self) -> Pos
        ensures { result ≡ init_pos (init_tree self.now) }
    {
        match self {
            Init::Value { value } => value.pos(),
            Init::Braces { pos, .. } => *pos,
        }
    }
}

impl Inits {
    /// The list of these items, in a block of their size.
    pub fn from_vec(items: Vec<Init>) -> Inits
        ensures { inits_tree result ≡ inits_from items.items }
    {
        let mut items = items;
        items.shrink_to_fit();
        Inits { items }
    }

    /// The items, given back without taking memory.
    pub fn into_vec(self) -> Vec<Init>
        ensures { inits_from result.items ≡ inits_tree self }
    {
        let Inits { items } = self;
        items
    }

    /// The initialisers, in their order.
    pub fn as_slice(&self) -> &[Init]
        ensures { inits_from result.now ≡ inits_tree self.now }
    {
        self.items.as_slice()
    }
}

/// The declarators of a declaration in their order.
#[derive(Drop)]
pub struct InitDeclarators {
    items: Vec<InitDeclarator>,
}

impl Model for InitDeclarators {
    ghost use Rattle.std.specs.Prelude.{List};
    ghost use Rattle.c_syntax_written.specs.declared.declaration.InitDeclarator.{InitDeclarator};
    ghost use Rattle.c_syntax_written.specs.contracts.written.Declarator as declarator;
    ghost use Rattle.c_syntax_written.specs.contracts.declaration.Init as init;
    ghost use Rattle.std.specs.Coded.{codes};

    ghost Value = { List InitDeclarator };

    ghost coded = { Prim.hlevel (codes, declarator.the_row.coded, init.the_row.coded) };

    ghost view = { λ l. l.items.items };
}

impl InitDeclarators {
    ghost use Rattle.std.specs.Prelude.{◌≡◌, []};

    /// The list with nothing in it.
    pub fn new(alloc: Global) -> InitDeclarators
        ensures { result ≡ [] }
    {
        InitDeclarators {
            items: Vec::new(alloc),
        }
    }

    /// The list of these items, in a block of their size.
    pub fn from_vec(items: Vec<InitDeclarator>) -> InitDeclarators
        ensures { result ≡ items.items }
    {
        let mut items = items;
        items.shrink_to_fit();
        InitDeclarators { items }
    }

    /// The items, given back without taking memory.
    pub fn into_vec(self) -> Vec<InitDeclarator>
        ensures { result.items ≡ self }
    {
        let InitDeclarators { items } = self;
        items
    }

    /// The declarators, in their order.
    pub fn as_slice(&self) -> &[InitDeclarator]
        ensures { result.now ≡ self.now }
    {
        self.items.as_slice()
    }
}
