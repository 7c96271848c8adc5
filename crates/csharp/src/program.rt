// Programs.
#![tactic(auto)]

use crate::CsStmt;
use block_mem::Scalar;
use c_syntax::{Initials, Numbers, Objects, StructDefs};
use std::marker::Model;

/// The temporaries that take the arguments, in order, and what is done. A function that no call
/// names may do nothing.
#[derive(Drop)]
pub struct CsFunction {
    pub params: Numbers,
    pub body: CsStmt,
}

/// The functions of a program.
#[derive(Drop)]
pub struct CsFunctions {
    items: Vec<CsFunction>,
}

/// The types of the temporaries, which are numbered over the whole program.
#[derive(Drop)]
pub struct Temps {
    items: Vec<Scalar>,
}

/// A program. Functions have the numbers that they have in the typed program.
#[derive(Drop)]
pub struct CsProgram {
    pub structs: StructDefs,
    pub objects: Objects,
    pub initial: Initials,
    pub functions: CsFunctions,
    pub temps: Temps,
    pub main: u64,
}

impl Model for CsFunctions {
    ghost use Rattle.std.specs.Prelude.{List};
    ghost use Rattle.csharp.specs.declared.program.CsFunction.{CsFunction};
    ghost use Rattle.csharp.specs.contracts.expression.CsExpr as csexpr;
    ghost use Rattle.csharp.specs.contracts.statement.CsStmt as csstmt;
    ghost use Rattle.std.specs.Coded.{codes};

    ghost Value = { List CsFunction };

    ghost coded = { Prim.hlevel (codes, csexpr.the_row.coded, csstmt.the_row.coded) };

    ghost view = { λ l. l.items.items };
}

impl CsFunctions {
    ghost use Rattle.std.specs.Prelude.{◌≡◌};

    /// The list of these functions.
    pub fn from_vec(items: Vec<CsFunction>) -> CsFunctions
        ensures { result ≡ items.items }
    {
        CsFunctions { items }
    }

    /// The functions, given back without taking memory.
    pub fn into_vec(self) -> Vec<CsFunction>
        ensures { result.items ≡ self }
    {
        let CsFunctions { items } = self;
        items
    }

    /// The functions, in their order.
    pub fn as_slice(&self) -> &[CsFunction]
        ensures { result.now ≡ self.now }
    {
        self.items.as_slice()
    }
}

impl Model for Temps {
    ghost use Rattle.std.specs.Prelude.{List};
    ghost use Rattle.block_mem.specs.declared.types.Scalar.{Scalar};

    ghost Value = { List Scalar };

    ghost view = { λ l. l.items.items };
}

impl Temps {
    ghost use Rattle.std.specs.Prelude.{◌≡◌};

    /// The list of these types.
    pub fn from_vec(items: Vec<Scalar>) -> Temps
        ensures { result ≡ items.items }
    {
        Temps { items }
    }

    /// The types, given back without taking memory.
    pub fn into_vec(self) -> Vec<Scalar>
        ensures { result.items ≡ self }
    {
        let Temps { items } = self;
        items
    }

    /// The types, by the number of the temporary.
    pub fn as_slice(&self) -> &[Scalar]
        ensures { result.now ≡ self.now }
    {
        self.items.as_slice()
    }
}
