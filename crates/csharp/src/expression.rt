// Expressions and checks.
#![tactic(auto)]

use block_mem::Scalar;
use c_syntax::{Check, IntType, Pos, TBinaryOp, TUnaryOp};
use std::marker::Model;

/// What is computed at once, without an effect. Its operators are those of typed expressions, so
/// that both languages have one meaning of them.
pub enum CsExpr {
    /// An integer of this type.
    Const {
        ty: IntType,
        value: i128,
    },
    /// The null pointer.
    Null,
    /// What stands in a temporary.
    Temp {
        temp: u64,
    },
    /// The address of the first byte of an object that lives.
    Address {
        object: u64,
    },
    Unary {
        op: TUnaryOp,
        operand: Box<CsExpr>,
    },
    Binary {
        op: TBinaryOp,
        left: Box<CsExpr>,
        right: Box<CsExpr>,
    },
    /// An integer that is converted to this type.
    Convert {
        ty: IntType,
        operand: Box<CsExpr>,
    },
}

// Letting go of a node is a call of this crate, so that the crates above need not prove again that it ends: it goes as
// deep as the nesting.
impl Drop for CsExpr {
    fn drop(self) {
        match self {
            CsExpr::Const { ty: _, value: _ } => {}
            CsExpr::Null => {}
            CsExpr::Temp { temp: _ } => {}
            CsExpr::Address { object: _ } => {}
            CsExpr::Unary {
                op: _,
                operand: _operand,
            } => {}
            CsExpr::Binary {
                op: _,
                left: _left,
                right: _right,
            } => {}
            CsExpr::Convert {
                ty: _,
                operand: _operand,
            } => {}
        }
    }
}

/// Expressions in their order.
#[derive(Drop)]
pub struct CsExprs {
    items: Vec<CsExpr>,
}

/// A check, the place that an alarm tells, and what is looked at. `ty` is the type of the load for
/// Indeterminate and Fragment, and there for no other kind.
#[derive(Drop)]
pub struct CsCheck {
    pub check: Check,
    pub pos: Pos,
    pub ty: Option<Scalar>,
    pub operands: CsExprs,
}

impl Model for CsExprs {
    ghost use Rattle.std.specs.Prelude.{List};
    ghost use Rattle.csharp.specs.declared.expression.CsExpr.{CsExpr};
    ghost use Rattle.csharp.specs.contracts.expression.CsExpr as csexpr;
    ghost use Rattle.std.specs.Coded.{codes};

    ghost Value = { List CsExpr };

    ghost coded = { Prim.hlevel (codes, csexpr.the_row.coded) };

    ghost view = { λ l. l.items.items };
}

impl CsExprs {
    ghost use Rattle.std.specs.Prelude.{◌≡◌};

    /// The list of these expressions.
    pub fn from_vec(items: Vec<CsExpr>) -> CsExprs
        ensures { result ≡ items.items }
    {
        CsExprs { items }
    }

    /// The expressions, given back without taking memory.
    pub fn into_vec(self) -> Vec<CsExpr>
        ensures { result.items ≡ self }
    {
        let CsExprs { items } = self;
        items
    }

    /// The expressions, in their order.
    pub fn as_slice(&self) -> &[CsExpr]
        ensures { result.now ≡ self.now }
    {
        self.items.as_slice()
    }
}
