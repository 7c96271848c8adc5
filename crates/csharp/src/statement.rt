// Statements.
#![tactic(auto)]

use crate::{CsCheck, CsExpr, CsExprs};
use block_mem::Scalar;
use c_syntax::{IntType, Numbers, Pos};

/// A call: its place, the function, the arguments, and the temporaries that it sets. `value` takes
/// the value that the function gives, where it gives one; `flag` becomes 1 where it gives one, and
/// 0 where it gives none.
#[derive(Drop)]
pub struct CsCall {
    pub pos: Pos,
    pub function: u64,
    pub args: CsExprs,
    pub value: Option<u64>,
    pub flag: Option<u64>,
}

/// A statement, or what stands before one among the items of a scope: a label, a case or a default.
#[cycle(statements)]
pub enum CsStmt {
    /// Does nothing.
    Nothing,
    /// Puts a value into a temporary.
    Set {
        temp: u64,
        value: CsExpr,
    },
    /// Puts what stands at an address into a temporary.
    Load {
        temp: u64,
        ty: Scalar,
        address: CsExpr,
    },
    /// Puts a value of this type at an address, read-only or not.
    Store {
        ty: Scalar,
        address: CsExpr,
        value: CsExpr,
    },
    /// Copies so many bytes, as if all were read first.
    CopyBytes {
        size: u64,
        to: CsExpr,
        from: CsExpr,
    },
    /// Makes all bytes of a live object lose their values.
    Undefine {
        object: u64,
    },
    /// Goes on where the check passes, and fails where it does not.
    Checked {
        check: CsCheck,
    },
    /// Puts the next input, wrapped to this type, into a temporary; waits where there is none.
    Input {
        temp: u64,
        ty: IntType,
    },
    /// Goes on where the value is not 0, and stops where it is.
    Assume {
        condition: CsExpr,
    },
    Sequence {
        first: Box<CsStmt>,
        second: Box<CsStmt>,
    },
    If {
        condition: CsExpr,
        then: Box<CsStmt>,
        otherwise: Box<CsStmt>,
    },
    /// Does its body again and again, until something leaves it. Its place is that of the loop's
    /// first word.
    Loop {
        pos: Pos,
        body: Box<CsStmt>,
    },
    /// What an exit leaves: exit 0 the innermost block around it.
    Block {
        body: Box<CsStmt>,
    },
    Exit {
        level: u64,
    },
    /// Objects live while the items are done in their order.
    Scope {
        objects: Numbers,
        items: CsStmts,
    },
    /// Goes on behind the case of the value, or behind the default; where there is neither, nothing
    /// is done, and no object lives.
    Switch {
        value: CsExpr,
        objects: Numbers,
        items: CsStmts,
    },
    /// Goes on behind the label, which stands among the items of a scope around it.
    Goto {
        label: u64,
    },
    Call {
        call: CsCall,
    },
    Return {
        value: Option<CsExpr>,
    },
    /// An item of a scope; its place is that of the label's word.
    Label {
        pos: Pos,
        label: u64,
    },
    /// An item of a switch.
    Case {
        value: i128,
    },
    /// An item of a switch.
    Default,
}

// A call of this crate, as for expressions.
impl Drop for CsStmt {
    #[cycle(statements)]
    fn drop(self) {
        match self {
            CsStmt::Nothing => {}
            CsStmt::Set {
                temp: _,
                value: _value,
            } => {}
            CsStmt::Load {
                temp: _,
                ty: _,
                address: _address,
            } => {}
            CsStmt::Store {
                ty: _,
                address: _address,
                value: _value,
            } => {}
            CsStmt::CopyBytes {
                size: _,
                to: _to,
                from: _from,
            } => {}
            CsStmt::Undefine { object: _ } => {}
            CsStmt::Checked { check: _check } => {}
            CsStmt::Input { temp: _, ty: _ } => {}
            CsStmt::Assume {
                condition: _condition,
            } => {}
            CsStmt::Sequence {
                first: _first,
                second: _second,
            } => {}
            CsStmt::If {
                condition: _condition,
                then: _then,
                otherwise: _otherwise,
            } => {}
            CsStmt::Loop {
                pos: _,
                body: _body,
            } => {}
            CsStmt::Block { body: _body } => {}
            CsStmt::Exit { level: _ } => {}
            CsStmt::Scope {
                objects: _objects,
                items: _items,
            } => {}
            CsStmt::Switch {
                value: _value,
                objects: _objects,
                items: _items,
            } => {}
            CsStmt::Goto { label: _ } => {}
            CsStmt::Call { call: _call } => {}
            CsStmt::Return { value: _value } => {}
            CsStmt::Label { pos: _, label: _ } => {}
            CsStmt::Case { value: _ } => {}
            CsStmt::Default => {}
        }
    }
}

/// Items of a scope in their order.
#[cycle(statements)]
#[derive(Drop)]
pub struct CsStmts {
    items: Vec<CsStmt>,
}

impl CsStmts {
    ghost use Rattle.std.specs.Prelude.{◌≡◌};
    ghost use Rattle.csharp.specs.Trees.{csstmts_from, csstmts_tree};

    /// The list of these items.
    pub fn from_vec(items: Vec<CsStmt>) -> CsStmts
        ensures { csstmts_tree result ≡ csstmts_from items.items }
    {
        CsStmts { items }
    }

    /// The items, given back without taking memory.
    pub fn into_vec(self) -> Vec<CsStmt>
        ensures { csstmts_from result.items ≡ csstmts_tree self }
    {
        let CsStmts { items } = self;
        items
    }

    /// The items, in their order.
    pub fn as_slice(&self) -> &[CsStmt]
        ensures { csstmts_from result.now ≡ csstmts_tree self.now }
    {
        self.items.as_slice()
    }
}
