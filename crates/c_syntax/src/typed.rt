// Typed expressions and the places that they name.
#![tactic(auto, using(crate::proofs::Trees::the_trees))]

ghost use Rattle.std.specs.Prelude.{◌≡◌};
ghost use Rattle.c_syntax.specs.TypedExpr.{none, texpr_tree, texprs_from, texprs_tree, tlvalue_tree};
ghost use Rattle.c_syntax.specs.TypedParts.{not_used, texpr_pos, tlvalue_is_const, tlvalue_pos, tlvalue_type};
ghost use Rattle.c_syntax.specs.Types.{ctype_tree};

use crate::{
    CType, DerefKind, Extent, IntType, Pos, StepTime, StepWay, Stride, TBinaryOp, TUnaryOp,
};
use std::alloc::Global;

/// A typed expression. Every conversion of C stands in it as a node of its own, so that the
/// operands of an operator have the operator's types.
#[cycle(typed)]
pub enum TExpr {
    /// An integer: a constant, an enumeration constant or a size.
    Const {
        pos: Pos,
        ty: IntType,
        value: i128,
    },
    /// The null pointer of this pointer type.
    Null {
        pos: Pos,
        ty: CType,
    },
    /// The value of an integer or a pointer in a place.
    Load {
        pos: Pos,
        place: Box<TLvalue>,
    },
    /// `&a`
    AddressOf {
        pos: Pos,
        place: Box<TLvalue>,
    },
    /// An array as the pointer to its first element.
    Decay {
        pos: Pos,
        place: Box<TLvalue>,
    },
    /// A struct, which is the place of its bytes.
    Whole {
        pos: Pos,
        place: Box<TLvalue>,
    },
    /// `-a`
    Unary {
        pos: Pos,
        op: TUnaryOp,
        operand: Box<TExpr>,
    },
    /// `a + b`
    Binary {
        pos: Pos,
        op: TBinaryOp,
        left: Box<TExpr>,
        right: Box<TExpr>,
    },
    /// A conversion to this type, written or not.
    Convert {
        pos: Pos,
        ty: CType,
        operand: Box<TExpr>,
    },
    /// The value has the place's type.
    Assign {
        pos: Pos,
        place: Box<TLvalue>,
        value: Box<TExpr>,
    },
    /// `s = t`, where both are structs.
    AssignStruct {
        pos: Pos,
        extent: Extent,
        place: Box<TLvalue>,
        source: Box<TExpr>,
    },
    /// `op=`. The operator's left operand is what the place holds, converted to the operator's
    /// type, and its result is converted back.
    Compound {
        pos: Pos,
        op: TBinaryOp,
        place: Box<TLvalue>,
        value: Box<TExpr>,
    },
    /// `++` or `--`, converted as in a `Compound`.
    Step {
        pos: Pos,
        time: StepTime,
        way: StepWay,
        stride: Stride,
        place: Box<TLvalue>,
    },
    /// `a && b`
    And {
        pos: Pos,
        left: Box<TExpr>,
        right: Box<TExpr>,
    },
    /// `a || b`
    Or {
        pos: Pos,
        left: Box<TExpr>,
        right: Box<TExpr>,
    },
    /// `?:`. Both parts have this type.
    Cond {
        pos: Pos,
        ty: CType,
        condition: Box<TExpr>,
        then: Box<TExpr>,
        otherwise: Box<TExpr>,
    },
    /// `a, b`
    Comma {
        pos: Pos,
        left: Box<TExpr>,
        right: Box<TExpr>,
    },
    /// A call of the function of this number. `ty` is the type of its result, and `used` tells
    /// whether the value of the call is used.
    Call {
        pos: Pos,
        function: u64,
        ty: CType,
        used: bool,
        args: TExprs,
    },
    /// The next input, wrapped to this type.
    Any {
        pos: Pos,
        ty: IntType,
    },
    /// Goes on only where the operand is not 0.
    Assume {
        pos: Pos,
        operand: Box<TExpr>,
    },
    /// Goes wrong where the operand is 0.
    Assert {
        pos: Pos,
        operand: Box<TExpr>,
    },
}

/// An expression that names a place. `ty` is the type of what stands there, and `is_const` tells
/// whether it is const.
#[cycle(typed)]
pub enum TLvalue {
    /// The object of this number.
    Var {
        pos: Pos,
        object: u64,
        ty: CType,
        is_const: bool,
    },
    /// What a pointer points to. An index is the sum of its two operands, pointed to.
    Deref {
        pos: Pos,
        kind: DerefKind,
        ty: CType,
        is_const: bool,
        pointer: Box<TExpr>,
    },
    /// Member number `member` of the struct, from 0, which stands `offset` bytes after the
    /// struct's first one.
    Member {
        pos: Pos,
        member: u64,
        offset: u64,
        ty: CType,
        is_const: bool,
        place: Box<TLvalue>,
    },
}

// Letting go of a node is a call of this crate, so that the crates above need not prove again that it ends: it goes as
// deep as the nesting.
impl Drop for TExpr {
    #[cycle(typed)]
    fn drop(self) {
        match self {
            TExpr::Const {
                pos: _,
                ty: _,
                value: _,
            } => {}
            TExpr::Null { pos: _, ty: _ty } => {}
            TExpr::Load {
                pos: _,
                place: _place,
            } => {}
            TExpr::AddressOf {
                pos: _,
                place: _place,
            } => {}
            TExpr::Decay {
                pos: _,
                place: _place,
            } => {}
            TExpr::Whole {
                pos: _,
                place: _place,
            } => {}
            TExpr::Unary {
                pos: _,
                op: _,
                operand: _operand,
            } => {}
            TExpr::Binary {
                pos: _,
                op: _,
                left: _left,
                right: _right,
            } => {}
            TExpr::Convert {
                pos: _,
                ty: _ty,
                operand: _operand,
            } => {}
            TExpr::Assign {
                pos: _,
                place: _place,
                value: _value,
            } => {}
            TExpr::AssignStruct {
                pos: _,
                extent: _,
                place: _place,
                source: _source,
            } => {}
            TExpr::Compound {
                pos: _,
                op: _,
                place: _place,
                value: _value,
            } => {}
            TExpr::Step {
                pos: _,
                time: _,
                way: _,
                stride: _,
                place: _place,
            } => {}
            TExpr::And {
                pos: _,
                left: _left,
                right: _right,
            } => {}
            TExpr::Or {
                pos: _,
                left: _left,
                right: _right,
            } => {}
            TExpr::Cond {
                pos: _,
                ty: _ty,
                condition: _condition,
                then: _then,
                otherwise: _otherwise,
            } => {}
            TExpr::Comma {
                pos: _,
                left: _left,
                right: _right,
            } => {}
            TExpr::Call {
                pos: _,
                function: _,
                ty: _ty,
                used: _,
                args: _args,
            } => {}
            TExpr::Any { pos: _, ty: _ } => {}
            TExpr::Assume {
                pos: _,
                operand: _operand,
            } => {}
            TExpr::Assert {
                pos: _,
                operand: _operand,
            } => {}
        }
    }
}

impl Drop for TLvalue {
    #[cycle(typed)]
    fn drop(self) {
        match self {
            TLvalue::Var {
                pos: _,
                object: _,
                ty: _ty,
                is_const: _,
            } => {}
            TLvalue::Deref {
                pos: _,
                kind: _,
                ty: _ty,
                is_const: _,
                pointer: _pointer,
            } => {}
            TLvalue::Member {
                pos: _,
                member: _,
                offset: _,
                ty: _ty,
                is_const: _,
                place: _place,
            } => {}
        }
    }
}

/// Expressions in their order, as the arguments of a call.
#[cycle(typed)]
#[derive(Drop)]
pub struct TExprs {
    items: Vec<TExpr>,
}

impl TExpr {
    /// The place of the node.
    pub fn pos(&self) -> Pos
        ensures { result ≡ texpr_pos (texpr_tree self.now) }
    {
        match self {
            TExpr::Const { pos, .. }
            | TExpr::Null { pos, .. }
            | TExpr::Load { pos, .. }
            | TExpr::AddressOf { pos, .. }
            | TExpr::Decay { pos, .. }
            | TExpr::Whole { pos, .. }
            | TExpr::Unary { pos, .. }
            | TExpr::Binary { pos, .. }
            | TExpr::Convert { pos, .. }
            | TExpr::Assign { pos, .. }
            | TExpr::AssignStruct { pos, .. }
            | TExpr::Compound { pos, .. }
            | TExpr::Step { pos, .. }
            | TExpr::And { pos, .. }
            | TExpr::Or { pos, .. }
            | TExpr::Cond { pos, .. }
            | TExpr::Comma { pos, .. }
            | TExpr::Call { pos, .. }
            | TExpr::Any { pos, .. }
            | TExpr::Assume { pos, .. }
            | TExpr::Assert { pos, .. } => *pos,
        }
    }

    /// The expression where its value is dropped: a call then gives none.
    pub fn not_used(self) -> TExpr
        ensures { texpr_tree result ≡ not_used (texpr_tree self) }
    {
        match self {
            TExpr::Call {
                pos,
                function,
                ty,
                used: _,
                args,
            } => TExpr::Call {
                pos,
                function,
                ty,
                used: false,
                args,
            },
            other @ (TExpr::Const { .. }
            | TExpr::Null { .. }
            | TExpr::Load { .. }
            | TExpr::AddressOf { .. }
            | TExpr::Decay { .. }
            | TExpr::Whole { .. }
            | TExpr::Unary { .. }
            | TExpr::Binary { .. }
            | TExpr::Convert { .. }
            | TExpr::Assign { .. }
            | TExpr::AssignStruct { .. }
            | TExpr::Compound { .. }
            | TExpr::Step { .. }
            | TExpr::And { .. }
            | TExpr::Or { .. }
            | TExpr::Cond { .. }
            | TExpr::Comma { .. }
            | TExpr::Any { .. }
            | TExpr::Assume { .. }
            | TExpr::Assert { .. }) => other,
        }
    }
}

impl TLvalue {
    /// The place of the node.
    pub fn pos(&self) -> Pos
        ensures { result ≡ tlvalue_pos (tlvalue_tree self.now) }
    {
        match self {
            TLvalue::Var { pos, .. } | TLvalue::Deref { pos, .. } | TLvalue::Member { pos, .. } =>
                *pos,
        }
    }

    /// The type of what stands in the place.
    pub fn ty(&self) -> &CType
        ensures { ctype_tree result.now ≡ tlvalue_type (tlvalue_tree self.now) }
    {
        match self {
            TLvalue::Var { ty, .. } | TLvalue::Deref { ty, .. } | TLvalue::Member { ty, .. } => ty,
        }
    }

    /// Whether what stands in the place is const.
    pub fn is_const(&self) -> bool
        ensures { result ≡ tlvalue_is_const (tlvalue_tree self.now) }
    {
        match self {
            TLvalue::Var { is_const, .. }
            | TLvalue::Deref { is_const, .. }
            | TLvalue::Member { is_const, .. } => *is_const,
        }
    }
}

impl TExprs {
    /// The list with nothing in it.
    pub fn new(alloc: Global) -> TExprs
        ensures { texprs_tree result ≡ none }
    {
        TExprs {
            items: Vec::new(alloc),
        }
    }

    /// The list of these items.
    pub fn from_vec(items: Vec<TExpr>) -> TExprs
        ensures { texprs_tree result ≡ texprs_from items.items }
    {
        TExprs { items }
    }

    /// The items, given back without taking memory.
    pub fn into_vec(self) -> Vec<TExpr>
        ensures { texprs_from result.items ≡ texprs_tree self }
    {
        let TExprs { items } = self;
        items
    }

    /// The expressions, in their order.
    pub fn as_slice(&self) -> &[TExpr]
        ensures { texprs_from result.now ≡ texprs_tree self.now }
    {
        self.items.as_slice()
    }
}
