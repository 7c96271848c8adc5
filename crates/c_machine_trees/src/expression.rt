// Typed expressions and places whose parts are shared.
#![tactic(auto, using(crate::proofs::SharedTrees::the_shared_trees))]

ghost use Rattle.std.specs.Prelude.{◌≡◌};
ghost use Rattle.c_machine_trees.specs.Expressions.{exprs_from, exprs_tree};

use c_syntax::{
    CType, DerefKind, Extent, IntType, Pos, StepTime, StepWay, Stride, TBinaryOp, TUnaryOp,
};
use std::rc::Rc;

/// A typed expression whose parts are shared. Each form is that of `TExpr`.
#[cycle(expressions)]
pub enum SharedExpr {
    /// An integer: a constant, an enumeration constant or a size.
    Const {
        pos: Pos,
        ty: IntType,
        value: i128,
    },
    /// The null pointer of this pointer type.
    Null {
        pos: Pos,
        ty: CType,
    },
    /// The value of an integer or a pointer in a place.
    Load {
        pos: Pos,
        place: Rc<SharedPlace>,
    },
    /// `&a`
    AddressOf {
        pos: Pos,
        place: Rc<SharedPlace>,
    },
    /// An array as the pointer to its first element.
    Decay {
        pos: Pos,
        place: Rc<SharedPlace>,
    },
    /// A struct, which is the place of its bytes.
    Whole {
        pos: Pos,
        place: Rc<SharedPlace>,
    },
    /// `-a`
    Unary {
        pos: Pos,
        op: TUnaryOp,
        operand: Rc<SharedExpr>,
    },
    /// `a + b`
    Binary {
        pos: Pos,
        op: TBinaryOp,
        left: Rc<SharedExpr>,
        right: Rc<SharedExpr>,
    },
    /// A conversion to this type, written or not.
    Convert {
        pos: Pos,
        ty: CType,
        operand: Rc<SharedExpr>,
    },
    /// The value has the place's type.
    Assign {
        pos: Pos,
        place: Rc<SharedPlace>,
        value: Rc<SharedExpr>,
    },
    /// `s = t`, where both are structs.
    AssignStruct {
        pos: Pos,
        extent: Extent,
        place: Rc<SharedPlace>,
        source: Rc<SharedExpr>,
    },
    /// `op=`. The operator's left operand is what the place holds, converted to the operator's
    /// type, and its result is converted back.
    Compound {
        pos: Pos,
        op: TBinaryOp,
        place: Rc<SharedPlace>,
        value: Rc<SharedExpr>,
    },
    /// `++` or `--`, converted as in a `Compound`.
    Step {
        pos: Pos,
        time: StepTime,
        way: StepWay,
        stride: Stride,
        place: Rc<SharedPlace>,
    },
    /// `a && b`
    And {
        pos: Pos,
        left: Rc<SharedExpr>,
        right: Rc<SharedExpr>,
    },
    /// `a || b`
    Or {
        pos: Pos,
        left: Rc<SharedExpr>,
        right: Rc<SharedExpr>,
    },
    /// `?:`. Both parts have this type.
    Cond {
        pos: Pos,
        ty: CType,
        condition: Rc<SharedExpr>,
        then: Rc<SharedExpr>,
        otherwise: Rc<SharedExpr>,
    },
    /// `a, b`
    Comma {
        pos: Pos,
        left: Rc<SharedExpr>,
        right: Rc<SharedExpr>,
    },
    /// A call of the function of this number. `ty` is the type of its result, and `used` tells
    /// whether the value of the call is used.
    Call {
        pos: Pos,
        function: u64,
        ty: CType,
        used: bool,
        args: SharedExprs,
    },
    /// The next input, wrapped to this type.
    Any {
        pos: Pos,
        ty: IntType,
    },
    /// Goes on only where the operand is not 0.
    Assume {
        pos: Pos,
        operand: Rc<SharedExpr>,
    },
    /// Goes wrong where the operand is 0.
    Assert {
        pos: Pos,
        operand: Rc<SharedExpr>,
    },
}

// Letting go of a node is one call; it goes as deep as the nesting.
impl Drop for SharedExpr {
    #[cycle(expressions)]
    fn drop(self) {
        match self {
            SharedExpr::Const {
                pos: _,
                ty: _,
                value: _,
            } => {}
            SharedExpr::Null { pos: _, ty: _ty } => {}
            SharedExpr::Load {
                pos: _,
                place: _place,
            } => {}
            SharedExpr::AddressOf {
                pos: _,
                place: _place,
            } => {}
            SharedExpr::Decay {
                pos: _,
                place: _place,
            } => {}
            SharedExpr::Whole {
                pos: _,
                place: _place,
            } => {}
            SharedExpr::Unary {
                pos: _,
                op: _,
                operand: _operand,
            } => {}
            SharedExpr::Binary {
                pos: _,
                op: _,
                left: _left,
                right: _right,
            } => {}
            SharedExpr::Convert {
                pos: _,
                ty: _ty,
                operand: _operand,
            } => {}
            SharedExpr::Assign {
                pos: _,
                place: _place,
                value: _value,
            } => {}
            SharedExpr::AssignStruct {
                pos: _,
                extent: _,
                place: _place,
                source: _source,
            } => {}
            SharedExpr::Compound {
                pos: _,
                op: _,
                place: _place,
                value: _value,
            } => {}
            SharedExpr::Step {
                pos: _,
                time: _,
                way: _,
                stride: _,
                place: _place,
            } => {}
            SharedExpr::And {
                pos: _,
                left: _left,
                right: _right,
            } => {}
            SharedExpr::Or {
                pos: _,
                left: _left,
                right: _right,
            } => {}
            SharedExpr::Cond {
                pos: _,
                ty: _ty,
                condition: _condition,
                then: _then,
                otherwise: _otherwise,
            } => {}
            SharedExpr::Comma {
                pos: _,
                left: _left,
                right: _right,
            } => {}
            SharedExpr::Call {
                pos: _,
                function: _,
                ty: _ty,
                used: _,
                args: _args,
            } => {}
            SharedExpr::Any { pos: _, ty: _ } => {}
            SharedExpr::Assume {
                pos: _,
                operand: _operand,
            } => {}
            SharedExpr::Assert {
                pos: _,
                operand: _operand,
            } => {}
        }
    }
}

/// An expression that names a place, whose parts are shared. Each form is that of `TLvalue`.
#[cycle(expressions)]
pub enum SharedPlace {
    /// The object of this number.
    Var {
        pos: Pos,
        object: u64,
        ty: CType,
        is_const: bool,
    },
    /// What a pointer points to. An index is the sum of its two operands, pointed to.
    Deref {
        pos: Pos,
        kind: DerefKind,
        ty: CType,
        is_const: bool,
        pointer: Rc<SharedExpr>,
    },
    /// Member number `member` of the struct, from 0, which stands `offset` bytes after the
    /// struct's first one.
    Member {
        pos: Pos,
        member: u64,
        offset: u64,
        ty: CType,
        is_const: bool,
        place: Rc<SharedPlace>,
    },
}

impl Drop for SharedPlace {
    #[cycle(expressions)]
    fn drop(self) {
        match self {
            SharedPlace::Var {
                pos: _,
                object: _,
                ty: _ty,
                is_const: _,
            } => {}
            SharedPlace::Deref {
                pos: _,
                kind: _,
                ty: _ty,
                is_const: _,
                pointer: _pointer,
            } => {}
            SharedPlace::Member {
                pos: _,
                member: _,
                offset: _,
                ty: _ty,
                is_const: _,
                place: _place,
            } => {}
        }
    }
}

/// Expressions in their order, as the arguments of a call.
#[cycle(expressions)]
#[derive(Drop)]
pub struct SharedExprs {
    items: Vec<Rc<SharedExpr>>,
}

impl SharedExprs {
    /// The list of these items.
    pub fn from_vec(items: Vec<Rc<SharedExpr>>) -> SharedExprs
        ensures { exprs_tree result ≡ exprs_from items.items }
    {
        SharedExprs { items }
    }

    /// The expressions, in their order.
    pub fn as_slice(&self) -> &[Rc<SharedExpr>]
        ensures { exprs_from result.now ≡ exprs_tree self.now }
    {
        self.items.as_slice()
    }
}
