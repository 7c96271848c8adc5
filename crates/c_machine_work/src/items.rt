// Work items, which have shares of the parts of the program that they name.

use block_mem::Scalar;
use c_machine_trees::{SharedExpr, SharedInits, SharedPlace, SharedStmt, SharedStmts};
use c_syntax::{Extent, Numbers, Pos, StepTime, StepWay, Stride, TBinaryOp, TUnaryOp};
use std::rc::Rc;

/// What a function gives whose end is reached without a `return` (C11 5.1.2.2.3p1, 6.9.1p12).
#[derive(Clone, Copy, PartialEq, Eq)]
pub enum AtEnd {
    /// Nothing, as a void function, or one whose value is not used.
    GivesNothing,
    /// 0, as main.
    GivesZero,
    /// Its value is used, so its end is wrong.
    IsWrong,
}

/// A loop: the place of its first word, at which its condition is tested, and its parts. One whose
/// condition is missing goes on (C11 6.8.5.3p2).
#[derive(Drop)]
pub struct Loop {
    pub pos: Pos,
    pub condition: Option<Rc<SharedExpr>>,
    pub step: Option<Rc<SharedExpr>>,
    pub body: Rc<SharedStmt>,
}

/// A work item. Where one takes a value of a type it has the scalar type alone, or none for what is
/// no scalar. Places are those of the text; `place` is that of the lvalue that is accessed. The items
/// of a loop have the number of times that its body was begun since the loop was entered.
#[derive(Drop)]
pub enum Item {
    /// An expression is evaluated.
    Eval(Rc<SharedExpr>),
    /// The place of an lvalue is taken.
    Addr(Rc<SharedPlace>),
    /// A load of a scalar.
    LoadAt(Pos, Option<Scalar>),
    /// A store of a scalar.
    StoreAt(Pos, Option<Scalar>),
    /// A struct is named by the lvalue there.
    Named(Pos),
    /// A struct is copied.
    CopyAt(Pos, Extent),
    /// `op=`
    Modify {
        pos: Pos,
        place: Pos,
        ty: Option<Scalar>,
        op: TBinaryOp,
    },
    /// `++` and `--`
    StepAt {
        pos: Pos,
        place: Pos,
        ty: Option<Scalar>,
        time: StepTime,
        way: StepWay,
        stride: Stride,
    },
    /// An operator of one operand, of this type.
    Un(Pos, TUnaryOp, Option<Scalar>),
    /// An operator of two operands.
    Bin(Pos, TBinaryOp),
    /// A conversion, to void where there is no scalar type.
    Conv(Option<Scalar>),
    /// A place is moved to a member of its struct.
    Move(Pos, u64),
    /// `&&`, whose left side has this type.
    AndThen(Pos, Option<Scalar>, Rc<SharedExpr>),
    /// `||`, likewise.
    OrElse(Pos, Option<Scalar>, Rc<SharedExpr>),
    /// 1 or 0 by the truth of a value.
    Truth(Pos, Option<Scalar>),
    /// One of two expressions by the truth of a value.
    Pick(Pos, Option<Scalar>, Rc<SharedExpr>, Rc<SharedExpr>),
    /// One of two statements, likewise.
    Choose(Pos, Option<Scalar>, Rc<SharedStmt>, Rc<SharedStmt>),
    /// `__assume`
    Keep(Pos, Option<Scalar>),
    /// `__assert`
    Sure(Pos, Option<Scalar>),
    /// What was given is dropped.
    Drop,
    /// A function is entered, by the call there; main by none.
    Enter(Option<Pos>, u64, AtEnd),
    /// A function is left, with what it gives.
    Leave,
    /// The end of a function's body.
    Reach(Option<Pos>, AtEnd),
    /// A statement is done.
    Do(Rc<SharedStmt>),
    /// The end of a block with these objects; a `goto` finds its label among the items.
    Close(Rc<Numbers>, Rc<SharedStmts>),
    /// A loop tests its condition.
    Begin(u64, Rc<Loop>),
    /// It goes on, or ends, by the truth of that.
    Turn(u64, Rc<Loop>),
    /// The end of its body.
    Again(u64, Rc<Loop>),
    /// A switch goes on behind one of its items.
    Select(Rc<Numbers>, Rc<SharedStmts>),
    /// The end of a switch.
    SwitchEnd,
    /// A scalar is put into an object at an offset.
    Fill(u64, u64, Option<Scalar>),
    /// So is a struct.
    FillCopy(u64, u64, Extent),
    /// What no item of an object's initialiser names becomes 0.
    Rest(u64, Rc<SharedInits>),
    /// The end of the run.
    Finish,
}
