// What checks look at, and what is found of it.
#![tactic(auto, using(csharp::proofs::CodeTrees::the_code_trees))]

ghost use Rattle.std.specs.Prelude.{◌≡◌, ◌∷◌, [], false, true, IfOk, IfSome, Some, is_err, map, option_and_then, option_map};
ghost use Rattle.c_syntax.specs.Types.{object_tree};
ghost use Rattle.c_syntax.specs.Operand as pure;
ghost use Rattle.c_values.specs.Accesses.{mark, test_operand};
ghost use Rattle.c_values.specs.Looks.{judge};
ghost use Rattle.c_values.specs.Operators as operators;
ghost use Rattle.c_values.specs.Places as places;
ghost use Rattle.csharp.specs.Trees.{cscheck_tree, csexpr_tree};
ghost use Rattle.csharp.specs.States as states;
ghost use Rattle.csharp_state.specs.Answers.{AreNear, judged, operand_of};
ghost use Rattle.c_values.specs.Typed.{IsNear};
ghost use Rattle.csharp_state.specs.Belongs.{HasObjects};
ghost use Rattle.csharp_state.specs.Reading.{one_value};
ghost use Rattle.csharp_state.specs.Unheld as unheld;
ghost use Rattle.csharp_state.specs.Unheld.{unheld_both, unheld_bytes, unheld_check, unheld_exact, unheld_exact_binary, unheld_mark, unheld_moved, unheld_one, unheld_point, unheld_pointed, unheld_unary};

use crate::error::Unheld;
use crate::failing::fails;
use crate::numbers::{exact_arithmetic, exact_shift, negated, offset_before, offset_behind};
use crate::operators::takes_right;
use crate::sight::{CallEnd, Judgement, Operand};
use crate::state::State;
use block_mem::{Pointer, Scalar, Value};
use c_syntax::{Object, Spot, TBinaryOp, TUnaryOp, WrongKind};
use c_values::truth;
use csharp::{CsCheck, CsExpr};

impl State {
    /// What is found of a check now.
    pub fn judge(&self, objects: &[Object], check: &CsCheck) -> Result<Judgement, Unheld>
        requires { HasObjects self.now.memory }
        ensures is { IfOk result (λ j. judged j ≡ judge (map object_tree objects.now) (states.look_of (cscheck_tree check.now) self.now ∷ [])) }
        ensures unheld { is_err result ≡ unheld_check (cscheck_tree check.now) self.now }
    {
        match self.operand(check)? {
            Some(operand) => Ok(if fails(objects, &check.check, operand) {
                Judgement::Fails(check.check.kind, operand)
            } else {
                Judgement::Passes
            }),
            None => Ok(Judgement::NoOperand),
        }
    }

    /// What a check looks at now; none where there is nothing of its kind.
    pub fn operand(&self, check: &CsCheck) -> Result<Option<Operand>, Unheld>
        requires { HasObjects self.now.memory }
        ensures is { IfOk result (λ x. option_map operand_of x
            ≡ states.operand_of check.now.check.kind check.now.ty (cscheck_tree check.now).operands self.now) }
        ensures near { IfOk result (λ x. IfSome x AreNear) }
        ensures unheld { is_err result ≡ unheld_check (cscheck_tree check.now) self.now }
    {
        let operands = check.operands.as_slice();
        match check.check.kind {
            WrongKind::Overflow | WrongKind::Quotient | WrongKind::ShiftResult => {
                self.exact_of_one(operands)
            }
            WrongKind::DivideByZero | WrongKind::ShiftAmount => self.number_of_one(operands),
            WrongKind::AssertFailed => self.truth_of_one(operands),
            WrongKind::NoValue => self.end_of_one(operands),
            WrongKind::Indeterminate | WrongKind::Fragment => {
                self.mark_of_one(check.ty, operands)
            }
            WrongKind::NullUse
            | WrongKind::Dangling
            | WrongKind::Bounds
            | WrongKind::Access
            | WrongKind::Alignment
            | WrongKind::ReadOnly
            | WrongKind::Unrelated => self.pointed(check.check.kind, operands),
        }
    }

    // The exact number of the one operand's outermost operator.
    fn exact_of_one(&self, operands: &[CsExpr]) -> Result<Option<Operand>, Unheld>
        ensures is { IfOk result (λ x. option_map operand_of x
            ≡ states.of_one (map csexpr_tree operands.now) (λ e. states.exact_of e self.now)) }
        ensures near { IfOk result (λ x. IfSome x AreNear) }
        ensures unheld { is_err result ≡ unheld_one (map csexpr_tree operands.now) (λ e. unheld_exact e self.now) }
    {
        if operands.len() != 1 {
            return Ok(None);
        }
        self.exact(&operands[0])
    }

    fn exact(&self, operand: &CsExpr) -> Result<Option<Operand>, Unheld>
        ensures is { IfOk result (λ x. option_map operand_of x ≡ states.exact_of (csexpr_tree operand.now) self.now) }
        ensures near { IfOk result (λ x. IfSome x AreNear) }
        ensures unheld { is_err result ≡ unheld_exact (csexpr_tree operand.now) self.now }
    {
        match operand {
            CsExpr::Unary { op, operand } => match self.value(operand)? {
                Some(v) => exact_unary(*op, v),
                None => Ok(None),
            },
            CsExpr::Binary { op, left, right } => match self.value(left)? {
                Some(v) => match self.value(right)? {
                    Some(u) => exact_taken(*op, v, u),
                    None => Ok(None),
                },
                None => Ok(None),
            },
            CsExpr::Const { .. } => Ok(None),
            CsExpr::Null => Ok(None),
            CsExpr::Temp { .. } => Ok(None),
            CsExpr::Address { .. } => Ok(None),
            CsExpr::Convert { .. } => Ok(None),
        }
    }

    // The value of the one operand.
    fn value_of_one(&self, operands: &[CsExpr]) -> Result<Option<Value>, Unheld>
        ensures is { IfOk result (λ v. v ≡ one_value (map csexpr_tree operands.now) self.now) }
        ensures unheld { is_err result ≡ unheld_one (map csexpr_tree operands.now) (λ e. unheld.unheld e self.now) }
    {
        if operands.len() != 1 {
            return Ok(None);
        }
        self.value(&operands[0])
    }

    fn number_of_one(&self, operands: &[CsExpr]) -> Result<Option<Operand>, Unheld>
        ensures is { IfOk result (λ x. option_map operand_of x ≡ option_and_then operators.number (one_value (map csexpr_tree operands.now) self.now)) }
        ensures near { IfOk result (λ x. IfSome x AreNear) }
        ensures unheld { is_err result ≡ unheld_one (map csexpr_tree operands.now) (λ e. unheld.unheld e self.now) }
    {
        match self.value_of_one(operands)? {
            Some(Value::Int(_, n)) => Ok(Some(Operand::Number(n))),
            _ => Ok(None),
        }
    }

    // The truth of the one operand, as 0 or 1.
    fn truth_of_one(&self, operands: &[CsExpr]) -> Result<Option<Operand>, Unheld>
        ensures is { IfOk result (λ x. option_map operand_of x
            ≡ option_and_then (λ v. test_operand self.now.memory v WrongKind.AssertFailed) (one_value (map csexpr_tree operands.now) self.now)) }
        ensures near { IfOk result (λ x. IfSome x AreNear) }
        ensures unheld { is_err result ≡ unheld_one (map csexpr_tree operands.now) (λ e. unheld.unheld e self.now) }
    {
        match self.value_of_one(operands)? {
            Some(v) => Ok(Some(Operand::Number(if truth(v) { 1 } else { 0 }))),
            None => Ok(None),
        }
    }

    // Whether a call gave a value, which the one operand tells.
    fn end_of_one(&self, operands: &[CsExpr]) -> Result<Option<Operand>, Unheld>
        ensures is { IfOk result (λ x. option_map operand_of x ≡ option_and_then states.end_of (one_value (map csexpr_tree operands.now) self.now)) }
        ensures near { IfOk result (λ x. IfSome x AreNear) }
        ensures unheld { is_err result ≡ unheld_one (map csexpr_tree operands.now) (λ e. unheld.unheld e self.now) }
    {
        match self.value_of_one(operands)? {
            Some(Value::Int(_, n)) => Ok(Some(Operand::End(if n == 0 {
                CallEnd::Nothing
            } else {
                CallEnd::Value
            }))),
            _ => Ok(None),
        }
    }

    // What a load from the one operand meets.
    fn mark_of_one(
        &self,
        ty: Option<Scalar>,
        operands: &[CsExpr],
    ) -> Result<Option<Operand>, Unheld>
        requires { HasObjects self.now.memory }
        ensures is { IfOk result (λ x. option_map operand_of x
            ≡ option_and_then (mark self.now.memory ty) (one_value (map csexpr_tree operands.now) self.now)) }
        ensures near { IfOk result (λ x. IfSome x AreNear) }
        ensures unheld { is_err result ≡ unheld_mark ty (map csexpr_tree operands.now) self.now }
    {
        match ty {
            Some(ty) => match self.value_of_one(operands)? {
                Some(v) => self.mark_at(ty, v),
                None => Ok(None),
            },
            None => Ok(None),
        }
    }

    fn mark_at(&self, ty: Scalar, place: Value) -> Result<Option<Operand>, Unheld>
        requires { HasObjects self.now.memory }
        ensures is { IfOk result (λ x. option_map operand_of x ≡ mark self.now.memory (Some ty) place) }
        ensures near { IfOk result (λ x. IfSome x AreNear) }
        ensures unheld { is_err result ≡ unheld_bytes self.now.memory ty place }
    {
        match place {
            Value::Ptr(at) => Ok(Some(Operand::Mark(self.mark(ty, at)?))),
            Value::Int(_, _) | Value::Null => Ok(None),
        }
    }

    // Where one pointer points, or two.
    fn pointed(&self, kind: WrongKind, operands: &[CsExpr]) -> Result<Option<Operand>, Unheld>
        ensures is { IfOk result (λ x. option_map operand_of x ≡ states.pointed kind (map csexpr_tree operands.now) self.now) }
        ensures near { IfOk result (λ x. IfSome x AreNear) }
        ensures unheld { is_err result ≡ unheld_pointed (map csexpr_tree operands.now) self.now }
    {
        match operands.len() {
            1 => self.pointed_once(&operands[0]),
            2 => self.pointed_twice(kind, &operands[0], &operands[1]),
            _ => Ok(None),
        }
    }

    // Of a pointer that is moved last of all only the place is asked, which a spot holds wherever it is.
    fn pointed_once(&self, operand: &CsExpr) -> Result<Option<Operand>, Unheld>
        ensures is { IfOk result (λ x. option_map operand_of x
            ≡ option_and_then (places.point self.now.memory) (states.value_of (csexpr_tree operand.now) self.now)) }
        ensures near { IfOk result (λ x. IfSome x AreNear) }
        ensures unheld { is_err result ≡ unheld_point (csexpr_tree operand.now) self.now }
    {
        match operand {
            CsExpr::Binary { op, left, right } => match self.value(left)? {
                Some(v) => match self.value(right)? {
                    Some(u) => Ok(point(self.moved_spot(*op, v, u)?)),
                    None => Ok(None),
                },
                None => Ok(None),
            },
            CsExpr::Const { .. } => self.pointed_by(operand),
            CsExpr::Null => self.pointed_by(operand),
            CsExpr::Temp { .. } => self.pointed_by(operand),
            CsExpr::Address { .. } => self.pointed_by(operand),
            CsExpr::Unary { .. } => self.pointed_by(operand),
            CsExpr::Convert { .. } => self.pointed_by(operand),
        }
    }

    // Where the pointer points that an expression is.
    fn pointed_by(&self, operand: &CsExpr) -> Result<Option<Operand>, Unheld>
        ensures is { IfOk result (λ x. option_map operand_of x
            ≡ option_and_then (places.point self.now.memory) (states.value_of (csexpr_tree operand.now) self.now)) }
        ensures near { IfOk result (λ x. IfSome x AreNear) }
        ensures unheld { is_err result ≡ unheld.unheld (csexpr_tree operand.now) self.now }
    {
        match self.value(operand)? {
            Some(v) => Ok(point(self.spot(v))),
            None => Ok(None),
        }
    }

    fn pointed_twice(
        &self,
        kind: WrongKind,
        left: &CsExpr,
        right: &CsExpr,
    ) -> Result<Option<Operand>, Unheld>
        ensures is { IfOk result (λ x. option_map operand_of x ≡ states.on_both (csexpr_tree left.now) (csexpr_tree right.now) self.now
            (λ v u. operators.pair_operand (places.spot self.now.memory v) (places.spot self.now.memory u) kind)) }
        ensures near { IfOk result (λ x. IfSome x AreNear) }
        ensures unheld { is_err result ≡ unheld_both (csexpr_tree left.now) (csexpr_tree right.now) self.now (λ v u. false) }
    {
        match self.value(left)? {
            Some(v) => match self.value(right)? {
                Some(u) => Ok(pair(kind, self.spot(v), self.spot(u))),
                None => Ok(None),
            },
            None => Ok(None),
        }
    }

    // Where the pointer points that an operator gives; a number points nowhere.
    fn moved_spot(&self, op: TBinaryOp, left: Value, right: Value) -> Result<Option<Spot>, Unheld>
        ensures is { IfOk result (λ spot. spot
            ≡ option_and_then (places.spot self.now.memory) (states.if_taken op (operators.binary_result op) left right)) }
        ensures unheld { is_err result ≡ unheld_moved op left right }
    {
        match op {
            TBinaryOp::PointerPlusInt { element } => self.spot_on(left, element, right),
            TBinaryOp::IntPlusPointer { element } => self.spot_on(right, element, left),
            TBinaryOp::PointerMinusInt { element } => self.spot_back(left, element, right),
            TBinaryOp::PointerMinusPointer { .. } => Ok(None),
            TBinaryOp::ComparePointers(_) => Ok(None),
            TBinaryOp::Arithmetic(_, _) => Ok(None),
            TBinaryOp::Shift(_, _) => Ok(None),
            TBinaryOp::CompareInts(_, _) => Ok(None),
        }
    }

    // Where a pointer points behind so many elements.
    fn spot_on(&self, place: Value, element: u64, count: Value) -> Result<Option<Spot>, Unheld>
        ensures added { IfOk result (λ spot. spot
            ≡ option_and_then (places.spot self.now.memory) (operators.binary_result (TBinaryOp.PointerPlusInt element) place count)) }
        ensures other_way { IfOk result (λ spot. spot
            ≡ option_and_then (places.spot self.now.memory) (operators.binary_result (TBinaryOp.IntPlusPointer element) count place)) }
        ensures unheld { is_err result ≡ unheld_moved (TBinaryOp.PointerPlusInt element) place count }
        ensures unheld_other_way { is_err result ≡ unheld_moved (TBinaryOp.IntPlusPointer element) count place }
    {
        match (place, count) {
            (Value::Ptr(at), Value::Int(_, n)) => {
                Ok(Some(self.spot_at(at, offset_behind(at.offset, element, n)?)))
            }
            (Value::Null, Value::Int(_, _)) => Ok(Some(Spot::Null)),
            _ => Ok(None),
        }
    }

    // Where a pointer points before so many elements.
    fn spot_back(&self, place: Value, element: u64, count: Value) -> Result<Option<Spot>, Unheld>
        ensures is { IfOk result (λ spot. spot
            ≡ option_and_then (places.spot self.now.memory) (operators.binary_result (TBinaryOp.PointerMinusInt element) place count)) }
        ensures unheld { is_err result ≡ unheld_moved (TBinaryOp.PointerMinusInt element) place count }
    {
        match (place, count) {
            (Value::Ptr(at), Value::Int(_, n)) => {
                Ok(Some(self.spot_at(at, offset_before(at.offset, element, n)?)))
            }
            (Value::Null, Value::Int(_, _)) => Ok(Some(Spot::Null)),
            _ => Ok(None),
        }
    }

    // Where an offset in the block of a pointer is.
    fn spot_at(&self, at: Pointer, offset: i128) -> Spot
        ensures { result ≡ places.spot_at self.now.memory (record at { offset = offset }) }
    {
        if at.block >= self.memory.count() {
            return Spot::Dead;
        }
        match self.memory.spot_at(at) {
            Spot::At(object, _) => Spot::At(object, offset),
            Spot::Dead => Spot::Dead,
            Spot::Null => Spot::Null,
        }
    }

    // Where a pointer points; an integer points nowhere.
    fn spot(&self, v: Value) -> Option<Spot>
        ensures is { result ≡ places.spot self.now.memory v }
        ensures near { IfSome result IsNear }
    {
        match v {
            Value::Ptr(at) => Some(if at.block < self.memory.count() {
                self.memory.spot_at(at)
            } else {
                Spot::Dead
            }),
            Value::Null => Some(Spot::Null),
            Value::Int(_, _) => None,
        }
    }
}

fn point(spot: Option<Spot>) -> Option<Operand>
    ensures is { option_map operand_of result ≡ option_map pure.Point spot }
    ensures near { IfSome result AreNear }
{
    match spot {
        Some(spot) => Some(Operand::Point(spot)),
        None => None,
    }
}

// The exact number of a check of a result.
fn exact_unary(op: TUnaryOp, v: Value) -> Result<Option<Operand>, Unheld>
    ensures is { IfOk result (λ x. (m : places.ObjectMemory) → option_map operand_of x ≡ operators.unary_operand m op v WrongKind.Overflow) }
    ensures near { IfOk result (λ x. IfSome x AreNear) }
    ensures unheld { is_err result ≡ unheld_unary op v }
{
    match op {
        TUnaryOp::Minus(_) => match v {
            Value::Int(_, n) => Ok(Some(Operand::Number(negated(n)?))),
            Value::Ptr(_) | Value::Null => Ok(None),
        },
        TUnaryOp::Plus(_) | TUnaryOp::Complement(_) | TUnaryOp::Not => Ok(None),
    }
}

// None where the operator does not take the right operand.
fn exact_taken(op: TBinaryOp, left: Value, right: Value) -> Result<Option<Operand>, Unheld>
    ensures is { IfOk result (λ x. option_map operand_of x ≡ states.if_taken op (operators.exact_binary op) left right) }
    ensures near { IfOk result (λ x. IfSome x AreNear) }
    ensures unheld { is_err result ≡ unheld.if_taken op (unheld_exact_binary op) left right }
{
    if takes_right(op, right) {
        exact_binary(op, left, right)
    } else {
        Ok(None)
    }
}

fn exact_binary(op: TBinaryOp, left: Value, right: Value) -> Result<Option<Operand>, Unheld>
    requires { states.takes_right op right ≡ true }
    ensures is { IfOk result (λ x. option_map operand_of x ≡ operators.exact_binary op left right) }
    ensures near { IfOk result (λ x. IfSome x AreNear) }
    ensures unheld { is_err result ≡ unheld_exact_binary op left right }
{
    match (left, right) {
        (Value::Int(_, a), Value::Int(_, b)) => match op {
            TBinaryOp::Arithmetic(op, _) => Ok(Some(Operand::Number(exact_arithmetic(op, a, b)?))),
            TBinaryOp::Shift(_, _) => Ok(Some(Operand::Number(exact_shift(a, b)?))),
            TBinaryOp::CompareInts(_, _) => Ok(None),
            TBinaryOp::ComparePointers(_) => Ok(None),
            TBinaryOp::PointerPlusInt { .. } => Ok(None),
            TBinaryOp::IntPlusPointer { .. } => Ok(None),
            TBinaryOp::PointerMinusInt { .. } => Ok(None),
            TBinaryOp::PointerMinusPointer { .. } => Ok(None),
        },
        _ => Ok(None),
    }
}

// Two spots, for the kinds that look at two.
fn pair(kind: WrongKind, left: Option<Spot>, right: Option<Spot>) -> Option<Operand>
    requires left { IfSome left IsNear }
    requires right { IfSome right IsNear }
    ensures is { option_map operand_of result ≡ operators.pair_operand left right kind }
    ensures near { IfSome result AreNear }
{
    match kind {
        WrongKind::NullUse | WrongKind::Dangling | WrongKind::Unrelated => match (left, right) {
            (Some(left), Some(right)) => Some(Operand::Points(left, right)),
            _ => None,
        },
        _ => None,
    }
}
