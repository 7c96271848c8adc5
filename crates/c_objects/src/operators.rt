// Operators on values, over a memory of objects.
ghost use Rattle.std.specs.Prelude.{◌≡◌, ◌<◌, ◌≤◌, ◌^◌, ℕ, ℤ, length, map, IfOk, Some, nat_abs, List};
ghost use Rattle.c_syntax.specs.Types.{ObjectTree, object_tree};
ghost use Rattle.c_layout.specs.Checks.{pointer_checks};
ghost use Rattle.block_mem.specs.Bytes.{IsOf};
ghost use Rattle.block_mem.specs.Proper.{IsMade};
ghost use Rattle.c_values.specs.Accesses.{assert_looks, test_looks};
ghost use Rattle.c_values.specs.Answers.{Answers, Finds};
ghost use Rattle.c_values.specs.Looks.{judge, looks};
ghost use Rattle.c_values.specs.Operators as operators;
ghost use Rattle.c_values.specs.Operators.{elements, pair_operand};
ghost use Rattle.c_values.specs.Places as places;
ghost use Rattle.c_values.specs.Places.{spot_at};
ghost use Rattle.c_syntax_written.specs.declared.int_type.IntType.{IntType};
ghost use Rattle.c_values.specs.Typed.{IsInteger, IsNear, TakesBoth, TakesNumbers, TakesOne};
ghost use Rattle.c_objects.specs.Kept.{AllFit, AreSmall};

use crate::memory::ObjectMemory;
use block_mem::{Pointer, Scalar, Value};
use c_syntax::{Comparison, Example, Object, Spot, TBinaryOp, TUnaryOp, WrongKind};
use c_values::{
    Wrong, arithmetic, bit, check_equality, check_move, check_same_object, check_test,
    compare_pointers, compares, complement, difference, negate, shift, truth,
};

impl ObjectMemory {
    /// A pointer moved by so many bytes. It is refused as `check_move` says.
    fn moved(&self, objects: &[Object], v: Value, distance: i128) -> Result<Value, Wrong>
        requires pointer { IsOf Scalar.Pointer v }
        requires made { IsMade (length self.now.blocks) v }
        requires fits { AllFit (map object_tree objects.now) self.now }
        requires small { AreSmall (map object_tree objects.now) }
        requires distance { nat_abs distance < 2 ^ 126 }
        ensures answer { Answers result (operators.move_by (map object_tree objects.now) self.now v distance) }
        ensures made { IfOk result (λ new. IsMade (length self.now.blocks) new) }
    {
        match v {
            Value::Ptr(pointer) => self.moved_pointer(objects, pointer, distance),
            _ => Err(Wrong {
                kind: WrongKind::NullUse,
                operand: Example::Point(Spot::Null),
            }),
        }
    }

    fn moved_pointer(&self, objects: &[Object], p: Pointer, distance: i128) -> Result<Value, Wrong>
        requires made { p.block < length self.now.blocks }
        requires fits { AllFit (map object_tree objects.now) self.now }
        requires small { AreSmall (map object_tree objects.now) }
        requires distance { nat_abs distance < 2 ^ 126 }
        ensures answer { Answers result (operators.move_by (map object_tree objects.now) self.now (Value.Ptr p) distance) }
        ensures made { IfOk result (λ new. IsMade (length self.now.blocks) new) }
    {
        let from = self.spot_at(p);
        match from {
            Spot::At(object, _) => self.moved_inside(objects, p, object, distance),
            Spot::Null | Spot::Dead => Err(Wrong {
                kind: WrongKind::Dangling,
                operand: Example::Point(from),
            }),
        }
    }

    // A pointer into an object that lives.
    fn moved_inside(
        &self,
        objects: &[Object],
        p: Pointer,
        object: u64,
        distance: i128,
    ) -> Result<Value, Wrong>
        requires made { p.block < length self.now.blocks }
        requires lives { spot_at self.now p ≡ Spot.At object p.offset }
        requires fits { AllFit (map object_tree objects.now) self.now }
        requires small { AreSmall (map object_tree objects.now) }
        requires distance { nat_abs distance < 2 ^ 126 }
        ensures answer { Answers result (operators.move_by (map object_tree objects.now) self.now (Value.Ptr p) distance) }
        ensures made { IfOk result (λ new. IsMade (length self.now.blocks) new) }
    {
        let offset = i128::from(p.offset);
        let exact = offset + distance;
        match check_move(objects, Spot::At(object, offset), Spot::At(object, exact)) {
            Ok(()) => Ok(Value::Ptr(Pointer {
                block: p.block,
                offset: exact as i64,
            })),
            Err(wrong) => Err(wrong),
        }
    }

    /// A comparison of two pointers.
    fn compare(
        &self,
        objects: &[Object],
        comparison: Comparison,
        left: Value,
        right: Value,
    ) -> Result<Value, Wrong>
        requires left { IsOf Scalar.Pointer left }
        requires right { IsOf Scalar.Pointer right }
        requires left_made { IsMade (length self.now.blocks) left }
        requires right_made { IsMade (length self.now.blocks) right }
        ensures { Answers result (operators.binary (map object_tree objects.now) self.now (TBinaryOp.ComparePointers comparison) left right) }
    {
        match check_pair(objects, comparison, self.spot(left), self.spot(right)) {
            Ok(()) => Ok(compare_pointers(comparison, left, right)),
            Err(wrong) => Err(wrong),
        }
    }

    /// How many elements lie between two pointers.
    fn subtract(&self, element: u64, left: Value, right: Value) -> Result<Value, Wrong>
        requires left { IsOf Scalar.Pointer left }
        requires right { IsOf Scalar.Pointer right }
        requires left_made { IsMade (length self.now.blocks) left }
        requires right_made { IsMade (length self.now.blocks) right }
        requires element { 0 < element }
        ensures { (objects : List ObjectTree) → Answers result (operators.binary objects self.now (TBinaryOp.PointerMinusPointer element) left right) }
    {
        let from = self.spot(left);
        let to = self.spot(right);
        match (left, right) {
            (Value::Ptr(p), Value::Ptr(q)) => match check_same_object(element, from, to) {
                Ok(()) => Ok(difference(element, p, q)),
                Err(wrong) => Err(wrong),
            },
            _ => Err(Wrong {
                kind: WrongKind::NullUse,
                operand: Example::Points(from, to),
            }),
        }
    }

    /// An operator on two values. What is wrong first has its operand: the exact number, the divisor or
    /// the amount for numbers, the spot that a pointer has or would have, or both spots.
    pub fn binary(
        &self,
        objects: &[Object],
        op: TBinaryOp,
        left: Value,
        right: Value,
    ) -> Result<Value, Wrong>
        requires typed { TakesBoth op left right }
        requires left_made { IsMade (length self.now.blocks) left }
        requires right_made { IsMade (length self.now.blocks) right }
        requires fits { AllFit (map object_tree objects.now) self.now }
        requires small { AreSmall (map object_tree objects.now) }
        ensures answer { Answers result (operators.binary (map object_tree objects.now) self.now op left right) }
        ensures made { IfOk result (λ v. IsMade (length self.now.blocks) v) }
    {
        match op {
            TBinaryOp::ComparePointers(c) => self.compare(objects, c, left, right),
            TBinaryOp::PointerPlusInt { element } => {
                self.moved(objects, left, distance(element, right))
            }
            TBinaryOp::IntPlusPointer { element } => {
                self.moved(objects, right, distance(element, left))
            }
            TBinaryOp::PointerMinusInt { element } => {
                self.moved(objects, left, -distance(element, right))
            }
            TBinaryOp::PointerMinusPointer { element } => self.subtract(element, left, right),
            TBinaryOp::Arithmetic(_, _) | TBinaryOp::Shift(_, _) | TBinaryOp::CompareInts(_, _) =>
                on_numbers(op, left, right),
        }
    }

    /// A place moved to a member of the struct that stands there.
    pub fn member(&self, objects: &[Object], place: Value, offset: u64) -> Result<Value, Wrong>
        requires pointer { IsOf Scalar.Pointer place }
        requires made { IsMade (length self.now.blocks) place }
        requires fits { AllFit (map object_tree objects.now) self.now }
        requires small { AreSmall (map object_tree objects.now) }
        ensures answer { Answers result (operators.member (map object_tree objects.now) self.now place offset) }
        ensures made { IfOk result (λ new. IsMade (length self.now.blocks) new) }
    {
        self.moved(objects, place, i128::from(offset))
    }

    /// Asks whether a value may be tested: a pointer that is dead may not.
    pub fn check_test(&self, ty: Scalar, v: Value) -> Result<(), Wrong>
        requires typed { IsOf ty v }
        requires made { IsMade (length self.now.blocks) v }
        ensures { (objects : List ObjectTree) → Finds result (judge objects (test_looks self.now (Some ty) v)) }
    {
        match v {
            Value::Int(_, _) => Ok(()),
            Value::Ptr(_) | Value::Null => check_test(self.spot(v)),
        }
    }

    /// Asks whether an assertion holds: after the test of its operand, AssertFailed with 0.
    pub fn check_assertion(&self, ty: Scalar, v: Value) -> Result<(), Wrong>
        requires typed { IsOf ty v }
        requires made { IsMade (length self.now.blocks) v }
        ensures { (objects : List ObjectTree) → Finds result (judge objects (assert_looks self.now (Some ty) v)) }
    {
        match self.check_test(ty, v) {
            Ok(()) => if truth(v) {
                Ok(())
            } else {
                Err(Wrong {
                    kind: WrongKind::AssertFailed,
                    operand: Example::Number(0),
                })
            },
            Err(wrong) => Err(wrong),
        }
    }

    /// An operator on a value of a type. It is refused with the exact number, for Overflow, and with
    /// the spot, for Dangling.
    pub fn unary(&self, op: TUnaryOp, ty: Scalar, v: Value) -> Result<Value, Wrong>
        requires typed { TakesOne op ty v }
        requires made { IsMade (length self.now.blocks) v }
        ensures { (objects : List ObjectTree) → Answers result (operators.unary objects self.now op (Some ty) v) }
    {
        match op {
            TUnaryOp::Not => match self.check_test(ty, v) {
                Ok(()) => Ok(bit(!truth(v))),
                Err(wrong) => Err(wrong),
            },
            TUnaryOp::Plus(_) => Ok(v),
            TUnaryOp::Minus(t) => match v {
                Value::Int(_, n) => negate(t, n),
                _ => unreachable!(),
            },
            TUnaryOp::Complement(t) => match v {
                Value::Int(_, n) => Ok(Value::Int(t, complement(t, n))),
                _ => unreachable!(),
            },
        }
    }
}

// Asks whether two spots may be compared so.
fn check_pair(
    objects: &[Object],
    comparison: Comparison,
    left: Spot,
    right: Spot,
) -> Result<(), Wrong>
    requires left { IsNear left }
    requires right { IsNear right }
    ensures { Finds result (judge (map object_tree objects.now) (looks (pair_operand (Some left) (Some right)) (pointer_checks comparison))) }
{
    match comparison {
        Comparison::Equal | Comparison::Unequal => check_equality(objects, left, right),
        Comparison::Less | Comparison::Greater | Comparison::AtMost | Comparison::AtLeast => {
            check_same_object(1, left, right)
        }
    }
}

// The bytes of so many elements.
fn distance(element: u64, count: Value) -> i128
    requires element { element ≤ 2 ^ 40 }
    requires count { IsInteger count }
    ensures bytes { (t : IntType) (n : ℤ) → count ≡ Value.Int t n → result ≡ elements element n }
    ensures moderate { nat_abs result < 2 ^ 126 }
{
    match count {
        Value::Int(_, n) => i128::from(element) * n,
        Value::Ptr(_) | Value::Null => 0,
    }
}

// An operator on two numbers.
fn on_numbers(op: TBinaryOp, left: Value, right: Value) -> Result<Value, Wrong>
    requires typed { TakesBoth op left right }
    requires numbers { TakesNumbers op }
    ensures answer { (objects : List ObjectTree) (m : places.ObjectMemory) → Answers result (operators.binary objects m op left right) }
    ensures made { (made : ℕ) → IfOk result (λ v. IsMade made v) }
{
    match (left, right) {
        (Value::Int(_, a), Value::Int(_, b)) => match op {
            TBinaryOp::Arithmetic(op, t) => arithmetic(op, t, a, b),
            TBinaryOp::Shift(way, t) => shift(way, t, a, b),
            TBinaryOp::CompareInts(comparison, _) => Ok(bit(compares(comparison, a, b))),
            _ => unreachable!(),
        },
        _ => unreachable!(),
    }
}
