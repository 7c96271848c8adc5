// What is known of temporaries.
#![tactic(auto, using(csharp::proofs::CodeTrees::the_code_trees))]

ghost use Rattle.std.specs.Prelude.{◌≡◌, pos, length, None, replicate, slice_set, IfOk};
ghost use Rattle.num_api.specs.Ranges.{holds_some};
ghost use Rattle.num_api.specs.Spans.{point, range_of};
ghost use Rattle.csharp.specs.Trees.{csexpr_tree};
ghost use Rattle.mem_intervals.specs.Known.{IsKnownRange};
ghost use Rattle.mem_intervals.specs.Passing.{own_temp, is_rest, is_a_remainder, remembered_of, CutsOperand, IsKeptPassing};

use crate::passed::Passed;
use block_mem::Scalar;
use c_syntax::{Arithmetic, Check, TBinaryOp, WrongKind};
use csharp::CsExpr;
use machine_nums::meet;
use mem_temps::{Ranges, Types, allowed_range, cut_temp, nonzero_range, value_range};
use num_api::Range;
use std::alloc::{AllocError as NoMemory, Global};

/// The types of temporaries, a range for each, and what has just passed its check.
#[derive(Drop)]
pub struct Temps {
    pub alloc: Global,
    pub types: Types,
    pub ranges: Ranges,
    pub passed: Passed,
}

impl Temps {
    /// Temporaries of these types, each of which is 0.
    pub fn zeroed(alloc: Global, types: &[Scalar]) -> Result<Temps, NoMemory>
        ensures types { IfOk result (λ t. t.types ≡ types.now) }
        ensures ranges { IfOk result (λ t. t.ranges ≡ replicate (length types.now) (range_of (point (pos 0)))) }
        ensures passed { IfOk result (λ t. t.passed ≡ None) }
    {
        Ok(Temps {
            alloc,
            types: Types::of(alloc, types)?,
            ranges: Ranges::repeated(alloc, types.len(), Range::point(0))?,
            passed: Passed::none(),
        })
    }

    /// The same once more.
    pub fn copy(&self) -> Result<Temps, NoMemory>
        ensures { IfOk result (λ t. t ≡ self.now) }
    {
        Ok(Temps {
            alloc: self.alloc,
            types: self.types.copy()?,
            ranges: self.ranges.copy()?,
            passed: self.passed.copy(self.alloc)?,
        })
    }

    /// Gives a temporary another range. Nothing has just passed any more.
    pub fn put(&mut self, temp: u64, range: Range)
        ensures types { self.new.types ≡ self.old.types }
        ensures ranges { self.new.ranges ≡ slice_set self.old.ranges temp range }
        ensures passed { self.new.passed ≡ None }
    {
        self.ranges.put(temp, range);
        self.passed = Passed::none();
    }

    /// Nothing has just passed any more.
    pub fn pass_on(&mut self)
        ensures kept { (self.new.types ≡ self.old.types) × (self.new.ranges ≡ self.old.ranges) }
        ensures passed { self.new.passed ≡ None }
    {
        self.passed = Passed::none();
    }

    /// The range of an expression's value in the states of the set.
    pub fn known_range(&self, e: &CsExpr) -> Range
        ensures { IsKnownRange self.now.ranges self.now.passed (csexpr_tree e.now) result }
    {
        let range = value_range(&self.ranges, e);
        match self.passed.range_of(e) {
            Some(passed) => meet(range, passed),
            None => range,
        }
    }

    // Remembers that the expression has passed with these numbers, and tells whether there are any. A remainder is
    // checked by another number than its value.
    fn remember(&mut self, e: &CsExpr, passing: Range) -> Result<bool, NoMemory>
        ensures kept { (self.new.types ≡ self.old.types) × (self.new.ranges ≡ self.old.ranges) }
        ensures passed { IfOk result (λ some. (some ≡ holds_some passing) × (self.new.passed ≡ remembered_of (csexpr_tree e.now) passing)) }
    {
        self.passed = if is_remainder(e) {
            Passed::none()
        } else {
            Passed::of(self.alloc, e, passing)?
        };
        Ok(passing.holds_some())
    }

    // Cuts an operand that is a temporary to these numbers, and tells whether there are any.
    fn cut_operand(&mut self, e: &CsExpr, passing: Range) -> bool
        ensures kept { (self.new.types ≡ self.old.types) × (self.new.passed ≡ None) }
        ensures ranges { CutsOperand (csexpr_tree e.now) passing self.old.ranges result self.new.ranges }
    {
        let left = cut_temp(&mut self.ranges, temp_of(e), passing);
        self.passed = Passed::none();
        left && passing.holds_some()
    }

    /// Keeps what passes a check of one expression, whose value and exact result are in these ranges, and tells
    /// whether numbers are left.
    pub fn keep_passing(
        &mut self,
        check: &Check,
        e: &CsExpr,
        value: Range,
        exact: Range,
    ) -> Result<bool, NoMemory>
        ensures kept { self.new.types ≡ self.old.types }
        ensures passing { IfOk result (λ some. IsKeptPassing check.now (csexpr_tree e.now) value exact self.old.ranges some self.new.ranges self.new.passed) }
    {
        match check.kind {
            WrongKind::Overflow | WrongKind::Quotient | WrongKind::ShiftResult => {
                self.remember(e, allowed_range(exact, check))
            }
            WrongKind::ShiftAmount => Ok(self.cut_operand(e, allowed_range(value, check))),
            WrongKind::DivideByZero => Ok(self.cut_operand(e, nonzero_range(value))),
            WrongKind::AssertFailed => {
                self.passed = Passed::none();
                Ok(nonzero_range(value).holds_some())
            }
            WrongKind::NullUse
            | WrongKind::Dangling
            | WrongKind::Bounds
            | WrongKind::Access
            | WrongKind::Alignment
            | WrongKind::ReadOnly
            | WrongKind::Unrelated
            | WrongKind::NoValue
            | WrongKind::Indeterminate
            | WrongKind::Fragment => {
                self.passed = Passed::none();
                Ok(true)
            }
        }
    }
}

// The temporary that an expression is.
fn temp_of(e: &CsExpr) -> Option<u64>
    ensures { result ≡ own_temp (csexpr_tree e.now) }
{
    match e {
        CsExpr::Temp { temp } => Some(*temp),
        CsExpr::Const { .. }
        | CsExpr::Null
        | CsExpr::Address { .. }
        | CsExpr::Unary { .. }
        | CsExpr::Binary { .. }
        | CsExpr::Convert { .. } => None,
    }
}

// Whether the expression is a remainder.
fn is_remainder(e: &CsExpr) -> bool
    ensures { result ≡ is_a_remainder (csexpr_tree e.now) }
{
    match e {
        CsExpr::Binary { op, .. } => divides_with_rest(*op),
        CsExpr::Const { .. }
        | CsExpr::Null
        | CsExpr::Temp { .. }
        | CsExpr::Address { .. }
        | CsExpr::Unary { .. }
        | CsExpr::Convert { .. } => false,
    }
}

// Whether the operator is that of remainders.
fn divides_with_rest(op: TBinaryOp) -> bool
    ensures { result ≡ is_rest op }
{
    match op {
        TBinaryOp::Arithmetic(op, _) => match op {
            Arithmetic::Remainder => true,
            Arithmetic::Multiply
            | Arithmetic::Divide
            | Arithmetic::Add
            | Arithmetic::Subtract
            | Arithmetic::BitAnd
            | Arithmetic::BitXor
            | Arithmetic::BitOr => false,
        },
        TBinaryOp::Shift(_, _)
        | TBinaryOp::CompareInts(_, _)
        | TBinaryOp::ComparePointers(_)
        | TBinaryOp::PointerPlusInt { .. }
        | TBinaryOp::IntPlusPointer { .. }
        | TBinaryOp::PointerMinusInt { .. }
        | TBinaryOp::PointerMinusPointer { .. } => false,
    }
}
