// The checks of each kind of node, as statements in the node's own order.
#![tactic(auto, using(csharp::proofs::CodeTrees::the_code_trees))]

ghost use Rattle.std.specs.Prelude.{◌≡◌, ◌++◌, ◌∷◌, [], IfOk, map, pos};
ghost use Rattle.c_syntax.specs.declared.alarm.WrongKind.TheVariants.{AssertFailed};
ghost use Rattle.c_syntax.specs.declared.operator.TUnaryOp.TheVariants as unaries;
ghost use Rattle.c_syntax.specs.declared.operator.TBinaryOp.TheVariants as binaries;
ghost use Rattle.c_syntax_written.specs.Integer.{greatest, least};
ghost use Rattle.c_layout.specs.Checks as rules;
ghost use Rattle.c_values.specs.Values.{plain_type};
ghost use Rattle.csharp.specs.Trees.{csexpr_tree, csstmt_tree};
ghost use Rattle.csharp.specs.Trees as trees;
ghost use Rattle.lower_trees.specs.Checking as checking;

use crate::looked::{Looked, checks};
use crate::terms::{binary_of, moved, unary};
use block_mem::Scalar;
use c_syntax::{
    Arithmetic, Check, Comparison, IntType, Pos, Shift, TBinaryOp, TUnaryOp, WrongKind,
};
use csharp::{CsExpr, CsStmt, copy_expr};
use std::alloc::{AllocError as NoMemory, Global};

fn plain(kind: WrongKind) -> Check
    ensures { result ≡ rules.plain_check kind }
{
    Check {
        kind,
        lo: 0,
        hi: 0,
        size: 0,
        align: 0,
    }
}

// A result is to be a number of its type.
fn in_range(kind: WrongKind, t: IntType) -> Check
    ensures { result ≡ rules.range_check kind (least t) (pos (greatest t)) }
{
    Check {
        kind,
        lo: t.least(),
        hi: i128::from(t.greatest()),
        size: 0,
        align: 0,
    }
}

// A result is to be a number of its type that is not below 0.
fn not_negative(kind: WrongKind, t: IntType) -> Check
    ensures { result ≡ rules.range_check kind (pos 0) (pos (greatest t)) }
{
    Check {
        kind,
        lo: 0,
        hi: i128::from(t.greatest()),
        size: 0,
        align: 0,
    }
}

fn amount(t: IntType) -> Check
    ensures { result ≡ rules.amount_check t }
{
    Check {
        kind: WrongKind::ShiftAmount,
        lo: 0,
        hi: i128::from(t.width() - 1),
        size: 0,
        align: 0,
    }
}

fn access(kind: WrongKind, size: u64, align: u64) -> Check
    ensures { result ≡ rules.access_check kind size align }
{
    Check {
        kind,
        lo: 0,
        hi: 0,
        size,
        align,
    }
}

fn pair(size: u64) -> Check
    ensures { result ≡ rules.pair_check size }
{
    Check {
        kind: WrongKind::Unrelated,
        lo: 0,
        hi: 0,
        size,
        align: 0,
    }
}

fn scalar_bytes(ty: Scalar) -> u64
    ensures { result ≡ rules.scalar_bytes (plain_type (Some ty)) }
{
    match ty {
        Scalar::Int(t) => u64::from(t.bytes()),
        Scalar::Pointer => 8,
    }
}

/// The checks of a load of this type from a place.
pub fn load_list(alloc: Global, at: Pos, ty: Scalar, place: &CsExpr) -> Result<CsStmt, NoMemory>
    ensures { IfOk result (λ s. csstmt_tree s ≡ checking.checks (checking.load_list at ty (csexpr_tree place.now))) }
{
    let size = scalar_bytes(ty);
    checks(
        alloc,
        at,
        Looked::Load(ty, place),
        &[
            plain(WrongKind::NullUse),
            plain(WrongKind::Dangling),
            access(WrongKind::Access, size, size),
            access(WrongKind::Alignment, size, size),
            plain(WrongKind::Indeterminate),
            plain(WrongKind::Fragment),
        ],
    )
}

/// The checks of a store of this type to a place.
pub fn store_list(alloc: Global, at: Pos, ty: Scalar, place: &CsExpr) -> Result<CsStmt, NoMemory>
    ensures { IfOk result (λ s. csstmt_tree s ≡ checking.checks (checking.store_list at ty (csexpr_tree place.now))) }
{
    let size = scalar_bytes(ty);
    write_list(alloc, at, size, size, place)
}

/// The checks of a read of so many bytes at an alignment.
pub fn read_list(
    alloc: Global,
    at: Pos,
    size: u64,
    align: u64,
    place: &CsExpr,
) -> Result<CsStmt, NoMemory>
    ensures { IfOk result (λ s. csstmt_tree s ≡ checking.checks (checking.read_list at size align (csexpr_tree place.now))) }
{
    checks(
        alloc,
        at,
        Looked::One(place),
        &[
            plain(WrongKind::NullUse),
            plain(WrongKind::Dangling),
            access(WrongKind::Access, size, align),
            access(WrongKind::Alignment, size, align),
        ],
    )
}

/// The checks of a write of so many bytes at an alignment.
pub fn write_list(
    alloc: Global,
    at: Pos,
    size: u64,
    align: u64,
    place: &CsExpr,
) -> Result<CsStmt, NoMemory>
    ensures { IfOk result (λ s. csstmt_tree s ≡ checking.checks (checking.write_list at size align (csexpr_tree place.now))) }
{
    checks(
        alloc,
        at,
        Looked::One(place),
        &[
            plain(WrongKind::NullUse),
            plain(WrongKind::Dangling),
            access(WrongKind::Access, size, align),
            access(WrongKind::Alignment, size, align),
            plain(WrongKind::ReadOnly),
        ],
    )
}

/// The checks of an operator on two operands.
pub fn binary_list(
    alloc: Global,
    at: Pos,
    op: TBinaryOp,
    left: &CsExpr,
    right: &CsExpr,
) -> Result<CsStmt, NoMemory>
    ensures { IfOk result (λ s. csstmt_tree s
        ≡ checking.checks (checking.binary_list at op (csexpr_tree left.now) (csexpr_tree right.now))) }
{
    match op {
        TBinaryOp::Arithmetic(op, t) => arithmetic_list(alloc, at, op, t, left, right),
        TBinaryOp::Shift(way, t) => shift_list(alloc, at, way, t, left, right),
        TBinaryOp::CompareInts(_, _) => Ok(CsStmt::Nothing),
        TBinaryOp::ComparePointers(comparison) => pointer_list(alloc, at, comparison, left, right),
        TBinaryOp::PointerPlusInt { .. } | TBinaryOp::PointerMinusInt { .. } => {
            let to = binary_of(alloc, op, left, right)?;
            moved_list(alloc, at, left, &to)
        }
        TBinaryOp::IntPlusPointer { .. } => {
            let to = binary_of(alloc, op, left, right)?;
            moved_list(alloc, at, right, &to)
        }
        TBinaryOp::PointerMinusPointer { element } => checks(
            alloc,
            at,
            Looked::Both(left, right),
            &[
                plain(WrongKind::NullUse),
                plain(WrongKind::Dangling),
                pair(element),
            ],
        ),
    }
}

fn arithmetic_list(
    alloc: Global,
    at: Pos,
    op: Arithmetic,
    t: IntType,
    left: &CsExpr,
    right: &CsExpr,
) -> Result<CsStmt, NoMemory>
    ensures { IfOk result (λ s. csstmt_tree s
        ≡ checking.checks (checking.binary_list at (binaries.Arithmetic op t) (csexpr_tree left.now) (csexpr_tree right.now))) }
{
    match op {
        Arithmetic::BitAnd | Arithmetic::BitXor | Arithmetic::BitOr => Ok(CsStmt::Nothing),
        Arithmetic::Multiply | Arithmetic::Add | Arithmetic::Subtract => {
            if !t.is_signed() {
                return Ok(CsStmt::Nothing);
            }
            let whole = binary_of(alloc, TBinaryOp::Arithmetic(op, t), left, right)?;
            checks(
                alloc,
                at,
                Looked::One(&whole),
                &[in_range(WrongKind::Overflow, t)],
            )
        }
        Arithmetic::Divide | Arithmetic::Remainder => {
            if !t.is_signed() {
                return checks(
                    alloc,
                    at,
                    Looked::One(right),
                    &[plain(WrongKind::DivideByZero)],
                );
            }
            let whole = binary_of(alloc, TBinaryOp::Arithmetic(op, t), left, right)?;
            checks(
                alloc,
                at,
                Looked::Numbers(&whole, right),
                &[
                    plain(WrongKind::DivideByZero),
                    in_range(WrongKind::Quotient, t),
                ],
            )
        }
    }
}

fn shift_list(
    alloc: Global,
    at: Pos,
    way: Shift,
    t: IntType,
    left: &CsExpr,
    right: &CsExpr,
) -> Result<CsStmt, NoMemory>
    ensures { IfOk result (λ s. csstmt_tree s
        ≡ checking.checks (checking.binary_list at (binaries.Shift way t) (csexpr_tree left.now) (csexpr_tree right.now))) }
{
    match way {
        Shift::Right => checks(alloc, at, Looked::One(right), &[amount(t)]),
        Shift::Left => {
            if !t.is_signed() {
                return checks(alloc, at, Looked::One(right), &[amount(t)]);
            }
            let whole = binary_of(alloc, TBinaryOp::Shift(way, t), left, right)?;
            checks(
                alloc,
                at,
                Looked::Numbers(&whole, right),
                &[amount(t), not_negative(WrongKind::ShiftResult, t)],
            )
        }
    }
}

fn pointer_list(
    alloc: Global,
    at: Pos,
    comparison: Comparison,
    left: &CsExpr,
    right: &CsExpr,
) -> Result<CsStmt, NoMemory>
    ensures { IfOk result (λ s. csstmt_tree s
        ≡ checking.checks (checking.binary_list at (binaries.ComparePointers comparison) (csexpr_tree left.now) (csexpr_tree right.now))) }
{
    match comparison {
        Comparison::Less | Comparison::Greater | Comparison::AtMost | Comparison::AtLeast => checks(
            alloc,
            at,
            Looked::Both(left, right),
            &[
                plain(WrongKind::NullUse),
                plain(WrongKind::Dangling),
                pair(1),
            ],
        ),
        Comparison::Equal | Comparison::Unequal => checks(
            alloc,
            at,
            Looked::Both(left, right),
            &[plain(WrongKind::Dangling), pair(0)],
        ),
    }
}

// The checks of a pointer that is moved.
fn moved_list(alloc: Global, at: Pos, from: &CsExpr, to: &CsExpr) -> Result<CsStmt, NoMemory>
    ensures { IfOk result (λ s. csstmt_tree s
        ≡ checking.checks (map (λ c. checking.cs_check at None (checking.move_operands (csexpr_tree from.now) (csexpr_tree to.now) c.kind) c) rules.move_checks)) }
{
    checks(
        alloc,
        at,
        Looked::Moved(from, to),
        &[
            plain(WrongKind::NullUse),
            plain(WrongKind::Dangling),
            plain(WrongKind::Bounds),
        ],
    )
}

/// The checks of a place that is moved to a member, so many bytes behind it.
pub fn move_list(alloc: Global, at: Pos, place: &CsExpr, offset: u64) -> Result<CsStmt, NoMemory>
    ensures { IfOk result (λ s. csstmt_tree s ≡ checking.checks (checking.move_list at (csexpr_tree place.now) offset)) }
{
    let from = copy_expr(alloc, place)?;
    let to = moved(alloc, from, offset)?;
    moved_list(alloc, at, place, &to)
}

/// The checks of a test of a value.
pub fn test_list(
    alloc: Global,
    at: Pos,
    ty: Option<Scalar>,
    value: &CsExpr,
) -> Result<CsStmt, NoMemory>
    ensures test { IfOk result (λ s. csstmt_tree s ≡ checking.checks (checking.test_list at ty (csexpr_tree value.now))) }
    ensures negation { IfOk result (λ s. csstmt_tree s ≡ checking.checks (checking.unary_list at unaries.Not ty (csexpr_tree value.now))) }
{
    match ty {
        Some(Scalar::Pointer) => checks(
            alloc,
            at,
            Looked::One(value),
            &[plain(WrongKind::Dangling)],
        ),
        Some(Scalar::Int(_)) | None => Ok(CsStmt::Nothing),
    }
}

/// The checks of an operator on one operand, which is of this type.
pub fn unary_list(
    alloc: Global,
    at: Pos,
    op: TUnaryOp,
    ty: Option<Scalar>,
    operand: &CsExpr,
) -> Result<CsStmt, NoMemory>
    ensures { IfOk result (λ s. csstmt_tree s ≡ checking.checks (checking.unary_list at op ty (csexpr_tree operand.now))) }
{
    match op {
        TUnaryOp::Plus(_) | TUnaryOp::Complement(_) => Ok(CsStmt::Nothing),
        TUnaryOp::Minus(t) => {
            if !t.is_signed() {
                return Ok(CsStmt::Nothing);
            }
            let copy = copy_expr(alloc, operand)?;
            let whole = unary(alloc, op, copy)?;
            checks(
                alloc,
                at,
                Looked::One(&whole),
                &[in_range(WrongKind::Overflow, t)],
            )
        }
        TUnaryOp::Not => test_list(alloc, at, ty, operand),
    }
}

/// The checks of an assertion of a value.
pub fn assert_list(
    alloc: Global,
    at: Pos,
    ty: Option<Scalar>,
    value: &CsExpr,
) -> Result<CsStmt, NoMemory>
    ensures { IfOk result (λ s. csstmt_tree s
        ≡ checking.checks (map (checking.plain_one at (csexpr_tree value.now)) (rules.test_checks (plain_type ty) ++ rules.plain_check AssertFailed ∷ []))) }
{
    match ty {
        Some(Scalar::Pointer) => checks(
            alloc,
            at,
            Looked::One(value),
            &[plain(WrongKind::Dangling), plain(WrongKind::AssertFailed)],
        ),
        Some(Scalar::Int(_)) | None => checks(
            alloc,
            at,
            Looked::One(value),
            &[plain(WrongKind::AssertFailed)],
        ),
    }
}

/// The check that a call gave a value, by the temporary that tells it.
pub fn value_list(alloc: Global, at: Pos, flag: u64) -> Result<CsStmt, NoMemory>
    ensures { IfOk result (λ s. csstmt_tree s ≡ checking.checks (checking.value_check at (trees.Temp flag) ∷ [])) }
{
    let flag = CsExpr::Temp { temp: flag };
    checks(alloc, at, Looked::One(&flag), &[plain(WrongKind::NoValue)])
}
