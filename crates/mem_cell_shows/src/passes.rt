// Checks that pass.
#![tactic(auto, using(csharp::proofs::CodeTrees::the_code_trees))]

ghost use Rattle.std.specs.Prelude.{◌≡◌, ◌∷◌, [], true, map, IfOk, IsTrue};
ghost use Rattle.c_syntax.specs.Types.{object_tree};
ghost use Rattle.c_values.specs.Looks.{Passes, judge};
ghost use Rattle.num_api.specs.Lives.{is_live};
ghost use Rattle.csharp.specs.Trees.{CsExprTree, cscheck_tree, csexpr_tree};
ghost use Rattle.csharp.specs.States.{State, look_of};
ghost use Rattle.mem_cell_exprs.specs.Known.{StandsFor};
ghost use Rattle.mem_cell_shows.specs.Changes.{AllSpare, HasExactIn, HasNumberIn, HasTruth, KeepsEach, KeepsShape, Passed, Spares, bad_base};
ghost use Rattle.mem_cell_shows.specs.Insides.{HasRoom};

use crate::assumes::keep_condition;
use crate::betweens::keep_between;
use crate::cuts::without;
use crate::insides::keep_inside;
use crate::keeps::keep_set;
use crate::shows::one;
use crate::widens::keep_exact;
use block_mem::Scalar;
use c_syntax::{Check, Object, WrongKind};
use csharp::{CsCheck, CsExpr};
use ext_int::Live;
use mem_cell_exprs::{Known, number, pointer};
use num_api::NumDomain;
use std::alloc::AllocError as NoMemory;

// Keeps the states in which an expression does not point to nothing, or to what has ended.
fn keep_without<D: NumDomain>(
    known: &mut Known<D>,
    e: &CsExpr,
    dead: bool,
) -> Result<Live, NoMemory>
    ensures shape { KeepsShape known.old known.new }
    ensures stands { IfOk result (λ live. KeepsEach D.admits known.old known.new live (λ objects s st. Spares (csexpr_tree e.now) (bad_base dead) s)) }
{
    let Some(place) = pointer(known, e)? else {
        return Ok(Live::Live);
    };
    let set = place.set.to_targets(known.alloc);
    let left = without(known.alloc, &set, dead);
    keep_set(known, e, left)
}

// Keeps the states in which no expression of a check of one or two points to nothing, or to what has ended.
fn keep_all_without<D: NumDomain>(
    known: &mut Known<D>,
    operands: &[CsExpr],
    dead: bool,
) -> Result<Live, NoMemory>
    ensures shape { KeepsShape known.old known.new }
    ensures stands { IfOk result (λ live. KeepsEach D.admits known.old known.new live (λ objects s st. AllSpare (map csexpr_tree operands.now) (bad_base dead) s)) }
{
    if operands.len() == 2 {
        return keep_two_without(known, &operands[0], &operands[1], dead);
    }
    match one(operands) {
        Some(e) => keep_without(known, e, dead),
        None => Ok(Live::Live),
    }
}

// The same of two expressions.
fn keep_two_without<D: NumDomain>(
    known: &mut Known<D>,
    left: &CsExpr,
    right: &CsExpr,
    dead: bool,
) -> Result<Live, NoMemory>
    ensures shape { KeepsShape known.old known.new }
    ensures stands { IfOk result (λ live. KeepsEach D.admits known.old known.new live
        (λ objects s st. Spares (csexpr_tree left.now) (bad_base dead) s × Spares (csexpr_tree right.now) (bad_base dead) s)) }
{
    match keep_without(known, left, dead)? {
        Live::Live => keep_without(known, right, dead),
        Live::Dead => Ok(Live::Dead),
    }
}

// Keeps the states in which the one expression is true.
fn keep_true<D: NumDomain>(known: &mut Known<D>, operands: &[CsExpr]) -> Result<Live, NoMemory>
    ensures shape { KeepsShape known.old known.new }
    ensures stands { IfOk result (λ live. KeepsEach D.admits known.old known.new live
        (λ objects s st. (e : CsExprTree) × (map csexpr_tree operands.now ≡ e ∷ []) × HasTruth e true s)) }
{
    match one(operands) {
        Some(e) => keep_condition(known, e, true),
        None => Ok(Live::Live),
    }
}

// Keeps the states in which the number of the one expression lies between two others.
fn keep_amount<D: NumDomain>(
    known: &mut Known<D>,
    operands: &[CsExpr],
    lo: i128,
    hi: i128,
) -> Result<Live, NoMemory>
    ensures shape { KeepsShape known.old known.new }
    ensures stands { IfOk result (λ live. KeepsEach D.admits known.old known.new live
        (λ objects s st. (e : CsExprTree) × (map csexpr_tree operands.now ≡ e ∷ []) × HasNumberIn e lo hi s)) }
{
    let Some(e) = one(operands) else {
        return Ok(Live::Live);
    };
    match number(known.alloc, known.types.as_slice(), e)? {
        Some(m) => keep_between(known, m, lo, hi),
        None => Ok(Live::Live),
    }
}

// Keeps the states in which the object that the one expression points into has so many bytes from there on.
fn keep_room<D: NumDomain>(
    known: &mut Known<D>,
    objects: &[Object],
    operands: &[CsExpr],
    count: u64,
) -> Result<Live, NoMemory>
    ensures shape { KeepsShape known.old known.new }
    ensures stands { IfOk result (λ live. KeepsEach D.admits known.old known.new live (λ os s st. (os ≡ map object_tree objects.now)
        × ((e : CsExprTree) × (map csexpr_tree operands.now ≡ e ∷ []) × HasRoom e count os s))) }
{
    match one(operands) {
        Some(e) => keep_inside(known, objects, e, count),
        None => Ok(Live::Live),
    }
}

// Keeps the states in which the exact result of the one expression lies between two others.
fn keep_result<D: NumDomain>(
    known: &mut Known<D>,
    operands: &[CsExpr],
    lo: i128,
    hi: i128,
) -> Result<Live, NoMemory>
    ensures shape { KeepsShape known.old known.new }
    ensures stands { IfOk result (λ live. KeepsEach D.admits known.old known.new live
        (λ objects s st. (e : CsExprTree) × (map csexpr_tree operands.now ≡ e ∷ []) × HasExactIn e lo hi s)) }
{
    match one(operands) {
        Some(e) => keep_exact(known, e, lo, hi),
        None => Ok(Live::Live),
    }
}

// Keeps the states in which an operand passes a check.
fn keep_passing<D: NumDomain>(
    known: &mut Known<D>,
    objects: &[Object],
    check: &Check,
    _ty: Option<Scalar>,
    operands: &[CsExpr],
) -> Result<Live, NoMemory>
    ensures shape { KeepsShape known.old known.new }
    ensures stands { IfOk result (λ live. KeepsEach D.admits known.old known.new live (λ os s st. (os ≡ map object_tree objects.now) × Passed os check.now _ty (map csexpr_tree operands.now) s)) }
{
    match check.kind {
        WrongKind::DivideByZero | WrongKind::AssertFailed | WrongKind::NoValue => {
            keep_true(known, operands)
        }
        WrongKind::NullUse => keep_all_without(known, operands, false),
        WrongKind::Dangling => keep_all_without(known, operands, true),
        WrongKind::ShiftAmount => keep_amount(known, operands, check.lo, check.hi),
        WrongKind::Bounds => keep_room(known, objects, operands, 0),
        WrongKind::Access => keep_room(known, objects, operands, check.size),
        WrongKind::Overflow | WrongKind::Quotient | WrongKind::ShiftResult => {
            keep_result(known, operands, check.lo, check.hi)
        }
        WrongKind::Indeterminate
        | WrongKind::Fragment
        | WrongKind::Alignment
        | WrongKind::ReadOnly
        | WrongKind::Unrelated => Ok(Live::Live),
    }
}

/// Keeps the states in which the check passes; `Dead` only where there is none. The objects are those of the program. What
/// is known of them stays.
pub fn pass<D: NumDomain>(
    known: &mut Known<D>,
    objects: &[Object],
    check: &CsCheck,
) -> Result<Live, NoMemory>
    ensures shape { KeepsShape known.old known.new }
    ensures stands { IfOk result (λ live. (s : State) → StandsFor D.admits (map object_tree objects.now) known.old s
        → judge (map object_tree objects.now) (look_of (cscheck_tree check.now) s ∷ []) ≡ Passes
        → IsTrue (is_live live) × StandsFor D.admits (map object_tree objects.now) known.new s) }
{
    keep_passing(
        known,
        objects,
        &check.check,
        check.ty,
        check.operands.as_slice(),
    )
}
