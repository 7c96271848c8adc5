// What is shown of checks.
#![tactic(auto)]

ghost use Rattle.std.specs.Prelude.{◌≡◌, ◌∷◌, [], List, Some, map, option_and_then, IfOk, MatchOption};
ghost use Rattle.c_syntax.specs.Operand.{Operand};
ghost use Rattle.c_syntax.specs.Types.{ObjectTree};
ghost use Rattle.c_syntax.specs.Admission.{IsInShown, IsProper};
ghost use Rattle.c_values.specs.Accesses.{mark};
ghost use Rattle.c_values.specs.Operators.{number as number_in};
ghost use Rattle.csharp.specs.Trees.{Checked, CsExprTree, CsProgramTree, cscheck_tree, csexpr_tree};
ghost use Rattle.csharp.specs.States.{State, exact_of, of_one, of_value, value_of};
ghost use Rattle.csharp.specs.declared.expression.CsExpr.{CsExpr as CsCode};
ghost use Rattle.mem_shown.specs.Decisions.{NamesObjects};
ghost use Rattle.mem_api.specs.Given.{IsOf};
ghost use Rattle.mem_api.specs.Showing.{HasForm, looked_at};
ghost use Rattle.mem_cell_exprs.specs.Known.{StandsFor};
ghost use Rattle.mem_cell_shows.specs.Checks.{HasTruths, HasTwo, IsShown, MayBeTwo, ShowsMarks, ShowsNumber, ShowsPair, ShowsSet};

use crate::ends::Ends;
use crate::exacts::exact;
use crate::marks::{Marks, load_marks};
use crate::sets::shown_pointer;
use crate::truths::{Truths, known_truths};
use crate::values::{exact_ends, value_ends};
use block_mem::Scalar;
use c_syntax::{Pointers, Shown, WrongKind};
use csharp::{CsCheck, CsExpr};
use mem_cell_exprs::{Known, number};
use mem_shown::any_pointer;
use num_api::NumDomain;
use std::alloc::AllocError as NoMemory;

/// The one expression.
pub fn one(operands: &[CsExpr]) -> Option<&CsExpr>
    ensures { MatchOption result ((e : CsCode) → operands.now ≡ e ∷ [] → ⊥) (λ e. operands.now ≡ e.now ∷ []) }
{
    match operands {
        [e] => Some(e),
        _ => None,
    }
}

// What holds the exact result of an expression.
fn result_ends<D: NumDomain>(known: &Known<D>, e: &CsExpr) -> Result<Ends, NoMemory>
    ensures { IfOk result (λ w. ShowsNumber D.admits known.now (exact_of (csexpr_tree e.now)) w) }
{
    match exact(known.alloc, known.types.as_slice(), e)? {
        Some(m) => exact_ends(&known.nums, &m),
        None => Ok(Ends::all()),
    }
}

// What holds the number of an expression.
fn number_ends<D: NumDomain>(known: &Known<D>, e: &CsExpr) -> Result<Ends, NoMemory>
    ensures { IfOk result (λ w. ShowsNumber D.admits known.now (λ s. option_and_then number_in (value_of (csexpr_tree e.now) s)) w) }
{
    match number(known.alloc, known.types.as_slice(), e)? {
        Some(m) => value_ends(known.alloc, &known.nums, m),
        None => Ok(Ends::all()),
    }
}

// What holds the exact result at which a check looks.
fn results_shown<D: NumDomain>(known: &Known<D>, operands: &[CsExpr]) -> Result<Ends, NoMemory>
    ensures { IfOk result (λ w. ShowsNumber D.admits known.now (λ s. of_one (map csexpr_tree operands.now) (λ e. exact_of e s)) w) }
{
    match one(operands) {
        Some(e) => result_ends(known, e),
        None => Ok(Ends::all()),
    }
}

// What holds the number at which a check looks.
fn numbers_shown<D: NumDomain>(known: &Known<D>, operands: &[CsExpr]) -> Result<Ends, NoMemory>
    ensures { IfOk result (λ w. ShowsNumber D.admits known.now (λ s. of_value (map csexpr_tree operands.now) s number_in) w) }
{
    match one(operands) {
        Some(e) => number_ends(known, e),
        None => Ok(Ends::all()),
    }
}

// The truths of the one expression.
fn truths_shown<D: NumDomain>(known: &Known<D>, operands: &[CsExpr]) -> Result<Truths, NoMemory>
    ensures { IfOk result (λ found. (e : CsExprTree) → map csexpr_tree operands.now ≡ e ∷ [] → HasTruths D.admits known.now e found) }
{
    match one(operands) {
        Some(e) => known_truths(known, e),
        None => Ok(Truths::both()),
    }
}

// What the load of a type may meet, at which a check looks.
fn marks_shown<D: NumDomain>(
    known: &Known<D>,
    ty: Option<Scalar>,
    operands: &[CsExpr],
) -> Result<Marks, NoMemory>
    ensures { IfOk result (λ w. ShowsMarks D.admits known.now (λ s. of_value (map csexpr_tree operands.now) s (mark s.memory ty)) w) }
{
    match one(operands) {
        Some(e) => load_marks(known, ty, e),
        None => Ok(Marks::all()),
    }
}

// Where the one expression points.
fn set_shown<D: NumDomain>(
    known: &Known<D>,
    count: u64,
    operands: &[CsExpr],
) -> Result<Pointers, NoMemory>
    ensures { IfOk result (λ shown. ShowsSet D.admits known.now count (map csexpr_tree operands.now) shown) }
{
    match one(operands) {
        Some(e) => shown_pointer(known, count, e),
        None => Ok(any_pointer(known.alloc)),
    }
}

// Where two expressions point.
fn pair_shown<D: NumDomain>(
    known: &Known<D>,
    count: u64,
    left: &CsExpr,
    right: &CsExpr,
) -> Result<Shown, NoMemory>
    ensures { IfOk result (λ w. ShowsPair D.admits known.now count (csexpr_tree left.now) (csexpr_tree right.now) w) }
{
    let first = shown_pointer(known, count, left)?;
    let second = shown_pointer(known, count, right)?;
    Ok(Shown::Pair(first, second))
}

// Where expressions point: one, or two.
fn pointers_shown<D: NumDomain>(
    known: &Known<D>,
    count: u64,
    kind: WrongKind,
    ty: Option<Scalar>,
    operands: &[CsExpr],
) -> Result<Shown, NoMemory>
    requires kind { MayBeTwo kind }
    requires two { HasTwo kind (map csexpr_tree operands.now) }
    ensures { IfOk result (λ w. IsShown D.admits known.now count kind ty (map csexpr_tree operands.now) w) }
{
    if operands.len() == 2 {
        pair_shown(known, count, &operands[0], &operands[1])
    } else {
        Ok(Shown::One(set_shown(known, count, operands)?))
    }
}

// What is shown of a check of this kind.
fn shown_check<D: NumDomain>(
    known: &Known<D>,
    count: u64,
    kind: WrongKind,
    ty: Option<Scalar>,
    operands: &[CsExpr],
) -> Result<Shown, NoMemory>
    requires { HasTwo kind (map csexpr_tree operands.now) }
    ensures { IfOk result (λ w. IsShown D.admits known.now count kind ty (map csexpr_tree operands.now) w) }
{
    match kind {
        WrongKind::Overflow | WrongKind::Quotient | WrongKind::ShiftResult => {
            Ok(results_shown(known, operands)?.shown())
        }
        WrongKind::DivideByZero | WrongKind::ShiftAmount => {
            Ok(numbers_shown(known, operands)?.shown())
        }
        WrongKind::AssertFailed => Ok(truths_shown(known, operands)?.numbers().shown()),
        WrongKind::NoValue => Ok(truths_shown(known, operands)?.ends()),
        WrongKind::Indeterminate | WrongKind::Fragment => {
            Ok(marks_shown(known, ty, operands)?.shown())
        }
        WrongKind::NullUse | WrongKind::Dangling | WrongKind::Unrelated => {
            pointers_shown(known, count, kind, ty, operands)
        }
        WrongKind::Bounds | WrongKind::Access | WrongKind::Alignment | WrongKind::ReadOnly => {
            Ok(Shown::One(set_shown(known, count, operands)?))
        }
    }
}

/// What holds the operand of a check in each state of a set. Of pointers it shows objects that are among so many.
pub fn show<D: NumDomain>(known: &Known<D>, count: u64, check: &CsCheck) -> Result<Shown, NoMemory>
    requires { (q : CsProgramTree) × IsOf q (Checked (cscheck_tree check.now)) }
    ensures holds { IfOk result (λ w. (objects : List ObjectTree) (s : State) (x : Operand) → StandsFor D.admits objects known.now s
        → looked_at (cscheck_tree check.now) s ≡ Some x → IsInShown objects x w) }
    ensures form { IfOk result (λ w. HasForm check.now.check.kind (cscheck_tree check.now).operands w) }
    ensures names { IfOk result (λ w. NamesObjects count w) }
    ensures proper { IfOk result (λ w. IsProper w) }
{
    shown_check(
        known,
        count,
        check.check.kind,
        check.ty,
        check.operands.as_slice(),
    )
}
