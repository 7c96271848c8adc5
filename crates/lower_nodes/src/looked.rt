// Checks as statements: what each looks at goes by its kind.
#![tactic(auto, using(csharp::proofs::CodeTrees::the_code_trees))]

ghost use Rattle.std.specs.Prelude.{◌≡◌, IfOk, map};
ghost use Rattle.csharp.specs.Trees.{cscheck_tree, csexpr_tree, csstmt_tree};
ghost use Rattle.lower_trees.specs.Checking as checking;
ghost use Rattle.lower_nodes.specs.Looks.{operands_of, type_of, check_at};

use crate::steps::sequence;
use crate::terms::{one_operand, two_operands};
use block_mem::Scalar;
use c_syntax::{Check, Pos, WrongKind};
use csharp::{CsCheck, CsExpr, CsExprs, CsStmt};
use std::alloc::{AllocError as NoMemory, Global};

/// What the checks of a node look at.
#[derive(Clone, Copy)]
pub enum Looked<'a> {
    /// A place from which this type is loaded.
    Load(Scalar, &'a CsExpr),
    /// One value, or one place.
    One(&'a CsExpr),
    /// An operator on two numbers: its whole, and its right operand.
    Numbers(&'a CsExpr, &'a CsExpr),
    /// A pointer that is moved, and where it is moved to.
    Moved(&'a CsExpr, &'a CsExpr),
    /// Two values beside one another.
    Both(&'a CsExpr, &'a CsExpr),
}

fn operands(alloc: Global, looked: Looked, kind: WrongKind) -> Result<CsExprs, NoMemory>
    ensures { IfOk result (λ es. map csexpr_tree es ≡ operands_of looked.entry kind) }
{
    match looked {
        Looked::Load(_, place) => one_operand(alloc, place),
        Looked::One(e) => one_operand(alloc, e),
        Looked::Numbers(whole, right) => match kind {
            WrongKind::DivideByZero | WrongKind::ShiftAmount => one_operand(alloc, right),
            WrongKind::Overflow
            | WrongKind::Quotient
            | WrongKind::ShiftResult
            | WrongKind::Indeterminate
            | WrongKind::Fragment
            | WrongKind::NullUse
            | WrongKind::Dangling
            | WrongKind::Bounds
            | WrongKind::Access
            | WrongKind::Alignment
            | WrongKind::ReadOnly
            | WrongKind::Unrelated
            | WrongKind::NoValue
            | WrongKind::AssertFailed => one_operand(alloc, whole),
        },
        Looked::Moved(from, to) => match kind {
            WrongKind::Bounds => one_operand(alloc, to),
            WrongKind::Overflow
            | WrongKind::DivideByZero
            | WrongKind::Quotient
            | WrongKind::ShiftAmount
            | WrongKind::ShiftResult
            | WrongKind::Indeterminate
            | WrongKind::Fragment
            | WrongKind::NullUse
            | WrongKind::Dangling
            | WrongKind::Access
            | WrongKind::Alignment
            | WrongKind::ReadOnly
            | WrongKind::Unrelated
            | WrongKind::NoValue
            | WrongKind::AssertFailed => one_operand(alloc, from),
        },
        Looked::Both(left, right) => two_operands(alloc, left, right),
    }
}

fn load_type(looked: Looked, kind: WrongKind) -> Option<Scalar>
    ensures { result ≡ type_of looked.entry kind }
{
    match looked {
        Looked::Load(ty, _) => match kind {
            WrongKind::Indeterminate | WrongKind::Fragment => Some(ty),
            WrongKind::Overflow
            | WrongKind::DivideByZero
            | WrongKind::Quotient
            | WrongKind::ShiftAmount
            | WrongKind::ShiftResult
            | WrongKind::NullUse
            | WrongKind::Dangling
            | WrongKind::Bounds
            | WrongKind::Access
            | WrongKind::Alignment
            | WrongKind::ReadOnly
            | WrongKind::Unrelated
            | WrongKind::NoValue
            | WrongKind::AssertFailed => None,
        },
        Looked::One(_) | Looked::Numbers(_, _) | Looked::Moved(_, _) | Looked::Both(_, _) => None,
    }
}

fn check_of(alloc: Global, pos: Pos, looked: Looked, check: Check) -> Result<CsCheck, NoMemory>
    ensures { IfOk result (λ c. cscheck_tree c ≡ check_at pos looked.entry check) }
{
    let operands = operands(alloc, looked, check.kind)?;
    Ok(CsCheck {
        check,
        pos,
        ty: load_type(looked, check.kind),
        operands,
    })
}

/// Checks at a place, one behind the other.
pub fn checks(alloc: Global, pos: Pos, looked: Looked, list: &[Check]) -> Result<CsStmt, NoMemory>
    ensures { IfOk result (λ s. csstmt_tree s ≡ checking.checks (map (check_at pos looked.entry) list.now)) }
{
    let mut behind = CsStmt::Nothing;
    let mut left = list.len();
    while left > 0 {
        left -= 1;
        let check = check_of(alloc, pos, looked, list[left])?;
        behind = sequence(alloc, CsStmt::Checked { check }, behind)?;
    }
    Ok(behind)
}
