// What ranges and cells show of the operand of a check.
#![tactic(auto, using(csharp::proofs::CodeTrees::the_code_trees))]

ghost use Rattle.std.specs.Prelude.{◌≡◌, ◌∷◌, ◌↔◌, false, length, ℕ, pos, List, [], Option, Some, IfOk, IfSome, IsTrue};
ghost use Rattle.c_syntax.specs.Operand.{Operand};
ghost use Rattle.c_syntax.specs.Admission.{Fails, IsInShown, IsModerate, IsProper};
ghost use Rattle.block_mem.specs.declared.types.Scalar.{Scalar};
ghost use Rattle.num_api.specs.Fold.{IsAlignment};
ghost use Rattle.csharp.specs.Formed.{AreOperandsTyped};
ghost use Rattle.csharp.specs.Trees.{Checked, CsExprTree, CsProgramTree, cscheck_tree, csexpr_tree};
ghost use Rattle.csharp.specs.States.{State};
ghost use Rattle.mem_shown.specs.Decisions.{NamesObjects};
ghost use Rattle.mem_api.specs.Given.{IsOf};
ghost use Rattle.mem_api.specs.Named.{Fixed, IsNamed, LooksAtPlace, fixed_at, ShowsOffset, ShowsOnly};
ghost use Rattle.mem_api.specs.Showing.{HasForm, looked_at};
ghost use Rattle.plain_runs.specs.Checks.{plain_suspect};
ghost use Rattle.plain_runs.specs.States.{Plain};
ghost use Rattle.mem_temps.specs.Sets.{Stands};
ghost use Rattle.mem_objects.specs.Known.{AreHeld};
ghost use Rattle.mem_intervals.specs.Marked.{IsMarked, IsShownOne};
ghost use Rattle.mem_intervals.specs.Passed.{Remembered};
ghost use Rattle.mem_intervals.specs.Placed.{LooksAtPointer, IsShownAt};
ghost use Rattle.mem_intervals.specs.Sets.{IsUnder};

use block_mem::Scalar;
use c_syntax::{Pointers, Shown, WrongKind};
use csharp::{CsCheck, CsExpr};
use mem_objects::{Cells, accessed};
use mem_places::shown_place;
use mem_temps::{Ranges, exact_range, shown_one, shown_two, value_range};
use std::alloc::{AllocError as NoMemory, Global};

// Whether the check looks at one pointer.
fn looks_at_pointer(kind: WrongKind) -> bool
    ensures { IsTrue result ↔ LooksAtPointer kind }
{
    match kind {
        WrongKind::NullUse
        | WrongKind::Dangling
        | WrongKind::Bounds
        | WrongKind::Access
        | WrongKind::Alignment
        | WrongKind::ReadOnly => true,
        WrongKind::Overflow
        | WrongKind::DivideByZero
        | WrongKind::Quotient
        | WrongKind::ShiftAmount
        | WrongKind::ShiftResult
        | WrongKind::Indeterminate
        | WrongKind::Fragment
        | WrongKind::Unrelated
        | WrongKind::NoValue
        | WrongKind::AssertFailed => false,
    }
}

// What is shown of a named place, where the check looks at one.
fn named_set(alloc: Global, kind: WrongKind, e: &CsExpr) -> Result<Option<Pointers>, NoMemory>
    requires { (q : CsProgramTree) × AreOperandsTyped q (csexpr_tree e.now) }
    ensures { IfOk result (λ shown. IsShownAt kind (csexpr_tree e.now) shown) }
{
    if looks_at_pointer(kind) {
        shown_place(alloc, e)
    } else {
        Ok(None)
    }
}

// The mark of a load of a known object, where the check looks at one.
fn marks(cells: &Cells, kind: WrongKind, ty: Option<Scalar>, e: &CsExpr) -> Option<Shown>
    ensures { IsMarked cells.now kind ty (csexpr_tree e.now) result }
{
    match kind {
        WrongKind::Indeterminate | WrongKind::Fragment => {
            let known = accessed(cells, e, ty?)?;
            Some(Shown::Marks {
                undef: known.cell.may_be_undefined,
                value: true,
                broken: false,
            })
        }
        _ => None,
    }
}

/// What holds the operand of a check in each state in which temporaries have values in these ranges, and objects what is known of them.
pub fn shown(
    alloc: Global,
    ranges: &Ranges,
    cells: &Cells,
    check: &CsCheck,
) -> Result<Shown, NoMemory>
    requires { (q : CsProgramTree) × IsOf q (Checked (cscheck_tree check.now)) }
    ensures holds { IfOk result (λ w. (q : CsProgramTree) (types : List Scalar) (s : State) (x : Operand) → Stands (length q.objects) types ranges.now s
        → AreHeld q.objects cells.now s.memory → looked_at (cscheck_tree check.now) s ≡ Some x → IsInShown q.objects x w) }
    ensures form { IfOk result (λ w. HasForm check.now.check.kind (cscheck_tree check.now).operands w) }
    ensures names { IfOk result (λ w. (q : CsProgramTree) → IsOf q (Checked (cscheck_tree check.now)) → NamesObjects (length q.objects) w) }
    ensures proper { IfOk result (λ w. IsProper w) }
    ensures plain { IfOk result (λ w. (q : CsProgramTree) (passed : Option Remembered) (copies : List (Option ℕ)) (p : Plain) (x : Operand)
        → IsOf q (Checked (cscheck_tree check.now)) → IsUnder q.objects q.temps ranges.now passed cells.now copies p
        → plain_suspect q.temps p (cscheck_tree check.now) ≡ Some false → IsInShown q.objects x w → Fails q.objects check.now.check x → ⊥) }
    ensures named { IfOk result (λ w. (q : CsProgramTree) (e : CsExprTree) (o c : ℕ) → LooksAtPlace check.now.check.kind
        → (cscheck_tree check.now).operands ≡ e ∷ [] → IsAlignment (pos c) → IsNamed o c e → ShowsOnly q.objects o c w) }
    ensures fixed { IfOk result (λ w. (e : CsExprTree) (f : Fixed) → LooksAtPlace check.now.check.kind → (cscheck_tree check.now).operands ≡ e ∷ []
        → fixed_at e ≡ Some f → IsModerate (Some f.offset) → ShowsOffset f.offset w) }
{
    let kind = check.check.kind;
    match check.operands.as_slice() {
        [e] => match marks(cells, kind, check.ty, e) {
            Some(marks) => Ok(marks),
            None => {
                let shown = shown_of_one(alloc, ranges, kind, e)?;
                Ok(shown)
            }
        },
        [left, right] => {
            let first = value_range(ranges, left);
            let second = value_range(ranges, right);
            Ok(shown_two(alloc, first, second))
        }
        _ => unreachable!(),
    }
}

// What is shown of one expression that loads no known object.
fn shown_of_one(
    alloc: Global,
    ranges: &Ranges,
    kind: WrongKind,
    e: &CsExpr,
) -> Result<Shown, NoMemory>
    requires { (q : CsProgramTree) × AreOperandsTyped q (csexpr_tree e.now) }
    ensures { IfOk result (λ w. IsShownOne ranges.now kind (csexpr_tree e.now) w) }
{
    match named_set(alloc, kind, e)? {
        Some(set) => Ok(Shown::One(set)),
        None => {
            let value = value_range(ranges, e);
            let exact = exact_range(ranges, e);
            Ok(shown_one(alloc, kind, value, exact))
        }
    }
}
