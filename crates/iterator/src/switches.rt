// Sets that enter a switch.
#![tactic(auto, using(csharp::proofs::CodeTrees::the_code_trees))]

ghost use Rattle.std.specs.Prelude.{◌≡◌, ◌⊎◌, ℕ, ℤ, true, false, slice_get, IfOk, OnOk, Option, Some, None};
ghost use Rattle.std.specs.Ordering.{int_eq};
ghost use Rattle.c_syntax_written.specs.declared.int_type.IntType.{IntType as Integer};
ghost use Rattle.block_mem.specs.declared.types.Value.TheVariants as values;
ghost use Rattle.csharp.specs.Trees.{CsExprTree, CsProgramTree, CsStmtTrees, csexpr_tree, csprogram_tree, csstmts_from, more, none};
ghost use Rattle.csharp.specs.Trees as code;
ghost use Rattle.csharp.specs.States.{State, value_of};
ghost use Rattle.csharp.specs.Actions as acts;
ghost use Rattle.csharp.specs.Formed.{type_in};
ghost use Rattle.csharp.specs.Meaning as meaning;
ghost use Rattle.mem_api.specs.Given.{IsOf};
ghost use Rattle.c_values.specs.Typed as c_values_typed;
ghost use Rattle.walk_owes.specs.Owes.{HasTruth, InSome, SomeFor};
ghost use Rattle.walk_owes.specs.Exactly.{HeadAlone, IsBare, PartedAlone};
ghost use Rattle.walk_owes.specs.Items.{HasHead, HeadsFor, Parted};
ghost use Rattle.walk_owes.specs.Heads.{IsHead};
ghost use Rattle.walk_owes.specs.Walkable.{equals};
ghost use Rattle.walk_owes.specs.declared.marks.Mark.{Mark as Marks};
ghost use Rattle.csharp.specs.Trees.{csstmt_tree};

use block_mem::Scalar;
use c_syntax::{Comparison, IntType, TBinaryOp, TUnaryOp};
use csharp::{CsExpr, CsProgram, CsStmt, copy_expr};
use ext_int::Live;
use mem_api::MemDomain;
use std::alloc::{AllocError as NoMemory, Global};
use walk_kept::has_default;
use walk_owes::{Head, Mark};

/// Sets that enter items at their marks, and the one of the states that enter at none.
#[derive(Drop)]
pub struct Parts<M> {
    pub heads: Vec<Head<M>>,
    pub left: Option<M>,
}

/// The type of an expression's value, where it has one.
pub fn value_type(program: &CsProgram, value: &CsExpr) -> Option<Scalar>
    ensures { result ≡ type_in (csprogram_tree program.now) (csexpr_tree value.now) }
{
    match value {
        CsExpr::Const { ty, .. } | CsExpr::Convert { ty, .. } => Some(Scalar::Int(*ty)),
        CsExpr::Null | CsExpr::Address { .. } => Some(Scalar::Pointer),
        CsExpr::Temp { temp } => temp_type(program, *temp),
        CsExpr::Unary { op, .. } => Some(unary_type(*op)),
        CsExpr::Binary { op, .. } => Some(binary_type(*op)),
    }
}

fn temp_type(program: &CsProgram, temp: u64) -> Option<Scalar>
    ensures { result ≡ slice_get (csprogram_tree program.now).temps temp }
{
    program.temps.as_slice().get(temp as usize).copied()
}

fn unary_type(op: TUnaryOp) -> Scalar
    ensures { result ≡ c_values_typed.unary_type op }
{
    match op {
        TUnaryOp::Plus(ty) | TUnaryOp::Minus(ty) | TUnaryOp::Complement(ty) => Scalar::Int(ty),
        TUnaryOp::Not => Scalar::Int(IntType::Int),
    }
}

fn binary_type(op: TBinaryOp) -> Scalar
    ensures { result ≡ c_values_typed.binary_type op }
{
    match op {
        TBinaryOp::Arithmetic(_, ty) | TBinaryOp::Shift(_, ty) => Scalar::Int(ty),
        TBinaryOp::CompareInts(..) | TBinaryOp::ComparePointers(_) => Scalar::Int(IntType::Int),
        TBinaryOp::PointerPlusInt { .. }
        | TBinaryOp::IntPlusPointer { .. }
        | TBinaryOp::PointerMinusInt { .. } => Scalar::Pointer,
        TBinaryOp::PointerMinusPointer { .. } => Scalar::Int(IntType::Long),
    }
}

/// Parts the states before a switch by its cases, in their order.
pub fn part_cases<M: MemDomain>(
    alloc: Global,
    program: &CsProgram,
    value: &CsExpr,
    ty: IntType,
    names: &[u64],
    items: &[CsStmt],
    state: M,
) -> Result<Parts<M>, NoMemory>
    requires is_for { M.is_for state (csprogram_tree program.now) }
    requires scope { IsOf (csprogram_tree program.now) (code.Scope names.now none) }
    requires cases { (n : ℤ) → meaning.has (meaning.AtCase n) (csstmts_from items.now) ≡ true
        → IsOf (csprogram_tree program.now) (code.Assume (equals ty (csexpr_tree value.now) n)) }
    ensures heads_for { IfOk result (λ p. HeadsFor M.is_for (csprogram_tree program.now) p.heads.items) }
    ensures left_for { IfOk result (λ p. SomeFor M.is_for (csprogram_tree program.now) p.left) }
    ensures no_labels { IfOk result (λ p. (l : ℕ) → IsHead p.heads.items l → ⊥) }
    ensures parted { IfOk result (λ p. Parted M.stands (csprogram_tree program.now) (csexpr_tree value.now) names.now (csstmts_from items.now) none state p.heads.items p.left) }
    ensures alone { IfOk result (λ p. PartedAlone M.sharp (csprogram_tree program.now) (csexpr_tree value.now) names.now (csstmts_from items.now) none state p.heads.items p.left) }
{
    let mut heads = Vec::new(alloc);
    let mut left = Some(state);
    let mut rest = items;
    while let Some((item, more)) = rest.split_first() {
        left = part_item(alloc, program, value, ty, names, item, left, &mut heads)?;
        rest = more;
    }
    Ok(Parts { heads, left })
}

fn part_item<M: MemDomain>(
    alloc: Global,
    program: &CsProgram,
    value: &CsExpr,
    ty: IntType,
    names: &[u64],
    item: &CsStmt,
    left: Option<M>,
    heads: &mut Vec<Head<M>>,
) -> Result<Option<M>, NoMemory>
    requires left_for { SomeFor M.is_for (csprogram_tree program.now) left }
    requires heads_for { HeadsFor M.is_for (csprogram_tree program.now) heads.old.items }
    requires no_labels { (l : ℕ) → IsHead heads.old.items l → ⊥ }
    requires scope { IsOf (csprogram_tree program.now) (code.Scope names.now none) }
    requires case { (n : ℤ) → meaning.is_mark (meaning.AtCase n) (csstmt_tree item.now) ≡ true
        → IsOf (csprogram_tree program.now) (code.Assume (equals ty (csexpr_tree value.now) n)) }
    ensures left_for { IfOk result (λ m. SomeFor M.is_for (csprogram_tree program.now) m) }
    ensures heads_for { OnOk result (HeadsFor M.is_for (csprogram_tree program.now) heads.new.items) }
    ensures no_labels { OnOk result ((l : ℕ) → IsHead heads.new.items l → ⊥) }
    ensures parted { IfOk result (λ m. (all rest : CsStmtTrees) (before : _)
        → Parted M.stands (csprogram_tree program.now) (csexpr_tree value.now) names.now all (more (csstmt_tree item.now) rest) before heads.old.items left
        → Parted M.stands (csprogram_tree program.now) (csexpr_tree value.now) names.now all rest before heads.new.items m) }
    ensures alone { IfOk result (λ m. (all rest : CsStmtTrees) (before : _)
        → PartedAlone M.sharp (csprogram_tree program.now) (csexpr_tree value.now) names.now all (more (csstmt_tree item.now) rest) before heads.old.items left
        → PartedAlone M.sharp (csprogram_tree program.now) (csexpr_tree value.now) names.now all rest before heads.new.items m) }
{
    match item {
        CsStmt::Case { value: number } => {
            let mark = Mark::Case(*number);
            let less = part_case(alloc, program, value, ty, names, *number, mark, left, heads)?;
            Ok(less)
        }
        _ => Ok(left),
    }
}

// The states of one case enter there, and the others are left.
fn part_case<M: MemDomain>(
    alloc: Global,
    program: &CsProgram,
    value: &CsExpr,
    ty: IntType,
    names: &[u64],
    number: i128,
    mark: Mark,
    left: Option<M>,
    heads: &mut Vec<Head<M>>,
) -> Result<Option<M>, NoMemory>
    requires left_for { SomeFor M.is_for (csprogram_tree program.now) left }
    requires heads_for { HeadsFor M.is_for (csprogram_tree program.now) heads.old.items }
    requires no_labels { (l : ℕ) → IsHead heads.old.items l → ⊥ }
    requires mark { mark ≡ Mark.Case number }
    requires scope { IsOf (csprogram_tree program.now) (code.Scope names.now none) }
    requires given { IsOf (csprogram_tree program.now) (code.Assume (equals ty (csexpr_tree value.now) number)) }
    ensures left_for { IfOk result (λ m. SomeFor M.is_for (csprogram_tree program.now) m) }
    ensures heads_for { OnOk result (HeadsFor M.is_for (csprogram_tree program.now) heads.new.items) }
    ensures no_labels { OnOk result ((l : ℕ) → IsHead heads.new.items l → ⊥) }
    ensures old { OnOk result ((at : Marks) (s : State) → HasHead M.stands heads.old.items at s → HasHead M.stands heads.new.items at s) }
    ensures hit { OnOk result ((s : State) (t : Integer) (k : ℤ) → InSome M.stands left s → value_of (csexpr_tree value.now) s ≡ Some (values.Int t k)
        → int_eq k number ≡ true → acts.are_free names.now s ≡ true
        → HasHead M.stands heads.new.items (Mark.Case number) (acts.enter (csprogram_tree program.now).objects names.now s)) }
    ensures miss { IfOk result (λ m. (s : State) (t : Integer) (k : ℤ) → InSome M.stands left s → value_of (csexpr_tree value.now) s ≡ Some (values.Int t k)
        → int_eq k number ≡ false → InSome M.stands m s) }
    ensures gone { IfOk result (λ m. left ≡ None → (m ≡ None) × (heads.new.items ≡ heads.old.items)) }
    ensures hit_alone { IfOk result (λ m. (s : State) (t : Integer) (k : ℤ) → InSome M.sharp left s → value_of (csexpr_tree value.now) s ≡ Some (values.Int t k)
        → int_eq k number ≡ true → ((at : Marks) → IsBare heads.old.items at)
        → (m ≡ None) × (acts.are_free names.now s ≡ true → HeadAlone M.sharp heads.new.items (Mark.Case number) (acts.enter (csprogram_tree program.now).objects names.now s))
        × ((other : Marks) → IsBare heads.new.items other ⊎ (other ≡ Mark.Case number))) }
    ensures miss_alone { IfOk result (λ m. (s : State) (t : Integer) (k : ℤ) → InSome M.sharp left s → value_of (csexpr_tree value.now) s ≡ Some (values.Int t k)
        → int_eq k number ≡ false → InSome M.sharp m s × (heads.new.items ≡ heads.old.items)) }
{
    let Some(mut state) = left else {
        return Ok(None);
    };
    let test = equality(alloc, value, ty, number)?;
    let hit = state.copy()?;
    enter_case(program, &test, names, mark, hit, heads)?;
    match state.assume(&test, false)? {
        Live::Live => Ok(Some(state)),
        Live::Dead => Ok(None),
    }
}

// Whether a value is this number.
fn equality(alloc: Global, value: &CsExpr, ty: IntType, number: i128) -> Result<CsExpr, NoMemory>
    ensures { IfOk result (λ e. csexpr_tree e ≡ equals ty (csexpr_tree value.now) number) }
{
    let left = Box::new(alloc, copy_expr(alloc, value)?)?;
    let right = Box::new(alloc, CsExpr::Const { ty, value: number })?;
    Ok(CsExpr::Binary {
        op: TBinaryOp::CompareInts(Comparison::Equal, ty),
        left,
        right,
    })
}

// What enters at a case.
fn enter_case<M: MemDomain>(
    program: &CsProgram,
    test: &CsExpr,
    names: &[u64],
    mark: Mark,
    mut state: M,
    heads: &mut Vec<Head<M>>,
) -> Result<(), NoMemory>
    requires is_for { M.is_for state (csprogram_tree program.now) }
    requires heads_for { HeadsFor M.is_for (csprogram_tree program.now) heads.old.items }
    requires no_labels { (l : ℕ) → IsHead heads.old.items l → ⊥ }
    requires no_label { (l : ℕ) → mark ≡ Mark.Label l → ⊥ }
    requires scope { IsOf (csprogram_tree program.now) (code.Scope names.now none) }
    requires given { IsOf (csprogram_tree program.now) (code.Assume (csexpr_tree test.now)) }
    ensures heads_for { OnOk result (HeadsFor M.is_for (csprogram_tree program.now) heads.new.items) }
    ensures no_labels { OnOk result ((l : ℕ) → IsHead heads.new.items l → ⊥) }
    ensures old { OnOk result ((at : Marks) (s : State) → HasHead M.stands heads.old.items at s → HasHead M.stands heads.new.items at s) }
    ensures hit { OnOk result ((s : State) → M.stands state s → HasTruth (csexpr_tree test.now) true s → acts.are_free names.now s ≡ true
        → HasHead M.stands heads.new.items mark (acts.enter (csprogram_tree program.now).objects names.now s)) }
    ensures hit_alone { OnOk result ((s : State) → M.sharp state s → HasTruth (csexpr_tree test.now) true s → ((at : Marks) → IsBare heads.old.items at)
        → (acts.are_free names.now s ≡ true → HeadAlone M.sharp heads.new.items mark (acts.enter (csprogram_tree program.now).objects names.now s))
        × ((other : Marks) → IsBare heads.new.items other ⊎ (other ≡ mark))) }
    ensures miss_alone { OnOk result ((s : State) → M.sharp state s → HasTruth (csexpr_tree test.now) false s → heads.new.items ≡ heads.old.items) }
{
    match state.assume(test, true)? {
        Live::Live => {
            enter_at(program, names, mark, state, heads)?;
            Ok(())
        }
        Live::Dead => Ok(()),
    }
}

// What enters at a mark.
fn enter_at<M: MemDomain>(
    program: &CsProgram,
    names: &[u64],
    mark: Mark,
    mut state: M,
    heads: &mut Vec<Head<M>>,
) -> Result<(), NoMemory>
    requires is_for { M.is_for state (csprogram_tree program.now) }
    requires heads_for { HeadsFor M.is_for (csprogram_tree program.now) heads.old.items }
    requires no_labels { (l : ℕ) → IsHead heads.old.items l → ⊥ }
    requires no_label { (l : ℕ) → mark ≡ Mark.Label l → ⊥ }
    requires scope { IsOf (csprogram_tree program.now) (code.Scope names.now none) }
    ensures heads_for { OnOk result (HeadsFor M.is_for (csprogram_tree program.now) heads.new.items) }
    ensures no_labels { OnOk result ((l : ℕ) → IsHead heads.new.items l → ⊥) }
    ensures old { OnOk result ((at : Marks) (s : State) → HasHead M.stands heads.old.items at s → HasHead M.stands heads.new.items at s) }
    ensures entered { OnOk result ((s : State) → M.stands state s → acts.are_free names.now s ≡ true
        → HasHead M.stands heads.new.items mark (acts.enter (csprogram_tree program.now).objects names.now s)) }
    ensures alone { OnOk result ((s : State) → M.sharp state s → ((at : Marks) → IsBare heads.old.items at)
        → (acts.are_free names.now s ≡ true → HeadAlone M.sharp heads.new.items mark (acts.enter (csprogram_tree program.now).objects names.now s))
        × ((other : Marks) → IsBare heads.new.items other ⊎ (other ≡ mark))) }
{
    state.enter(names)?;
    heads.push(Head {
        mark,
        state: Some(state),
    })?;
    Ok(())
}

/// Lets what is left enter at the default, where there is one.
pub fn enter_default<M: MemDomain>(
    program: &CsProgram,
    names: &[u64],
    items: &[CsStmt],
    parts: Parts<M>,
) -> Result<Parts<M>, NoMemory>
    requires heads_for { HeadsFor M.is_for (csprogram_tree program.now) parts.heads.items }
    requires left_for { SomeFor M.is_for (csprogram_tree program.now) parts.left }
    requires no_labels { (l : ℕ) → IsHead parts.heads.items l → ⊥ }
    requires scope { IsOf (csprogram_tree program.now) (code.Scope names.now none) }
    ensures heads_for { IfOk result (λ p. HeadsFor M.is_for (csprogram_tree program.now) p.heads.items) }
    ensures left_for { IfOk result (λ p. SomeFor M.is_for (csprogram_tree program.now) p.left) }
    ensures no_labels { IfOk result (λ p. (l : ℕ) → IsHead p.heads.items l → ⊥) }
    ensures old { IfOk result (λ p. (mark : Marks) (s : State) → HasHead M.stands parts.heads.items mark s → HasHead M.stands p.heads.items mark s) }
    ensures entered { IfOk result (λ p. meaning.has meaning.AtDefault (csstmts_from items.now) ≡ true → (s : State) → InSome M.stands parts.left s
        → acts.are_free names.now s ≡ true → HasHead M.stands p.heads.items Mark.Default (acts.enter (csprogram_tree program.now).objects names.now s)) }
    ensures behind { IfOk result (λ p. meaning.has meaning.AtDefault (csstmts_from items.now) ≡ false → (s : State) → InSome M.stands parts.left s
        → InSome M.stands p.left s) }
    ensures alone { IfOk result (λ p. meaning.has meaning.AtDefault (csstmts_from items.now) ≡ true → (s : State) → InSome M.sharp parts.left s
        → ((at : Marks) → IsBare parts.heads.items at) → (p.left ≡ None)
        × (acts.are_free names.now s ≡ true → HeadAlone M.sharp p.heads.items Mark.Default (acts.enter (csprogram_tree program.now).objects names.now s))
        × ((other : Marks) → IsBare p.heads.items other ⊎ (other ≡ Mark.Default))) }
    ensures stays { IfOk result (λ p. meaning.has meaning.AtDefault (csstmts_from items.now) ≡ false → (p.heads.items ≡ parts.heads.items) × (p.left ≡ parts.left)) }
    ensures gone { IfOk result (λ p. parts.left ≡ None → (p.heads.items ≡ parts.heads.items) × (p.left ≡ None)) }
{
    if !has_default(items) {
        return Ok(parts);
    }
    let Parts { mut heads, left } = parts;
    match left {
        None => Ok(Parts { heads, left: None }),
        Some(state) => {
            enter_at(program, names, Mark::Default, state, &mut heads)?;
            Ok(Parts { heads, left: None })
        }
    }
}
