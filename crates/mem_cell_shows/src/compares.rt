// Comparisons of pointers.
#![tactic(auto)]

ghost use Rattle.std.specs.Prelude.{◌≡◌, ℤ, List, Some, true, IfOk, IsTrue, option_map};
ghost use Rattle.pointsets.specs.Targets.{has_base};
ghost use Rattle.c_values.specs.Numbers.{compares};
ghost use Rattle.num_api.specs.Value.{truth as number_truth};
ghost use Rattle.machine_nums.specs.MExprs.{mexpr_tree};
ghost use Rattle.machine_nums.specs.Machine.{machine_value};
ghost use Rattle.csharp.specs.Trees.{csexpr_tree};
ghost use Rattle.mem_cell_shows.specs.Changes.{KeepsEach, KeepsShape};
ghost use Rattle.mem_cell_shows.specs.Compares.{AreApart, AreOrdered, AreRelated, AreSame, HaveOneObject, IsCompared, relation_of};

use crate::cuts::{common, is_null, only_object, without_null};
use crate::keeps::{keep_number, keep_set};
use crate::nodes::binary_node;
use c_syntax::{Comparison, IntType};
use csharp::CsExpr;
use ext_int::Live;
use machine_nums::{MExpr, comparison_operator};
use mem_cell_exprs::{Known, pointer};
use num_api::NumDomain;
use pointsets::{Base, Targets};
use std::alloc::{AllocError as NoMemory, Global};

/// What a comparison with a truth says of two pointers: that they are the same, that they are not, or how they stand in
/// order.
#[derive(Clone, Copy, PartialEq, Eq)]
pub enum Relation {
    Same,
    Apart,
    Ordered,
}

// What a comparison with a truth says.
fn said_by(c: Comparison, truth: bool) -> Relation
    ensures { result ≡ relation_of c truth }
{
    match c {
        Comparison::Equal => if truth {
            Relation::Same
        } else {
            Relation::Apart
        },
        Comparison::Unequal => if truth {
            Relation::Apart
        } else {
            Relation::Same
        },
        Comparison::Less | Comparison::Greater | Comparison::AtMost | Comparison::AtLeast => {
            Relation::Ordered
        }
    }
}

/// A comparison of two numbers.
pub fn compared(alloc: Global, c: Comparison, a: MExpr, b: MExpr) -> Result<MExpr, NoMemory>
    ensures { IfOk result (λ m. (v : List ℤ) (x y : ℤ) → machine_value v (mexpr_tree a) ≡ Some x → machine_value v (mexpr_tree b) ≡ Some y
        → machine_value v (mexpr_tree m) ≡ Some (number_truth (compares c x y))) }
{
    let way = comparison_operator(c);
    if way.is_turned {
        binary_node(alloc, way.op, IntType::Int, b, a)
    } else {
        binary_node(alloc, way.op, IntType::Int, a, b)
    }
}

// Whether both sets have one object, the same, and nothing else.
fn have_one_object(set: &Targets, other: &Targets) -> bool
    ensures { IsTrue result → HaveOneObject set.now other.now }
{
    let Some(first) = only_object(set) else {
        return false;
    };
    let Some(second) = only_object(other) else {
        return false;
    };
    first == second
}

// Keeps the states in which numbers that are the offsets of two pointers compare so.
fn keep_order<D: NumDomain>(
    known: &mut Known<D>,
    c: Comparison,
    a: Option<MExpr>,
    b: Option<MExpr>,
    truth: bool,
) -> Result<Live, NoMemory>
    ensures shape { KeepsShape known.old known.new }
    ensures stands { IfOk result (λ live. KeepsEach D.admits known.old known.new live
        (λ objects s st. AreOrdered c (option_map mexpr_tree a) (option_map mexpr_tree b) truth st.v)) }
{
    let Some(first) = a else {
        return Ok(Live::Live);
    };
    let Some(second) = b else {
        return Ok(Live::Live);
    };
    let m = compared(known.alloc, c, first, second)?;
    keep_number(known, &m, truth)
}

// Whether both sets have a base.
fn both_hold(set: &Targets, other: &Targets, b: Base) -> bool
    ensures { has_base set.now b ≡ true → has_base other.now b ≡ true → IsTrue result }
{
    set.holds(b) && other.holds(b)
}

// Keeps the states in which two pointers are the same: what both may point to.
fn keep_same<D: NumDomain>(
    known: &mut Known<D>,
    left: &CsExpr,
    right: &CsExpr,
    set: &Targets,
    other: &Targets,
) -> Result<Live, NoMemory>
    ensures shape { KeepsShape known.old known.new }
    ensures stands { IfOk result (λ live. KeepsEach D.admits known.old known.new live
        (λ objects s st. AreSame (csexpr_tree left.now) (csexpr_tree right.now) set.now other.now s)) }
{
    let null = both_hold(set, other, Base::Null);
    let dead = both_hold(set, other, Base::Dead);
    let both = common(known.alloc, set, other, null, dead);
    match keep_set(known, left, both.copy())? {
        Live::Live => keep_set(known, right, both),
        Live::Dead => Ok(Live::Dead),
    }
}

// Keeps the states in which two pointers are not the same: beside one that is null the other is not.
fn keep_apart<D: NumDomain>(
    known: &mut Known<D>,
    left: &CsExpr,
    right: &CsExpr,
    set: &Targets,
    other: &Targets,
) -> Result<Live, NoMemory>
    ensures shape { KeepsShape known.old known.new }
    ensures stands { IfOk result (λ live. KeepsEach D.admits known.old known.new live
        (λ objects s st. AreApart (csexpr_tree left.now) (csexpr_tree right.now) set.now other.now s)) }
{
    if is_null(other) {
        return keep_set(known, left, without_null(known.alloc, set));
    }
    if is_null(set) {
        return keep_set(known, right, without_null(known.alloc, other));
    }
    Ok(Live::Live)
}

// What is left where two pointers with these sets have a relation.
fn keep_relation<D: NumDomain>(
    known: &mut Known<D>,
    how: Relation,
    left: &CsExpr,
    right: &CsExpr,
    set: &Targets,
    other: &Targets,
) -> Result<Live, NoMemory>
    ensures shape { KeepsShape known.old known.new }
    ensures stands { IfOk result (λ live. KeepsEach D.admits known.old known.new live
        (λ objects s st. AreRelated how (csexpr_tree left.now) (csexpr_tree right.now) set.now other.now s)) }
{
    match how {
        Relation::Same => keep_same(known, left, right, set, other),
        Relation::Apart => keep_apart(known, left, right, set, other),
        Relation::Ordered => Ok(Live::Live),
    }
}

/// Keeps the states in which a comparison of two pointers has a truth.
pub fn keep_compared<D: NumDomain>(
    known: &mut Known<D>,
    c: Comparison,
    left: &CsExpr,
    right: &CsExpr,
    truth: bool,
) -> Result<Live, NoMemory>
    ensures shape { KeepsShape known.old known.new }
    ensures stands { IfOk result (λ live. KeepsEach D.admits known.old known.new live
        (λ objects s st. IsCompared c (csexpr_tree left.now) (csexpr_tree right.now) truth s)) }
{
    let Some(a) = pointer(known, left)? else {
        return Ok(Live::Live);
    };
    let Some(b) = pointer(known, right)? else {
        return Ok(Live::Live);
    };
    let set = a.set.to_targets(known.alloc);
    let other = b.set.to_targets(known.alloc);
    if have_one_object(&set, &other) {
        return keep_order(known, c, a.offset, b.offset, truth);
    }
    keep_relation(known, said_by(c, truth), left, right, &set, &other)
}
