// Multiples that expressions are by their form.
#![tactic(auto, using(crate::proofs::Trees::mexpr_trees))]

ghost use Rattle.std.specs.Prelude.{◌≡◌, ◌*ℤ◌, ◌≤ℤ◌, ℤ, pos, List, Some, true, false};
ghost use Rattle.c_syntax_written.specs.declared.int_type.IntType.{IntType as CType};
ghost use Rattle.num_api.specs.Fold.{IsAlignment};
ghost use Rattle.num_api.specs.Residues.{InResidue, IsResidue, IsFoldResidue, IsMultiple};
ghost use Rattle.machine_nums.specs.MExprs.{Const, mexpr_tree};
ghost use Rattle.machine_nums.specs.Machine.{exact_value, machine_value};
ghost use Rattle.machine_nums.specs.Fold.{IsFold};

use crate::MExpr;
use num_api::{NOp, Residue, ValueDomain};
use residues::Class;

// Whether the number is a multiple of the other one.
fn is_multiple(n: i128, m: i128) -> bool
    requires { pos 1 ≤ℤ m }
    ensures yes { result ≡ true → IsMultiple m n }
    ensures no { result ≡ false → IsMultiple m n → ⊥ }
{
    n.rem_euclid(m) == 0
}

// The greatest of 1, 2, 4 and 8 of which the number is a multiple.
fn alignment(n: i128) -> i128
    ensures one { IsAlignment result }
    ensures divides { IsMultiple result n }
    ensures greatest { (c : ℤ) → IsAlignment c → IsMultiple c n → IsMultiple c result }
{
    if is_multiple(n, 8) {
        8
    } else if is_multiple(n, 4) {
        4
    } else if is_multiple(n, 2) {
        2
    } else {
        1
    }
}

// The lesser of two of these numbers: what divides both divides it.
fn lesser(a: i128, b: i128) -> i128
    requires first { IsAlignment a }
    requires second { IsAlignment b }
    ensures one { IsAlignment result }
    ensures divides_first { IsMultiple result a }
    ensures divides_second { IsMultiple result b }
    ensures greatest { (c : ℤ) → IsMultiple c a → IsMultiple c b → IsMultiple c result }
{
    if a <= b { a } else { b }
}

// The greater of two of these numbers: a multiple of both.
fn greater(a: i128, b: i128) -> i128
    requires first { IsAlignment a }
    requires second { IsAlignment b }
    ensures one { IsAlignment result }
    ensures divides { (n m : ℤ) → IsMultiple a n → IsMultiple b m → IsMultiple result (n *ℤ m) }
    ensures first { IsMultiple a result }
    ensures second { IsMultiple b result }
{
    if a <= b { b } else { a }
}

// Of a constant its alignment, and else 1.
fn factor(e: &MExpr) -> i128
    ensures one { IsAlignment result }
    ensures divides { (v : List ℤ) (n : ℤ) → machine_value v (mexpr_tree e.now) ≡ Some n → IsMultiple result n }
    ensures constant { (t : CType) (n c : ℤ) → mexpr_tree e.now ≡ Const t n → IsAlignment c → IsMultiple c n → IsMultiple c result }
{
    match e {
        MExpr::Const(_, n) => alignment(*n),
        MExpr::Read(_, _) => 1,
        MExpr::Convert(_, _) => 1,
        MExpr::Unary(_, _, _) => 1,
        MExpr::Binary(_, _, _, _) => 1,
    }
}

// One of 1, 2, 4 and 8 of which the exact result is a multiple by the form of the expression.
pub fn fold_of(e: &MExpr) -> i128
    ensures one { IsAlignment result }
    ensures divides { (v : List ℤ) (n : ℤ) → exact_value v (mexpr_tree e.now) ≡ Some n → IsMultiple result n }
    ensures greatest { (c : ℤ) → IsAlignment c → IsFold c (mexpr_tree e.now) → IsMultiple c result }
{
    match e {
        MExpr::Const(_, n) => alignment(*n),
        MExpr::Read(_, _) => 1,
        MExpr::Convert(_, a) => fold_of(a),
        MExpr::Unary(_, _, _) => 1,
        MExpr::Binary(op, _, a, b) => match op {
            NOp::Add => lesser(fold_of(a), fold_of(b)),
            NOp::Mul => greater(factor(a), factor(b)),
            _ => 1,
        },
    }
}

// The numbers of the class that are multiples of c; where there is none, 0.
pub fn multiples(r: Residue, c: i128) -> Residue
    requires proper { IsResidue r }
    requires one { IsAlignment c }
    ensures proper { IsResidue result }
    ensures holds { (n : ℤ) → InResidue r n → IsMultiple c n → InResidue result n }
    ensures fold { IsFoldResidue c result }
{
    let all = Class::new(Residue { rem: 0, modulus: c });
    match all.meet(&Class::new(r)) {
        Some(both) => both.residue(),
        None => Residue { rem: 0, modulus: 0 },
    }
}
