// Expressions over variables.
#![tactic(auto, using(crate::proofs::Trees::nexpr_trees))]

ghost use Rattle.std.specs.Prelude.{◌≡◌, nat_eq, IfOk};
ghost use Rattle.num_api.specs.Exprs.{nexpr_tree};
ghost use Rattle.num_api.specs.Reading.{reads, op_number, is_same};

use std::alloc::{AllocError as NoMemory, Global};

/// A variable, by its number.
#[derive(Clone, Copy, Debug, PartialEq, Eq)]
pub struct Var(pub u64);

/// An operator of C on whole numbers, with no width. `Neg` and `Not` take one operand, the others two.
#[derive(Clone, Copy, PartialEq, Eq)]
pub enum NOp {
    /// The negation.
    Neg,
    /// 1 at 0, and else 0.
    Not,
    Add,
    Sub,
    Mul,
    /// The quotient, rounded toward 0. There is none by 0.
    Quot,
    /// The remainder of `Quot`, with the dividend's sign. There is none by 0.
    Rem,
    /// The product by a power of two. There is none by a negative amount.
    Shl,
    /// The quotient by a power of two, rounded down. There is none by a negative amount.
    Shr,
    And,
    Or,
    Xor,
    /// 1 or 0, as the next three.
    Eq,
    Ne,
    Lt,
    Le,
}

/// An expression. It has no value where one of its parts has none.
#[derive(Drop)]
pub enum NExpr {
    Const(i128),
    Read(Var),
    Unary(NOp, Box<NExpr>),
    Binary(NOp, Box<NExpr>, Box<NExpr>),
}

impl NExpr {
    /// The same expression once more. Its tree is the same; its boxes are others.
    pub fn copy(&self, alloc: Global) -> Result<NExpr, NoMemory>
        ensures { IfOk result (λ copy. nexpr_tree copy ≡ nexpr_tree self.now) }
    {
        match self {
            NExpr::Const(n) => Ok(NExpr::Const(*n)),
            NExpr::Read(x) => Ok(NExpr::Read(*x)),
            NExpr::Unary(op, a) => {
                let a = Box::new(alloc, a.copy(alloc)?)?;
                Ok(NExpr::Unary(*op, a))
            }
            NExpr::Binary(op, a, b) => {
                let a = Box::new(alloc, a.copy(alloc)?)?;
                let b = Box::new(alloc, b.copy(alloc)?)?;
                Ok(NExpr::Binary(*op, a, b))
            }
        }
    }

    /// Whether the two expressions have the same form and the same parts: whether their trees are one.
    pub fn is_same(&self, other: &NExpr) -> bool
        ensures { result ≡ is_same (nexpr_tree self.now) (nexpr_tree other.now) }
    {
        match self {
            NExpr::Const(n) => match other {
                NExpr::Const(m) => *n == *m,
                NExpr::Read(_) => false,
                NExpr::Unary(_, _) => false,
                NExpr::Binary(_, _, _) => false,
            },
            NExpr::Read(x) => match other {
                NExpr::Read(y) => x.0 == y.0,
                NExpr::Const(_) => false,
                NExpr::Unary(_, _) => false,
                NExpr::Binary(_, _, _) => false,
            },
            NExpr::Unary(op, a) => match other {
                NExpr::Unary(like, b) => same_operator(*op, *like) && a.is_same(b),
                NExpr::Const(_) => false,
                NExpr::Read(_) => false,
                NExpr::Binary(_, _, _) => false,
            },
            NExpr::Binary(op, a, c) => match other {
                NExpr::Binary(like, b, d) => {
                    same_operator(*op, *like) && (a.is_same(b) && c.is_same(d))
                }
                NExpr::Const(_) => false,
                NExpr::Read(_) => false,
                NExpr::Unary(_, _) => false,
            },
        }
    }

    /// Whether the expression reads the variable.
    pub fn reads(&self, x: Var) -> bool
        ensures { result ≡ reads x.0 (nexpr_tree self.now) }
    {
        match self {
            NExpr::Const(_) => false,
            NExpr::Read(y) => y.0 == x.0,
            NExpr::Unary(_, a) => a.reads(x),
            NExpr::Binary(_, a, b) => a.reads(x) || b.reads(x),
        }
    }
}

// Whether the two are one operator.
fn same_operator(op: NOp, other: NOp) -> bool
    ensures { result ≡ nat_eq (op_number op) (op_number other) }
{
    op == other
}
