// Expressions whose nodes have a type.
#![tactic(auto, using(crate::proofs::Trees::mexpr_trees, num_api::proofs::Trees::nexpr_trees))]

ghost use Rattle.std.specs.Prelude.{◌≡◌, ℤ, List, Some, IfOk};
ghost use Rattle.c_syntax_written.specs.Integer.{HasNumber};
ghost use Rattle.num_api.specs.Exprs.{nexpr_tree};
ghost use Rattle.num_api.specs.Value.{value_of};
ghost use Rattle.machine_nums.specs.MExprs.{mexpr_tree, type_of, reads, untyped};
ghost use Rattle.machine_nums.specs.Machine.{exact_value, machine_value, OperandsFit};

use c_syntax_written::IntType;
use num_api::{NExpr, NOp, Var};
use std::alloc::{AllocError as NoMemory, Global};

/// An integer expression of C. What a node comes to is wrapped into its type.
#[derive(Drop)]
pub enum MExpr {
    Const(IntType, i128),
    Read(Var, IntType),
    Convert(IntType, Box<MExpr>),
    Unary(NOp, IntType, Box<MExpr>),
    Binary(NOp, IntType, Box<MExpr>, Box<MExpr>),
}

impl MExpr {
    /// The type of the node. Each value of the expression is one of its numbers.
    pub fn int_type(&self) -> IntType
        ensures value { result ≡ type_of (mexpr_tree self.now) }
        ensures has { (v : List ℤ) (n : ℤ) → machine_value v (mexpr_tree self.now) ≡ Some n → HasNumber result n }
    {
        self.node_type()
    }

    fn node_type(&self) -> IntType
        ensures { result ≡ type_of (mexpr_tree self.now) }
    {
        match self {
            MExpr::Const(t, _) => *t,
            MExpr::Read(_, t) => *t,
            MExpr::Convert(t, _) => *t,
            MExpr::Unary(_, t, _) => *t,
            MExpr::Binary(_, t, _, _) => *t,
        }
    }

    /// The same expression once more. Its tree is the same; its boxes are others.
    pub fn copy(&self, alloc: Global) -> Result<MExpr, NoMemory>
        ensures { IfOk result (λ copy. mexpr_tree copy ≡ mexpr_tree self.now) }
    {
        match self {
            MExpr::Const(t, n) => Ok(MExpr::Const(*t, *n)),
            MExpr::Read(x, t) => Ok(MExpr::Read(*x, *t)),
            MExpr::Convert(t, a) => {
                let a = Box::new(alloc, a.copy(alloc)?)?;
                Ok(MExpr::Convert(*t, a))
            }
            MExpr::Unary(op, t, a) => {
                let a = Box::new(alloc, a.copy(alloc)?)?;
                Ok(MExpr::Unary(*op, *t, a))
            }
            MExpr::Binary(op, t, a, b) => {
                let a = Box::new(alloc, a.copy(alloc)?)?;
                let b = Box::new(alloc, b.copy(alloc)?)?;
                Ok(MExpr::Binary(*op, *t, a, b))
            }
        }
    }

    /// Whether the expression reads the variable.
    pub fn reads(&self, x: Var) -> bool
        ensures { result ≡ reads x.0 (mexpr_tree self.now) }
    {
        match self {
            MExpr::Const(_, _) => false,
            MExpr::Read(y, _) => y.0 == x.0,
            MExpr::Convert(_, a) => a.reads(x),
            MExpr::Unary(_, _, a) => a.reads(x),
            MExpr::Binary(_, _, a, b) => a.reads(x) || b.reads(x),
        }
    }

    /// The expression without its types. Where each operand's exact result fits its type, its value is the
    /// exact result of the outermost node.
    pub fn untyped(&self, alloc: Global) -> Result<NExpr, NoMemory>
        ensures tree { IfOk result (λ e. nexpr_tree e ≡ untyped (mexpr_tree self.now)) }
        ensures value { IfOk result (λ e. (v : List ℤ) → OperandsFit v (mexpr_tree self.now)
            → value_of v (nexpr_tree e) ≡ exact_value v (mexpr_tree self.now)) }
    {
        self.without_types(alloc)
    }

    fn without_types(&self, alloc: Global) -> Result<NExpr, NoMemory>
        ensures { IfOk result (λ e. nexpr_tree e ≡ untyped (mexpr_tree self.now)) }
    {
        match self {
            MExpr::Const(_, n) => Ok(NExpr::Const(*n)),
            MExpr::Read(x, _) => Ok(NExpr::Read(*x)),
            MExpr::Convert(_, a) => a.without_types(alloc),
            MExpr::Unary(op, _, a) => {
                let a = Box::new(alloc, a.without_types(alloc)?)?;
                Ok(NExpr::Unary(*op, a))
            }
            MExpr::Binary(op, _, a, b) => {
                let a = Box::new(alloc, a.without_types(alloc)?)?;
                let b = Box::new(alloc, b.without_types(alloc)?)?;
                Ok(NExpr::Binary(*op, a, b))
            }
        }
    }
}
