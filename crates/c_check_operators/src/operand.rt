// What an expression names or gives.
#![tactic(auto, using(c_syntax::proofs::Trees::the_trees))]

ghost use Rattle.std.specs.Prelude.{◌≡◌, IfOk};
ghost use Rattle.c_syntax.specs.Types.{ctype_tree};
ghost use Rattle.c_syntax.specs.Types as types;
ghost use Rattle.c_syntax.specs.TypedExpr.{texpr_tree, tlvalue_tree};
ghost use Rattle.c_syntax.specs.TypedParts.{decayed, texpr_type, tlvalue_type};
ghost use Rattle.c_typing.specs.Operands as operands;
ghost use Rattle.c_check_operators.specs.OperandViews.{operand_tree};

use c_syntax::{CType, TExpr, TLvalue, Target};
use c_syntax_written::boxed;
use std::alloc::{AllocError as NoMemory, Global};
use std::rc::Rc;

/// A place that an expression names, or a value that it gives (C11 6.3.2.1p1).
#[derive(Drop)]
pub enum Operand {
    /// `a`, `*p` or `s.m`.
    Place(TLvalue),
    /// `a + 1`
    Value(TExpr),
}

/// The value of an operand: an array in a place is the pointer to its first element, a struct its bytes
/// (C11 6.3.2.1p2 and p3).
pub fn value_of(alloc: Global, operand: Operand) -> Result<TExpr, NoMemory>
    ensures { IfOk result (λ value. texpr_tree value ≡ operands.value_of (operand_tree operand)) }
{
    match operand {
        Operand::Value(value) => Ok(value),
        Operand::Place(place) => read(alloc, place),
    }
}

// The value in a place.
fn read(alloc: Global, place: TLvalue) -> Result<TExpr, NoMemory>
    ensures { IfOk result (λ value. texpr_tree value ≡ operands.read_by (tlvalue_type (tlvalue_tree place)) (tlvalue_tree place)) }
{
    let pos = place.pos();
    match place.ty() {
        CType::Array(_, _) => {
            let place = boxed(alloc, place)?;
            Ok(TExpr::Decay { pos, place })
        }
        CType::Struct(_) => {
            let place = boxed(alloc, place)?;
            Ok(TExpr::Whole { pos, place })
        }
        CType::Void | CType::Int(_) | CType::Pointer(_) | CType::Function(_) => {
            let place = boxed(alloc, place)?;
            Ok(TExpr::Load { pos, place })
        }
    }
}

/// The type of an operand's value, which `value_of` gives, told without reading the place.
pub fn value_type(alloc: Global, operand: &Operand) -> Result<CType, NoMemory>
    ensures { IfOk result (λ ty. ctype_tree ty ≡ texpr_type (operands.value_of (operand_tree operand.now))) }
{
    match operand {
        Operand::Value(value) => value.ty(),
        Operand::Place(place) => read_type(alloc, place.ty(), place.is_const()),
    }
}

// An array in a place as the pointer to its element, and any other type as it is.
fn read_type(alloc: Global, ty: &CType, is_const: bool) -> Result<CType, NoMemory>
    ensures { IfOk result (λ read. ctype_tree read ≡ decayed (ctype_tree ty.now) is_const) }
{
    match ty {
        CType::Array(of, _) => {
            let element = of.ty.copy()?;
            pointer_to(alloc, element, of.is_const || is_const)
        }
        CType::Void | CType::Int(_) | CType::Pointer(_) | CType::Struct(_) | CType::Function(_) =>
            ty.copy(),
    }
}

/// The type of a pointer to this type, which is const or not.
pub fn pointer_to(alloc: Global, ty: CType, is_const: bool) -> Result<CType, NoMemory>
    ensures { IfOk result (λ pointer. ctype_tree pointer ≡ types.Pointer (ctype_tree ty) is_const) }
{
    let target = Target { ty, is_const };
    Ok(CType::Pointer(Rc::new(alloc, target)?))
}

/// The type of an operand that is not read, as under `sizeof`.
pub fn operand_type(operand: &Operand) -> Result<CType, NoMemory>
    ensures { IfOk result (λ ty. ctype_tree ty ≡ operands.operand_type (operand_tree operand.now)) }
{
    match operand {
        Operand::Place(place) => place.ty().copy(),
        Operand::Value(value) => value.ty(),
    }
}
