// Places that may be changed, and the nodes that change them.
#![tactic(auto, using(c_syntax::proofs::Trees::the_trees))]

ghost use Rattle.std.specs.Prelude.{◌≡◌, IfErr, IfOk};
ghost use Rattle.c_syntax.specs.TypedExpr.{texpr_tree, tlvalue_tree};
ghost use Rattle.c_syntax.specs.TypedExpr as trees;
ghost use Rattle.c_syntax.specs.Types.{ctype_tree};
ghost use Rattle.c_layout.specs.WellTyped as well_typed;
ghost use Rattle.c_typing.specs.Nodes as nodes;
ghost use Rattle.c_typing.specs.Operands as operands;
ghost use Rattle.c_typing.specs.World as worlds;
ghost use Rattle.c_typing.specs.World.{World};
ghost use Rattle.c_check_operators.specs.OperandViews.{operand_tree};
ghost use Rattle.c_check_operators.specs.StoreViews.{stored_tree};

use c_check_names::TypeError;
use c_check_operators::{Operand, Stored};
use c_syntax::{CType, Extent, Pos, StepTime, StepWay, Stride, TBinaryOp, TExpr, TLvalue};
use c_syntax_written::boxed;
use std::alloc::{AllocError as NoMemory, Global};

/// The place of an operand that may be changed, or NotLvalue.
pub(crate) fn modifiable(pos: Pos, operand: Operand) -> Result<TLvalue, TypeError>
    ensures place { IfOk result (λ place. (node : trees.TLvalueTree → trees.TExprTree) (w : World)
        → nodes.on_modifiable pos (operand_tree operand) node w ≡ worlds.Typed (operands.Value (node (tlvalue_tree place))) w) }
    ensures error { IfErr result (λ error. error ≡ TypeError.NotLvalue pos) }
    ensures refused { IfErr result (λ error. (node : trees.TLvalueTree → trees.TExprTree) (w : World)
        → nodes.on_modifiable pos (operand_tree operand) node w ≡ worlds.Refused (worlds.NotLvalue pos)) }
{
    match operand {
        Operand::Value(_) => Err(TypeError::NotLvalue(pos)),
        Operand::Place(place) => if is_modifiable(&place) {
            Ok(place)
        } else {
            Err(TypeError::NotLvalue(pos))
        },
    }
}

// Whether it is neither const nor an array (C11 6.3.2.1p1).
fn is_modifiable(place: &TLvalue) -> bool
    ensures { result ≡ nodes.is_modifiable (tlvalue_tree place.now) }
{
    !place.is_const() && !is_array(place.ty())
}

fn is_array(ty: &CType) -> bool
    ensures { result ≡ well_typed.is_array (ctype_tree ty.now) }
{
    match ty {
        CType::Array(_, _) => true,
        CType::Void | CType::Int(_) | CType::Pointer(_) | CType::Struct(_) | CType::Function(_) =>
            false,
    }
}

/// The store of a scalar or the copy of a struct.
pub(crate) fn store_node(
    alloc: Global,
    pos: Pos,
    stored: Stored,
    place: TLvalue,
) -> Result<TExpr, NoMemory>
    ensures { IfOk result (λ node. texpr_tree node ≡ nodes.store_node pos (stored_tree stored) (tlvalue_tree place)) }
{
    match stored {
        Stored::Scalar(value) => assign_node(alloc, pos, place, value),
        Stored::Copied(extent, source) => copy_node(alloc, pos, extent, place, source),
    }
}

fn assign_node(alloc: Global, pos: Pos, place: TLvalue, value: TExpr) -> Result<TExpr, NoMemory>
    ensures { IfOk result (λ node. texpr_tree node ≡ trees.Assign pos (tlvalue_tree place) (texpr_tree value)) }
{
    let place = boxed(alloc, place)?;
    let value = boxed(alloc, value)?;
    Ok(TExpr::Assign { pos, place, value })
}

fn copy_node(
    alloc: Global,
    pos: Pos,
    extent: Extent,
    place: TLvalue,
    source: TExpr,
) -> Result<TExpr, NoMemory>
    ensures { IfOk result (λ node. texpr_tree node ≡ trees.AssignStruct pos extent (tlvalue_tree place) (texpr_tree source)) }
{
    let place = boxed(alloc, place)?;
    let source = boxed(alloc, source)?;
    Ok(TExpr::AssignStruct {
        pos,
        extent,
        place,
        source,
    })
}

pub(crate) fn compound_node(
    alloc: Global,
    pos: Pos,
    op: TBinaryOp,
    place: TLvalue,
    value: TExpr,
) -> Result<TExpr, NoMemory>
    ensures { IfOk result (λ node. texpr_tree node ≡ trees.Compound pos op (tlvalue_tree place) (texpr_tree value)) }
{
    let place = boxed(alloc, place)?;
    let value = boxed(alloc, value)?;
    Ok(TExpr::Compound {
        pos,
        op,
        place,
        value,
    })
}

pub(crate) fn step_node(
    alloc: Global,
    pos: Pos,
    time: StepTime,
    way: StepWay,
    stride: Stride,
    place: TLvalue,
) -> Result<TExpr, NoMemory>
    ensures { IfOk result (λ node. texpr_tree node ≡ trees.Step pos time way stride (tlvalue_tree place)) }
{
    let place = boxed(alloc, place)?;
    Ok(TExpr::Step {
        pos,
        time,
        way,
        stride,
        place,
    })
}
