// Typed expressions and places are given parts that are shared, from the leaves up. A node with more
// than one part has a function of its own.
#![tactic(auto, using(crate::proofs::SharedExprTrees::shared_expr_trees))]

ghost use Rattle.std.specs.Prelude.{◌≡◌, IfOk};
ghost use Rattle.c_syntax.specs.TypedExpr.{texpr_tree, texprs_tree, tlvalue_tree};
ghost use Rattle.c_syntax.specs.TypedExpr as trees;
ghost use Rattle.c_syntax.specs.Types.{ctype_tree};
ghost use Rattle.c_machine_trees.specs.Shapes.{HasOneOperand, HasOperands, IsAssignment, IsLeaf, IsUseOfPlace};
ghost use Rattle.c_machine_trees.specs.Expressions.{expr_tree, exprs_tree, place_tree};

use crate::expression::{SharedExpr, SharedExprs, SharedPlace};
use c_syntax::{CType, DerefKind, Extent, Pos, TBinaryOp, TExpr, TExprs, TLvalue};
use std::alloc::{AllocError as NoMemory, Global};
use std::rc::Rc;

/// The expression with parts that are shared.
#[tactic(auto, using(c_syntax::proofs::TypedExprTrees::typed_expr_trees))]
#[cycle(shares)]
pub fn share_expr(alloc: Global, expr: &TExpr) -> Result<SharedExpr, NoMemory>
    ensures { IfOk result (λ node. expr_tree node ≡ texpr_tree expr.now) }
{
    match expr {
        TExpr::Const { .. } => share_leaf(expr),
        TExpr::Any { .. } => share_leaf(expr),
        TExpr::Null { .. } => share_leaf(expr),
        TExpr::Load { .. } => share_use(alloc, expr),
        TExpr::AddressOf { .. } => share_use(alloc, expr),
        TExpr::Decay { .. } => share_use(alloc, expr),
        TExpr::Whole { .. } => share_use(alloc, expr),
        TExpr::Step { .. } => share_use(alloc, expr),
        TExpr::Unary { .. } => share_operation(alloc, expr),
        TExpr::Convert { .. } => share_operation(alloc, expr),
        TExpr::Assume { .. } => share_operation(alloc, expr),
        TExpr::Assert { .. } => share_operation(alloc, expr),
        TExpr::Binary { .. } => share_operations(alloc, expr),
        TExpr::And { .. } => share_operations(alloc, expr),
        TExpr::Or { .. } => share_operations(alloc, expr),
        TExpr::Comma { .. } => share_operations(alloc, expr),
        TExpr::Cond { .. } => share_operations(alloc, expr),
        TExpr::Call {
            pos,
            function,
            ty,
            used,
            args,
        } => share_call(alloc, *pos, *function, ty, *used, args),
        TExpr::Assign { .. } => share_assignment(alloc, expr),
        TExpr::AssignStruct { .. } => share_assignment(alloc, expr),
        TExpr::Compound { .. } => share_assignment(alloc, expr),
    }
}

// An expression that holds no other and no place.
#[tactic(auto, using(c_syntax::proofs::TypedExprTrees::typed_expr_trees, crate::proofs::SharedExprTrees::shared_expr_trees))]
fn share_leaf(expr: &TExpr) -> Result<SharedExpr, NoMemory>
    requires { IsLeaf (texpr_tree expr.now) }
    ensures { IfOk result (λ node. expr_tree node ≡ texpr_tree expr.now) }
{
    match expr {
        TExpr::Const { pos, ty, value } => Ok(SharedExpr::Const {
            pos: *pos,
            ty: *ty,
            value: *value,
        }),
        TExpr::Any { pos, ty } => Ok(SharedExpr::Any { pos: *pos, ty: *ty }),
        TExpr::Null { pos, ty } => Ok(SharedExpr::Null {
            pos: *pos,
            ty: ty.copy()?,
        }),
        _ => unreachable!(),
    }
}

// An expression that holds one place.
#[tactic(auto, unfolding(c_syntax::specs::TypedExpr::texpr_tree, crate::specs::Expressions::expr_tree))]
#[cycle(shares)]
fn share_use(alloc: Global, expr: &TExpr) -> Result<SharedExpr, NoMemory>
    requires { IsUseOfPlace (texpr_tree expr.now) }
    ensures { IfOk result (λ node. expr_tree node ≡ texpr_tree expr.now) }
{
    match expr {
        TExpr::Load { pos, place } => Ok(SharedExpr::Load {
            pos: *pos,
            place: shared_place(alloc, place)?,
        }),
        TExpr::AddressOf { pos, place } => Ok(SharedExpr::AddressOf {
            pos: *pos,
            place: shared_place(alloc, place)?,
        }),
        TExpr::Decay { pos, place } => Ok(SharedExpr::Decay {
            pos: *pos,
            place: shared_place(alloc, place)?,
        }),
        TExpr::Whole { pos, place } => Ok(SharedExpr::Whole {
            pos: *pos,
            place: shared_place(alloc, place)?,
        }),
        TExpr::Step {
            pos,
            time,
            way,
            stride,
            place,
        } => Ok(SharedExpr::Step {
            pos: *pos,
            time: *time,
            way: *way,
            stride: *stride,
            place: shared_place(alloc, place)?,
        }),
        _ => unreachable!(),
    }
}

// An expression that holds one other.
#[tactic(auto, unfolding(c_syntax::specs::TypedExpr::texpr_tree, crate::specs::Expressions::expr_tree))]
#[cycle(shares)]
fn share_operation(alloc: Global, expr: &TExpr) -> Result<SharedExpr, NoMemory>
    requires { HasOneOperand (texpr_tree expr.now) }
    ensures { IfOk result (λ node. expr_tree node ≡ texpr_tree expr.now) }
{
    match expr {
        TExpr::Unary { pos, op, operand } => Ok(SharedExpr::Unary {
            pos: *pos,
            op: *op,
            operand: shared_expr(alloc, operand)?,
        }),
        TExpr::Convert { pos, ty, operand } => share_conversion(alloc, *pos, ty, operand),
        TExpr::Assume { pos, operand } => Ok(SharedExpr::Assume {
            pos: *pos,
            operand: shared_expr(alloc, operand)?,
        }),
        TExpr::Assert { pos, operand } => Ok(SharedExpr::Assert {
            pos: *pos,
            operand: shared_expr(alloc, operand)?,
        }),
        _ => unreachable!(),
    }
}

// An expression that holds several others.
#[tactic(auto, using(c_syntax::proofs::TypedExprTrees::typed_expr_trees))]
#[cycle(shares)]
fn share_operations(alloc: Global, expr: &TExpr) -> Result<SharedExpr, NoMemory>
    requires { HasOperands (texpr_tree expr.now) }
    ensures { IfOk result (λ node. expr_tree node ≡ texpr_tree expr.now) }
{
    match expr {
        TExpr::Binary {
            pos,
            op,
            left,
            right,
        } => share_binary(alloc, *pos, *op, left, right),
        TExpr::And { pos, left, right } => share_and(alloc, *pos, left, right),
        TExpr::Or { pos, left, right } => share_or(alloc, *pos, left, right),
        TExpr::Comma { pos, left, right } => share_comma(alloc, *pos, left, right),
        TExpr::Cond {
            pos,
            ty,
            condition,
            then,
            otherwise,
        } => share_choice(alloc, *pos, ty, condition, then, otherwise),
        _ => unreachable!(),
    }
}

// An expression that holds a place and what goes there.
#[tactic(auto, using(c_syntax::proofs::TypedExprTrees::typed_expr_trees))]
#[cycle(shares)]
fn share_assignment(alloc: Global, expr: &TExpr) -> Result<SharedExpr, NoMemory>
    requires { IsAssignment (texpr_tree expr.now) }
    ensures { IfOk result (λ node. expr_tree node ≡ texpr_tree expr.now) }
{
    match expr {
        TExpr::Assign { pos, place, value } => share_value(alloc, *pos, place, value),
        TExpr::AssignStruct {
            pos,
            extent,
            place,
            source,
        } => share_struct(alloc, *pos, *extent, place, source),
        TExpr::Compound {
            pos,
            op,
            place,
            value,
        } => share_compound(alloc, *pos, *op, place, value),
        _ => unreachable!(),
    }
}

/// The place with parts that are shared.
#[tactic(auto, using(c_syntax::proofs::TypedExprTrees::typed_expr_trees, crate::proofs::SharedExprTrees::shared_expr_trees))]
#[cycle(shares)]
pub fn share_place(alloc: Global, place: &TLvalue) -> Result<SharedPlace, NoMemory>
    ensures { IfOk result (λ node. place_tree node ≡ tlvalue_tree place.now) }
{
    match place {
        TLvalue::Var {
            pos,
            object,
            ty,
            is_const,
        } => Ok(SharedPlace::Var {
            pos: *pos,
            object: *object,
            ty: ty.copy()?,
            is_const: *is_const,
        }),
        TLvalue::Deref {
            pos,
            kind,
            ty,
            is_const,
            pointer,
        } => share_deref(alloc, *pos, *kind, ty, *is_const, pointer),
        TLvalue::Member {
            pos,
            member,
            offset,
            ty,
            is_const,
            place,
        } => share_member(alloc, *pos, *member, *offset, ty, *is_const, place),
    }
}

#[cycle(shares)]
fn share_deref(
    alloc: Global,
    pos: Pos,
    kind: DerefKind,
    ty: &CType,
    is_const: bool,
    pointer: &TExpr,
) -> Result<SharedPlace, NoMemory>
    ensures { IfOk result (λ node. place_tree node ≡ trees.Deref pos kind (ctype_tree ty.now) is_const (texpr_tree pointer.now)) }
{
    Ok(SharedPlace::Deref {
        pos,
        kind,
        ty: ty.copy()?,
        is_const,
        pointer: shared_expr(alloc, pointer)?,
    })
}

#[cycle(shares)]
fn share_member(
    alloc: Global,
    pos: Pos,
    member: u64,
    offset: u64,
    ty: &CType,
    is_const: bool,
    place: &TLvalue,
) -> Result<SharedPlace, NoMemory>
    ensures { IfOk result (λ node. place_tree node ≡ trees.Member pos member offset (ctype_tree ty.now) is_const (tlvalue_tree place.now)) }
{
    Ok(SharedPlace::Member {
        pos,
        member,
        offset,
        ty: ty.copy()?,
        is_const,
        place: shared_place(alloc, place)?,
    })
}

#[cycle(shares)]
fn share_call(
    alloc: Global,
    pos: Pos,
    function: u64,
    ty: &CType,
    used: bool,
    args: &TExprs,
) -> Result<SharedExpr, NoMemory>
    ensures { IfOk result (λ node. expr_tree node ≡ trees.Call pos function (ctype_tree ty.now) used (texprs_tree args.now)) }
{
    Ok(SharedExpr::Call {
        pos,
        function,
        ty: ty.copy()?,
        used,
        args: share_exprs(alloc, args)?,
    })
}

/// The expressions, each shared.
#[tactic(auto, using(c_syntax::proofs::TypedExprTrees::typed_expr_trees, c_syntax::proofs::Sizes::the_typed_sizes, crate::proofs::SharedExprTrees::shared_expr_trees))]
#[cycle(shares)]
pub fn share_exprs(alloc: Global, exprs: &TExprs) -> Result<SharedExprs, NoMemory>
    ensures { IfOk result (λ list. exprs_tree list ≡ texprs_tree exprs.now) }
{
    let mut items = Vec::new(alloc);
    for item in exprs.as_slice() {
        items.push(shared_expr(alloc, item)?)?;
    }
    Ok(SharedExprs::from_vec(items))
}

/// A share of the expression.
#[cycle(shares)]
pub fn shared_expr(alloc: Global, expr: &TExpr) -> Result<Rc<SharedExpr>, NoMemory>
    ensures { IfOk result (λ share. expr_tree share.value ≡ texpr_tree expr.now) }
{
    let node = share_expr(alloc, expr)?;
    Ok(Rc::new(alloc, node)?)
}

#[cycle(shares)]
fn shared_place(alloc: Global, place: &TLvalue) -> Result<Rc<SharedPlace>, NoMemory>
    ensures { IfOk result (λ share. place_tree share.value ≡ tlvalue_tree place.now) }
{
    let node = share_place(alloc, place)?;
    Ok(Rc::new(alloc, node)?)
}

#[cycle(shares)]
fn share_conversion(
    alloc: Global,
    pos: Pos,
    ty: &CType,
    operand: &TExpr,
) -> Result<SharedExpr, NoMemory>
    ensures { IfOk result (λ node. expr_tree node ≡ trees.Convert pos (ctype_tree ty.now) (texpr_tree operand.now)) }
{
    Ok(SharedExpr::Convert {
        pos,
        ty: ty.copy()?,
        operand: shared_expr(alloc, operand)?,
    })
}

#[cycle(shares)]
fn share_binary(
    alloc: Global,
    pos: Pos,
    op: TBinaryOp,
    left: &TExpr,
    right: &TExpr,
) -> Result<SharedExpr, NoMemory>
    ensures { IfOk result (λ node. expr_tree node ≡ trees.Binary pos op (texpr_tree left.now) (texpr_tree right.now)) }
{
    Ok(SharedExpr::Binary {
        pos,
        op,
        left: shared_expr(alloc, left)?,
        right: shared_expr(alloc, right)?,
    })
}

#[cycle(shares)]
fn share_and(alloc: Global, pos: Pos, left: &TExpr, right: &TExpr) -> Result<SharedExpr, NoMemory>
    ensures { IfOk result (λ node. expr_tree node ≡ trees.And pos (texpr_tree left.now) (texpr_tree right.now)) }
{
    Ok(SharedExpr::And {
        pos,
        left: shared_expr(alloc, left)?,
        right: shared_expr(alloc, right)?,
    })
}

#[cycle(shares)]
fn share_or(alloc: Global, pos: Pos, left: &TExpr, right: &TExpr) -> Result<SharedExpr, NoMemory>
    ensures { IfOk result (λ node. expr_tree node ≡ trees.Or pos (texpr_tree left.now) (texpr_tree right.now)) }
{
    Ok(SharedExpr::Or {
        pos,
        left: shared_expr(alloc, left)?,
        right: shared_expr(alloc, right)?,
    })
}

#[cycle(shares)]
fn share_comma(alloc: Global, pos: Pos, left: &TExpr, right: &TExpr) -> Result<SharedExpr, NoMemory>
    ensures { IfOk result (λ node. expr_tree node ≡ trees.Comma pos (texpr_tree left.now) (texpr_tree right.now)) }
{
    Ok(SharedExpr::Comma {
        pos,
        left: shared_expr(alloc, left)?,
        right: shared_expr(alloc, right)?,
    })
}

#[cycle(shares)]
fn share_value(
    alloc: Global,
    pos: Pos,
    place: &TLvalue,
    value: &TExpr,
) -> Result<SharedExpr, NoMemory>
    ensures { IfOk result (λ node. expr_tree node ≡ trees.Assign pos (tlvalue_tree place.now) (texpr_tree value.now)) }
{
    Ok(SharedExpr::Assign {
        pos,
        place: shared_place(alloc, place)?,
        value: shared_expr(alloc, value)?,
    })
}

#[cycle(shares)]
fn share_struct(
    alloc: Global,
    pos: Pos,
    extent: Extent,
    place: &TLvalue,
    source: &TExpr,
) -> Result<SharedExpr, NoMemory>
    ensures { IfOk result (λ node. expr_tree node ≡ trees.AssignStruct pos extent (tlvalue_tree place.now) (texpr_tree source.now)) }
{
    Ok(SharedExpr::AssignStruct {
        pos,
        extent,
        place: shared_place(alloc, place)?,
        source: shared_expr(alloc, source)?,
    })
}

#[cycle(shares)]
fn share_compound(
    alloc: Global,
    pos: Pos,
    op: TBinaryOp,
    place: &TLvalue,
    value: &TExpr,
) -> Result<SharedExpr, NoMemory>
    ensures { IfOk result (λ node. expr_tree node ≡ trees.Compound pos op (tlvalue_tree place.now) (texpr_tree value.now)) }
{
    Ok(SharedExpr::Compound {
        pos,
        op,
        place: shared_place(alloc, place)?,
        value: shared_expr(alloc, value)?,
    })
}

#[cycle(shares)]
fn share_choice(
    alloc: Global,
    pos: Pos,
    ty: &CType,
    condition: &TExpr,
    then: &TExpr,
    otherwise: &TExpr,
) -> Result<SharedExpr, NoMemory>
    ensures { IfOk result (λ node. expr_tree node ≡ trees.Cond pos (ctype_tree ty.now)
        (texpr_tree condition.now) (texpr_tree then.now) (texpr_tree otherwise.now)) }
{
    Ok(SharedExpr::Cond {
        pos,
        ty: ty.copy()?,
        condition: shared_expr(alloc, condition)?,
        then: shared_expr(alloc, then)?,
        otherwise: shared_expr(alloc, otherwise)?,
    })
}
