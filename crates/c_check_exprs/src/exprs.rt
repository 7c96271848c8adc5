// Expressions.
#![tactic(auto)]

ghost use Rattle.c_syntax_written.specs.Written as written;
ghost use Rattle.c_syntax_written.specs.Written.{declarator_tree, expr_tree, exprs_tree, specs_tree};
ghost use Rattle.c_syntax.specs.TypedExpr.{none, texpr_tree, texprs_tree};
ghost use Rattle.c_typing.specs.Typing.{Types, TypesArgs, Valued};
ghost use Rattle.c_check_operators.specs.OperandViews.{operand_tree};
ghost use Rattle.c_check_names.specs.Views.{Answers};
ghost use Rattle.c_check_names.specs.Worlds.{world_of};
ghost use Rattle.c_check_exprs.specs.Views.{StepForm};

use crate::calls::called;
use crate::casts::{cast_to, size_of_form};
use crate::leaves::integer_constant;
use crate::types::named_type;
use crate::words::{literal, word};
use c_check_names::{TypeError, World};
use c_check_nodes::{
    arrow, assigned, binary, character, compound, conditional, indexed, member, sequenced, size_of,
    stepped, unary,
};
use c_check_operators::{Operand, operand_type, value_of};
use c_syntax::{
    AssignOp, BinaryOp, Declarator, Expr, Exprs, Pos, Specs, StepTime, StepWay, TExpr, TExprs,
    UnaryOp,
};

/// What an expression names or gives (C11 6.5). It is refused for the first of its parts, in the order of the text, that
/// has no types, and at last for what these parts have no row for.
#[cycle(walk)]
pub fn operand(world: &mut World, e: &Expr) -> Result<Operand, TypeError>
    ensures { Answers (Types (world_of world.old) (expr_tree e.now)) operand_tree (world_of world.new) result }
{
    match e {
        Expr::Word { pos, name } => word(world, *pos, name.as_slice()),
        Expr::Number { pos, constant } => integer_constant(*pos, *constant),
        Expr::Character { pos, byte } => Ok(character(*pos, *byte)),
        Expr::Strings { pos, bytes } => literal(world, *pos, bytes.as_slice()),
        Expr::Enclosed { inner, .. } => operand(world, inner),
        Expr::Index { pos, base, index } => index_form(world, *pos, base, index),
        Expr::Call { pos, name, args } => call_form(world, *pos, name.as_slice(), args),
        Expr::Dot { pos, base, member } => dot_form(world, *pos, base, member.as_slice()),
        Expr::Arrow { pos, base, member } => arrow_form(world, *pos, base, member.as_slice()),
        Expr::PostStep { pos, way, operand } => {
            step_form(world, *pos, StepTime::After, *way, operand)
        }
        Expr::PreStep { pos, way, operand } => {
            step_form(world, *pos, StepTime::Before, *way, operand)
        }
        Expr::Unary { pos, op, operand } => unary_form(world, *pos, *op, operand),
        Expr::SizeofExpr { pos, operand } => size_form(world, *pos, operand),
        Expr::SizeofType {
            pos,
            specs,
            declarator,
        } => type_size_form(world, *pos, specs, declarator),
        Expr::Cast {
            pos,
            specs,
            declarator,
            operand,
        } => cast_form(world, *pos, specs, declarator, operand),
        Expr::Binary {
            pos,
            op,
            left,
            right,
        } => binary_form(world, *pos, *op, left, right),
        Expr::Cond {
            pos,
            condition,
            then,
            otherwise,
        } => cond_form(world, *pos, condition, then, otherwise),
        Expr::Assign { pos, left, right } => assign_form(world, *pos, left, right),
        Expr::Compound {
            pos,
            op,
            left,
            right,
        } => compound_form(world, *pos, *op, left, right),
        Expr::Comma { pos, left, right } => comma_form(world, *pos, left, right),
    }
}

/// The value of an expression, refused as `operand` is.
#[cycle(walk)]
pub fn value(world: &mut World, e: &Expr) -> Result<TExpr, TypeError>
    ensures { Answers (Valued (Types (world_of world.old) (expr_tree e.now))) texpr_tree (world_of world.new) result }
{
    let x = got!(operand(world, e));
    let v = value_of(world.alloc(), x)?;
    Ok(v)
}

/// The values of arguments, from left to right.
#[cycle(walk)]
fn arguments(world: &mut World, args: &Exprs) -> Result<TExprs, TypeError>
    ensures { Answers (TypesArgs (world_of world.old) none (exprs_tree args.now)) texprs_tree (world_of world.new) result }
{
    let mut values = Vec::new(world.alloc());
    let items = args.as_slice();
    'each: for e in items {
        let v = got!(value(world, e));
        values.push(v)?;
    }
    Ok(TExprs::from_vec(values))
}

#[cycle(walk)]
fn index_form(world: &mut World, pos: Pos, base: &Expr, index: &Expr) -> Result<Operand, TypeError>
    ensures { Answers (Types (world_of world.old) (written.Index pos (expr_tree base.now) (expr_tree index.now))) operand_tree (world_of world.new) result }
{
    let a = got!(value(world, base));
    let b = got!(value(world, index));
    indexed(world.alloc(), &world.structs.defs, pos, a, b)
}

#[cycle(walk)]
fn call_form(world: &mut World, pos: Pos, name: &[u8], args: &Exprs) -> Result<Operand, TypeError>
    ensures { Answers (Types (world_of world.old) (written.Call pos name.now (exprs_tree args.now))) operand_tree (world_of world.new) result }
{
    let values = got!(arguments(world, args));
    called(world, pos, name, values)
}

#[cycle(walk)]
fn dot_form(world: &mut World, pos: Pos, base: &Expr, name: &[u8]) -> Result<Operand, TypeError>
    ensures { Answers (Types (world_of world.old) (written.Dot pos (expr_tree base.now) name.now)) operand_tree (world_of world.new) result }
{
    let x = got!(operand(world, base));
    member(world.alloc(), &world.structs, pos, name, x)
}

#[cycle(walk)]
fn arrow_form(world: &mut World, pos: Pos, base: &Expr, name: &[u8]) -> Result<Operand, TypeError>
    ensures { Answers (Types (world_of world.old) (written.Arrow pos (expr_tree base.now) name.now)) operand_tree (world_of world.new) result }
{
    let a = got!(value(world, base));
    arrow(world.alloc(), &world.structs, pos, name, a)
}

/// `++` and `--`, behind their operand or before it.
#[cycle(walk)]
fn step_form(
    world: &mut World,
    pos: Pos,
    time: StepTime,
    way: StepWay,
    e: &Expr,
) -> Result<Operand, TypeError>
    ensures { Answers (StepForm (world_of world.old) pos time way (expr_tree e.now)) operand_tree (world_of world.new) result }
{
    let x = got!(operand(world, e));
    stepped(world.alloc(), &world.structs.defs, pos, time, way, x)
}

#[cycle(walk)]
fn unary_form(world: &mut World, pos: Pos, op: UnaryOp, e: &Expr) -> Result<Operand, TypeError>
    ensures { Answers (Types (world_of world.old) (written.Unary pos op (expr_tree e.now))) operand_tree (world_of world.new) result }
{
    let x = got!(operand(world, e));
    unary(world.alloc(), &world.structs.defs, pos, op, x)
}

#[cycle(walk)]
fn size_form(world: &mut World, pos: Pos, e: &Expr) -> Result<Operand, TypeError>
    ensures { Answers (Types (world_of world.old) (written.SizeofExpr pos (expr_tree e.now))) operand_tree (world_of world.new) result }
{
    let x = got!(operand(world, e));
    let ty = operand_type(&x)?;
    size_of(world.alloc(), &world.structs.defs, pos, ty)
}

#[cycle(walk)]
fn type_size_form(
    world: &mut World,
    pos: Pos,
    specs: &Specs,
    declarator: &Declarator,
) -> Result<Operand, TypeError>
    ensures { Answers (Types (world_of world.old) (written.SizeofType pos (specs_tree specs.now) (declarator_tree declarator.now)))
        operand_tree (world_of world.new) result }
{
    let form = got!(named_type(world, pos, specs, declarator));
    size_of_form(world, pos, form)
}

#[cycle(walk)]
fn cast_form(
    world: &mut World,
    pos: Pos,
    specs: &Specs,
    declarator: &Declarator,
    e: &Expr,
) -> Result<Operand, TypeError>
    ensures { Answers (Types (world_of world.old) (written.Cast pos (specs_tree specs.now) (declarator_tree declarator.now) (expr_tree e.now)))
        operand_tree (world_of world.new) result }
{
    let form = got!(named_type(world, pos, specs, declarator));
    let v = got!(value(world, e));
    cast_to(world, pos, form, v)
}

#[cycle(walk)]
fn binary_form(
    world: &mut World,
    pos: Pos,
    op: BinaryOp,
    left: &Expr,
    right: &Expr,
) -> Result<Operand, TypeError>
    ensures { Answers (Types (world_of world.old) (written.Binary pos op (expr_tree left.now) (expr_tree right.now))) operand_tree (world_of world.new) result }
{
    let a = got!(value(world, left));
    let b = got!(value(world, right));
    binary(world.alloc(), &world.structs.defs, pos, op, a, b)
}

#[cycle(walk)]
fn cond_form(
    world: &mut World,
    pos: Pos,
    condition: &Expr,
    first: &Expr,
    second: &Expr,
) -> Result<Operand, TypeError>
    ensures { Answers (Types (world_of world.old) (written.Cond pos (expr_tree condition.now) (expr_tree first.now) (expr_tree second.now)))
        operand_tree (world_of world.new) result }
{
    let test = got!(value(world, condition));
    let a = got!(value(world, first));
    let b = got!(value(world, second));
    conditional(world.alloc(), &world.structs.defs, pos, test, a, b)
}

#[cycle(walk)]
fn assign_form(world: &mut World, pos: Pos, left: &Expr, right: &Expr) -> Result<Operand, TypeError>
    ensures { Answers (Types (world_of world.old) (written.Assign pos (expr_tree left.now) (expr_tree right.now))) operand_tree (world_of world.new) result }
{
    let x = got!(operand(world, left));
    let b = got!(value(world, right));
    assigned(world.alloc(), &world.structs.defs, pos, x, b)
}

#[cycle(walk)]
fn compound_form(
    world: &mut World,
    pos: Pos,
    op: AssignOp,
    left: &Expr,
    right: &Expr,
) -> Result<Operand, TypeError>
    ensures { Answers (Types (world_of world.old) (written.Compound pos op (expr_tree left.now) (expr_tree right.now)))
        operand_tree (world_of world.new) result }
{
    let x = got!(operand(world, left));
    let b = got!(value(world, right));
    compound(world.alloc(), &world.structs.defs, pos, op, x, b)
}

#[cycle(walk)]
fn comma_form(world: &mut World, pos: Pos, left: &Expr, right: &Expr) -> Result<Operand, TypeError>
    ensures { Answers (Types (world_of world.old) (written.Comma pos (expr_tree left.now) (expr_tree right.now))) operand_tree (world_of world.new) result }
{
    let a = got!(value(world, left));
    let b = got!(value(world, right));
    sequenced(world.alloc(), pos, a, b)
}
