// Names where no call is, and string literals.
#![tactic(auto)]

ghost use Rattle.std.specs.Prelude.{◌≡◌, ◌+◌, false, IfOk, length, option_map};
ghost use Rattle.c_syntax.specs.Types.{ctype_tree};
ghost use Rattle.c_syntax.specs.TypedExpr.{texpr_tree, tlvalue_tree};
ghost use Rattle.c_syntax.specs.TypedExpr as trees;
ghost use Rattle.c_typing.specs.Names as names;
ghost use Rattle.c_typing.specs.Nodes as nodes;
ghost use Rattle.c_check_operators.specs.OperandViews.{operand_tree};
ghost use Rattle.c_check_names.specs.Views.{Answers, refusal_of};
ghost use Rattle.c_check_names.specs.Trees.{meaning_tree};
ghost use Rattle.c_check_names.specs.Worlds.{world_of};
ghost use Rattle.c_check_names.specs.Worlds as name_errors;

use crate::reserved::no_function;
use c_check_names::{Meaning, NameError, TypeError, World, is_reserved, literal_type, no_rule};
use c_check_nodes::object_named;
use c_check_operators::Operand;
use c_syntax::{CType, IntType, Op, Pos, TExpr, TLvalue};
use std::alloc::{AllocError as NoMemory, Global};

/// A name where no call is: the place of an object, or the value of an enumeration constant. A function's name and a
/// reserved one are NoRule with Op `call`; a name that nothing declares, or that no value has, is Undeclared.
pub fn word(world: &World, pos: Pos, name: &[u8]) -> Result<Operand, TypeError>
    ensures { Answers (λ out. out ≡ nodes.word (world_of world.now) pos name.now) operand_tree (world_of world.now) result }
{
    if is_reserved(name) {
        return Err(no_function(world, pos, Op::Call));
    }
    named(world, pos, world.meaning_of(name))
}

// What a name stands for, where no call is.
fn named(world: &World, pos: Pos, meaning: Option<&Meaning>) -> Result<Operand, TypeError>
    ensures { Answers (λ out. out ≡ nodes.named (world_of world.now) pos (option_map (λ m. meaning_tree m.now) meaning.entry))
        operand_tree (world_of world.now) result }
{
    match meaning {
        None => Err(TypeError::Undeclared(pos)),
        Some(meaning) => match meaning {
            Meaning::Object(n) => object_named(world.objects.as_slice(), pos, *n),
            Meaning::Parameter(_, ty, is_const) => {
                let place = parameter_place(world, pos, ty, *is_const)?;
                Ok(Operand::Place(place))
            }
            Meaning::Function(n) => {
                let function = CType::Function(*n);
                Err(no_rule(
                    world.alloc(),
                    &world.structs.defs,
                    pos,
                    Op::Call,
                    function,
                    None,
                ))
            }
            Meaning::Enumeration(value) => Ok(Operand::Value(constant_node(pos, *value))),
            Meaning::Missing(_, _) => Err(TypeError::Undeclared(pos)),
            Meaning::TypeName(_) => Err(TypeError::Undeclared(pos)),
        },
    }
}

// A parameter of a prototype, which has no object: its place has the number behind all objects.
#[tactic(auto, using(c_syntax::proofs::Trees::the_trees))]
fn parameter_place(world: &World, pos: Pos, ty: &CType, is_const: bool) -> Result<TLvalue, NoMemory>
    ensures { IfOk result (λ place. tlvalue_tree place ≡ trees.Var pos (length (world_of world.now).objects) (ctype_tree ty.now) is_const) }
{
    Ok(TLvalue::Var {
        pos,
        object: world.objects.as_slice().len() as u64,
        ty: ty.copy()?,
        is_const,
    })
}

// An enumeration constant, which is an int.
#[tactic(auto, using(c_syntax::proofs::Trees::the_trees))]
fn constant_node(pos: Pos, value: i128) -> TExpr
    ensures { texpr_tree result ≡ trees.Const pos IntType.Int value }
{
    TExpr::Const {
        pos,
        ty: IntType::Int,
        value,
    }
}

/// A string literal of these bytes, which is a new object with a zero behind them (C11 6.4.5p6). It is refused where it
/// is too large, or all objects together are. Once out of memory the program is only dropped.
pub fn literal(world: &mut World, pos: Pos, bytes: &[u8]) -> Result<Operand, TypeError>
    ensures { Answers (λ out. out ≡ nodes.literal (world_of world.old) pos bytes.now) operand_tree (world_of world.new) result }
{
    let alloc = world.alloc();
    match world.add_literal(pos, bytes) {
        Err(error) => Err(refused_by(error)),
        Ok(number) => {
            let place = literal_place(alloc, pos, number, bytes)?;
            Ok(Operand::Place(place))
        }
    }
}

// The place of the literal that is object number `object`.
#[tactic(auto, using(c_syntax::proofs::Trees::the_trees))]
fn literal_place(alloc: Global, pos: Pos, object: u64, bytes: &[u8]) -> Result<TLvalue, NoMemory>
    ensures { IfOk result (λ place. tlvalue_tree place ≡ trees.Var pos object (names.literal_type (length bytes.now + 1)) false) }
{
    let ty = literal_type(alloc, bytes.len() as u64 + 1)?;
    Ok(TLvalue::Var {
        pos,
        object,
        ty,
        is_const: false,
    })
}

/// A refusal of a name, a tag or an object as one of typing.
pub fn refused_by(error: NameError) -> TypeError
    ensures { refusal_of result ≡ name_errors.refusal_of error }
{
    match error {
        NameError::NoMemory => TypeError::NoMemory,
        NameError::Undeclared(pos) => TypeError::Undeclared(pos),
        NameError::Redeclared(pos, first) => TypeError::Redeclared(pos, first),
        NameError::ObjectTooLarge(pos, size) => TypeError::ObjectTooLarge(pos, size),
        NameError::TotalTooLarge(pos, size) => TypeError::TotalTooLarge(pos, size),
    }
}
