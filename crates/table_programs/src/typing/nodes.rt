// Words that make a node of the operands before them.
#![tactic(auto)]

use crate::typing::calls::call;
use crate::typing::letters::form_of;
use crate::typing::rows::{AT, Fault, Stack};
use crate::typing::spelled;
use c_check_exprs::{input_read, told};
use c_check_names::World;
use c_check_nodes::{
    arrow, assigned, binary, cast, compound, conditional, indexed, member, object_named, sequenced,
    size_of, stepped, tested, unary,
};
use c_check_operators::{Operand, operand_type};
use c_syntax::{CType, IntType, StepTime, StepWay, TExprs};

/// The node of a word.
pub fn node(stack: &mut Stack, word: &str) -> Result<Operand, Fault> {
    if let Some(op) = spelled::unary(word) {
        let operand = stack.popped()?;
        Ok(unary(stack.alloc, &stack.structs.defs, AT, op, operand)?)
    } else if let Some(op) = spelled::binary(word) {
        let (left, right) = stack.pair()?;
        Ok(binary(stack.alloc, &stack.structs.defs, AT, op, left, right)?)
    } else if let Some(op) = spelled::compound(word) {
        let (left, right) = stack.stored()?;
        Ok(compound(stack.alloc, &stack.structs.defs, AT, op, left, right)?)
    } else {
        other(stack, word)
    }
}

fn other(stack: &mut Stack, word: &str) -> Result<Operand, Fault> {
    match word {
        "val" => Ok(Operand::Value(stack.value()?)),
        "," => {
            let (left, right) = stack.pair()?;
            Ok(sequenced(stack.alloc, AT, left, right)?)
        }
        "[]" => {
            let (base, index) = stack.pair()?;
            Ok(indexed(stack.alloc, &stack.structs.defs, AT, base, index)?)
        }
        "=" => {
            let (place, value) = stack.stored()?;
            Ok(assigned(stack.alloc, &stack.structs.defs, AT, place, value)?)
        }
        "?:" => choice(stack),
        "test" => condition(stack),
        "++x" => step(stack, StepTime::Before, StepWay::Up),
        "x++" => step(stack, StepTime::After, StepWay::Up),
        "--x" => step(stack, StepTime::Before, StepWay::Down),
        "x--" => step(stack, StepTime::After, StepWay::Down),
        "sizeof" => size(stack),
        _ => named(stack, word),
    }
}

fn choice(stack: &mut Stack) -> Result<Operand, Fault> {
    let (then, otherwise) = stack.pair()?;
    let test = stack.value()?;
    Ok(conditional(stack.alloc, &stack.structs.defs, AT, test, then, otherwise)?)
}

fn condition(stack: &mut Stack) -> Result<Operand, Fault> {
    let value = stack.value()?;
    let test = tested(stack.alloc, &stack.structs.defs, AT, value)?;
    Ok(Operand::Value(test))
}

fn step(stack: &mut Stack, time: StepTime, way: StepWay) -> Result<Operand, Fault> {
    let operand = stack.popped()?;
    Ok(stepped(stack.alloc, &stack.structs.defs, AT, time, way, operand)?)
}

fn size(stack: &mut Stack) -> Result<Operand, Fault> {
    let ty = popped_type(stack)?;
    Ok(size_of(stack.alloc, &stack.structs.defs, AT, ty)?)
}

fn popped_type(stack: &mut Stack) -> Result<CType, Fault> {
    let operand = stack.popped()?;
    type_of(&operand)
}

fn type_of(operand: &Operand) -> Result<CType, Fault> {
    Ok(operand_type(operand)?)
}

// Words that have a name or a type in them.
fn named(stack: &mut Stack, word: &str) -> Result<Operand, Fault> {
    if let Some(name) = word.strip_prefix("->") {
        let pointer = stack.value()?;
        Ok(arrow(stack.alloc, &stack.structs, AT, name.as_bytes(), pointer)?)
    } else if let Some(name) = word.strip_prefix(".") {
        let operand = stack.popped()?;
        Ok(member(stack.alloc, &stack.structs, AT, name.as_bytes(), operand)?)
    } else if let Some(letters) = word.strip_prefix("(") {
        converted(stack, letters)
    } else if let Some(count) = word.strip_prefix("assume/") {
        assumption(stack, count)
    } else if let Some(count) = word.strip_prefix("any/") {
        input(stack, count)
    } else if let Some(number) = word.strip_prefix("#") {
        numbered(number)
    } else {
        call(stack, word)
    }
}

// The object of this number, where there is none.
fn numbered(number: &str) -> Result<Operand, Fault> {
    let Ok(number) = number.parse::<u64>() else {
        return Err(Fault::NoRow);
    };
    Ok(object_named(&[], AT, number)?)
}

fn converted(stack: &mut Stack, letters: &str) -> Result<Operand, Fault> {
    let Some(letters) = letters.strip_suffix(")") else {
        return Err(Fault::NoRow);
    };
    let Some((target, _)) = form_of(stack.alloc, letters)? else {
        return Err(Fault::NoRow);
    };
    to_type(stack, target)
}

fn to_type(stack: &mut Stack, target: CType) -> Result<Operand, Fault> {
    let value = stack.value()?;
    Ok(cast(stack.alloc, &stack.structs.defs, AT, target, value)?)
}

fn assumption(stack: &mut Stack, count: &str) -> Result<Operand, Fault> {
    let args = stack.arguments(count)?;
    let world = World::new(stack.alloc);
    assumed(&world, args)
}

fn input(stack: &mut Stack, count: &str) -> Result<Operand, Fault> {
    let args = stack.arguments(count)?;
    let world = World::new(stack.alloc);
    taken(&world, &args)
}

fn assumed(world: &World, args: TExprs) -> Result<Operand, Fault> {
    Ok(told(world, AT, true, args)?)
}

fn taken(world: &World, args: &TExprs) -> Result<Operand, Fault> {
    Ok(input_read(world, AT, IntType::Int, args)?)
}
