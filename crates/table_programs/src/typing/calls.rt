// Calls of a name, with what a word says that it stands for.
#![tactic(auto)]

use crate::typing::letters::{form_of, structs};
use crate::typing::rows::{AT, Fault, Stack};
use c_check_exprs::called;
use c_check_names::{Form, Meaning, World};
use c_check_operators::Operand;
use c_syntax::{CType, Name, Numbers, Object, TFunction};
use std::alloc::Global;

/// The call of a word, as `f(i,pc)v/2`: a name, what it stands for, and the number of arguments.
pub fn call(stack: &mut Stack, word: &str) -> Result<Operand, Fault> {
    let Some((declared, count)) = word.split_once("/") else {
        return Err(Fault::NoRow);
    };
    let mut world = World::new(stack.alloc);
    call_in(&mut world, stack, declared, count)
}

fn call_in(
    world: &mut World,
    stack: &mut Stack,
    declared: &str,
    count: &str,
) -> Result<Operand, Fault> {
    world.structs = structs(stack.alloc)?;
    let name = name_of(world, declared)?;
    let args = stack.arguments(count)?;
    Ok(called(world, AT, name.as_bytes(), args)?)
}

// The name, which stands for what is said behind it; nothing declares it where nothing is said.
fn name_of<'a>(world: &mut World, declared: &'a str) -> Result<&'a str, Fault> {
    let Some((name, said)) = declared.split_once("(") else {
        return Ok(declared);
    };
    let Some((inside, behind)) = said.split_once(")") else {
        return Err(Fault::NoRow);
    };
    let meaning = meaning(world, name, inside, behind)?;
    let letters = Vec::from_slice(world.alloc(), name.as_bytes())?;
    world.declare(AT, Name::from_vec(letters), meaning)?;
    Ok(name)
}

fn meaning(world: &mut World, name: &str, inside: &str, behind: &str) -> Result<Meaning, Fault> {
    match name {
        "f" => function(world, inside, behind),
        "o" => object(world, inside),
        "p" => {
            let (ty, is_const) = ty(world.alloc(), inside)?;
            Ok(Meaning::Parameter(0, ty, is_const))
        }
        "m" => {
            let (ty, is_const) = ty(world.alloc(), inside)?;
            Ok(Meaning::Missing(ty, is_const))
        }
        "t" => {
            let (ty, is_const) = ty(world.alloc(), inside)?;
            Ok(Meaning::TypeName(Form::Plain(ty, is_const)))
        }
        "e" => Ok(Meaning::Enumeration(7)),
        _ => Err(Fault::NoRow),
    }
}

// A function of these parameters and this result.
fn function(world: &mut World, params: &str, returned: &str) -> Result<Meaning, Fault> {
    let alloc = world.alloc();
    let mut signature = Vec::new(alloc);
    for param in params.split(",").filter(|param| !param.is_empty()) {
        let (ty, _) = ty(alloc, param)?;
        signature.push(ty)?;
    }
    let (returned, _) = ty(alloc, returned)?;
    world.signatures.push(signature)?;
    world.functions.push(TFunction {
        name: Name::new(alloc),
        pos: AT,
        params: Numbers::new(alloc),
        result: returned,
        body: None,
    })?;
    Ok(Meaning::Function(0))
}

fn object(world: &mut World, letters: &str) -> Result<Meaning, Fault> {
    let alloc = world.alloc();
    let (ty, read_only) = ty(alloc, letters)?;
    world.objects.push(Object {
        name: Name::new(alloc),
        pos: AT,
        ty,
        size: 0,
        read_only,
        is_static: true,
    })?;
    Ok(Meaning::Object(0))
}

fn ty(alloc: Global, letters: &str) -> Result<(CType, bool), Fault> {
    form_of(alloc, letters)?.ok_or(Fault::NoRow)
}
