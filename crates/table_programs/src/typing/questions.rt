// What is asked of types.
#![tactic(auto)]

use crate::typing::answer;
use crate::typing::letters::{form_of, structs};
use crate::typing::rows::{AT, Fault};
use c_check_declarators::{DeclaredName, Shape, SpecPart, type_name, typedef_named};
use c_check_names::{Form, Meaning, World};
use c_check_operators::{
    complete_size, extent_of, is_pointer, is_same, is_same_but_const, is_scalar, is_unsized,
    is_void, keeps_const,
};
use c_syntax::{CType, Name};
use std::alloc::Global;

/// What a question is answered: its word, and the types that it is about.
pub fn line(alloc: Global, question: &str) -> Result<String, Fault> {
    let mut words = question.split_whitespace();
    let Some(word) = words.next() else {
        return Err(Fault::NoRow);
    };
    let mut types = Vec::new(alloc);
    for letters in words {
        match form_of(alloc, letters)? {
            Some(form) => types.push(form)?,
            None => return Err(Fault::NoRow),
        }
    }
    match types.as_slice() {
        [(ty, _)] => of_type(alloc, word, ty),
        [(left, _), (right, _)] => of_types(alloc, word, left, right),
        _ => Err(Fault::NoRow),
    }
}

fn of_type(alloc: Global, word: &str, ty: &CType) -> Result<String, Fault> {
    let holds = match word {
        "pointer" => is_pointer(ty),
        "scalar" => is_scalar(ty),
        "unsized" => is_unsized(ty),
        "void" => is_void(ty),
        "extent" => extent_of(&structs(alloc)?.defs, ty).is_some(),
        _ => return size_or_name(alloc, word, ty),
    };
    truth(alloc, holds)
}

fn size_or_name(alloc: Global, word: &str, ty: &CType) -> Result<String, Fault> {
    match word {
        "size" => match complete_size(&structs(alloc)?.defs, ty) {
            Some(size) => Ok(format!(in alloc; "{size}")?),
            None => Ok(String::from_str(alloc, "none")?),
        },
        "unnamed" => named(alloc, ty, None),
        "named" => {
            let name = Name::new(alloc);
            named(alloc, ty, Some(DeclaredName { name, pos: AT }))
        }
        "typedef" => by_name(alloc, ty, b"t"),
        "other" => by_name(alloc, ty, b"u"),
        _ => Err(Fault::NoRow),
    }
}

// The type that a cast names by these specs and a declarator that is this name, or nothing.
fn named(alloc: Global, ty: &CType, name: Option<DeclaredName>) -> Result<String, Fault> {
    let form = Form::Plain(ty.copy()?, false);
    let shape = Shape {
        name,
        steps: Vec::new(alloc),
    };
    let world = World::new(alloc);
    cast_to(&world, form, &shape)
}

fn cast_to(world: &World, form: Form, shape: &Shape) -> Result<String, Fault> {
    let form = type_name(world, AT, form, shape)?;
    Ok(answer::form(world.alloc(), &form)?)
}

// The type that specs tell by this name, where `t` is a typedef name of the type.
fn by_name(alloc: Global, ty: &CType, name: &[u8]) -> Result<String, Fault> {
    let declared = Name::from_vec(Vec::from_slice(alloc, b"t")?);
    let form = Form::Plain(ty.copy()?, false);
    let mut world = World::new(alloc);
    told_by(&mut world, declared, form, name)
}

fn told_by(world: &mut World, declared: Name, form: Form, name: &[u8]) -> Result<String, Fault> {
    world.declare(AT, declared, Meaning::TypeName(form))?;
    match typedef_named(world, AT, name)? {
        SpecPart::Type(form) => Ok(answer::form(world.alloc(), &form)?),
        _ => Err(Fault::NoRow),
    }
}

fn of_types(alloc: Global, word: &str, left: &CType, right: &CType) -> Result<String, Fault> {
    let holds = match word {
        "same" => is_same(left, right),
        "same-but-const" => is_same_but_const(left, right),
        "keeps-const" => keeps_const(left, right),
        _ => return Err(Fault::NoRow),
    };
    truth(alloc, holds)
}

fn truth(alloc: Global, holds: bool) -> Result<String, Fault> {
    Ok(String::from_str(alloc, if holds { "yes" } else { "no" })?)
}
