// Declarations of the file, each of a new name.
#![tactic(auto)]

use crate::typing::answer;
use crate::typing::rows::Fault;
use c_check_declarators::{DeclaredName, Shape, SpecPlace, laid, size_or_refused, type_told};
use c_check_exprs::{first_of, refused_by, specs};
use c_check_names::{Form, Linked, Meaning, TypeError, World};
use c_syntax::{CType, Numbers, Object, Pos, Specs, StorageWord, TFunction};

/// What specs tell.
#[derive(Drop)]
pub struct Base {
    pub form: Form,
    pub is_typedef: bool,
}

/// What the specs of a declaration tell, and whether they are all that it has.
pub fn told(world: &mut World, alone: bool, pos: Pos, written: &Specs) -> Result<Base, Fault> {
    let first = first_of(pos, written);
    let made = specs(world, alone && written.as_slice().len() == 1, written)?;
    let is_typedef = made.storage.contains(&StorageWord::Typedef);
    let form = type_told(world.alloc(), SpecPlace::Declaration, first, made)?;
    Ok(Base { form, is_typedef })
}

/// Declares the name of a declarator: the line of its type. What the file has declared before as an object or a function
/// has no row here.
pub fn declare(
    world: &mut World,
    is_typedef: bool,
    base: Form,
    shape: Shape,
) -> Result<String, Fault> {
    let Shape { name, steps } = shape;
    let Some(named) = name else {
        return Err(Fault::NoRow);
    };
    let form = laid(world, named.pos, steps.as_slice(), base)?;
    let line = answer::form(world.alloc(), &form)?;
    if world.linked_as(named.name.as_slice()).is_some() {
        return Err(Fault::NoRow);
    }
    if let Some(first) = world.first_here(named.pos, named.name.as_slice()) {
        return Err(Fault::Refused(TypeError::Redeclared(named.pos, first)));
    }
    let meaning = if is_typedef {
        Meaning::TypeName(form)
    } else {
        entity(world, &named, form)?
    };
    world.declare(named.pos, named.name, meaning)?;
    Ok(line)
}

// A new object or function of the file.
fn entity(world: &mut World, named: &DeclaredName, form: Form) -> Result<Meaning, Fault> {
    match form {
        Form::Plain(ty, is_const) => object(world, named, ty, is_const),
        Form::Unsized(_, _) => Err(Fault::Refused(TypeError::NotConstant(named.pos))),
        Form::Callable(params, returned) => function(world, named, params, returned),
    }
}

fn object(
    world: &mut World,
    named: &DeclaredName,
    ty: CType,
    read_only: bool,
) -> Result<Meaning, Fault> {
    let size = size_or_refused(world, named.pos, &ty)?;
    if let Err(error) = world.check_size(named.pos, size) {
        return Err(Fault::Refused(refused_by(error)));
    }
    let number = world.objects.len() as u64;
    world.add_object(Object {
        name: named.name.copy()?,
        pos: named.pos,
        ty,
        size,
        read_only,
        is_static: true,
    })?;
    link(world, named, Meaning::Object(number))?;
    Ok(Meaning::Object(number))
}

fn function(
    world: &mut World,
    named: &DeclaredName,
    params: Vec<CType>,
    returned: CType,
) -> Result<Meaning, Fault> {
    let alloc = world.alloc();
    let number = world.functions.len() as u64;
    world.functions.push(TFunction {
        name: named.name.copy()?,
        pos: named.pos,
        params: Numbers::new(alloc),
        result: returned,
        body: None,
    })?;
    world.signatures.push(params)?;
    link(world, named, Meaning::Function(number))?;
    Ok(Meaning::Function(number))
}

fn link(world: &mut World, named: &DeclaredName, meaning: Meaning) -> Result<(), Fault> {
    world.link(Linked {
        name: named.name.copy()?,
        pos: named.pos,
        meaning,
        defined: false,
    })?;
    Ok(())
}
