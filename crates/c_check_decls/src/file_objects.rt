// Objects of the file.
#![tactic(auto)]

ghost use Rattle.std.specs.Prelude.{◌≡◌, ◌&&◌, OnOk, option_map};
ghost use Rattle.c_syntax.specs.Types.{ctype_tree};
ghost use Rattle.c_typing.specs.Decls as decls;
ghost use Rattle.c_typing.specs.World as worlds;
ghost use Rattle.c_check_declarators.specs.Views.{name_tree};
ghost use Rattle.c_check_names.specs.Views.{Answers};
ghost use Rattle.c_check_decls.specs.Entities.{agreed};
ghost use Rattle.c_check_names.specs.Trees.{form_tree, linked_tree, meaning_tree};
ghost use Rattle.c_check_names.specs.Worlds.{world_of};
ghost use Rattle.c_check_decls.specs.DeclaredViews.{declares_tree, how_tree};

use crate::declared_objects::{add_object, object_of};
use crate::declares::{Declares, FileObject, ObjectNow};
use crate::entities::{entity, is_named_main};
use crate::limits::{check_limits, count};
use crate::{composite_type, conflict, copy_meaning, define, is_object_again, link, retype};
use c_check_declarators::{DeclaredName, no_init, shown, size_or_refused};
use c_check_exprs::no_function;
use c_check_names::{Form, Linked, Meaning, OBJECT_LIMIT, TypeError, World, is_reserved};
use c_check_operators::is_unsized;
use c_syntax::{CType, Construct, Op, Pos};
use std::alloc::AllocError as NoMemory;

/// An object of the file, in the file or by `extern` in a block, where it takes no initialiser (C11 6.7.9p5, 6.9.2). After
/// out of memory the program is only dropped.
pub(crate) fn file_form(
    world: &mut World,
    named: &DeclaredName,
    form: Form,
    how: FileObject,
) -> Result<Declares, TypeError>
    ensures { Answers (λ out. out ≡ decls.file_form (world_of world.old) (name_tree named.now) (form_tree form) (how_tree how))
        declares_tree (world_of world.new) result }
{
    match form {
        Form::Plain(ty, is_const) => match size_or_refused(world, named.pos, &ty) {
            Err(error) => Err(error),
            Ok(_) => file_declared(world, named, ty, is_const, how),
        },
        Form::Unsized(of, is_const) => {
            let ty = shown(world, Form::Unsized(of, is_const))?;
            file_declared(world, named, ty, false, how)
        }
        Form::Callable(_params, _target) => Err(no_function(world, named.pos, Op::Init)),
    }
}

// One whose name is asked next.
fn file_declared(
    world: &mut World,
    named: &DeclaredName,
    ty: CType,
    is_const: bool,
    how: FileObject,
) -> Result<Declares, TypeError>
    ensures { Answers (λ out. out ≡ decls.file_declared (world_of world.old) (name_tree named.now) (ctype_tree ty) is_const (how_tree how))
        declares_tree (world_of world.new) result }
{
    if has_init_in_block(how) {
        return Err(no_init(world, named.pos, ty));
    }
    if is_reserved(named.name.as_slice()) {
        return Err(TypeError::Redeclared(named.pos, named.pos));
    }
    let before = entity(world, named.name.as_slice())?;
    let agrees = agrees(world, &ty, is_const, how.has_init, &before);
    if let Some(first) = conflict(world, named.name.as_slice(), agrees) {
        return Err(TypeError::Redeclared(named.pos, first));
    }
    let ty = composite_type(world, ty, before.as_ref())?;
    if is_unsized(&ty) {
        file_unsized(world, named, ty, how, &before)
    } else {
        file_sized(world, named, ty, is_const, how, &before)
    }
}

fn has_init_in_block(how: FileObject) -> bool
    ensures { result ≡ ((how_tree how).in_block && (how_tree how).has_init) }
{
    how.in_block && how.has_init
}

// Whether a declaration is one of the object that the file has by this name, if it has one.
fn agrees(
    world: &World,
    ty: &CType,
    is_const: bool,
    has_init: bool,
    before: &Option<Linked>,
) -> bool
    ensures { result ≡ agreed (decls.is_object_again (world_of world.now) (ctype_tree ty.now) is_const has_init) (option_map linked_tree before.now) }
{
    match before {
        None => true,
        Some(linked) => is_object_again(world, ty, is_const, has_init, &linked.meaning),
    }
}

// One whose size is told, here or before.
fn file_sized(
    world: &mut World,
    named: &DeclaredName,
    ty: CType,
    is_const: bool,
    how: FileObject,
    before: &Option<Linked>,
) -> Result<Declares, TypeError>
    ensures { Answers (λ out. out ≡ decls.file_sized (world_of world.old) (name_tree named.now) (ctype_tree ty) is_const (how_tree how)
        (option_map linked_tree before.now)) declares_tree (world_of world.new) result }
{
    let size = match size_or_refused(world, named.pos, &ty) {
        Err(error) => return Err(error),
        Ok(size) => size,
    };
    let number = object_number(world, how, before);
    match counted_once(world, named.pos, size, how, before) {
        Err(error) => Err(error),
        Ok(()) => {
            if is_named_main(named.name.as_slice()) {
                return Err(TypeError::Unsupported(named.pos, Construct::MainShape));
            }
            let shared = ty.copy()?;
            declare_object(world, named, shared, is_const, size, how, before)?;
            Ok(declares(named, ty, how, false, number))
        }
    }
}

// One whose size is not told yet: by its initialiser, or, in an `extern` declaration alone, later.
fn file_unsized(
    world: &mut World,
    named: &DeclaredName,
    ty: CType,
    how: FileObject,
    before: &Option<Linked>,
) -> Result<Declares, TypeError>
    ensures { Answers (λ out. out ≡ decls.file_unsized (world_of world.old) (name_tree named.now) (ctype_tree ty) (how_tree how)
        (option_map linked_tree before.now)) declares_tree (world_of world.new) result }
{
    if how.defines && !how.has_init {
        return Err(TypeError::NotConstant(named.pos));
    }
    if is_named_main(named.name.as_slice()) {
        return Err(TypeError::Unsupported(named.pos, Construct::MainShape));
    }
    let number = object_number(world, how, before);
    let shared = ty.copy()?;
    declare_object(world, named, shared, false, 0, how, before)?;
    Ok(declares(named, ty, how, how.has_init, number))
}

// The number of the object that is declared, if the file has it.
fn object_number(world: &World, how: FileObject, before: &Option<Linked>) -> Option<u64>
    ensures { result ≡ decls.object_number (world_of world.now) (how_tree how) (option_map linked_tree before.now) }
{
    match before {
        None => {
            if how.is_there {
                Some(world.objects.len() as u64)
            } else {
                None
            }
        }
        Some(linked) => entity_object(&linked.meaning),
    }
}

fn entity_object(meaning: &Meaning) -> Option<u64>
    ensures { result ≡ decls.entity_object (meaning_tree meaning.now) }
{
    match meaning {
        Meaning::Object(n) => Some(*n),
        Meaning::Missing(_, _)
        | Meaning::Parameter(_, _, _)
        | Meaning::Function(_)
        | Meaning::TypeName(_)
        | Meaning::Enumeration(_) => None,
    }
}

// A definition counts among the sizes, once; another declaration has a limit for its object alone.
fn counted_once(
    world: &mut World,
    pos: Pos,
    size: u64,
    how: FileObject,
    before: &Option<Linked>,
) -> Result<(), TypeError>
    ensures { Answers (λ out. out ≡ decls.counted_once (world_of world.old) pos size (how_tree how) (option_map linked_tree before.now) (worlds.Typed tt))
        (λ u. u) (world_of world.new) result }
{
    if how.defines && !is_defined(before) {
        match check_limits(world, pos, size) {
            Err(error) => Err(error),
            Ok(()) => {
                count(world, size);
                Ok(())
            }
        }
    } else if how.is_there && size > OBJECT_LIMIT {
        Err(TypeError::ObjectTooLarge(pos, size))
    } else {
        Ok(())
    }
}

fn is_defined(before: &Option<Linked>) -> bool
    ensures { result ≡ decls.is_defined (option_map linked_tree before.now) }
{
    match before {
        None => false,
        Some(linked) => linked.defined,
    }
}

// The name, with the entity that it stands for, new or again.
fn declare_object(
    world: &mut World,
    named: &DeclaredName,
    ty: CType,
    is_const: bool,
    size: u64,
    how: FileObject,
    before: &Option<Linked>,
) -> Result<(), NoMemory>
    ensures { OnOk result (world_of world.new ≡ decls.object_world (world_of world.old) (name_tree named.now) (ctype_tree ty) is_const size (how_tree how)
        (option_map linked_tree before.now)) }
{
    match before {
        None => first_object(world, named, ty, is_const, size, how),
        Some(linked) => again_object(world, named, ty, size, how, linked),
    }
}

// For the first time: an object, or one that the file does not define (this profile).
fn first_object(
    world: &mut World,
    named: &DeclaredName,
    ty: CType,
    is_const: bool,
    size: u64,
    how: FileObject,
) -> Result<(), NoMemory>
    ensures { OnOk result (world_of world.new ≡ decls.first_object (world_of world.old) (name_tree named.now) (ctype_tree ty) is_const size (how_tree how)) }
{
    if how.is_there {
        let number = world.objects.len() as u64;
        let object = object_of(named, ty, is_const, size, true)?;
        add_object(world, object)?;
        link(world, named, Meaning::Object(number), how.defines)
    } else {
        link(world, named, Meaning::Missing(ty, is_const), false)
    }
}

// Again, where the entity has the type of all its declarations so far.
fn again_object(
    world: &mut World,
    named: &DeclaredName,
    ty: CType,
    size: u64,
    how: FileObject,
    linked: &Linked,
) -> Result<(), NoMemory>
    ensures { OnOk result (world_of world.new ≡ decls.again_object (world_of world.old) (name_tree named.now) (ctype_tree ty) size (how_tree how)
        (linked_tree linked.now)) }
{
    retype(world, named.name.as_slice(), &linked.meaning, ty, size)?;
    let copy = copy_meaning(world.alloc(), &linked.meaning)?;
    let name = named.name.copy()?;
    world.declare(named.pos, name, copy)?;
    define(world, named.name.as_slice(), how.defines)
}

// An object that the file has, whose initialiser may follow.
fn declares(
    named: &DeclaredName,
    ty: CType,
    how: FileObject,
    measured: bool,
    number: Option<u64>,
) -> Declares
    ensures { declares_tree result ≡ decls.declares number (decls.file_now (name_tree named.now) (ctype_tree ty) (how_tree how) measured) }
{
    match number {
        None => Declares::NoObject,
        Some(number) => Declares::AnObject(ObjectNow {
            number,
            pos: named.pos,
            ty,
            is_static: true,
            in_block: how.in_block,
            measured,
        }),
    }
}
