// Functions.
#![tactic(auto)]

ghost use Rattle.std.specs.Prelude.{◌≡◌, ◌&&◌, [], ◌∷◌, IfOk, OnOk, Some, length, map, not, option_map};
ghost use Rattle.c_syntax.specs.Types.{ctype_tree};
ghost use Rattle.c_syntax.specs.Types as trees;
ghost use Rattle.c_syntax_written.specs.declared.int_type.IntType.TheVariants as ints;
ghost use Rattle.c_typing.specs.Context as contexts;
ghost use Rattle.c_typing.specs.Decls as decls;
ghost use Rattle.c_typing.specs.SameTypes as same;
ghost use Rattle.c_typing.specs.Names as names;
ghost use Rattle.c_typing.specs.World as worlds;
ghost use Rattle.c_check_jumps.specs.ContextViews.{context_tree};
ghost use Rattle.c_check_declarators.specs.Views.{name_tree, parameter_tree};
ghost use Rattle.c_check_names.specs.Views.{Answers};
ghost use Rattle.c_check_decls.specs.Entities.{agreed};
ghost use Rattle.c_check_names.specs.Trees.{linked_tree, meaning_tree};
ghost use Rattle.c_check_names.specs.Worlds.{world_of};

use crate::entities::{entity, is_named_main};
use crate::parameters::add_parameters;
use crate::{conflict, is_function_so, is_main_shape, link};
use c_check_declarators::{DeclaredName, Parameter};
use c_check_jumps::Context;
use c_check_names::{Linked, Meaning, TypeError, World, input_type, is_reserved};
use c_check_operators::is_same;
use c_syntax::{CType, Construct, IntType, Numbers, TFunction};
use std::alloc::AllocError as NoMemory;

/// A function of these parameters and this result, with a body or without (C11 6.7.6.3, 6.9.1): its number. A prototype that
/// repeats a reserved name has none. Another declaration of one, of a name that this scope or the file has otherwise, and a
/// second body are Redeclared; `main` takes nothing and gives int, else it is Unsupported. Once out of memory the program
/// is only dropped.
pub fn function_declared(
    world: &mut World,
    around: Context,
    named: &DeclaredName,
    params: &[Parameter],
    types: Vec<CType>,
    target: CType,
    has_body: bool,
) -> Result<Option<u64>, TypeError>
    ensures { Answers (λ out. out ≡ decls.function_declared (world_of world.old) (context_tree around.entry) (name_tree named.now)
        (map parameter_tree params.now) (map ctype_tree types.items) (ctype_tree target) has_body) (λ n. n) (world_of world.new) result }
{
    if is_reserved(named.name.as_slice()) {
        return reserved_declared(named, types.as_slice(), &target, has_body);
    }
    let before = entity(world, named.name.as_slice())?;
    let agrees = agrees(world, types.as_slice(), &target, has_body, &before);
    if let Some(first) = conflict(world, named.name.as_slice(), agrees) {
        return Err(TypeError::Redeclared(named.pos, first));
    }
    if is_wrong_main(named.name.as_slice(), types.as_slice(), &target) {
        return Err(TypeError::Unsupported(named.pos, Construct::MainShape));
    }
    let has_body_later = around.file.functions.has(named.name.as_slice());
    let number = function_again(world, named, has_body_later, params, types, target, before)?;
    Ok(Some(number))
}

// Whether it is a `main` of another shape.
fn is_wrong_main(name: &[u8], types: &[CType], target: &CType) -> bool
    ensures { result ≡ (decls.is_named_main name.now && not (decls.is_main_shape (map ctype_tree types.now) (ctype_tree target.now))) }
{
    is_named_main(name) && !is_main_shape(types, target)
}

// A prototype that repeats a reserved name declares nothing (this profile).
fn reserved_declared(
    named: &DeclaredName,
    types: &[CType],
    target: &CType,
    has_body: bool,
) -> Result<Option<u64>, TypeError>
    ensures { (w : worlds.World) → Answers (λ out. out ≡ decls.reserved_declared w (name_tree named.now) (map ctype_tree types.now) (ctype_tree target.now)
        has_body) (λ n. n) w result }
{
    if is_input_type(types, target, input_type(named.name.as_slice())) && !has_body {
        Ok(None)
    } else {
        Err(TypeError::Redeclared(named.pos, named.pos))
    }
}

// Whether it is the type of an input, or else that of `__assume` and `__assert`.
fn is_input_type(types: &[CType], target: &CType, input: Option<IntType>) -> bool
    ensures { result ≡ decls.is_input_type (map ctype_tree types.now) (ctype_tree target.now) input }
{
    match input {
        Some(t) => takes_nothing(types) && is_int(target, t),
        None => takes_int(types) && is_nothing(target),
    }
}

fn takes_nothing(types: &[CType]) -> bool
    ensures { result ≡ same.are_same (map ctype_tree types.now) [] }
{
    match types.split_first() {
        None => true,
        Some((_ty, _rest)) => false,
    }
}

// Whether these are one int.
fn takes_int(types: &[CType]) -> bool
    ensures { result ≡ same.are_same (map ctype_tree types.now) (trees.Int ints.Int ∷ []) }
{
    match types.split_first() {
        None => false,
        Some((ty, rest)) => is_int(ty, IntType::Int) && takes_nothing(rest),
    }
}

#[tactic(auto, using(c_syntax::proofs::Trees::the_trees))]
fn is_int(ty: &CType, t: IntType) -> bool
    ensures { result ≡ same.is_same (ctype_tree ty.now) (trees.Int t) }
{
    is_same(ty, &CType::Int(t))
}

#[tactic(auto, using(c_syntax::proofs::Trees::the_trees))]
fn is_nothing(ty: &CType) -> bool
    ensures { result ≡ same.is_same (ctype_tree ty.now) trees.Void }
{
    is_same(ty, &CType::Void)
}

// Whether a declaration is one of the function that the file has by this name, if it has one.
fn agrees(
    world: &World,
    types: &[CType],
    target: &CType,
    has_body: bool,
    before: &Option<Linked>,
) -> bool
    ensures { result ≡ agreed (decls.is_function_so (world_of world.now) (map ctype_tree types.now) (ctype_tree target.now) has_body)
        (option_map linked_tree before.now) }
{
    match before {
        None => true,
        Some(linked) => is_function_so(world, types, target, has_body, &linked.meaning),
    }
}

// The function, which may have been declared before: its number.
fn function_again(
    world: &mut World,
    named: &DeclaredName,
    has_body_later: bool,
    params: &[Parameter],
    types: Vec<CType>,
    target: CType,
    before: Option<Linked>,
) -> Result<u64, NoMemory>
    ensures { (around : contexts.Context) → has_body_later ≡ contexts.has_name around.functions named.now.name
        → IfOk result (λ n. decls.function_again (world_of world.old) around (name_tree named.now) (map parameter_tree params.now)
        (map ctype_tree types.items) (ctype_tree target) (option_map linked_tree before) ≡ worlds.Typed (Some n) (world_of world.new)) }
{
    match before {
        None => new_function(world, named, has_body_later, params, types, target),
        Some(linked) => {
            let number = number_of(&linked.meaning);
            let name = named.name.copy()?;
            world.declare(named.pos, name, linked.meaning)?;
            Ok(number)
        }
    }
}

fn number_of(meaning: &Meaning) -> u64
    ensures { result ≡ decls.number_of (meaning_tree meaning.now) }
{
    match meaning {
        Meaning::Object(n) => *n,
        Meaning::Function(n) => *n,
        Meaning::Missing(_, _)
        | Meaning::Parameter(_, _, _)
        | Meaning::TypeName(_)
        | Meaning::Enumeration(_) => 0,
    }
}

// A function that is declared for the first time: its number. It has objects for its parameters now where the file gives it
// no body.
fn new_function(
    world: &mut World,
    named: &DeclaredName,
    has_body_later: bool,
    params: &[Parameter],
    types: Vec<CType>,
    target: CType,
) -> Result<u64, NoMemory>
    ensures number { IfOk result (λ n. n ≡ length (world_of world.old).functions) }
    ensures declared { OnOk result (world_of world.new ≡ decls.new_function (world_of world.old) (name_tree named.now) has_body_later
        (map parameter_tree params.now) (map ctype_tree types.items) (ctype_tree target)) }
{
    let number = world.functions.len() as u64;
    let objects = if has_body_later {
        Numbers::new(world.alloc())
    } else {
        add_parameters(world, params)?
    };
    add_function(world, named, objects, types, target)?;
    link(world, named, Meaning::Function(number), false)?;
    Ok(number)
}

// An entry for a function without a body.
fn add_function(
    world: &mut World,
    named: &DeclaredName,
    params: Numbers,
    types: Vec<CType>,
    target: CType,
) -> Result<(), NoMemory>
    ensures { OnOk result (world_of world.new ≡ decls.with_function_entry (world_of world.old) (map ctype_tree types.items)
        (decls.function_tree (name_tree named.now) params (ctype_tree target))) }
{
    let name = named.name.copy()?;
    world.signatures.push(types)?;
    world.functions.push(TFunction {
        name,
        pos: named.pos,
        params,
        result: target,
        body: None,
    })?;
    Ok(())
}
