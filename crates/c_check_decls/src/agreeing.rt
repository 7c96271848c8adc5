// Which declarations are of one entity.
#![tactic(auto)]

ghost use Rattle.std.specs.Prelude.{◌≡◌, ◌&&◌, ◌==◌, [], IfOk, map, option_map, slice_get, unwrap_or};
ghost use Rattle.c_syntax.specs.Types as types;
ghost use Rattle.c_syntax.specs.Types.{ctype_tree, object_tree};
ghost use Rattle.c_typing.specs.Decls as decls;
ghost use Rattle.c_typing.specs.SameTypes as same;
ghost use Rattle.c_check_names.specs.Trees.{linked_tree, meaning_tree};
ghost use Rattle.c_check_names.specs.Worlds.{world_of};

use crate::linked_objects::is_read_only;
use c_check_names::{Linked, Meaning, World};
use c_check_operators::{is_same, is_unsized};
use c_syntax::{CType, IntType, Object};
use std::alloc::AllocError as NoMemory;

/// Whether what a name stands for is a function of these parameters and this result, that has a body once at most
/// (C11 6.7p4, 6.9p3).
pub fn is_function_so(
    world: &World,
    params: &[CType],
    target: &CType,
    has_body: bool,
    meaning: &Meaning,
) -> bool
    ensures { result ≡ decls.is_function_so (world_of world.now) (map ctype_tree params.now) (ctype_tree target.now) has_body (meaning_tree meaning.now) }
{
    match meaning {
        Meaning::Function(n) => {
            (has_params(world, *n, params) && has_result(world, *n, target))
                && !(has_body && has_body_before(world, *n))
        }
        Meaning::Object(_)
        | Meaning::Missing(_, _)
        | Meaning::Parameter(_, _, _)
        | Meaning::TypeName(_)
        | Meaning::Enumeration(_) => false,
    }
}

// Whether function number `n` has these parameters.
fn has_params(world: &World, n: u64, params: &[CType]) -> bool
    ensures { result ≡ same.are_same (map ctype_tree params.now) (unwrap_or (slice_get (world_of world.now).signatures n) []) }
{
    match params_of(world, n) {
        None => takes_nothing(params),
        Some(before) => are_same(params, before),
    }
}

// The parameters of function number `n`.
fn params_of(world: &World, n: u64) -> Option<&[CType]>
    ensures { option_map (λ params. map ctype_tree params.now) result ≡ slice_get (world_of world.now).signatures n }
{
    match world.signatures.get(n as usize) {
        None => None,
        Some(params) => Some(params.as_slice()),
    }
}

fn takes_nothing(params: &[CType]) -> bool
    ensures { result ≡ same.are_same (map ctype_tree params.now) [] }
{
    match params {
        [] => true,
        [_, ..] => false,
    }
}

// Whether function number `n` has this result.
fn has_result(world: &World, n: u64, target: &CType) -> bool
    ensures { result ≡ same.is_same (ctype_tree target.now)
        (unwrap_or (option_map (λ f. f.result) (slice_get (world_of world.now).functions n)) types.Void) }
{
    match result_of(world, n) {
        None => is_same(target, &CType::Void),
        Some(ty) => is_same(target, ty),
    }
}

// The result of function number `n`.
fn result_of(world: &World, n: u64) -> Option<&CType>
    ensures { option_map (λ ty. ctype_tree ty.now) result ≡ option_map (λ f. f.result) (slice_get (world_of world.now).functions n) }
{
    match world.functions.get(n as usize) {
        None => None,
        Some(function) => Some(&function.result),
    }
}

// Whether it has a body already.
fn has_body_before(world: &World, n: u64) -> bool
    ensures { result ≡ decls.has_body_before (world_of world.now) n }
{
    match world.functions.get(n as usize) {
        None => false,
        Some(function) => function.body.is_some(),
    }
}

// Whether the types are the same, one by one.
fn are_same(a: &[CType], b: &[CType]) -> bool
    ensures { result ≡ same.are_same (map ctype_tree a.now) (map ctype_tree b.now) }
{
    let mut left = a;
    let mut right = b;
    'each: while let Some((s, ss)) = left.split_first() {
        match right.split_first() {
            None => return false,
            Some((t, ts)) => {
                if !is_same(s, t) {
                    return false;
                }
                left = ss;
                right = ts;
            }
        }
    }
    right.is_empty()
}

/// Whether a function of these parameters and this result may be `main`: it takes nothing, and its result is int (C11
/// 5.1.2.2.1p1, this profile).
pub fn is_main_shape(params: &[CType], target: &CType) -> bool
    ensures { result ≡ decls.is_main_shape (map ctype_tree params.now) (ctype_tree target.now) }
{
    takes_nothing(params) && is_same(target, &CType::Int(IntType::Int))
}

/// Whether what a name stands for is an object of this type, as const (C11 6.7p4).
pub fn is_object_so(world: &World, ty: &CType, is_const: bool, meaning: &Meaning) -> bool
    ensures { result ≡ decls.is_object_so (world_of world.now) (ctype_tree ty.now) is_const (meaning_tree meaning.now) }
{
    match meaning {
        Meaning::Object(n) => match world.objects.get(*n as usize) {
            None => false,
            Some(object) => is_numbered_so(object, ty, is_const),
        },
        Meaning::Missing(before, was_const) => {
            is_same_object(before, ty)
                && is_read_only(before, *was_const) == is_read_only(ty, is_const)
        }
        Meaning::Parameter(_, _, _)
        | Meaning::Function(_)
        | Meaning::TypeName(_)
        | Meaning::Enumeration(_) => false,
    }
}

// Whether the object has this type, and is as const.
fn is_numbered_so(object: &Object, ty: &CType, is_const: bool) -> bool
    ensures { result ≡ (decls.is_same_object (object_tree object.now).ty (ctype_tree ty.now)
        && same.is_same_truth (object_tree object.now).read_only (decls.is_read_only (ctype_tree ty.now) is_const)) }
{
    is_same_object(&object.ty, ty) && object.read_only == is_read_only(ty, is_const)
}

// An array without size agrees with any array of its element (C11 6.7.6.2p6).
#[tactic(auto, using(c_syntax::proofs::Trees::the_trees))]
fn is_same_object(a: &CType, b: &CType) -> bool
    ensures { result ≡ decls.is_same_object (ctype_tree a.now) (ctype_tree b.now) }
{
    match a {
        CType::Array(s, m) => match b {
            CType::Array(t, n) => {
                s.is_const == t.is_const
                    && (is_same(&s.ty, &t.ty) && (*m == *n || (*m == 0 || *n == 0)))
            }
            CType::Void
            | CType::Int(_)
            | CType::Pointer(_)
            | CType::Struct(_)
            | CType::Function(_) => is_same(a, b),
        },
        CType::Void | CType::Int(_) | CType::Pointer(_) | CType::Struct(_) | CType::Function(_) =>
            is_same(a, b),
    }
}

/// The same, of an object that has an initialiser once at most (C11 6.9p3).
pub fn is_object_again(
    world: &World,
    ty: &CType,
    is_const: bool,
    has_init: bool,
    meaning: &Meaning,
) -> bool
    ensures { result ≡ decls.is_object_again (world_of world.now) (ctype_tree ty.now) is_const has_init (meaning_tree meaning.now) }
{
    is_object_so(world, ty, is_const, meaning) && !(has_init && has_initial(world, meaning))
}

// Whether an object has its initial bytes.
fn has_initial(world: &World, meaning: &Meaning) -> bool
    ensures { result ≡ decls.has_initial (world_of world.now) (meaning_tree meaning.now) }
{
    match meaning {
        Meaning::Object(n) => world.initial.has(*n),
        Meaning::Missing(_, _)
        | Meaning::Parameter(_, _, _)
        | Meaning::Function(_)
        | Meaning::TypeName(_)
        | Meaning::Enumeration(_) => false,
    }
}

/// The type of an object by all its declarations, of which this is the last (C11 6.2.7p4).
pub fn composite_type(world: &World, ty: CType, before: Option<&Linked>) -> Result<CType, NoMemory>
    ensures { IfOk result (λ all. ctype_tree all
        ≡ decls.composite_type (world_of world.now) (ctype_tree ty) (option_map (λ l. linked_tree l.now) before.entry)) }
{
    match before {
        None => Ok(ty),
        Some(linked) => {
            if is_unsized(&ty) {
                type_before(world, &linked.meaning, ty)
            } else {
                Ok(ty)
            }
        }
    }
}

// The type that what a name stands for has so far, or else this one.
fn type_before(world: &World, meaning: &Meaning, ty: CType) -> Result<CType, NoMemory>
    ensures { IfOk result (λ before. ctype_tree before ≡ decls.type_before (world_of world.now) (meaning_tree meaning.now) (ctype_tree ty)) }
{
    match meaning {
        Meaning::Object(n) => match world.objects.get(*n as usize) {
            None => Ok(ty),
            Some(object) => object.ty.copy(),
        },
        Meaning::Missing(before, _) => before.copy(),
        Meaning::Parameter(_, _, _)
        | Meaning::Function(_)
        | Meaning::TypeName(_)
        | Meaning::Enumeration(_) => Ok(ty),
    }
}
