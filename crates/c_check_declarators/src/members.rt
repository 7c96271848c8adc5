// Members of structs.
#![tactic(auto)]

ghost use Rattle.std.specs.Prelude.{◌≡◌, ◌+◌, ◌^◌, ◌||◌, nat_lt, IfOk, map};
ghost use Rattle.c_syntax.specs.Types.{ctype_tree};
ghost use Rattle.c_layout.specs.RowTypes.{has_const_elements};
ghost use Rattle.c_typing.specs.Typing as typing;
ghost use Rattle.c_check_declarators.specs.Views.{name_tree, shape_tree};
ghost use Rattle.c_check_names.specs.Views.{Answers};
ghost use Rattle.c_check_names.specs.Trees.{form_tree};
ghost use Rattle.c_check_names.specs.Worlds.{world_of};
ghost use Rattle.c_check_declarators.specs.PartViews.{made_tree};

use crate::layouts::{end_of, padded};
use crate::{DeclaredName, Shape, laid, no_init, size_or_refused, unknown_function};
use c_check_names::{Form, Named, Table, TypeError, World};
use c_layout::{align_of, has_const_elements};
use c_syntax::{CType, Construct, Member, Pos};
use std::alloc::AllocError as NoMemory;

/// The most bytes that a struct may take.
const STRUCT_LIMIT: u64 = 1 << 40;

/// A member so far, and the place of its name.
#[derive(Drop)]
pub struct MemberMade {
    pub pos: Pos,
    pub member: Member,
}

impl Named for MemberMade {
    ghost name_of = { λ made. made.member.name };

    fn name(&self) -> &[u8] {
        self.member.name.as_slice()
    }
}

/// Adds a member to those so far, by what its specs tell and its declarator. Without a name it is Undeclared at the first
/// token of the specs. Its type is complete, else it is NoRule, and an array has a size, else it is Unsupported; its name
/// is new, else it is Redeclared; it ends within 2 to the 40 bytes, else it is too large; and it is not const, else it is
/// Unsupported: all at its name. Once out of memory the members are only dropped.
pub fn member_made(
    world: &World,
    first: Pos,
    base: Form,
    done: &mut Table<MemberMade>,
    shape: Shape,
) -> Result<(), TypeError>
    ensures { Answers (λ out. out ≡ typing.member_made (world_of world.now) first (form_tree base) (map made_tree done.old) (shape_tree shape))
        (λ _. map made_tree done.new) (world_of world.now) result }
{
    let Shape { name, steps } = shape;
    match name {
        None => Err(TypeError::Undeclared(first)),
        Some(named) => match laid(world, named.pos, steps.as_slice(), base) {
            Err(error) => Err(error),
            Ok(form) => member_of(world, named, form, done),
        },
    }
}

// A member of this type.
fn member_of(
    world: &World,
    named: DeclaredName,
    form: Form,
    done: &mut Table<MemberMade>,
) -> Result<(), TypeError>
    ensures { Answers (λ out. out ≡ typing.member_of (world_of world.now) (name_tree named) (form_tree form) (map made_tree done.old))
        (λ _. map made_tree done.new) (world_of world.now) result }
{
    match form {
        Form::Plain(ty, is_const) => match size_or_refused(world, named.pos, &ty) {
            Err(error) => Err(error),
            Ok(size) => member_sized(world, named, ty, is_const, done, size),
        },
        Form::Unsized(_of, _is_const) => {
            Err(TypeError::Unsupported(named.pos, Construct::FlexibleArray))
        }
        Form::Callable(_params, _ret) => {
            let function = unknown_function(world);
            Err(no_init(world, named.pos, function))
        }
    }
}

// A member of a complete type of this size.
fn member_sized(
    world: &World,
    named: DeclaredName,
    ty: CType,
    is_const: bool,
    done: &mut Table<MemberMade>,
    size: u64,
) -> Result<(), TypeError>
    ensures { Answers (λ out. out ≡ typing.member_sized (world_of world.now) (name_tree named) (ctype_tree ty) is_const (map made_tree done.old) size)
        (λ _. map made_tree done.new) (world_of world.now) result }
{
    if let Some(first) = member_named(done, named.name.as_slice()) {
        return Err(TypeError::Redeclared(named.pos, first));
    }
    let offset = next_offset(world, done.as_slice(), &ty)?;
    if is_too_large(offset, size) {
        return Err(TypeError::ObjectTooLarge(named.pos, STRUCT_LIMIT));
    }
    if is_const_member(is_const, &ty) {
        return Err(TypeError::Unsupported(named.pos, Construct::ConstMember));
    }
    let DeclaredName { name, pos } = named;
    done.push(MemberMade {
        pos,
        member: Member { name, ty, offset },
    })?;
    Ok(())
}

// The place of the first member of this name.
fn member_named(done: &Table<MemberMade>, name: &[u8]) -> Option<Pos>
    ensures { result ≡ typing.member_named (map made_tree done.now) name.now }
{
    match done.first_from(name, 0) {
        None => None,
        Some(made) => Some(made.pos),
    }
}

// Whether a member of this size ends above 2 to the 40 bytes.
fn is_too_large(offset: u64, size: u64) -> bool
    ensures { result ≡ nat_lt (2 ^ 40) (offset + size) }
{
    offset.saturating_add(size) > STRUCT_LIMIT
}

// Whether a member of this type is const.
fn is_const_member(is_const: bool, ty: &CType) -> bool
    ensures { result ≡ (is_const || has_const_elements (ctype_tree ty.now)) }
{
    is_const || has_const_elements(ty)
}

// Where the next member stands.
fn next_offset(world: &World, done: &[MemberMade], ty: &CType) -> Result<u64, NoMemory>
    ensures { IfOk result (λ offset. offset ≡ typing.next_offset (world_of world.now) (map made_tree done.now) (ctype_tree ty.now)) }
{
    let end = last_end(world, done)?;
    padded(end, align_of(ty, &world.structs.defs))
}

// Where the last of the members so far ends.
fn last_end(world: &World, done: &[MemberMade]) -> Result<u64, NoMemory>
    ensures { IfOk result (λ end. end ≡ typing.last_end (world_of world.now) (map made_tree done.now)) }
{
    match done.last() {
        None => Ok(0),
        Some(made) => end_of(&world.structs.defs, made),
    }
}
