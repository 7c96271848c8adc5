// What members of a struct take, by what is stored of each struct. A number that no `u64` holds, which no program has, is
// out of memory.
#![tactic(auto)]

ghost use Rattle.std.specs.Prelude.{◌≡◌, ◌+◌, false, IfOk, Some, map, unwrap_or};
ghost use Rattle.c_syntax.specs.Types.{ctype_tree};
ghost use Rattle.c_syntax.specs.Program.{member_tree, structdef_tree};
ghost use Rattle.c_layout.specs.Layout as layout;
ghost use Rattle.c_layout.specs.WellTyped as well_typed;
ghost use Rattle.c_typing.specs.Typing as typing;
ghost use Rattle.c_check_declarators.specs.Spaces.{space_tree};
ghost use Rattle.c_check_declarators.specs.PartViews.{made_tree};

use crate::members::MemberMade;
use c_syntax::{CType, StructDef, StructDefs};
use std::alloc::AllocError as NoMemory;

/// What an object takes: its size in bytes, if its type is complete, and its alignment.
#[derive(Clone, Copy)]
pub(crate) struct Space {
    pub(crate) size: Option<u64>,
    pub(crate) align: u64,
}

/// Where a member ends.
pub(crate) fn end_of(structs: &StructDefs, made: &MemberMade) -> Result<u64, NoMemory>
    ensures { IfOk result (λ end. end ≡ made.now.member.offset
        + unwrap_or (layout.space_by (layout.in_table (map structdef_tree structs.now)) (ctype_tree made.now.member.ty)).size 0) }
{
    let space = space_of(structs, &made.member.ty)?;
    sum(made.member.offset, space.size.unwrap_or(0))
}

/// Where the last of these members ends.
pub(crate) fn members_end(structs: &StructDefs, members: &[MemberMade]) -> Result<u64, NoMemory>
    ensures { IfOk result (λ end. end ≡ layout.members_end (layout.spaces_by (layout.in_table (map structdef_tree structs.now))
        (typing.members_made (map made_tree members.now)))) }
{
    let mut end = 0;
    for made in members {
        let space = space_of(structs, &made.member.ty)?;
        end = member_end(end, space)?;
    }
    Ok(end)
}

/// The strictest alignment of these members.
pub(crate) fn strictest(structs: &StructDefs, members: &[MemberMade]) -> Result<u64, NoMemory>
    ensures { IfOk result (λ align. align ≡ layout.strictest (layout.spaces_by (layout.in_table (map structdef_tree structs.now))
        (typing.members_made (map made_tree members.now)))) }
{
    let mut align = 1;
    for made in members {
        let space = space_of(structs, &made.member.ty)?;
        align = align.max(space.align);
    }
    Ok(align)
}

// Where a member ends that stands behind the first bytes.
fn member_end(at: u64, space: Space) -> Result<u64, NoMemory>
    ensures { IfOk result (λ end. end ≡ layout.member_end at (space_tree space)) }
{
    let start = padded(at, space.align)?;
    sum(start, space.size.unwrap_or(0))
}

/// The next multiple of an alignment.
pub(crate) fn padded(at: u64, align: u64) -> Result<u64, NoMemory>
    ensures { IfOk result (λ end. end ≡ layout.padded at align) }
{
    match at.checked_rem(align) {
        None => Err(NoMemory),
        Some(0) => Ok(at),
        Some(rest) => sum(at, align - rest),
    }
}

/// The sum of two sizes.
pub(crate) fn sum(a: u64, b: u64) -> Result<u64, NoMemory>
    ensures { IfOk result (λ n. n ≡ a + b) }
{
    match a.checked_add(b) {
        None => Err(NoMemory),
        Some(n) => Ok(n),
    }
}

// What an object of this type takes.
fn space_of(structs: &StructDefs, ty: &CType) -> Result<Space, NoMemory>
    ensures { IfOk result (λ space. space_tree space ≡ layout.space_by (layout.in_table (map structdef_tree structs.now)) (ctype_tree ty.now)) }
{
    let mut part = ty;
    let mut count: u64 = 1;
    'inward: while let CType::Array(of, n) = part {
        count = match count.checked_mul(*n) {
            None => return Err(NoMemory),
            Some(count) => count,
        };
        part = &of.ty;
    }
    let all = times(count, element_space(structs, part))?;
    Ok(all)
}

// So many elements without a gap.
fn times(count: u64, space: Space) -> Result<Space, NoMemory>
    ensures { IfOk result (λ all. space_tree all ≡ layout.array_space count (space_tree space)) }
{
    let Space { size, align } = space;
    match size {
        None => Ok(Space { size: None, align }),
        Some(bytes) => match count.checked_mul(bytes) {
            None => Err(NoMemory),
            Some(all) => Ok(Space {
                size: Some(all),
                align,
            }),
        },
    }
}

// What an object takes whose type is no array.
#[tactic(auto, using(c_syntax::proofs::Trees::the_trees))]
fn element_space(structs: &StructDefs, ty: &CType) -> Space
    requires { well_typed.is_array (ctype_tree ty.now) ≡ false }
    ensures { space_tree result ≡ layout.space_by (layout.in_table (map structdef_tree structs.now)) (ctype_tree ty.now) }
{
    match ty {
        CType::Void | CType::Function(_) => no_space(),
        CType::Int(t) => scalar_space(u64::from(t.bytes())),
        CType::Pointer(_) => scalar_space(8),
        CType::Struct(n) => stored_space(structs, *n),
        CType::Array(_, _) => unreachable!(),
    }
}

fn no_space() -> Space
    ensures { space_tree result ≡ layout.no_space }
{
    Space {
        size: None,
        align: 1,
    }
}

fn scalar_space(bytes: u64) -> Space
    ensures { space_tree result ≡ layout.scalar_space bytes }
{
    Space {
        size: Some(bytes),
        align: bytes,
    }
}

// What is stored of a struct.
fn stored_space(structs: &StructDefs, n: u64) -> Space
    ensures { space_tree result ≡ layout.in_table (map structdef_tree structs.now) n }
{
    match structs.as_slice().get(n as usize) {
        None => no_space(),
        Some(def) => told_space(def),
    }
}

// A struct without members is not complete.
fn told_space(def: &StructDef) -> Space
    ensures { space_tree result ≡ layout.told (map member_tree def.now.members) (record { size = Some def.now.size; align = def.now.align }) }
{
    if def.members.as_slice().is_empty() {
        no_space()
    } else {
        Space {
            size: Some(def.size),
            align: def.align,
        }
    }
}
