// Parts of objects.
#![tactic(auto, using(c_syntax::proofs::Trees::the_trees))]

ghost use Rattle.std.specs.Prelude.{◌≡◌, ◌+◌, ◌*◌, IfOk, map, slice_get, unwrap_or};
ghost use Rattle.c_syntax.specs.Types.{ctype_tree};
ghost use Rattle.c_syntax.specs.Program.{member_tree, structdef_tree};
ghost use Rattle.c_layout.specs.Layout as layout;
ghost use Rattle.c_typing.specs.CurrentObject as objects;
ghost use Rattle.c_check_fills.specs.RoomViews.{part_tree};

use c_layout::{Sized, size_of};
use c_syntax::{CType, Member, StructDefs};
use std::alloc::AllocError as NoMemory;

/// A part of an object, from this byte on.
#[derive(Drop)]
pub struct Part {
    pub ty: CType,
    pub offset: u64,
}

/// How many parts an object of this type has: a scalar is its own one part.
pub(crate) fn count_in(structs: &StructDefs, ty: &CType) -> u64
    ensures { result ≡ objects.count_in (map structdef_tree structs.now) (ctype_tree ty.now) }
{
    match ty {
        CType::Array(_, n) => *n,
        CType::Struct(n) => members_of(structs, *n).len() as u64,
        CType::Void | CType::Int(_) | CType::Pointer(_) | CType::Function(_) => 1,
    }
}

/// Part number `k` of what stands at the offset.
pub(crate) fn part_at(
    structs: &StructDefs,
    ty: &CType,
    offset: u64,
    k: u64,
) -> Result<Part, NoMemory>
    ensures { IfOk result (λ part. part_tree part ≡ objects.part_at (map structdef_tree structs.now) (ctype_tree ty.now) offset k) }
{
    match ty {
        CType::Array(of, _) => {
            let start = element_offset(structs, &of.ty, offset, k)?;
            let element = of.ty.copy()?;
            Ok(Part {
                ty: element,
                offset: start,
            })
        }
        CType::Struct(n) => {
            let part = member_at(structs, *n, offset, k)?;
            Ok(part)
        }
        CType::Void | CType::Int(_) | CType::Pointer(_) | CType::Function(_) => {
            let ty = ty.copy()?;
            Ok(Part { ty, offset })
        }
    }
}

// Where element number `k` begins of an array at the offset.
fn element_offset(structs: &StructDefs, of: &CType, offset: u64, k: u64) -> Result<u64, NoMemory>
    ensures { IfOk result (λ start. start
        ≡ offset + k * unwrap_or (layout.size_in (map structdef_tree structs.now) (ctype_tree of.now)) 0) }
{
    if k == 0 {
        return Ok(offset);
    }
    let size = element_size(structs, of)?;
    behind(offset, k, size)
}

// The size of an element, which is 0 where it is told by no one.
fn element_size(structs: &StructDefs, of: &CType) -> Result<u64, NoMemory>
    ensures { IfOk result (λ size. size ≡ unwrap_or (layout.size_in (map structdef_tree structs.now) (ctype_tree of.now)) 0) }
{
    match size_of(of, structs) {
        Sized::Fits(size) => Ok(size),
        Sized::Incomplete => Ok(0),
        Sized::Oversize => Err(NoMemory),
    }
}

// So many elements of this size behind the offset.
fn behind(offset: u64, k: u64, size: u64) -> Result<u64, NoMemory>
    ensures { IfOk result (λ start. start ≡ offset + k * size) }
{
    match k.checked_mul(size) {
        None => Err(NoMemory),
        Some(distance) => sum(offset, distance),
    }
}

fn sum(a: u64, b: u64) -> Result<u64, NoMemory>
    ensures { IfOk result (λ n. n ≡ a + b) }
{
    match a.checked_add(b) {
        None => Err(NoMemory),
        Some(n) => Ok(n),
    }
}

// Member number `k` of a struct at the offset.
fn member_at(structs: &StructDefs, n: u64, offset: u64, k: u64) -> Result<Part, NoMemory>
    ensures { IfOk result (λ part. part_tree part
        ≡ objects.member_part offset (slice_get (layout.members_of (map structdef_tree structs.now) n) k)) }
{
    match members_of(structs, n).get(k as usize) {
        None => Ok(Part {
            ty: CType::Void,
            offset,
        }),
        Some(member) => {
            let ty = member.ty.copy()?;
            let start = sum(offset, member.offset)?;
            Ok(Part { ty, offset: start })
        }
    }
}

// The members of a struct, which are none where there is no such struct.
fn members_of(structs: &StructDefs, n: u64) -> &[Member]
    ensures { map member_tree result.now ≡ layout.members_of (map structdef_tree structs.now) n }
{
    match structs.as_slice().get(n as usize) {
        None => &[],
        Some(def) => def.members.as_slice(),
    }
}
