// The scalars that stand in objects, found by going down their types.
#![tactic(auto, using(c_syntax::proofs::Trees::the_trees))]

ghost use Rattle.std.specs.Prelude.{◌≡◌, ◌↔◌, ◌<◌, ◌≤◌, List, length, map, None, Some, IfSome, IsSomeAnd, IsTrue};
ghost use Rattle.std.specs.List.Sorted.{IsNonDecreasingBy, IsPartitionPoint};
ghost use Rattle.c_syntax.specs.Types.{Struct, ctype_tree};
ghost use Rattle.c_syntax.specs.Program.{StructDefTree, structdef_tree};
ghost use Rattle.c_layout.specs.Kept.{element};
ghost use Rattle.c_layout.specs.Layout.{size_in};
ghost use Rattle.c_layout.specs.ProperTypes.{IsProperType};
ghost use Rattle.c_layout.specs.RowTypes.{IsScalar};
ghost use Rattle.c_layout.specs.Scalars.{EachScalar, HasNoParts, HasNone, HaveSame, IsMemberType, IsScalarAt};
ghost use Rattle.c_layout.specs.Tables.{IsTypedTable};

use crate::layout::{count_of, element_of, members_of, told_room};
use c_syntax::{CType, Member, StructDef, StructDefs};

/// The type of the scalar of `size` bytes that stands at this offset of an object of the type, or
/// `None` where none does. Each array and each struct around the scalar is one step, with a search
/// by halves among the struct's members.
pub fn scalar_at<'t>(
    ty: &'t CType,
    structs: &'t StructDefs,
    offset: u64,
    size: u64,
) -> Option<&'t CType>
    requires table { IsTypedTable (map structdef_tree structs.now) }
    requires proper { IsProperType (map structdef_tree structs.now) (ctype_tree ty.now) }
    ensures there { IfSome result (λ found. IsScalarAt (map structdef_tree structs.now) (ctype_tree ty.now) offset size (ctype_tree found.now)) }
    ensures only { EachScalar (map structdef_tree structs.now) (ctype_tree ty.now) offset size (λ t. IsSomeAnd result (λ found. t ≡ ctype_tree found.now)) }
{
    scalar_in(ty, structs.as_slice(), offset, size)
}

// The same, over the table as a slice.
fn scalar_in<'t>(
    ty: &'t CType,
    structs: &'t [StructDef],
    offset: u64,
    size: u64,
) -> Option<&'t CType>
    requires table { IsTypedTable (map structdef_tree structs.now) }
    requires proper { IsProperType (map structdef_tree structs.now) (ctype_tree ty.now) }
    ensures there { IfSome result (λ found. IsScalarAt (map structdef_tree structs.now) (ctype_tree ty.now) offset size (ctype_tree found.now)) }
    ensures only { EachScalar (map structdef_tree structs.now) (ctype_tree ty.now) offset size (λ t. IsSomeAnd result (λ found. t ≡ ctype_tree found.now)) }
{
    let mut ty = ty;
    let mut offset = offset;
    // Of the structs that may still stand in one another, so that the loop ends.
    let mut left = structs.len();
    loop {
        match element_at(ty, structs, offset) {
            None => return None,
            Some((element, within)) => match element {
                CType::Struct(n) => match member_at(structs, *n, within) {
                    None => return None,
                    Some((member, inner)) => {
                        ty = member;
                        offset = inner;
                        left -= 1;
                    }
                },
                _ => return only_scalar(element, within, size),
            },
        }
    }
}

// The innermost element of an array in which the offset lies, and the offset in it. What is no
// array is its own element.
fn element_at<'t>(ty: &'t CType, structs: &'t [StructDef], offset: u64) -> Option<(&'t CType, u64)>
    requires table { IsTypedTable (map structdef_tree structs.now) }
    requires proper { IsProperType (map structdef_tree structs.now) (ctype_tree ty.now) }
    ensures none { result ≡ None → HasNone (map structdef_tree structs.now) (ctype_tree ty.now) offset }
    ensures innermost { IfSome result (λ found. ctype_tree found.0.now ≡ element (ctype_tree ty.now)) }
    ensures same { IfSome result (λ found. HaveSame (map structdef_tree structs.now) (ctype_tree ty.now) offset (ctype_tree found.0.now) found.1) }
{
    let element = element_of(ty);
    match told_room(element, structs).size {
        None => None,
        Some(0) => None,
        Some(size) => if offset / size < count_of(ty) {
            Some((element, offset % size))
        } else {
            None
        },
    }
}

// The last member of the struct that begins at the offset or before it, and the offset in it.
fn member_at<'t>(structs: &'t [StructDef], n: u64, offset: u64) -> Option<(&'t CType, u64)>
    requires { IsTypedTable (map structdef_tree structs.now) }
    ensures none { result ≡ None → HasNone (map structdef_tree structs.now) (Struct n) offset }
    ensures member { IfSome result (λ found. IsMemberType (map structdef_tree structs.now) n (ctype_tree found.0.now)) }
    ensures same { IfSome result (λ found. HaveSame (map structdef_tree structs.now) (Struct n) offset (ctype_tree found.0.now) found.1) }
{
    let members = members_of(structs, n);
    let count = count_from(members, offset);
    if count == 0 {
        return None;
    }
    let last = &members[count - 1];
    Some((&last.ty, offset - last.offset))
}

// How many of the members begin at the offset or before it, of members whose offsets rise.
fn count_from(members: &[Member], offset: u64) -> usize
    requires { IsNonDecreasingBy (λ member. member.offset) members.now }
    ensures front { IsPartitionPoint (λ member. member.offset ≤ offset) (λ member. offset < member.offset) members.now result }
    ensures few { result ≤ length members.now }
{
    members.partition_point(|member| member.offset <= offset)
}

// The type itself, where it is that of a scalar of so many bytes and the offset is 0.
fn only_scalar(ty: &CType, offset: u64, size: u64) -> Option<&CType>
    requires { HasNoParts (ctype_tree ty.now) }
    ensures there { (structs : List StructDefTree) → IfSome result (λ found. IsScalarAt structs (ctype_tree ty.now) offset size (ctype_tree found.now)) }
    ensures only { (structs : List StructDefTree)
        → EachScalar structs (ctype_tree ty.now) offset size (λ t. IsSomeAnd result (λ found. t ≡ ctype_tree found.now)) }
{
    if offset == 0 && is_scalar_of(ty, size) {
        Some(ty)
    } else {
        None
    }
}

fn is_scalar_of(ty: &CType, size: u64) -> bool
    ensures { (structs : List StructDefTree) → IsTrue result ↔ (IsScalar (ctype_tree ty.now) × (size_in structs (ctype_tree ty.now) ≡ Some size)) }
{
    match ty {
        CType::Int(t) => u64::from(t.bytes()) == size,
        CType::Pointer(_) => size == 8,
        CType::Void | CType::Array(_, _) | CType::Struct(_) | CType::Function(_) => false,
    }
}
