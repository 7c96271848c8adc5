// The places of members.
#![tactic(auto, using(c_syntax::proofs::Trees::the_trees))]

ghost use Rattle.std.specs.Prelude.{◌≡◌, ◌<◌, IfOk, IfSome, length, map, option_and_then, option_map, position};
ghost use Rattle.std.specs.Str.{bytes_eq};
ghost use Rattle.c_syntax.specs.Types.{ctype_tree};
ghost use Rattle.c_syntax.specs.TypedExpr.{texpr_tree, tlvalue_tree};
ghost use Rattle.c_syntax.specs.TypedParts.{tlvalue_type};
ghost use Rattle.c_syntax.specs.Program.{member_tree, structdef_tree};
ghost use Rattle.c_layout.specs.Layout as layout;
ghost use Rattle.c_typing.specs.Rows as typing;

use c_check_names::Structs;
use c_check_operators::star_row;
use c_syntax::{CType, DerefKind, Member, Pos, StructDefs, TExpr, TLvalue};
use c_syntax_written::boxed;
use std::alloc::{AllocError as NoMemory, Global};

/// `.`: the member of this name of a struct in a place (C11 6.5.2.3p1 and p3).
pub fn member_row(
    alloc: Global,
    structs: &Structs,
    pos: Pos,
    name: &[u8],
    ty: &CType,
    place: TLvalue,
) -> Result<Option<TLvalue>, NoMemory>
    ensures { IfOk result (λ row. option_map tlvalue_tree row
        ≡ typing.member_row (map structdef_tree structs.now.defs) pos name.now (ctype_tree ty.now) (tlvalue_tree place)) }
{
    match ty {
        CType::Struct(n) => member_named(alloc, structs, *n, pos, name, place),
        CType::Void | CType::Int(_) | CType::Pointer(_) | CType::Array(_, _) | CType::Function(_) =>
            Ok(None),
    }
}

/// The same, by the type of the place.
pub(crate) fn member_in(
    alloc: Global,
    structs: &Structs,
    pos: Pos,
    name: &[u8],
    place: TLvalue,
) -> Result<Option<TLvalue>, NoMemory>
    ensures { IfOk result (λ row. option_map tlvalue_tree row ≡ typing.member_row (map structdef_tree structs.now.defs) pos name.now
        (tlvalue_type (tlvalue_tree place)) (tlvalue_tree place)) }
{
    let ty = place.ty().copy()?;
    member_row(alloc, structs, pos, name, &ty, place)
}

/// `->`, as `.` behind `*` (C11 6.5.2.3p2 and p4).
pub fn arrow_row(
    alloc: Global,
    structs: &Structs,
    pos: Pos,
    name: &[u8],
    ty: &CType,
    e: TExpr,
) -> Result<Option<TLvalue>, NoMemory>
    ensures { IfOk result (λ row. option_map tlvalue_tree row
        ≡ typing.arrow_row (map structdef_tree structs.now.defs) pos name.now (ctype_tree ty.now) (texpr_tree e)) }
{
    match star_row(alloc, DerefKind::Arrow, pos, ty, e)? {
        None => Ok(None),
        Some(place) => member_in(alloc, structs, pos, name, place),
    }
}

// The member of this name of struct number `n`.
fn member_named(
    alloc: Global,
    structs: &Structs,
    n: u64,
    pos: Pos,
    name: &[u8],
    place: TLvalue,
) -> Result<Option<TLvalue>, NoMemory>
    ensures { IfOk result (λ row. option_map tlvalue_tree row
        ≡ option_and_then (typing.member_at (layout.members_of (map structdef_tree structs.now.defs) n) pos (tlvalue_tree place))
        (position (λ member. bytes_eq member.name name.now) (layout.members_of (map structdef_tree structs.now.defs) n))) }
{
    match structs.place_of(n, name) {
        None => Ok(None),
        Some(k) => member_at(alloc, members_of(&structs.defs, n), pos, k, place),
    }
}

// The members of a struct, which are none where there is no such struct.
fn members_of(structs: &StructDefs, n: u64) -> &[Member]
    ensures { map member_tree result.now ≡ layout.members_of (map structdef_tree structs.now) n }
{
    match structs.as_slice().get(n as usize) {
        None => &[],
        Some(def) => def.members.as_slice(),
    }
}

// Member number `k`.
fn member_at(
    alloc: Global,
    members: &[Member],
    pos: Pos,
    k: usize,
    place: TLvalue,
) -> Result<Option<TLvalue>, NoMemory>
    ensures { IfOk result (λ row. option_map tlvalue_tree row ≡ typing.member_at (map member_tree members.now) pos (tlvalue_tree place) k) }
{
    match members.get(k) {
        None => Ok(None),
        Some(member) => {
            let node = member_node(alloc, pos, k as u64, member, place)?;
            Ok(Some(node))
        }
    }
}

fn member_node(
    alloc: Global,
    pos: Pos,
    k: u64,
    member: &Member,
    place: TLvalue,
) -> Result<TLvalue, NoMemory>
    ensures { IfOk result (λ node. tlvalue_tree node ≡ typing.member_node pos (tlvalue_tree place) k (member_tree member.now)) }
{
    let is_const = place.is_const();
    let ty = member.ty.copy()?;
    let place = boxed(alloc, place)?;
    Ok(TLvalue::Member {
        pos,
        member: k,
        offset: member.offset,
        ty,
        is_const,
        place,
    })
}
