// Sizes, alignments and offsets of types.
#![tactic(auto, using(c_syntax::proofs::Trees::the_trees))]

ghost use Rattle.std.specs.Prelude.{◌≡◌, ℕ, ◌+◌, ◌*◌, ◌^◌, ◌≤◌, List, map, Some};
ghost use Rattle.c_syntax.specs.Types.{ctype_tree};
ghost use Rattle.c_syntax.specs.Program.{StructDefTree, member_tree, structdef_tree};
ghost use Rattle.c_layout.specs.Layout as layout;
ghost use Rattle.c_layout.specs.Layout.{align_in, laid_out, offset_named, padded, size_in, sized, space_by, space_of, spaces_by, in_table, strictest, struct_space, told};
ghost use Rattle.c_layout.specs.Kept.{IsKept, element, element_count, element_space, kept};
ghost use Rattle.c_layout.specs.LaidOut.{IsLaidOut, MeansUnfolded};
ghost use Rattle.c_layout.specs.Heights.{NoneHoldsItself};
ghost use Rattle.c_layout.specs.Tables.{IsTypedTable, PartsAreAligned, PartsLieInside, StructsHaveBytes};

use c_syntax::{CType, Member, StructDef, StructDefs};

/// The size of a type in bytes.
#[derive(Clone, Copy, Debug, PartialEq, Eq)]
pub enum Sized {
    Fits(u64),
    /// Above 2 to the 40.
    Oversize,
    /// The type is void, a function, a struct without members, or an array of such elements.
    Incomplete,
}

// The greatest size that is told.
const GREATEST_SIZE: u64 = 1 << 40;

// What stands for any size above that.
const TOO_LARGE: u64 = GREATEST_SIZE + 1;

// What an object of a type takes: its size, if the type is complete, and its alignment.
#[derive(Clone, Copy)]
pub(crate) struct Room {
    pub(crate) size: Option<u64>,
    align: u64,
}

/// The size of the type. A struct in it is laid out from its members, whatever is stored of its own
/// size, and a struct among those members takes the size and the alignment that are stored with it.
/// So each node of the type and of the members' types costs a bounded number of steps. In a table
/// that is laid out, and in which no struct holds itself, this is the size that C gives
/// (`stored_sizes_mean_unfolded`). A number that is no struct's counts as an incomplete type.
pub fn size_of(ty: &CType, structs: &StructDefs) -> Sized
    ensures { result ≡ sized (size_in (map structdef_tree structs.now) (ctype_tree ty.now)) }
{
    match room_of(ty, structs.as_slice()).size {
        None => Sized::Incomplete,
        Some(size) => if size > GREATEST_SIZE {
            Sized::Oversize
        } else {
            Sized::Fits(size)
        },
    }
}

/// The alignment of the type in bytes, which is 1 for a type that is incomplete. It is read from the
/// table as the size is (`size_of`).
pub fn align_of(ty: &CType, structs: &StructDefs) -> u64
    ensures { result ≡ align_in (map structdef_tree structs.now) (ctype_tree ty.now) }
{
    room_of(ty, structs.as_slice()).align
}

/// The offset in bytes that is stored with the member of this name, or `None` where the struct has
/// no such member. In a table that is laid out it is the offset that C gives.
pub fn offset_of(def: &StructDef, name: &[u8]) -> Option<u64>
    ensures { result ≡ offset_named (map member_tree def.now.members) name.now }
{
    let members = def.members.as_slice();
    for member in members {
        if member.name.as_slice() == name {
            return Some(member.offset);
        }
    }
    None
}

/// Where a member of a struct stands, and where it ends, in bytes from the struct's first one.
#[derive(Clone, Copy, Debug, PartialEq, Eq)]
pub struct Placement {
    pub offset: u64,
    pub end: u64,
}

/// The place of the next member of a struct, whose members so far end at `end`: the member has
/// this size and this alignment, as `size_of` and `align_of` tell them. Offsets and ends are exact
/// up to 2 to the 40, and any above is told as one more than that.
pub fn next_member(end: u64, size: u64, align: u64) -> Placement
    ensures offset { result.offset ≡ kept (padded end align) }
    ensures end { result.end ≡ kept (layout.member_end end (record { size = Some size; align = align })) }
{
    let offset = padded_end(end, align);
    Placement {
        offset,
        end: (offset + size.min(TOO_LARGE)).min(TOO_LARGE),
    }
}

/// In a table of structs that is laid out, and in which no struct holds itself, each type takes what
/// it takes where the structs in it are read by their members down to the last.
pub fn stored_sizes_mean_unfolded()
    ensures { (structs : List StructDefTree) → MeansUnfolded structs }
{}

/// In a table of structs that is laid out, the object in which a part stands has a size where the
/// part has one, and the part lies inside it.
pub fn parts_lie_inside()
    ensures { (structs : List StructDefTree) → IsLaidOut structs → PartsLieInside structs }
{}

/// In such a table, in which no struct holds itself, a part stands at a multiple of its alignment.
pub fn parts_are_aligned()
    ensures { (structs : List StructDefTree) → IsLaidOut structs → NoneHoldsItself structs → PartsAreAligned structs }
{}

/// In a table of structs that a program may have, a struct with members has a size, of at least one
/// byte and at most 2 to the 40.
pub fn structs_have_bytes()
    ensures { (structs : List StructDefTree) → IsTypedTable structs → StructsHaveBytes structs }
{}

// What a type takes, where a struct is laid out from its members.
fn room_of(ty: &CType, structs: &[StructDef]) -> Room
    ensures { IsKept result (space_of (map structdef_tree structs.now) (ctype_tree ty.now)) }
{
    array_room(count_of(ty), element_room(element_of(ty), structs))
}

// What such a type takes that is no array.
fn element_room(ty: &CType, structs: &[StructDef]) -> Room
    ensures { IsKept result (element_space (laid_out (map structdef_tree structs.now)) (ctype_tree ty.now)) }
{
    match ty {
        CType::Int(t) => scalar_room(u64::from(t.bytes())),
        CType::Pointer(_) => scalar_room(8),
        CType::Struct(n) => members_room(members_of(structs, *n), structs),
        CType::Void | CType::Array(_, _) | CType::Function(_) => no_room(),
    }
}

// What a struct with these members takes.
fn members_room(members: &[Member], structs: &[StructDef]) -> Room
    ensures { IsKept result (struct_space (spaces_by (in_table (map structdef_tree structs.now)) (map member_tree members.now))) }
{
    if members.is_empty() {
        return no_room();
    }
    let (end, align) = members_end(members, structs);
    let size = padded_end(end, align);
    Room {
        size: Some(size),
        align,
    }
}

// Where the last of the members ends, and their strictest alignment.
fn members_end(members: &[Member], structs: &[StructDef]) -> (u64, u64)
    ensures end { result.0 ≡ kept (layout.members_end (spaces_by (in_table (map structdef_tree structs.now)) (map member_tree members.now))) }
    ensures strictest { result.1 ≡ strictest (spaces_by (in_table (map structdef_tree structs.now)) (map member_tree members.now)) }
{
    let mut end = 0;
    let mut align: u64 = 1;
    for member in members {
        let room = member_room(&member.ty, structs);
        end = end_after(end, room);
        align = align.max(room.align);
    }
    (end, align)
}

// What a member takes, where a struct takes what the table tells.
fn member_room(ty: &CType, structs: &[StructDef]) -> Room
    ensures { IsKept result (space_by (in_table (map structdef_tree structs.now)) (ctype_tree ty.now)) }
{
    array_room(count_of(ty), told_room(element_of(ty), structs))
}

// What such a member takes that is no array.
pub(crate) fn told_room(ty: &CType, structs: &[StructDef]) -> Room
    ensures { IsKept result (element_space (in_table (map structdef_tree structs.now)) (ctype_tree ty.now)) }
{
    match ty {
        CType::Int(t) => scalar_room(u64::from(t.bytes())),
        CType::Pointer(_) => scalar_room(8),
        CType::Struct(n) => stored_room(structs, *n),
        CType::Void | CType::Array(_, _) | CType::Function(_) => no_room(),
    }
}

// What the table tells of a struct.
fn stored_room(structs: &[StructDef], n: u64) -> Room
    ensures { IsKept result (in_table (map structdef_tree structs.now) n) }
{
    match structs.get(n as usize) {
        None => no_room(),
        Some(def) => entry_room(def),
    }
}

// What an entry of the table tells of its struct.
fn entry_room(def: &StructDef) -> Room
    ensures { IsKept result (told (map member_tree def.now.members) (record { size = Some def.now.size; align = def.now.align })) }
{
    if def.members.as_slice().is_empty() {
        no_room()
    } else {
        Room {
            size: Some(def.size.min(TOO_LARGE)),
            align: def.align,
        }
    }
}

// The innermost element of an array of arrays; another type is its own.
pub(crate) fn element_of(ty: &CType) -> &CType
    ensures { ctype_tree result.now ≡ element (ctype_tree ty.now) }
{
    let mut ty = ty;
    while let CType::Array(of, _) = ty {
        ty = &of.ty;
    }
    ty
}

// How many of these elements it has.
pub(crate) fn count_of(ty: &CType) -> u64
    ensures { result ≡ kept (element_count (ctype_tree ty.now)) }
{
    let mut count = 1;
    let mut ty = ty;
    while let CType::Array(of, n) = ty {
        count = product(count, *n);
        ty = &of.ty;
    }
    count
}

fn product(a: u64, b: u64) -> u64
    ensures { (m n : ℕ) → kept a ≡ kept m → kept b ≡ kept n → result ≡ kept (m * n) }
{
    a.saturating_mul(b).min(TOO_LARGE)
}

fn no_room() -> Room
    ensures { IsKept result layout.no_space }
{
    Room {
        size: None,
        align: 1,
    }
}

fn scalar_room(size: u64) -> Room
    requires { size ≤ 8 }
    ensures { IsKept result (layout.scalar_space size) }
{
    Room {
        size: Some(size),
        align: size,
    }
}

fn array_room(count: u64, room: Room) -> Room
    ensures { (n : ℕ) (space : layout.Space) → count ≡ kept n → IsKept room space → IsKept result (layout.array_space n space) }
{
    let size = match room.size {
        None => None,
        Some(size) => Some(product(count, size)),
    };
    Room {
        size,
        align: room.align,
    }
}

// Where a member ends that stands after the first bytes.
fn end_after(end: u64, room: Room) -> u64
    ensures { (at : ℕ) (space : layout.Space) → kept end ≡ kept at → IsKept room space → result ≡ kept (layout.member_end at space) }
{
    let size = room.size.unwrap_or(0).min(TOO_LARGE);
    (padded_end(end, room.align) + size).min(TOO_LARGE)
}

// The next multiple of the alignment.
fn padded_end(end: u64, align: u64) -> u64
    ensures value { (at : ℕ) → kept end ≡ kept at → result ≡ kept (padded at align) }
    ensures small { result ≤ 2 ^ 40 + 1 }
{
    let end = end.min(TOO_LARGE);
    end.saturating_add(padding(end, align)).min(TOO_LARGE)
}

// An alignment of 0, which only a table that is not laid out can tell, asks for none.
fn padding(end: u64, align: u64) -> u64
    ensures { result ≡ layout.padding end align }
{
    match end.checked_rem(align) {
        None | Some(0) => 0,
        Some(past) => align - past,
    }
}

// The members of a struct, which are none where there is no such struct.
pub(crate) fn members_of(structs: &[StructDef], n: u64) -> &[Member]
    ensures { map member_tree result.now ≡ layout.members_of (map structdef_tree structs.now) n }
{
    match structs.get(n as usize) {
        None => &[],
        Some(def) => def.members.as_slice(),
    }
}
