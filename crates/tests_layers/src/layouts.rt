// What the table of layouts, that of the program `table_front`, cannot say.

use c_layout::*;
use c_syntax::{CType, IntType, Member, Members, Name, StructDef, StructDefs};
use std::alloc::{AllocError, Global};

const CHAR: CType = CType::Int(IntType::Char);

const INT: CType = CType::Int(IntType::Int);

const LONG: CType = CType::Int(IntType::Long);

fn member(alloc: Global, name: &str, ty: CType, offset: u64) -> Result<Member, AllocError> {
    let bytes = Vec::from_slice(alloc, name.as_bytes())?;
    Ok(Member {
        name: Name::from_vec(bytes),
        ty,
        offset,
    })
}

fn definition(alloc: Global, members: Vec<Member>, size: u64, align: u64) -> StructDef {
    StructDef {
        tag: Name::new(alloc),
        members: Members::from_vec(members),
        size,
        align,
    }
}

// struct { FIRST a; SECOND b; THIRD c; }, each with its offset, and the struct's size and alignment
fn triple(
    alloc: Global,
    a: (CType, u64),
    b: (CType, u64),
    c: (CType, u64),
    size: u64,
    align: u64,
) -> Result<StructDef, AllocError> {
    let mut members = Vec::new(alloc);
    members.push(member(alloc, "a", a.0, a.1)?)?;
    members.push(member(alloc, "b", b.0, b.1)?)?;
    members.push(member(alloc, "c", c.0, c.1)?)?;
    Ok(definition(alloc, members, size, align))
}

// struct { STRUCT a, b; } of the struct before, of which each takes so many bytes
fn double(alloc: Global, before: u64, bytes: u64) -> Result<StructDef, AllocError> {
    let mut members = Vec::new(alloc);
    members.push(member(alloc, "a", CType::Struct(before), 0)?)?;
    members.push(member(alloc, "b", CType::Struct(before), bytes)?)?;
    Ok(definition(alloc, members, bytes.saturating_mul(2), 1))
}

// A table of structs, of which the first one's entry is not filled in.
fn four_structs(alloc: Global) -> Result<StructDefs, AllocError> {
    let mut defs = Vec::new(alloc);
    let open = (CType::Struct(1), 8);
    defs.push(triple(alloc, (INT, 0), open, (CHAR, 40), 0, 0)?)?;
    defs.push(triple(alloc, (LONG, 0), (LONG, 8), (LONG, 16), 32, 8)?)?;
    defs.push(triple(alloc, (CHAR, 0), (CHAR, 1), (CHAR, 2), u64::MAX, u64::MAX)?)?;
    defs.push(double(alloc, 2, u64::MAX)?)?;
    Ok(StructDefs::from_vec(defs))
}

static SIZES: [(u64, Sized); 4] = [
    (0, Sized::Fits(48)),
    (1, Sized::Fits(24)),
    (2, Sized::Fits(3)),
    (3, Sized::Oversize),
];

fn size_at(structs: &StructDefs, number: u64) -> Sized {
    size_of(&CType::Struct(number), structs)
}

fn align_at(structs: &StructDefs, number: u64) -> u64 {
    align_of(&CType::Struct(number), structs)
}

// A struct's own entry need not be filled in, and the entries of its members are read.
#[test]
fn entries_are_told(rt: HostRuntime) -> Result<(), AllocError> {
    let structs = four_structs(rt.alloc())?;
    for (number, size) in &SIZES {
        assert_eq!(rt; size_at(&structs, *number), *size);
    }
    assert_eq!(rt; align_at(&structs, 0), 8);
    assert_eq!(rt; align_at(&structs, 3), u64::MAX);
    Ok(())
}

// char c[5]; int k; and one that ends past what is told.
#[test]
fn places_of_members(rt: HostRuntime) {
    let second = Placement { offset: 8, end: 12 };
    assert_eq!(rt; next_member(5, 4, 4), second);
    let end = (1 << 40) + 1;
    let last = Placement { offset: 16, end };
    assert_eq!(rt; next_member(9, 1 << 40, 8), last);
}
