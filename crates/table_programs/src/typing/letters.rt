// Types by their letters, and the structs that they name.
#![tactic(auto)]

use crate::typing::rows::Fault;
use c_check_names::Structs;
use c_syntax::{CType, IntType, Member, Members, Name, Target};
use std::alloc::{AllocError, Global};
use std::rc::Rc;

/// The type of a word, and whether it is const; none where a letter is no type.
pub fn form_of(alloc: Global, word: &str) -> Result<Option<(CType, bool)>, Fault> {
    let mut ty = None;
    let mut is_const = false;
    for letter in word.bytes().rev() {
        ty = match ty {
            None => core(letter),
            Some(_) if letter == b'k' && !is_const => {
                is_const = true;
                ty
            }
            Some(target) => {
                let around = around(alloc, letter, target, is_const)?;
                is_const = false;
                around
            }
        };
        if ty.is_none() {
            return Ok(None);
        }
    }
    Ok(ty.map(|ty| (ty, is_const)))
}

fn core(letter: u8) -> Option<CType> {
    Some(match letter {
        b'c' => CType::Int(IntType::Char),
        b'b' => CType::Int(IntType::SChar),
        b'C' => CType::Int(IntType::UChar),
        b's' => CType::Int(IntType::Short),
        b'H' => CType::Int(IntType::UShort),
        b'i' => CType::Int(IntType::Int),
        b'u' => CType::Int(IntType::UInt),
        b'l' => CType::Int(IntType::Long),
        b'L' => CType::Int(IntType::ULong),
        b'q' => CType::Int(IntType::LLong),
        b'Q' => CType::Int(IntType::ULLong),
        b'v' => CType::Void,
        b'S' => CType::Struct(0),
        b'T' => CType::Struct(1),
        _ => return None,
    })
}

fn around(
    alloc: Global,
    letter: u8,
    ty: CType,
    is_const: bool,
) -> Result<Option<CType>, AllocError> {
    let target = Rc::new(alloc, Target { ty, is_const })?;
    Ok(match letter {
        b'p' => Some(CType::Pointer(target)),
        b'a' => Some(CType::Array(target, 3)),
        _ => None,
    })
}

/// `struct s { int m; char a[3]; }` and `struct t { int m; }`.
pub fn structs(alloc: Global) -> Result<Structs, AllocError> {
    let mut structs = Structs::new(alloc);
    structs.push(name(alloc, b"s")?)?;
    structs.complete(0, two_members(alloc)?, 8, 4)?;
    add_second(alloc, &mut structs)?;
    Ok(structs)
}

fn add_second(alloc: Global, structs: &mut Structs) -> Result<(), AllocError> {
    structs.push(name(alloc, b"t")?)?;
    let members = first_member(alloc)?;
    structs.complete(1, Members::from_vec(members), 4, 4)
}

fn two_members(alloc: Global) -> Result<Members, AllocError> {
    let mut members = first_member(alloc)?;
    members.push(second_member(alloc)?)?;
    Ok(Members::from_vec(members))
}

// `char a[3]`
fn second_member(alloc: Global) -> Result<Member, AllocError> {
    let element = Target {
        ty: CType::Int(IntType::Char),
        is_const: false,
    };
    let ty = CType::Array(Rc::new(alloc, element)?, 3);
    Ok(Member {
        name: name(alloc, b"a")?,
        ty,
        offset: 4,
    })
}

fn first_member(alloc: Global) -> Result<Vec<Member>, AllocError> {
    let mut members = Vec::new(alloc);
    members.push(Member {
        name: name(alloc, b"m")?,
        ty: CType::Int(IntType::Int),
        offset: 0,
    })?;
    Ok(members)
}

fn name(alloc: Global, bytes: &[u8]) -> Result<Name, AllocError> {
    Ok(Name::from_vec(Vec::from_slice(alloc, bytes)?))
}
