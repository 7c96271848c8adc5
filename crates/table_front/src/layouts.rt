// Answers of the calls on types and their numbers, a line for each line of the case.
//
// Types are written from the outside in: `array 3 pointer char` is an array of three pointers to char, `struct 0` the first
// struct of the case, and `uint`, `llong` and the like are the integer types.

use crate::text::{Written, number, shown, signed};
use c_layout::{Sized, align_of, balance, literal_type, next_member, promote, size_of, wrap};
use c_syntax::{CType, Member, Members, StructDef, StructDefs, Target};
use c_syntax_written::{IntType, Name};
use std::alloc::{AllocError, Global};
use std::mem;
use std::rc::Rc;

/// What is answered to the lines of a case, joined by `; `.
pub fn line(alloc: Global, text: &str, told: &mut String) -> Written {
    let mut structs = StructDefs::new(alloc);
    for question in text.lines() {
        answer(alloc, &mut structs, question, told)?;
    }
    Ok(())
}

// Adds what is answered to a line.
fn answer(alloc: Global, structs: &mut StructDefs, question: &str, told: &mut String) -> Written {
    if !told.is_empty() {
        told.push_str("; ")?;
    }
    let (word, rest) = question.split_once(' ').unwrap_or((question, ""));
    match word {
        "struct" => define(alloc, structs, rest, told),
        "size" => sized(alloc, structs, rest, told),
        _ => converted(word, rest, told),
    }
}

// Adds a struct of members of these types, parted by commas, and tells their offsets.
fn define(alloc: Global, structs: &mut StructDefs, members: &str, told: &mut String) -> Written {
    told.push_str("offsets")?;
    let mut making = Making::new(alloc);
    if making.take_members(alloc, members, structs, told)? {
        add(alloc, structs, making.finish(alloc))
    } else {
        told.push_str(" no type")
    }
}

fn add(alloc: Global, structs: &mut StructDefs, made: StructDef) -> Written {
    let mut defs = mem::replace(structs, StructDefs::new(alloc)).into_vec();
    defs.push(made)?;
    *structs = StructDefs::from_vec(defs);
    Ok(())
}

// A struct in the making: its members so far, where the last of them ends, and their strictest
// alignment.
#[derive(Drop)]
struct Making {
    members: Vec<Member>,
    end: u64,
    align: u64,
}

impl Making {
    fn new(alloc: Global) -> Making {
        Making {
            members: Vec::new(alloc),
            end: 0,
            align: 1,
        }
    }

    // Adds members of these types and tells their offsets, up to words that are no type, where it answers false.
    fn take_members(
        &mut self,
        alloc: Global,
        members: &str,
        structs: &StructDefs,
        told: &mut String,
    ) -> Result<bool, AllocError> {
        for words in members.split(',').filter(|words| !words.is_empty()) {
            if !self.take_member(alloc, words, structs, told)? {
                return Ok(false);
            }
        }
        Ok(true)
    }

    fn take_member(
        &mut self,
        alloc: Global,
        words: &str,
        structs: &StructDefs,
        told: &mut String,
    ) -> Result<bool, AllocError> {
        let Some(ty) = type_of(alloc, words)? else {
            return Ok(false);
        };
        let offset = self.push(alloc, ty, structs)?;
        told.push(' ')?;
        number(told, u128::from(offset))?;
        Ok(true)
    }

    // Adds a member of this type, and gives its offset.
    fn push(&mut self, alloc: Global, ty: CType, structs: &StructDefs) -> Result<u64, AllocError> {
        let own = align_of(&ty, structs);
        let place = next_member(self.end, bytes_of(size_of(&ty, structs)), own);
        self.end = place.end;
        self.align = self.align.max(own);
        self.members.push(Member {
            name: Name::new(alloc),
            ty,
            offset: place.offset,
        })?;
        Ok(place.offset)
    }

    fn finish(self, alloc: Global) -> StructDef {
        let Making {
            members,
            end,
            align,
        } = self;
        StructDef {
            tag: Name::new(alloc),
            members: Members::from_vec(members),
            size: next_member(end, 0, align).offset,
            align,
        }
    }
}

fn bytes_of(size: Sized) -> u64 {
    match size {
        Sized::Fits(bytes) => bytes,
        Sized::Oversize | Sized::Incomplete => 0,
    }
}

// Tells the size and the alignment of a type.
fn sized(alloc: Global, structs: &StructDefs, words: &str, told: &mut String) -> Written {
    let Some((size, align)) = room_of(alloc, structs, words)? else {
        return told.push_str("no type");
    };
    size_words(told, size)?;
    told.push(' ')?;
    number(told, u128::from(align))
}

fn room_of(
    alloc: Global,
    structs: &StructDefs,
    words: &str,
) -> Result<Option<(Sized, u64)>, AllocError> {
    Ok(match type_of(alloc, words)? {
        Some(ty) => Some((size_of(&ty, structs), align_of(&ty, structs))),
        None => None,
    })
}

fn size_words(told: &mut String, size: Sized) -> Written {
    match size {
        Sized::Fits(bytes) => {
            told.push_str("Fits(")?;
            number(told, u128::from(bytes))?;
            told.push(')')
        }
        Sized::Oversize => told.push_str("Oversize"),
        Sized::Incomplete => told.push_str("Incomplete"),
    }
}

// Tells what a conversion answers.
fn converted(word: &str, rest: &str, told: &mut String) -> Written {
    let (first, second) = rest.split_once(' ').unwrap_or((rest, ""));
    match word {
        "literal" => literal(first, second, told),
        "wrap" => wrapped(integer(first), second, told),
        "promote" => type_name(promoted(integer(first)), told),
        "balance" => type_name(balanced(integer(first), integer(second)), told),
        _ => told.push_str("no such word"),
    }
}

fn type_name(ty: Option<IntType>, told: &mut String) -> Written {
    match ty {
        Some(ty) => shown(told, &ty),
        None => told.push_str("no such word"),
    }
}

fn promoted(ty: Option<IntType>) -> Option<IntType> {
    Some(promote(ty?))
}

fn balanced(a: Option<IntType>, b: Option<IntType>) -> Option<IntType> {
    Some(balance(a?, b?))
}

fn wrapped(ty: Option<IntType>, value: &str, told: &mut String) -> Written {
    match (ty, value.parse::<i128>()) {
        (Some(ty), Ok(n)) => signed(told, wrap(ty, n)),
        (Some(_), Err(_)) => told.push_str("no number"),
        (None, _) => told.push_str("no such word"),
    }
}

// Tells the type of a constant of this value and suffix, as `u`, `l` or `ull`, with an `x` before it where it is not decimal.
fn literal(value: &str, suffix: &str, told: &mut String) -> Written {
    let Ok(value) = value.parse::<u64>() else {
        return told.push_str("no number");
    };
    let longs = suffix.bytes().filter(|byte| *byte == b'l').count().min(2) as u8;
    let decimal = !suffix.starts_with('x');
    match literal_type(value, decimal, suffix.contains('u'), longs) {
        Some(ty) => shown(told, &ty),
        None => told.push_str("none"),
    }
}

// A type, from its words. The last is no pointer and no array, and those before it are put around it.
fn type_of(alloc: Global, words: &str) -> Result<Option<CType>, AllocError> {
    let mut ty = None;
    let mut number = None;
    for word in words.split_whitespace().rev() {
        ty = extended(alloc, word, number, ty)?;
        number = word.parse::<u64>().ok();
    }
    Ok(ty)
}

// The type with one word more in front of it, behind which this number stands.
fn extended(
    alloc: Global,
    word: &str,
    number: Option<u64>,
    ty: Option<CType>,
) -> Result<Option<CType>, AllocError> {
    match ty {
        Some(inner) => Ok(Some(around(alloc, word, number, inner)?)),
        None => Ok(alone(word, number)),
    }
}

fn alone(word: &str, number: Option<u64>) -> Option<CType> {
    match word {
        "struct" => Some(CType::Struct(number?)),
        "void" => Some(CType::Void),
        "function" => Some(CType::Function(0)),
        _ => Some(CType::Int(integer(word)?)),
    }
}

fn around(
    alloc: Global,
    word: &str,
    number: Option<u64>,
    inner: CType,
) -> Result<CType, AllocError> {
    match (word, number) {
        ("array", Some(n)) => Ok(CType::Array(target(alloc, inner)?, n)),
        ("pointer", _) => Ok(CType::Pointer(target(alloc, inner)?)),
        _ => Ok(integer_or(word, inner)),
    }
}

fn integer_or(word: &str, ty: CType) -> CType {
    match integer(word) {
        Some(found) => CType::Int(found),
        None => ty,
    }
}

fn target(alloc: Global, ty: CType) -> Result<Rc<Target>, AllocError> {
    let target = Target {
        ty,
        is_const: false,
    };
    Ok(Rc::new(alloc, target)?)
}

fn integer(word: &str) -> Option<IntType> {
    match word {
        "char" => Some(IntType::Char),
        "schar" => Some(IntType::SChar),
        "uchar" => Some(IntType::UChar),
        "short" => Some(IntType::Short),
        "ushort" => Some(IntType::UShort),
        "int" => Some(IntType::Int),
        "uint" => Some(IntType::UInt),
        "long" => Some(IntType::Long),
        "ulong" => Some(IntType::ULong),
        "llong" => Some(IntType::LLong),
        "ullong" => Some(IntType::ULLong),
        _ => None,
    }
}
