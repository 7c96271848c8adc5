// Types as words.

ghost use Rattle.std.specs.Prelude.{◌≡◌, [], IfOk, slice_get, string_bytes, unwrap_or};
ghost use Rattle.c_syntax.specs.Types.{HasNoTarget, ctype_tree};
ghost use Rattle.report.specs.TypeText.{array_front, struct_text, type_text};

use crate::type_words::int_name;
use c_syntax::{CType, Names};
use std::alloc::{AllocError, Global};

/// The words of a type from the outside in, where these are the tags of the structs by their numbers.
/// A struct without a tag, or without a place among the tags, is told by `struct` alone.
#[tactic(auto, using(crate::proofs::TypeWords::the_types))]
pub fn type_text(alloc: Global, tags: &Names, ty: &CType) -> Result<Vec<u8>, AllocError>
    ensures { IfOk result (λ text. text.items ≡ type_text tags.now (ctype_tree ty.now)) }
{
    let mut text = Vec::new(alloc);
    let mut ty = ty;
    loop {
        match ty {
            CType::Pointer(to) => {
                text.extend_from_slice("pointer to ".as_bytes())?;
                ty = &to.ty;
            }
            CType::Array(of, n) => {
                let front = array_front(alloc, *n)?;
                text.extend_from_slice(front.as_bytes())?;
                ty = &of.ty;
            }
            CType::Void | CType::Int(_) | CType::Struct(_) | CType::Function(_) => {
                let core = core_text(alloc, tags, ty)?;
                text.extend_from_slice(core.as_slice())?;
                return Ok(text);
            }
        }
    }
}

fn array_front(alloc: Global, n: u64) -> Result<String, AllocError>
    ensures { IfOk result (λ text. string_bytes text ≡ array_front n) }
{
    format!(in alloc; "array of {n} ")
}

// The words of a type that is no pointer and no array.
#[tactic(auto, using(crate::proofs::TypeWords::the_types))]
fn core_text(alloc: Global, tags: &Names, ty: &CType) -> Result<Vec<u8>, AllocError>
    requires { HasNoTarget (ctype_tree ty.now) }
    ensures { IfOk result (λ text. text.items ≡ type_text tags.now (ctype_tree ty.now)) }
{
    match ty {
        CType::Void => "void".as_bytes().to_vec(alloc),
        CType::Int(t) => int_name(*t).as_bytes().to_vec(alloc),
        CType::Struct(n) => struct_text(alloc, tag_of(tags, *n)),
        CType::Function(_) => "function".as_bytes().to_vec(alloc),
        CType::Pointer(_) | CType::Array(_, _) => Ok(Vec::new(alloc)),
    }
}

// The tag of the struct of this number, or none.
fn tag_of(tags: &Names, n: u64) -> &[u8]
    ensures { result.now ≡ unwrap_or (slice_get tags.now n) [] }
{
    match tags.as_slice().get(n as usize) {
        Some(tag) => tag.as_slice(),
        None => &[],
    }
}

fn struct_text(alloc: Global, tag: &[u8]) -> Result<Vec<u8>, AllocError>
    ensures { IfOk result (λ text. text.items ≡ struct_text tag.now) }
{
    if tag.is_empty() {
        return "struct".as_bytes().to_vec(alloc);
    }
    let mut text = "struct ".as_bytes().to_vec(alloc)?;
    text.extend_from_slice(tag)?;
    Ok(text)
}
