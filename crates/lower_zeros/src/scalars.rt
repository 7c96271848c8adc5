// The scalar that begins at a byte of a type, found by going down the type.
#![tactic(auto, using(c_syntax::proofs::Trees::the_trees))]

ghost use Rattle.std.specs.Prelude.{◌≡◌, ◌≤◌, ◌^◌, ℕ, suc, None, map, option_map};
ghost use Rattle.std.specs.Option.{option_copied};
ghost use Rattle.c_layout.specs.Kept.{element};
ghost use Rattle.c_layout.specs.Layout.{size_in};
ghost use Rattle.c_layout.specs.Layout as layout;
ghost use Rattle.c_syntax.specs.declared.program.Member.{Member};
ghost use Rattle.c_syntax.specs.Program.{member_tree, structdef_tree};
ghost use Rattle.c_syntax.specs.Types.{ctype_tree};
ghost use Rattle.lower_trees.specs.Zeros as zeros;
ghost use Rattle.lower_zeros.specs.Elements.{in_element};
ghost use Rattle.lower_zeros.specs.Levels.{IsNear, reached, scalar_left};

use block_mem::Scalar;
use c_layout::{Sized, size_of};
use c_syntax::{CType, Member, StructDefs};

/// What is found at a byte of a type, one struct deep.
#[derive(Clone, Copy)]
pub enum Level<'t> {
    /// The scalar that begins there, or that none does.
    Found(Option<Scalar>),
    /// A byte of a member.
    Inside(&'t CType, u64),
}

/// The scalar that begins at this byte of a type, where one does.
pub fn scalar_from(structs: &StructDefs, ty: &CType, byte: u64) -> Option<Scalar>
    requires { byte ≤ 2 ^ 40 }
    ensures { result ≡ zeros.scalar_from (map structdef_tree structs.now) (ctype_tree ty.now) byte }
{
    let mut ty = ty;
    let mut byte = byte;
    // Levels of structs in one another that may be left, and that of the scalar.
    let mut levels = structs.as_slice().len() + 1;
    while levels > 0 {
        match found_at(structs, ty, byte) {
            Level::Found(scalar) => return scalar,
            Level::Inside(member, within) => {
                ty = member;
                byte = within;
                levels -= 1;
            }
        }
    }
    None
}

// What is found one struct deep.
fn found_at<'t>(structs: &'t StructDefs, ty: &'t CType, byte: u64) -> Level<'t>
    requires { byte ≤ 2 ^ 40 }
    ensures same { (levels : ℕ) → scalar_left (suc levels) (map structdef_tree structs.now) (ctype_tree ty.now) byte
        ≡ reached levels (map structdef_tree structs.now) result }
    ensures small { IsNear result }
{
    let element = element_of(ty);
    let within = byte_of_element(structs, ty, element, byte);
    match element {
        CType::Struct(n) => match member_before(structs, *n, within) {
            None => Level::Found(None),
            Some(member) => Level::Inside(&member.ty, within.saturating_sub(member.offset)),
        },
        CType::Int(t) => Level::Found(at_first(within, Scalar::Int(*t))),
        CType::Pointer(_) => Level::Found(at_first(within, Scalar::Pointer)),
        CType::Void => Level::Found(None),
        CType::Array(_, _) => Level::Found(None),
        CType::Function(_) => Level::Found(None),
    }
}

// What an array is made of at the last; what is no array is its own element.
fn element_of(ty: &CType) -> &CType
    ensures { ctype_tree result.now ≡ element (ctype_tree ty.now) }
{
    let mut ty = ty;
    while let CType::Array(of, _) = ty {
        ty = &of.ty;
    }
    ty
}

// A scalar that begins at its own first byte.
fn at_first(byte: u64, ty: Scalar) -> Option<Scalar>
    ensures { result ≡ zeros.at_first byte ty }
{
    if byte == 0 { Some(ty) } else { None }
}

// The byte of an array in the element that it lies in; of what is no array the byte itself.
fn byte_of_element(structs: &StructDefs, ty: &CType, element: &CType, byte: u64) -> u64
    requires small { byte ≤ 2 ^ 40 }
    ensures value { result ≡ in_element (size_in (map structdef_tree structs.now) (ctype_tree element.now)) (ctype_tree ty.now) byte }
    ensures few { result ≤ byte }
{
    match ty {
        CType::Array(_, _) => match size_of(element, structs) {
            Sized::Incomplete => 0,
            Sized::Oversize => byte,
            Sized::Fits(size) => if size == 0 { byte } else { byte % size },
        },
        CType::Void | CType::Int(_) | CType::Pointer(_) | CType::Struct(_) | CType::Function(_) =>
            byte,
    }
}

// The last member of a struct that begins at a byte or before it.
fn member_before(structs: &StructDefs, n: u64, byte: u64) -> Option<&Member>
    ensures { option_map (λ (found : Member). member_tree found) (option_copied result)
        ≡ zeros.member_before byte None (layout.members_of (map structdef_tree structs.now) n) }
{
    match structs.as_slice().get(n as usize) {
        None => None,
        Some(def) => last_before(def.members.as_slice(), byte),
    }
}

fn last_before(members: &[Member], byte: u64) -> Option<&Member>
    ensures { option_map (λ (found : Member). member_tree found) (option_copied result) ≡ zeros.member_before byte None (map member_tree members.now) }
{
    let mut found = None;
    for member in members {
        if member.offset <= byte {
            found = Some(member);
        }
    }
    found
}
