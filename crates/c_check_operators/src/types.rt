// Types compared, and their sizes where they are complete.
#![tactic(auto, using(c_syntax::proofs::TypeTrees::type_trees))]

ghost use Rattle.std.specs.Prelude.{◌≡◌, map};
ghost use Rattle.c_syntax.specs.Types.{ctype_tree};
ghost use Rattle.c_syntax.specs.Program.{structdef_tree};
ghost use Rattle.c_layout.specs.RowTypes as row_types;
ghost use Rattle.c_typing.specs.Constants as constants;
ghost use Rattle.c_typing.specs.Operands as operands;
ghost use Rattle.c_typing.specs.Rows as rows;
ghost use Rattle.c_typing.specs.SameTypes as same;

use c_layout::{Sized, align_of, points_to_const, same_but_const, size_of};
use c_syntax::{CType, Extent, StructDefs, same_type};

/// Whether it is an integer or a pointer (C11 6.2.5p21).
pub fn is_scalar(ty: &CType) -> bool
    ensures { result ≡ rows.is_scalar (ctype_tree ty.now) }
{
    match ty {
        CType::Int(_) | CType::Pointer(_) => true,
        CType::Void | CType::Array(_, _) | CType::Struct(_) | CType::Function(_) => false,
    }
}

/// Whether it is a pointer.
pub fn is_pointer(ty: &CType) -> bool
    ensures { result ≡ constants.is_pointer (ctype_tree ty.now) }
{
    match ty {
        CType::Pointer(_) => true,
        CType::Void | CType::Int(_) | CType::Array(_, _) | CType::Struct(_) | CType::Function(_) =>
            false,
    }
}

/// Whether it is void.
pub fn is_void(ty: &CType) -> bool
    ensures { result ≡ row_types.is_void (ctype_tree ty.now) }
{
    match ty {
        CType::Void => true,
        CType::Int(_)
        | CType::Pointer(_)
        | CType::Array(_, _)
        | CType::Struct(_)
        | CType::Function(_) => false,
    }
}

/// Whether it is an array whose size is not told yet, which stands with no elements.
pub fn is_unsized(ty: &CType) -> bool
    ensures { result ≡ operands.is_unsized (ctype_tree ty.now) }
{
    match ty {
        CType::Array(_, 0) => true,
        CType::Array(_, _) => false,
        CType::Void | CType::Int(_) | CType::Pointer(_) | CType::Struct(_) | CType::Function(_) =>
            false,
    }
}

/// The size in bytes of a complete type, at most 2 to the 40. None for a type that is incomplete or above.
pub fn complete_size(structs: &StructDefs, ty: &CType) -> Option<u64>
    ensures { result ≡ operands.complete_size (map structdef_tree structs.now) (ctype_tree ty.now) }
{
    if is_unsized(ty) {
        return None;
    }
    match size_of(ty, structs) {
        Sized::Fits(size) => Some(size),
        Sized::Oversize | Sized::Incomplete => None,
    }
}

/// The size and the alignment of a complete type, as of a struct that is copied.
pub fn extent_of(structs: &StructDefs, ty: &CType) -> Option<Extent>
    ensures { result ≡ rows.extent_of (map structdef_tree structs.now) (ctype_tree ty.now) }
{
    match complete_size(structs, ty) {
        None => None,
        Some(size) => Some(Extent {
            size,
            align: align_of(ty, structs),
        }),
    }
}

/// Whether the two are one type, const included.
pub fn is_same(a: &CType, b: &CType) -> bool
    ensures { result ≡ same.is_same (ctype_tree a.now) (ctype_tree b.now) }
{
    same_type(a, b)
}

/// Whether the two are one type, but for const.
pub fn is_same_but_const(a: &CType, b: &CType) -> bool
    ensures { result ≡ same.is_same_but_const (ctype_tree a.now) (ctype_tree b.now) }
{
    same_but_const(a, b)
}

/// Whether a pointer of the first type becomes one of the second without losing const at its target
/// (C11 6.5.16.1p1).
pub fn keeps_const(from: &CType, to: &CType) -> bool
    ensures { result ≡ same.keeps_const (ctype_tree from.now) (ctype_tree to.now) }
{
    !points_to_const(from) || points_to_const(to)
}
