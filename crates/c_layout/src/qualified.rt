// Types compared but for const, and where const stands in them.
#![tactic(auto, using(c_syntax::proofs::Trees::the_trees))]

ghost use Rattle.std.specs.Prelude.{◌≡◌, ◌↔◌, IsTrue};
ghost use Rattle.c_syntax.specs.Types.{HasNoTarget, ctype_tree};
ghost use Rattle.c_layout.specs.RowTypes as rows;
ghost use Rattle.c_layout.specs.RowTypes.{KeepsConst, SameType, has_const_target};

use c_syntax::{CType, same_type};

/// Whether the two are one type, but for const.
pub fn same_but_const(a: &CType, b: &CType) -> bool
    ensures { IsTrue result ↔ SameType (ctype_tree a.now) (ctype_tree b.now) }
{
    let mut a = a;
    let mut b = b;
    loop {
        match a {
            CType::Pointer(s) => match b {
                CType::Pointer(t) => {
                    a = &s.ty;
                    b = &t.ty;
                }
                _ => return false,
            },
            CType::Array(s, m) => match b {
                CType::Array(t, n) => {
                    if m != n {
                        return false;
                    }
                    a = &s.ty;
                    b = &t.ty;
                }
                _ => return false,
            },
            CType::Void | CType::Int(_) | CType::Struct(_) | CType::Function(_) => {
                return same_core(a, b);
            }
        }
    }
}

// The same, where the first is no pointer and no array, so that no const stands in it.
fn same_core(a: &CType, b: &CType) -> bool
    requires { HasNoTarget (ctype_tree a.now) }
    ensures { IsTrue result ↔ SameType (ctype_tree a.now) (ctype_tree b.now) }
{
    same_type(a, b)
}

/// Whether a pointer of the second type, made from one of the first, keeps const: it points to
/// what is const, or the first does not. Const deeper in the types does not count.
pub fn keeps_const(from: &CType, to: &CType) -> bool
    ensures { IsTrue result ↔ KeepsConst (ctype_tree from.now) (ctype_tree to.now) }
{
    !points_to_const(from) || points_to_const(to)
}

/// Whether the type is a pointer to what is const. An array is const where its elements are.
pub fn points_to_const(ty: &CType) -> bool
    ensures { result ≡ has_const_target (ctype_tree ty.now) }
{
    match ty {
        CType::Pointer(to) => to.is_const || has_const_elements(&to.ty),
        CType::Void | CType::Int(_) | CType::Array(_, _) | CType::Struct(_) | CType::Function(_) =>
            false,
    }
}

/// Whether the type is an array whose elements, or their elements, are const.
pub fn has_const_elements(ty: &CType) -> bool
    ensures { result ≡ rows.has_const_elements (ctype_tree ty.now) }
{
    let mut ty = ty;
    while let CType::Array(of, _) = ty {
        if of.is_const {
            return true;
        }
        ty = &of.ty;
    }
    false
}
