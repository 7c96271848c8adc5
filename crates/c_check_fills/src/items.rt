// Which parts of an object an item takes whole.
#![tactic(auto, using(c_syntax::proofs::Trees::the_trees))]

ghost use Rattle.std.specs.Prelude.{◌≡◌, ℕ, Bool};
ghost use Rattle.c_syntax.specs.Types.{ctype_tree};
ghost use Rattle.c_syntax.specs.Types as types;
ghost use Rattle.c_typing.specs.CurrentObject as objects;

use c_syntax::{CType, IntType};

/// An item of an initialiser that stands in no braces of its own.
#[derive(Drop)]
pub enum Item {
    /// A value of this type.
    Value(CType),
    /// A string literal.
    Text,
}

impl Item {
    ghost use Rattle.std.specs.Prelude.{◌≡◌};
    ghost use Rattle.c_syntax.specs.Types.{ctype_tree};
    ghost use Rattle.c_check_fills.specs.RoomViews.{takes};

    /// Whether a part of this type is filled with the item itself. An aggregate that is not takes it into its first part.
    pub fn takes(&self, part: &CType) -> bool
        ensures { result ≡ takes self.now (ctype_tree part.now) }
    {
        match self {
            Item::Value(ty) => takes_value(ty, part),
            Item::Text => takes_text(part),
        }
    }
}

// A value fills a scalar, or a struct of its own type (C11 6.7.9p11 and p13).
fn takes_value(ty: &CType, part: &CType) -> bool
    ensures { result ≡ objects.takes_value (ctype_tree ty.now) (ctype_tree part.now) }
{
    match part {
        CType::Void | CType::Int(_) | CType::Pointer(_) | CType::Function(_) => true,
        CType::Array(_, _) => false,
        CType::Struct(m) => match ty {
            CType::Struct(n) => m == n,
            CType::Void
            | CType::Int(_)
            | CType::Pointer(_)
            | CType::Array(_, _)
            | CType::Function(_) => false,
        },
    }
}

// A string literal fills an array of characters, or a scalar.
fn takes_text(part: &CType) -> bool
    ensures { result ≡ objects.takes_text (ctype_tree part.now) }
{
    !is_aggregate(part) || is_text(part)
}

/// Whether it is an array or a struct (C11 6.2.5p21).
pub fn is_aggregate(ty: &CType) -> bool
    ensures { result ≡ objects.is_aggregate (ctype_tree ty.now) }
{
    match ty {
        CType::Array(_, _) | CType::Struct(_) => true,
        CType::Void | CType::Int(_) | CType::Pointer(_) | CType::Function(_) => false,
    }
}

/// Whether it is an array of characters, which a string literal fills (C11 6.7.9p14).
pub fn is_text(ty: &CType) -> bool
    ensures { result ≡ objects.is_text (ctype_tree ty.now) }
{
    match ty {
        CType::Array(of, _) => is_character(&of.ty),
        CType::Void | CType::Int(_) | CType::Pointer(_) | CType::Struct(_) | CType::Function(_) =>
            false,
    }
}

fn is_character(ty: &CType) -> bool
    ensures { (is_const : Bool) (n : ℕ) → result ≡ objects.is_text (types.Array (ctype_tree ty.now) is_const n) }
{
    match ty {
        CType::Int(t) => match t {
            IntType::Char | IntType::SChar | IntType::UChar => true,
            _ => false,
        },
        CType::Void
        | CType::Pointer(_)
        | CType::Array(_, _)
        | CType::Struct(_)
        | CType::Function(_) => false,
    }
}
