// The places of objects.
#![tactic(auto, using(c_syntax::proofs::Trees::the_trees))]

ghost use Rattle.std.specs.Prelude.{◌≡◌, IfOk, map, option_map, slice_get};
ghost use Rattle.c_syntax.specs.Types.{ctype_tree, object_tree};
ghost use Rattle.c_syntax.specs.TypedExpr.{tlvalue_tree};
ghost use Rattle.c_layout.specs.RowTypes as row_types;
ghost use Rattle.c_typing.specs.Nodes as nodes;
ghost use Rattle.c_typing.specs.World.{World};
ghost use Rattle.c_check_operators.specs.OperandViews.{operand_tree};
ghost use Rattle.c_check_names.specs.Views.{Answers};

use c_check_names::TypeError;
use c_check_operators::Operand;
use c_syntax::{CType, IntType, Object, Pos, TLvalue};
use std::alloc::AllocError as NoMemory;

/// The place of object number `n` (C11 6.5.1p2). A number that no object has is Undeclared.
pub fn object_named(objects: &[Object], pos: Pos, n: u64) -> Result<Operand, TypeError>
    ensures { (w : World) → w.objects ≡ map object_tree objects.now
        → Answers (λ out. out ≡ nodes.object_named w pos n) operand_tree w result }
{
    match numbered_place(objects, pos, n)? {
        None => Err(TypeError::Undeclared(pos)),
        Some(place) => Ok(Operand::Place(place)),
    }
}

#[tactic(auto)]
fn numbered_place(objects: &[Object], pos: Pos, n: u64) -> Result<Option<TLvalue>, NoMemory>
    ensures { IfOk result (λ place. option_map tlvalue_tree place
        ≡ option_map (nodes.object_place pos n) (slice_get (map object_tree objects.now) n)) }
{
    match objects.get(n as usize) {
        None => Ok(None),
        Some(object) => {
            let place = object_place(object, pos, n)?;
            Ok(Some(place))
        }
    }
}

/// The place of this object, whose number is `n`, where it is named at this place of the text.
pub fn object_place(object: &Object, pos: Pos, n: u64) -> Result<TLvalue, NoMemory>
    ensures { IfOk result (λ place. tlvalue_tree place ≡ nodes.object_place pos n (object_tree object.now)) }
{
    Ok(TLvalue::Var {
        pos,
        object: n,
        ty: object.ty.copy()?,
        is_const: is_declared_const(object),
    })
}

// Whether it was declared const, as each read-only object was that is no literal.
fn is_declared_const(object: &Object) -> bool
    ensures { result ≡ row_types.is_declared_const (object_tree object.now) }
{
    object.read_only && !is_plain_text(&object.ty)
}

// Whether it is an array of characters that are not const.
fn is_plain_text(ty: &CType) -> bool
    ensures { result ≡ row_types.is_plain_text (ctype_tree ty.now) }
{
    match ty {
        CType::Array(of, _) => match &of.ty {
            CType::Int(t) => *t == IntType::Char && !of.is_const,
            CType::Void
            | CType::Pointer(_)
            | CType::Array(_, _)
            | CType::Struct(_)
            | CType::Function(_) => false,
        },
        CType::Void | CType::Int(_) | CType::Pointer(_) | CType::Struct(_) | CType::Function(_) =>
            false,
    }
}
