// Accesses to objects by their names.
#![tactic(auto, using(csharp::proofs::CodeTrees::the_code_trees))]

ghost use Rattle.std.specs.Prelude.{◌≡◌, false, true};
ghost use Rattle.csharp.specs.Trees.{csexpr_tree};
ghost use Rattle.mem_objects.specs.Accesses.{IsAccess, named};

use crate::{Cells, KnownCell};
use block_mem::Scalar;
use c_syntax::IntType;
use csharp::CsExpr;

/// An object with what is known of it.
#[derive(Clone, Copy)]
pub struct KnownObject {
    pub number: u64,
    pub cell: KnownCell,
}

// The object whose address an expression is.
fn named(e: &CsExpr) -> Option<u64>
    ensures { result ≡ named (csexpr_tree e.now) }
{
    match e {
        CsExpr::Address { object } => Some(*object),
        CsExpr::Const { .. }
        | CsExpr::Null
        | CsExpr::Temp { .. }
        | CsExpr::Unary { .. }
        | CsExpr::Binary { .. }
        | CsExpr::Convert { .. } => None,
    }
}

// Whether an access is at this integer type.
fn is_of(ty: Scalar, own: IntType) -> bool
    ensures yes { result ≡ true → ty ≡ Scalar.Int own }
    ensures no { result ≡ false → ty ≡ Scalar.Int own → ⊥ }
{
    match ty {
        Scalar::Int(t) => t == own,
        Scalar::Pointer => false,
    }
}

/// The object that an access names by its address alone, where it is known and accessed at its own type.
pub fn accessed(cells: &Cells, address: &CsExpr, ty: Scalar) -> Option<KnownObject>
    ensures { IsAccess cells.now (csexpr_tree address.now) ty result }
{
    let number = named(address)?;
    let cell = cells.get(number)?;
    if is_of(ty, cell.ty) {
        Some(KnownObject { number, cell })
    } else {
        None
    }
}
