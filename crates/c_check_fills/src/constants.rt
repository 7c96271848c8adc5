// What a static object may hold.
#![tactic(auto)]

ghost use Rattle.std.specs.Prelude.{◌≡◌, IfOk, map};
ghost use Rattle.c_syntax.specs.Types.{object_tree};
ghost use Rattle.c_syntax.specs.TypedExpr.{texpr_tree};
ghost use Rattle.c_typing.specs.Inits as inits;
ghost use Rattle.c_check_operators.specs.StoreViews.{stored_tree};

use c_check_nodes::static_address;
use c_check_operators::{Stored, constant_value};
use c_syntax::{Object, TExpr};
use std::alloc::AllocError as NoMemory;

/// Whether a static object may hold what is stored: a constant, and no copied struct (C11 6.7.9p4).
pub fn is_static_item(objects: &[Object], stored: &Stored) -> Result<bool, NoMemory>
    ensures { IfOk result (λ is. is ≡ inits.is_static_item (map object_tree objects.now) (stored_tree stored.now)) }
{
    match stored {
        Stored::Scalar(value) => is_constant(objects, value),
        Stored::Copied(_, _) => Ok(false),
    }
}

// An integer constant expression, or a static address.
fn is_constant(objects: &[Object], e: &TExpr) -> Result<bool, NoMemory>
    ensures { IfOk result (λ is. is ≡ inits.is_constant (map object_tree objects.now) (texpr_tree e.now)) }
{
    let value = constant_value(e)?;
    if value.is_some() {
        return Ok(true);
    }
    let address = static_address(objects, e)?;
    Ok(address.is_some())
}
