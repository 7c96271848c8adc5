// What is known of the value of an expression.

ghost use Rattle.std.specs.Prelude.{IfOk};
ghost use Rattle.c_syntax_written.specs.declared.int_type.IntType.{IntType as IntegerType};
ghost use Rattle.block_mem.specs.declared.types.Scalar.TheVariants as scalars;
ghost use Rattle.csharp.specs.Trees.{csexpr_tree};
ghost use Rattle.mem_cell_stores.specs.Changes.{IsContentOf};

use block_mem::Scalar;
use csharp::CsExpr;
use mem_cell_exprs::{Known, number, pointer};
use mem_cell_loads::{Content, anything};
use num_api::{NumDomain, Range};
use std::alloc::AllocError as NoMemory;

// What is known of the value of an integer expression.
fn int_content<D: NumDomain>(known: &Known<D>, value: &CsExpr) -> Result<Content, NoMemory>
    ensures { IfOk result (λ l. (t : IntegerType) → IsContentOf D.admits known.now (csexpr_tree value.now) (scalars.Int t) l) }
{
    match number(known.alloc, known.types.as_slice(), value)? {
        Some(m) => Ok(Content {
            number: Some(m),
            range: Range::all(),
            set: None,
        }),
        None => Ok(anything()),
    }
}

// What is known of the value of a pointer.
fn pointer_content<D: NumDomain>(known: &Known<D>, value: &CsExpr) -> Result<Content, NoMemory>
    ensures { IfOk result (λ l. IsContentOf D.admits known.now (csexpr_tree value.now) scalars.Pointer l) }
{
    match pointer(known, value)? {
        Some(place) => Ok(Content {
            number: place.offset,
            range: Range::all(),
            set: Some(place.set),
        }),
        None => Ok(anything()),
    }
}

/// What is known of the value of an expression of a type.
pub fn content_of<D: NumDomain>(
    known: &Known<D>,
    ty: Scalar,
    value: &CsExpr,
) -> Result<Content, NoMemory>
    ensures { IfOk result (λ l. IsContentOf D.admits known.now (csexpr_tree value.now) ty l) }
{
    match ty {
        Scalar::Int(_) => int_content(known, value),
        Scalar::Pointer => pointer_content(known, value),
    }
}
