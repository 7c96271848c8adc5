// What is known of a value that is stored.

ghost use Rattle.std.specs.Prelude.{◌≡◌, [], false, true, IfOk, IfSome};
ghost use Rattle.c_syntax_written.specs.declared.int_type.IntType.{IntType as IntegerType};
ghost use Rattle.pointsets.specs.Targets.{Among};
ghost use Rattle.block_mem.specs.declared.types.Scalar.TheVariants as scalars;
ghost use Rattle.csharp.specs.Trees.{csexpr_tree};
ghost use Rattle.mem_cell_stores.specs.Changes.{IsCellFor, IsContentOf};

use block_mem::Scalar;
use c_syntax::IntType;
use csharp::CsExpr;
use mem_cell_bytes::{Entry, SharedSet};
use mem_cell_exprs::{Known, number, pointer};
use mem_cell_loads::{Content, anything};
use num_api::{NumDomain, Range};
use pointsets::Base;
use std::alloc::AllocError as NoMemory;

// What is known of the value of an integer expression.
fn int_content<D: NumDomain>(known: &Known<D>, value: &CsExpr) -> Result<Content, NoMemory>
    ensures { IfOk result (λ l. (t : IntegerType) → IsContentOf D.admits known.now (csexpr_tree value.now) (scalars.Int t) l) }
{
    match number(known.alloc, known.types.as_slice(), value)? {
        Some(m) => Ok(Content {
            number: Some(m),
            range: Range::all(),
            set: None,
        }),
        None => Ok(anything()),
    }
}

// What is known of the value of a pointer.
fn pointer_content<D: NumDomain>(known: &Known<D>, value: &CsExpr) -> Result<Content, NoMemory>
    ensures { IfOk result (λ l. IsContentOf D.admits known.now (csexpr_tree value.now) scalars.Pointer l) }
{
    match pointer(known, value)? {
        Some(place) => Ok(Content {
            number: place.offset,
            range: Range::all(),
            set: Some(place.set),
        }),
        None => Ok(anything()),
    }
}

/// What is known of the value of an expression of a type.
pub fn content_of<D: NumDomain>(
    known: &Known<D>,
    ty: Scalar,
    value: &CsExpr,
) -> Result<Content, NoMemory>
    ensures { IfOk result (λ l. IsContentOf D.admits known.now (csexpr_tree value.now) ty l) }
{
    match ty {
        Scalar::Int(_) => int_content(known, value),
        Scalar::Pointer => pointer_content(known, value),
    }
}

// A cell of a number.
fn number_cell(at: u64, ty: IntType) -> Entry
    ensures { result ≡ record { offset = at; ty = ty; undef = false; value = true; targets = Among [] false false } }
{
    Entry {
        offset: at,
        ty,
        undef: false,
        value: true,
        targets: SharedSet::none(),
    }
}

/// The cell of a value of a type of which this is known; none of a pointer of which it is not known where it points.
pub fn cell_for(at: u64, ty: Scalar, content: &Content) -> Result<Option<Entry>, NoMemory>
    ensures { IfOk result (λ found. IfSome found (λ e. IsCellFor at ty content.now e)) }
{
    match ty {
        Scalar::Int(ty) => Ok(Some(number_cell(at, ty))),
        Scalar::Pointer => match &content.set {
            Some(set) => Ok(Some(Entry {
                offset: at,
                ty: IntType::Long,
                undef: false,
                value: set.holds(Base::Null),
                targets: set.share()?,
            })),
            None => Ok(None),
        },
    }
}
