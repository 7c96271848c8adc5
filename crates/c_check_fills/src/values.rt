// Values in parts of objects.
#![tactic(auto)]

ghost use Rattle.std.specs.Prelude.{◌≡◌, IfOk, if◌then◌else◌, None, Some};
ghost use Rattle.c_syntax.specs.declared.op.Op.TheVariants as ops;
ghost use Rattle.c_syntax.specs.Types.{ctype_tree};
ghost use Rattle.c_syntax.specs.TypedExpr.{texpr_tree};
ghost use Rattle.c_syntax.specs.TypedStmt.{tinit_tree};
ghost use Rattle.c_typing.specs.Inits as inits;
ghost use Rattle.c_typing.specs.Rows as rows;
ghost use Rattle.c_typing.specs.World as worlds;
ghost use Rattle.c_check_names.specs.Views.{Answers, Tells};
ghost use Rattle.c_check_fills.specs.RoomViews.{part_tree};
ghost use Rattle.c_check_names.specs.Worlds.{world_of};
ghost use Rattle.c_check_operators.specs.StoreViews.{stored_tree};

use crate::{Part, is_static_item};
use c_check_declarators::no_init;
use c_check_names::{TypeError, World, no_rule};
use c_check_operators::{Stored, is_scalar, stored_row};
use c_syntax::{CType, Op, Pos, TExpr, TInit};

/// A value at this place of the text fills a part, as by `=`. Where no row stores it, it is NoRule with Op `init`; what is no
/// constant is NotConstant in a static object: both at this place.
pub fn fill(
    world: &World,
    is_static: bool,
    part: Part,
    at: Pos,
    e: TExpr,
) -> Result<TInit, TypeError>
    ensures { Answers (λ out. out ≡ inits.fill (world_of world.now) is_static (part_tree part) at (texpr_tree e))
        tinit_tree (world_of world.now) result }
{
    let Part { ty, offset } = part;
    let from = e.ty()?;
    match stored_row(world.alloc(), &world.structs.defs, &ty, &from, e)? {
        None => Err(no_store(world, at, ty, from)),
        Some(stored) => {
            if is_static && !is_static_item(world.objects.as_slice(), &stored)? {
                return Err(TypeError::NotConstant(at));
            }
            Ok(item_of(offset, ty, stored))
        }
    }
}

// That no row stores a value of type `from` in a part of type `ty`. What a scalar takes has its type beside it.
fn no_store(world: &World, at: Pos, ty: CType, from: CType) -> TypeError
    ensures { Tells result (worlds.no_rule (world_of world.now) at ops.Init (ctype_tree ty)
        (if rows.is_scalar (ctype_tree ty) then Some (ctype_tree from) else None)) }
{
    if is_scalar(&ty) {
        no_rule(
            world.alloc(),
            &world.structs.defs,
            at,
            Op::Init,
            ty,
            Some(from),
        )
    } else {
        no_init(world, at, ty)
    }
}

// What is stored, as an item of an initialiser.
#[tactic(auto, using(c_syntax::proofs::Trees::the_trees))]
fn item_of(offset: u64, ty: CType, stored: Stored) -> TInit
    ensures { tinit_tree result ≡ inits.item_of offset (ctype_tree ty) (stored_tree stored) }
{
    match stored {
        Stored::Scalar(value) => TInit::Store { offset, ty, value },
        Stored::Copied(extent, source) => TInit::Copy {
            offset,
            extent,
            source,
        },
    }
}
