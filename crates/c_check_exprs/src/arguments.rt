// Arguments, each as by `=`.
#![tactic(auto)]

ghost use Rattle.std.specs.Prelude.{◌≡◌, Some, map};
ghost use Rattle.c_syntax.specs.Types.{ctype_tree};
ghost use Rattle.c_syntax.specs.TypedExpr.{texpr_tree, texprs_tree};
ghost use Rattle.c_syntax.specs.TypedParts.{texpr_type};
ghost use Rattle.c_syntax.specs.Program.{structdef_tree};
ghost use Rattle.c_typing.specs.Nodes as nodes;
ghost use Rattle.c_typing.specs.Rows as rows;
ghost use Rattle.c_typing.specs.World as worlds;
ghost use Rattle.c_typing.specs.World.{World};
ghost use Rattle.c_check_exprs.specs.CallViews.{IsPassed, IsPassedFirst};

use c_check_names::{TypeError, no_rule};
use c_check_operators::store_row;
use c_syntax::{CType, Op, Pos, StructDefs, TExpr, TExprs};
use std::alloc::Global;

/// The arguments as their parameters' types, in their order (C11 6.5.2.2p7). The first that no row has is NoRule at
/// the call, with the parameter's type left and its own right. What has no parameter is left out.
pub(crate) fn passed(
    alloc: Global,
    structs: &StructDefs,
    pos: Pos,
    params: &[CType],
    args: TExprs,
) -> Result<TExprs, TypeError>
    ensures { (w : World) → w.structs ≡ map structdef_tree structs.now
        → IsPassed (nodes.passed w pos (map ctype_tree params.now) (texprs_tree args)) result }
{
    let mut done = Vec::new(alloc);
    let mut wanted = params;
    // the next argument stands last
    let mut left = args.into_vec();
    left.reverse();
    'each: while let Some(arg) = left.pop() {
        match wanted.split_first() {
            None => return Ok(TExprs::from_vec(done)),
            Some((param, rest)) => {
                let value = match passed_first(alloc, structs, pos, param, arg) {
                    Err(error) => return Err(error),
                    Ok(value) => value,
                };
                done.push(value)?;
                wanted = rest;
            }
        }
    }
    Ok(TExprs::from_vec(done))
}

// An argument as its parameter's type.
fn passed_first(
    alloc: Global,
    structs: &StructDefs,
    pos: Pos,
    param: &CType,
    arg: TExpr,
) -> Result<TExpr, TypeError>
    ensures { (w : World) → w.structs ≡ map structdef_tree structs.now
        → IsPassedFirst (nodes.passed_one (worlds.no_rule w pos Op.Call (ctype_tree param.now) (Some (texpr_type (texpr_tree arg))))
        (rows.store_row (ctype_tree param.now) (texpr_type (texpr_tree arg)) (texpr_tree arg))) result }
{
    let ty = arg.ty()?;
    match store_row(alloc, param, &ty, arg)? {
        Some(value) => Ok(value),
        None => {
            let left = param.copy()?;
            Err(no_rule(alloc, structs, pos, Op::Call, left, Some(ty)))
        }
    }
}
