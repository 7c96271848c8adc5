// Refusals that are built from parts of the program.
#![tactic(auto)]

ghost use Rattle.std.specs.Prelude.{◌≡◌, IfOk, map, option_map};
ghost use Rattle.c_syntax.specs.Types.{ctype_tree};
ghost use Rattle.c_syntax.specs.Program.{structdef_tree};
ghost use Rattle.c_typing.specs.World as worlds;
ghost use Rattle.c_typing.specs.World.{World};
ghost use Rattle.c_check_names.specs.Views.{Tells};

use crate::type_error::TypeError;
use c_syntax::{CType, Names, Op, Pos, StructDefs};
use std::alloc::{AllocError, Global};

/// That no row has these types, in a program with these structs; or that memory ran out for their tags.
pub fn no_rule(
    alloc: Global,
    structs: &StructDefs,
    pos: Pos,
    op: Op,
    left: CType,
    right: Option<CType>,
) -> TypeError
    ensures { (w : World) → w.structs ≡ map structdef_tree structs.now
        → Tells result (worlds.no_rule w pos op (ctype_tree left) (option_map ctype_tree right)) }
{
    match tags_of(alloc, structs) {
        Err(_) => TypeError::NoMemory,
        Ok(tags) => TypeError::NoRule {
            pos,
            op,
            left,
            right,
            tags,
        },
    }
}

// The tags of the structs, by their numbers.
fn tags_of(alloc: Global, structs: &StructDefs) -> Result<Names, AllocError>
    ensures { IfOk result (λ tags. tags ≡ map (λ def. def.tag) structs.now) }
{
    let mut tags = Vec::new(alloc);
    for def in structs.as_slice() {
        tags.push(def.tag.copy()?)?;
    }
    Ok(Names::from_vec(tags))
}
