// Whole files.
#![tactic(auto)]

ghost use Rattle.std.specs.Prelude.{IfOk, map};
ghost use Rattle.c_syntax_written.specs.WrittenFile.{file_tree, outer_tree};
ghost use Rattle.c_syntax.specs.Program.{tprogram_tree};
ghost use Rattle.c_layout.specs.WellTyped.{IsWellTyped};
ghost use Rattle.c_typing.specs.File as files;
ghost use Rattle.c_check_jumps.specs.ContextViews.{context_tree};
ghost use Rattle.c_check_names.specs.Views.{Answers};
ghost use Rattle.c_check_names.specs.Worlds.{world_of};
ghost use Rattle.c_check.specs.Checks.{Checks, HasSites, IsAlone};

use crate::outers::outer;
use c_check_functions::program_of;
use c_check_jumps::{Context, FileNames};
use c_check_names::{TypeError, World};
use c_syntax::TProgram;
use c_syntax_written::{File, Outer};
use c_typing::files_have_one;
use c_typing_laws::typed_is_well_typed;
use c_typing_places::typed_sites_agree;
use std::alloc::Global;

/// The typed program of a file (C11 6.9), or its first refusal in the order of the text. The program is well typed, and
/// where the file is that of a text, what stands at one place of a function looks at the same.
pub fn check(alloc: Global, file: File) -> Result<TProgram, TypeError>
    ensures checked { Checks (file_tree file) result }
    ensures alone { IsAlone (file_tree file) result }
    ensures well_typed { IfOk result (λ program. IsWellTyped (tprogram_tree program)) }
    ensures sites { HasSites (file_tree file) result }
{
    // The laws that the last three clauses rest on.
    files_have_one();
    typed_is_well_typed();
    typed_sites_agree();
    checked(alloc, file)
}

// The outcome of a file.
fn checked(alloc: Global, file: File) -> Result<TProgram, TypeError>
    ensures { Checks (file_tree file) result }
{
    let names = FileNames::of(alloc, &file)?;
    let around = Context::of_file(&names);
    let mut world = World::new(alloc);
    got!(outers(&mut world, around, file.outers.into_vec()));
    let program = program_of(world)?;
    Ok(program)
}

// Declarations and functions, in their order, each of which is dropped once it is typed.
fn outers(world: &mut World, around: Context, items: Vec<Outer>) -> Result<(), TypeError>
    ensures { Answers (files.TypesOuters (world_of world.old) (context_tree around.entry) (map outer_tree items.items)) (λ _. tt) (world_of world.new) result }
{
    let mut left = items;
    left.reverse();
    'each: while let Some(item) = left.pop() {
        got!(outer_once(world, around, item));
    }
    Ok(())
}

// A declaration or a function, which is dropped once it is typed.
fn outer_once(world: &mut World, around: Context, item: Outer) -> Result<(), TypeError>
    ensures { Answers (files.TypesOuter (world_of world.old) (context_tree around.entry) (outer_tree item)) (λ _. tt) (world_of world.new) result }
{
    outer(world, around, &item)
}
