// What stands in a file: declarations, and functions with their bodies.
#![tactic(auto)]

ghost use Rattle.c_syntax_written.specs.Written.{declarator_tree, specs_tree};
ghost use Rattle.c_syntax_written.specs.WrittenFile as written;
ghost use Rattle.c_syntax_written.specs.WrittenFile.{blockitems_tree, outer_tree};
ghost use Rattle.c_typing.specs.File as files;
ghost use Rattle.c_check_jumps.specs.ContextViews.{context_tree};
ghost use Rattle.c_check_names.specs.Views.{Answers};
ghost use Rattle.c_check_names.specs.Worlds.{world_of};

use c_check_declarators::{SpecPlace, type_told};
use c_check_decls::declaration;
use c_check_exprs::{declarator, first_of, specs};
use c_check_functions::{definition, definition_ends};
use c_check_jumps::{Context, Function, labels_of};
use c_check_names::{TypeError, World};
use c_check_stmts::block_items;
use c_syntax_written::{BlockItems, Declarator, Outer, Pos, Specs};

/// A declaration, or a function with its body. What a refusal leaves of the program is not told, and once out of memory
/// the program is only dropped.
pub(crate) fn outer(world: &mut World, around: Context, item: &Outer) -> Result<(), TypeError>
    ensures { Answers (files.TypesOuter (world_of world.old) (context_tree around.entry) (outer_tree item.now)) (λ _. tt) (world_of world.new) result }
{
    match item {
        Outer::Declared(decl) => match declaration(world, around, decl) {
            Err(error) => Err(error),
            Ok(_) => Ok(()),
        },
        Outer::Function {
            pos,
            specs,
            declarator,
            brace,
            body,
        } => function(world, around, *pos, specs, declarator, *brace, body),
    }
}

// A function with its body (C11 6.9.1).
fn function(
    world: &mut World,
    around: Context,
    pos: Pos,
    words: &Specs,
    shape: &Declarator,
    brace: Pos,
    body: &BlockItems,
) -> Result<(), TypeError>
    ensures { Answers (files.TypesOuter (world_of world.old) (context_tree around.entry)
        (written.Function pos (specs_tree words.now) (declarator_tree shape.now) brace (blockitems_tree body.now))) (λ _. tt) (world_of world.new) result }
{
    let first = first_of(pos, words);
    let made = got!(specs(world, false, words));
    let storage = made.storage.clone()?;
    let base = got!(type_told(world.alloc(), SpecPlace::Declaration, first, made));
    let shape = got!(declarator(world, shape));
    let begun = got!(definition(world, around, first, storage.as_slice(), base, shape));
    let function = Function {
        labels: labels_of(world.alloc(), body)?,
        result: begun.result.copy()?,
    };
    let items = got!(block_items(world, around.in_function(&function), body));
    definition_ends(world, begun, brace, items);
    Ok(())
}
