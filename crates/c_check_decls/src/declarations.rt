// Declarations, declarator by declarator.
#![tactic(auto)]

ghost use Rattle.std.specs.Prelude.{map};
ghost use Rattle.c_syntax_written.specs.WrittenDecl.{decl_tree, initdeclarator_tree};
ghost use Rattle.c_typing.specs.Decls as decls;
ghost use Rattle.c_check_jumps.specs.ContextViews.{context_tree};
ghost use Rattle.c_check_names.specs.Views.{Answers};
ghost use Rattle.c_check_decls.specs.MadeViews.{made_tree};
ghost use Rattle.c_check_names.specs.Trees.{form_tree};
ghost use Rattle.c_check_names.specs.Worlds.{world_of};
ghost use Rattle.c_check_decls.specs.Forms.{OneDeclarator};

use crate::initials::initial;
use crate::structs::is_struct_alone;
use crate::{Made, declared};
use c_check_declarators::{SpecPlace, copy_form, type_told};
use c_check_exprs::{declarator, first_of, specs};
use c_check_jumps::Context;
use c_check_names::{Form, TypeError, World};
use c_syntax::{Pos, StorageWord};
use c_syntax_written::{Decl, InitDeclarator};

/// A declaration: what it is in the typed program if it stands in a block. It is refused for the first of its parts that
/// is: its specs, or a declarator with its initialiser.
pub fn declaration(world: &mut World, around: Context, decl: &Decl) -> Result<Made, TypeError>
    ensures { Answers (decls.TypesDecl (world_of world.old) (context_tree around.entry) (decl_tree decl.now)) made_tree (world_of world.new) result }
{
    let items = decl.inits.as_slice();
    let alone = is_struct_alone(&decl.specs, items);
    let made = got!(specs(world, alone, &decl.specs));
    let storage = made.storage.clone()?;
    let first = first_of(decl.pos, &decl.specs);
    let base = got!(type_told(world.alloc(), SpecPlace::Declaration, first, made));
    declarators(world, around, first, storage.as_slice(), &base, items)
}

// Declarators from left to right, by what their specs tell.
fn declarators(
    world: &mut World,
    around: Context,
    first: Pos,
    storage: &[StorageWord],
    base: &Form,
    items: &[InitDeclarator],
) -> Result<Made, TypeError>
    ensures { Answers (decls.TypesInitDeclarators (world_of world.old) (context_tree around.entry) first storage.now (form_tree base.now)
        decls.nothing_made (map initdeclarator_tree items.now)) made_tree (world_of world.new) result }
{
    let mut done = Made::nothing(world.alloc());
    'each: for item in items {
        let made = got!(one_declarator(world, around, first, storage, base, item));
        done = done.then(made)?;
    }
    Ok(done)
}

// One declarator with its initialiser.
fn one_declarator(
    world: &mut World,
    around: Context,
    first: Pos,
    storage: &[StorageWord],
    base: &Form,
    item: &InitDeclarator,
) -> Result<Made, TypeError>
    ensures { Answers (OneDeclarator (world_of world.old) (context_tree around.entry) first storage.now (form_tree base.now)
        (initdeclarator_tree item.now)) made_tree (world_of world.new) result }
{
    let shape = got!(declarator(world, &item.declarator));
    let base = copy_form(world.alloc(), base)?;
    let has_init = item.init.is_some();
    let what = got!(declared(world, around, first, storage, base, has_init, &shape));
    initial(world, what, &item.init)
}
