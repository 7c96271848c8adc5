// What the program says of a function, before its body and behind it.
#![tactic(auto)]

ghost use Rattle.std.specs.Prelude.{◌≡◌};
ghost use Rattle.c_syntax.specs.declared.statement.BlockKind.TheVariants as kinds;
ghost use Rattle.c_syntax.specs.Program.{tfunction_tree};
ghost use Rattle.c_syntax.specs.TypedStmt as trees;
ghost use Rattle.c_syntax.specs.TypedStmt.{tstmt_tree};
ghost use Rattle.c_typing.specs.File as files;
ghost use Rattle.c_typing.specs.World as worlds;
ghost use Rattle.c_check_declarators.specs.Views.{name_tree};
ghost use Rattle.c_check_decls.specs.MadeViews.{made_tree};
ghost use Rattle.c_check_names.specs.Worlds.{Encloses, world_of};
ghost use Rattle.c_check_functions.specs.Views.{begun_tree};

use crate::begun::Begun;
use crate::scopes::forget_jumps;
use c_check_declarators::DeclaredName;
use c_check_decls::Made;
use c_check_names::World;
use c_syntax::{BlockKind, Numbers, Pos, TFunction, TStmt, TStmts};

/// Behind the body of a function, whose brace opens here: its scope ends, and the function has what was made of it.
pub fn definition_ends(world: &mut World, begun: Begun, brace: Pos, made: Made)
    ensures { (outside : worlds.World) → Encloses outside begun.outside
        → world_of world.new ≡ files.definition_ends (begun_tree outside begun) brace (made_tree made) (world_of world.old) }
{
    world.close(begun.outside);
    forget_jumps(world);
    let body = body_node(brace, made);
    add_body(world, begun.number, body);
}

#[tactic(auto, using(c_syntax::proofs::Trees::the_trees))]
fn body_node(brace: Pos, made: Made) -> TStmt
    ensures { tstmt_tree result ≡ trees.Block brace kinds.Written (made_tree made).objects (made_tree made).items }
{
    let Made { objects, items } = made;
    TStmt::Block {
        pos: brace,
        kind: BlockKind::Written,
        objects: Numbers::from_vec(objects),
        items: TStmts::from_vec(items),
    }
}

// The function of this number has this body.
fn add_body(world: &mut World, n: u64, body: TStmt)
    ensures { world_of world.new ≡ files.with_function_at (world_of world.old) n (files.with_body (tstmt_tree body)) }
{
    let k = n as usize;
    if k >= world.functions.len() {
        return;
    }
    set_body(&mut world.functions[k], body);
}

fn set_body(function: &mut TFunction, body: TStmt)
    ensures { tfunction_tree function.new ≡ files.with_body (tstmt_tree body) (tfunction_tree function.old) }
{
    function.body = Some(body);
}

/// The function of this number is defined at this name, with these objects as its parameters.
pub(crate) fn define(world: &mut World, n: u64, named: &DeclaredName, params: Numbers)
    ensures { world_of world.new ≡ files.with_function_at (world_of world.old) n (files.defined_function (name_tree named.now) params) }
{
    let k = n as usize;
    if k >= world.functions.len() {
        return;
    }
    set_head(&mut world.functions[k], named, params);
}

fn set_head(function: &mut TFunction, named: &DeclaredName, params: Numbers)
    ensures { tfunction_tree function.new ≡ files.defined_function (name_tree named.now) params (tfunction_tree function.old) }
{
    function.pos = named.pos;
    function.params = params;
}
