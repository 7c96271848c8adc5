// What holds no other part.
#![tactic(auto)]

ghost use Rattle.std.specs.Prelude.{◌≡◌, Bool, false, if◌then◌else◌, nat_le};
ghost use Rattle.c_syntax.specs.Types as types;
ghost use Rattle.c_syntax_written.specs.Written as written;
ghost use Rattle.c_syntax_written.specs.Written.{declarators_tree, memberdecl_tree, specs_tree};
ghost use Rattle.c_syntax_written.specs.declared.place.Pos.{Pos};
ghost use Rattle.c_typing.specs.Nodes as nodes;
ghost use Rattle.c_typing.specs.Specifiers as specifiers;
ghost use Rattle.c_typing.specs.Typing as typing;
ghost use Rattle.c_typing.specs.World as worlds;
ghost use Rattle.c_check_operators.specs.OperandViews.{operand_tree};
ghost use Rattle.c_check_names.specs.Views.{Answers};
ghost use Rattle.c_check_declarators.specs.FormViews.{part_tree};
ghost use Rattle.c_check_names.specs.Worlds.{world_of};

use crate::tags::{enum_tagged, struct_tagged};
use c_check_declarators::SpecPart;
use c_check_names::{Form, TypeError, World};
use c_check_nodes::number;
use c_check_operators::Operand;
use c_syntax::{CType, Constant, Declarators, IntType, MemberDecl, Pos, Specs, Tag};

/// The place of the first token of specs, or this place where there are none.
pub fn first_of(pos: Pos, specs: &Specs) -> Pos
    ensures { result ≡ typing.first_of pos (specs_tree specs.now) }
{
    match specs.as_slice().split_first() {
        None => pos,
        Some((spec, _rest)) => spec.pos(),
    }
}

/// The place, the specs and the declarators of members that are declared together.
pub(crate) fn line_parts(line: &MemberDecl) -> (Pos, &Specs, &Declarators)
    ensures { memberdecl_tree line.now ≡ written.Members result.0 (specs_tree result.1.now) (declarators_tree result.2.now) }
{
    match line {
        MemberDecl::Members {
            pos,
            specs,
            declarators,
        } => (*pos, specs, declarators),
    }
}

/// An integer constant. One of more than two `l`, which no text has, is Undeclared.
pub(crate) fn integer_constant(pos: Pos, constant: Constant) -> Result<Operand, TypeError>
    ensures { (w : worlds.World) → Answers (λ out. out ≡ (if nat_le constant.longs 2 then nodes.number w pos constant
        else worlds.Refused (worlds.Undeclared pos))) operand_tree w result }
{
    if constant.longs <= 2 {
        number(pos, constant)
    } else {
        Err(TypeError::Undeclared(pos))
    }
}

/// `struct S` without members.
pub(crate) fn struct_alone(world: &mut World, alone: bool, tag: &Tag) -> Result<SpecPart, TypeError>
    ensures { (pos : Pos) → Answers (typing.TypesSpec (world_of world.old) alone (written.Struct pos tag.now)) part_tree (world_of world.new) result }
{
    match struct_tagged(world, alone, tag) {
        Err(error) => Err(error),
        Ok(n) => Ok(struct_part(n)),
    }
}

#[tactic(auto, using(c_syntax::proofs::Trees::the_trees))]
fn struct_part(n: u64) -> SpecPart
    ensures { part_tree result ≡ specifiers.TypePart (worlds.Plain (types.Struct n) false) }
{
    SpecPart::Type(Form::Plain(CType::Struct(n), false))
}

/// `enum E` without constants.
pub(crate) fn enum_alone(world: &World, tag: &Tag) -> Result<SpecPart, TypeError>
    ensures { (alone : Bool) (pos : Pos) → Answers (typing.TypesSpec (world_of world.now) alone (written.Enum pos tag.now))
        part_tree (world_of world.now) result }
{
    match enum_tagged(world, tag) {
        Err(error) => Err(error),
        Ok(()) => Ok(enumerated()),
    }
}

/// The type of an enumeration.
#[tactic(auto, using(c_syntax::proofs::Trees::the_trees))]
pub(crate) fn enumerated() -> SpecPart
    ensures { part_tree result ≡ typing.enumerated }
{
    SpecPart::Type(Form::Plain(CType::Int(IntType::Int), false))
}
