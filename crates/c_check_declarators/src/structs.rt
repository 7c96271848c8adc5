// Structs at their `}`.
#![tactic(auto)]

ghost use Rattle.std.specs.Prelude.{◌≡◌, false, IfOk, OnOk, map, set};
ghost use Rattle.c_syntax.specs.Types as types;
ghost use Rattle.c_syntax.specs.Program.{member_tree, structdef_tree};
ghost use Rattle.c_layout.specs.Layout as layout;
ghost use Rattle.c_typing.specs.Names as names;
ghost use Rattle.c_typing.specs.Typing as typing;
ghost use Rattle.c_typing.specs.World as worlds;
ghost use Rattle.c_check_names.specs.Views.{Answers};
ghost use Rattle.c_check_declarators.specs.FormViews.{part_tree};
ghost use Rattle.c_check_names.specs.Trees.{form_tree};
ghost use Rattle.c_check_names.specs.Worlds.{world_of};
ghost use Rattle.c_check_declarators.specs.Spaces.{IsStructRoom};
ghost use Rattle.c_check_declarators.specs.PartViews.{made_tree};

use crate::SpecPart;
use crate::layouts::{members_end, padded, strictest};
use crate::members::MemberMade;
use c_check_names::{Form, Table, TypeError, World};
use c_syntax::{CType, Members, StructDefs};
use std::alloc::{AllocError as NoMemory, Global};

/// The type of struct number `n`, which has these members from its `}` on. It has no refusal. Once out of memory the
/// program is only dropped.
pub fn struct_made(
    world: &mut World,
    n: u64,
    made: Table<MemberMade>,
) -> Result<SpecPart, TypeError>
    ensures { Answers (λ out. out ≡ typing.struct_made (world_of world.old) n (map made_tree made)) part_tree (world_of world.new) result }
{
    let made = made.into_vec();
    let (size, align) = struct_space(&world.structs.defs, made.as_slice())?;
    let members = members_of(world.alloc(), made)?;
    complete(world, n, members, size, align)?;
    Ok(SpecPart::Type(struct_form(n)))
}

// The size and the alignment of a struct of these members; without members it is not complete, and has no size.
fn struct_space(structs: &StructDefs, made: &[MemberMade]) -> Result<(u64, u64), NoMemory>
    ensures { IfOk result (λ room. IsStructRoom room.0 room.1
        (layout.struct_space (layout.spaces_by (layout.in_table (map structdef_tree structs.now)) (typing.members_made (map made_tree made.now))))) }
{
    if made.is_empty() {
        return Ok((0, 1));
    }
    let end = members_end(structs, made)?;
    let align = strictest(structs, made)?;
    let size = padded(end, align)?;
    Ok((size, align))
}

// The members alone.
fn members_of(alloc: Global, made: Vec<MemberMade>) -> Result<Members, NoMemory>
    ensures { IfOk result (λ members. map member_tree members ≡ typing.members_made (map made_tree made.items)) }
{
    let mut left = made;
    left.reverse();
    let mut members = Vec::new(alloc);
    'each: while let Some(made) = left.pop() {
        let MemberMade { pos: _, member } = made;
        members.push(member)?;
    }
    Ok(Members::from_vec(members))
}

// Struct number `n` has these members, this size and this alignment from here on.
fn complete(
    world: &mut World,
    n: u64,
    members: Members,
    size: u64,
    align: u64,
) -> Result<(), NoMemory>
    ensures { OnOk result (world_of world.new ≡ record (world_of world.old) {
      structs = set (world_of world.old).structs n (record {
        tag = names.tag_of (world_of world.old).structs n;
        members = map member_tree members;
        size = size;
        align = align;
      });
    }) }
{
    world.structs.complete(n, members, size, align)
}

#[tactic(auto, using(c_syntax::proofs::Trees::the_trees))]
fn struct_form(n: u64) -> Form
    ensures { form_tree result ≡ worlds.Plain (types.Struct n) false }
{
    Form::Plain(CType::Struct(n), false)
}
