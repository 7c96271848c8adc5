// Tags of structs and enumerations.
#![tactic(auto)]

ghost use Rattle.std.specs.Prelude.{◌≡◌};
ghost use Rattle.std.specs.Option.{option_map};
ghost use Rattle.c_typing.specs.Names as names;
ghost use Rattle.c_check_names.specs.Views.{Answers};
ghost use Rattle.c_check_names.specs.Worlds.{world_of};

use crate::refused_by;
use c_check_names::{TypeError, World};
use c_syntax::Tag;

/// `struct S`, which may be all that its declaration says: the number of the struct. A tag that this scope has for an
/// enumeration is Redeclared. Once out of memory the program is only dropped.
pub fn struct_tagged(world: &mut World, alone: bool, tag: &Tag) -> Result<u64, TypeError>
    ensures { Answers (λ out. out ≡ names.struct_named (world_of world.old) alone tag.now) (λ n. n) (world_of world.new) result }
{
    match world.struct_named(alone, tag) {
        Ok(n) => Ok(n),
        Err(error) => Err(refused_by(error)),
    }
}

/// `struct S {`, or one without a tag: the number of the struct. A tag that this scope defines, or has for an enumeration,
/// is Redeclared. Once out of memory the program is only dropped.
pub fn struct_begun(world: &mut World, tag: Option<&Tag>) -> Result<u64, TypeError>
    ensures { Answers (λ out. out ≡ names.struct_opened (world_of world.old) (option_map (λ t. t.now) tag.entry)) (λ n. n) (world_of world.new) result }
{
    match world.struct_opened(tag) {
        Ok(n) => Ok(n),
        Err(error) => Err(refused_by(error)),
    }
}

/// `enum E`, which is defined before, else it is Undeclared. A tag that this scope has for a struct is Redeclared.
pub fn enum_tagged(world: &World, tag: &Tag) -> Result<(), TypeError>
    ensures { Answers (λ out. out ≡ names.enum_named (world_of world.now) tag.now) (λ u. u) (world_of world.now) result }
{
    match world.enum_named(tag) {
        Ok(()) => Ok(()),
        Err(error) => Err(refused_by(error)),
    }
}

/// `enum E {`, or one without a tag. A tag that this scope has is Redeclared. Once out of memory the program is only
/// dropped.
pub fn enum_begun(world: &mut World, tag: Option<&Tag>) -> Result<(), TypeError>
    ensures { Answers (λ out. out ≡ names.enum_opened (world_of world.old) (option_map (λ t. t.now) tag.entry)) (λ u. u) (world_of world.new) result }
{
    match world.enum_opened(tag) {
        Ok(()) => Ok(()),
        Err(error) => Err(refused_by(error)),
    }
}
