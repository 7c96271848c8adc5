// Specs, with structs and enumerations between braces, and the types that casts and sizes name.
#![tactic(auto)]

ghost use Rattle.std.specs.Prelude.{[], false, pos};
ghost use Rattle.std.specs.Option.{option_map};
ghost use Rattle.c_syntax_written.specs.Written as written;
ghost use Rattle.c_syntax_written.specs.Written.{declarator_tree, declarators_tree, enumerator_tree, enumerators_tree, expr_tree, memberdecl_tree, memberdecls_tree, spec_tree, specs_tree};
ghost use Rattle.c_typing.specs.Specifiers.{no_specs_yet};
ghost use Rattle.c_typing.specs.Typing.{OfTypeName, TypesDeclarator, TypesEnumerators, TypesMemberNames, TypesMembers, TypesSpec, TypesSpecs};
ghost use Rattle.c_typing.specs.Typing as typing;
ghost use Rattle.c_check_names.specs.Views.{Answers};
ghost use Rattle.c_check_declarators.specs.FormViews.{made_tree, part_tree};
ghost use Rattle.c_check_names.specs.Trees.{form_tree};
ghost use Rattle.c_check_names.specs.Worlds.{world_of};
ghost use Rattle.c_check_exprs.specs.Views.{ConstantForm, EnumBody, MemberLine, StructBody, ValuedConstant, members_of};

use crate::declarators::declarator;
use crate::exprs::value;
use crate::leaves::{enum_alone, enumerated, first_of, line_parts, struct_alone};
use crate::tags::{enum_begun, enum_tagged, struct_begun, struct_tagged};
use c_check_declarators::{
    MemberMade, SpecPart, SpecPlace, SpecsMade, copy_form, enumerator, member_made, struct_made,
    type_name, type_told, typedef_named,
};
use c_check_names::{Form, Table, TypeError, World};
use c_check_operators::constant_value;
use c_syntax::{
    Declarator, Declarators, Enumerator, Enumerators, Expr, MemberDecl, MemberDecls, Name, Pos,
    Spec, Specs, Tag,
};

/// The type that a cast or a `sizeof` names (C11 6.7.7). It is refused for the first of its parts that is, and then as
/// `type_name` of c_check_declarators refuses it.
#[cycle(walk)]
pub(crate) fn named_type(
    world: &mut World,
    pos: Pos,
    words: &Specs,
    shape: &Declarator,
) -> Result<Form, TypeError>
    ensures { Answers (OfTypeName (typing.first_of pos (specs_tree words.now)) (TypesSpecs (world_of world.old) false no_specs_yet (specs_tree words.now))
        (λ v. TypesDeclarator v (declarator_tree shape.now))) form_tree (world_of world.new) result }
{
    let first = first_of(pos, words);
    let made = got!(specs(world, false, words));
    let base = got!(type_told(world.alloc(), SpecPlace::PlainType, first, made));
    let shape = got!(declarator(world, shape));
    type_name(world, first, base, &shape)
}

/// The specs of a declaration, and whether they are all that it has, as a struct alone then is declared in this scope
/// (C11 6.7). Tags, members and enumeration constants are refused at their names.
#[cycle(walk)]
pub fn specs(world: &mut World, alone: bool, words: &Specs) -> Result<SpecsMade, TypeError>
    ensures { Answers (TypesSpecs (world_of world.old) alone no_specs_yet (specs_tree words.now)) made_tree (world_of world.new) result }
{
    let mut made = SpecsMade::new(world.alloc());
    let items = words.as_slice();
    'each: for item in items {
        let part = got!(spec(world, alone, item));
        made.add(part)?;
    }
    Ok(made)
}

/// One of the words and types of specs.
#[cycle(walk)]
fn spec(world: &mut World, alone: bool, item: &Spec) -> Result<SpecPart, TypeError>
    ensures { Answers (TypesSpec (world_of world.old) alone (spec_tree item.now)) part_tree (world_of world.new) result }
{
    match item {
        Spec::Storage { word, .. } => Ok(SpecPart::Storage(*word)),
        Spec::Const { .. } => Ok(SpecPart::Const),
        Spec::Basic { word, .. } => Ok(SpecPart::Word(*word)),
        Spec::TypedefName { pos, name } => typedef_named(world, *pos, name.as_slice()),
        Spec::Struct { tag, .. } => struct_alone(world, alone, tag),
        Spec::StructBody { tag, members, .. } => struct_body(world, tag.as_ref(), members),
        Spec::Enum { tag, .. } => enum_alone(world, tag),
        Spec::EnumBody {
            tag,
            enumerators,
            ..
        } => enum_body(world, tag.as_ref(), enumerators),
    }
}

/// A struct with its members (C11 6.7.2.1).
#[cycle(walk)]
fn struct_body(
    world: &mut World,
    tag: Option<&Tag>,
    list: &MemberDecls,
) -> Result<SpecPart, TypeError>
    ensures { Answers (StructBody (world_of world.old) (option_map (λ t. t.now) tag.entry) (memberdecls_tree list.now)) part_tree (world_of world.new) result }
{
    let n = got!(struct_begun(world, tag));
    let done = got!(members(world, list));
    struct_made(world, n, done)
}

/// The members of a struct, line by line.
#[cycle(walk)]
fn members(world: &mut World, list: &MemberDecls) -> Result<Table<MemberMade>, TypeError>
    ensures { Answers (TypesMembers (world_of world.old) [] (memberdecls_tree list.now)) members_of (world_of world.new) result }
{
    let mut done = Table::new(world.alloc());
    let lines = list.as_slice();
    'each: for line in lines {
        got!(member_line(world, &mut done, line));
    }
    Ok(done)
}

/// Members that are declared together, behind those before them.
#[cycle(walk)]
fn member_line(
    world: &mut World,
    done: &mut Table<MemberMade>,
    line: &MemberDecl,
) -> Result<(), TypeError>
    ensures { Answers (MemberLine (world_of world.old) (members_of done.old) (memberdecl_tree line.now)) (λ _. members_of done.new)
        (world_of world.new) result }
{
    let (pos, words, names) = line_parts(line);
    member_parts(world, done, pos, words, names)
}

/// Members of these specs and declarators.
#[cycle(walk)]
fn member_parts(
    world: &mut World,
    done: &mut Table<MemberMade>,
    pos: Pos,
    words: &Specs,
    names: &Declarators,
) -> Result<(), TypeError>
    ensures { Answers (MemberLine (world_of world.old) (members_of done.old) (written.Members pos (specs_tree words.now) (declarators_tree names.now)))
        (λ _. members_of done.new) (world_of world.new) result }
{
    let first = first_of(pos, words);
    let made = got!(specs(world, false, words));
    let base = got!(type_told(world.alloc(), SpecPlace::PlainType, first, made));
    member_names(world, first, &base, done, names)
}

/// A member for each of these declarators, by what their specs tell.
#[cycle(walk)]
fn member_names(
    world: &mut World,
    first: Pos,
    base: &Form,
    done: &mut Table<MemberMade>,
    list: &Declarators,
) -> Result<(), TypeError>
    ensures { Answers (TypesMemberNames (world_of world.old) first (form_tree base.now) (members_of done.old) (declarators_tree list.now))
        (λ _. members_of done.new) (world_of world.new) result }
{
    let shapes = list.as_slice();
    'each: for shape in shapes {
        let shape = got!(declarator(world, shape));
        let form = copy_form(world.alloc(), base)?;
        got!(member_made(world, first, form, done, shape));
    }
    Ok(())
}

/// An enumeration with its constants (C11 6.7.2.2).
#[cycle(walk)]
fn enum_body(
    world: &mut World,
    tag: Option<&Tag>,
    list: &Enumerators,
) -> Result<SpecPart, TypeError>
    ensures { Answers (EnumBody (world_of world.old) (option_map (λ t. t.now) tag.entry) (enumerators_tree list.now)) part_tree (world_of world.new) result }
{
    got!(enum_begun(world, tag));
    got!(enumerators(world, list));
    world.enum_closed(tag)?;
    Ok(enumerated())
}

/// The constants of an enumeration; the value is that of the one that would come next.
#[cycle(walk)]
fn enumerators(world: &mut World, list: &Enumerators) -> Result<i128, TypeError>
    ensures { Answers (TypesEnumerators (world_of world.old) (pos 0) (enumerators_tree list.now)) (λ n. n) (world_of world.new) result }
{
    let mut next = 0;
    let items = list.as_slice();
    'each: for item in items {
        next = got!(constant_named(world, next, item));
    }
    Ok(next)
}

/// A constant of an enumeration, whose value is `next` where it has none.
#[cycle(walk)]
fn constant_named(world: &mut World, next: i128, item: &Enumerator) -> Result<i128, TypeError>
    ensures { Answers (ConstantForm (world_of world.old) next (enumerator_tree item.now)) (λ n. n) (world_of world.new) result }
{
    match item {
        Enumerator::Plain { pos, name } => enumerator(world, *pos, *pos, name, Some(next)),
        Enumerator::Valued { pos, name, value } => constant_valued(world, *pos, name, value),
    }
}

/// A constant of an enumeration with its value.
#[cycle(walk)]
fn constant_valued(
    world: &mut World,
    pos: Pos,
    name: &Name,
    given: &Expr,
) -> Result<i128, TypeError>
    ensures { Answers (ValuedConstant (world_of world.old) pos name.now (expr_tree given.now)) (λ n. n) (world_of world.new) result }
{
    let e = got!(value(world, given));
    let n = constant_value(&e)?;
    enumerator(world, pos, given.pos(), name, n)
}
