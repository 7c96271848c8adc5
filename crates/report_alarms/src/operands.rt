// What is shown of operands.
#![tactic(auto, using(std::proofs::lemmas::List::append_assoc))]

ghost use Rattle.std.specs.Prelude.{◌≡◌, ◌++◌, OnOk, codes, map};
ghost use Rattle.c_syntax.specs.Types.{object_tree};
ghost use Rattle.report_alarms.specs.ReportText.{placed_text, sized_text, low_text, high_text, class_text, range_text, ends_text, forbids_zero, allowed_text, is_access, kind_text, extent_text, access_text, joined, word_if, object_text, spot_text, example_text};

use crate::text::{Phrase, Text};
use c_syntax::{Check, Example, Object, Pos, Spot, WrongKind};
use std::alloc::AllocError as NoMemory;

pub(crate) fn put_placed(text: &mut Text, name: &[u8], at: Pos) -> Result<(), NoMemory>
    ensures { OnOk result (text.new ≡ text.old ++ placed_text name.now at) }
{
    text.bytes(name)?;
    text.word("@")?;
    text.number(at.line as u64)?;
    text.word(":")?;
    text.number(at.col as u64)
}

pub(crate) fn put_sized(text: &mut Text, object: &Object) -> Result<(), NoMemory>
    ensures { OnOk result (text.new ≡ text.old ++ sized_text (object_tree object.now)) }
{
    put_placed(text, object.name.as_slice(), object.pos)?;
    text.word("(")?;
    text.number(object.size)?;
    text.word(")")
}

fn put_low(text: &mut Text, end: Option<i128>) -> Result<(), NoMemory>
    ensures { OnOk result (text.new ≡ text.old ++ low_text end) }
{
    match end {
        None => text.word("-inf"),
        Some(n) => text.signed(n),
    }
}

fn put_high(text: &mut Text, end: Option<i128>) -> Result<(), NoMemory>
    ensures { OnOk result (text.new ≡ text.old ++ high_text end) }
{
    match end {
        None => text.word("inf"),
        Some(n) => text.signed(n),
    }
}

fn put_class(text: &mut Text, modulus: i128, rem: i128) -> Result<(), NoMemory>
    ensures { OnOk result (text.new ≡ text.old ++ class_text modulus rem) }
{
    if modulus < 2 {
        return Ok(());
    }
    text.word(" and = ")?;
    text.signed(rem)?;
    text.word(" mod ")?;
    text.signed(modulus)
}

pub(crate) fn put_range(
    text: &mut Text,
    lo: Option<i128>,
    hi: Option<i128>,
    modulus: i128,
    rem: i128,
) -> Result<(), NoMemory>
    ensures { OnOk result (text.new ≡ text.old ++ range_text lo hi modulus rem) }
{
    text.word("[")?;
    put_low(text, lo)?;
    text.word(",")?;
    put_high(text, hi)?;
    text.word("]")?;
    put_class(text, modulus, rem)
}

fn forbids_zero(kind: WrongKind) -> bool
    ensures { result ≡ forbids_zero kind }
{
    match kind {
        WrongKind::DivideByZero | WrongKind::AssertFailed => true,
        _ => false,
    }
}

fn is_access(kind: WrongKind) -> bool
    ensures { result ≡ is_access kind }
{
    match kind {
        WrongKind::Access | WrongKind::Alignment => true,
        _ => false,
    }
}

pub(crate) fn put_allowed(text: &mut Text, check: &Check) -> Result<(), NoMemory>
    ensures { OnOk result (text.new ≡ text.old ++ allowed_text check.now) }
{
    if forbids_zero(check.kind) {
        return text.word("not 0");
    }
    text.word("[")?;
    text.signed(check.lo)?;
    text.word(",")?;
    text.signed(check.hi)?;
    text.word("]")
}

pub(crate) fn put_access(text: &mut Text, check: &Check) -> Result<(), NoMemory>
    ensures { OnOk result (text.new ≡ text.old ++ access_text check.now) }
{
    if is_access(check.kind) {
        return put_extent(text, check.size, check.align);
    }
    Ok(())
}

fn put_extent(text: &mut Text, size: u64, align: u64) -> Result<(), NoMemory>
    ensures { OnOk result (text.new ≡ text.old ++ extent_text size align) }
{
    text.phrase(Phrase::AccessOf)?;
    text.number(size)?;
    text.phrase(Phrase::AlignedTo)?;
    text.number(align)
}

#[tactic(auto, unfolding(crate::specs::ReportText::joined_on))]
pub(crate) fn marks_words(undef: bool, value: bool, broken: bool) -> &'static str
    ensures { result.now ≡ joined (word_if undef (codes "undef") ++ (word_if value (codes "value") ++ word_if broken (codes "broken"))) }
{
    match (undef, value, broken) {
        (false, false, false) => "",
        (false, false, true) => "broken",
        (false, true, false) => "value",
        (false, true, true) => "value, broken",
        (true, false, false) => "undef",
        (true, false, true) => "undef, broken",
        (true, true, false) => "undef, value",
        (true, true, true) => "undef, value, broken",
    }
}

#[tactic(auto, unfolding(crate::specs::ReportText::joined_on))]
pub(crate) fn ends_words(value: bool, none: bool) -> &'static str
    ensures { result.now ≡ joined (word_if value (codes "value") ++ word_if none (codes "none")) }
{
    match (value, none) {
        (false, false) => "",
        (false, true) => "none",
        (true, false) => "value",
        (true, true) => "value, none",
    }
}

pub(crate) fn put_object(text: &mut Text, objects: &[Object], object: u64) -> Result<(), NoMemory>
    ensures { OnOk result (text.new ≡ text.old ++ object_text (map object_tree objects.now) object) }
{
    match objects.get(object as usize) {
        None => Ok(()),
        Some(object) => put_placed(text, object.name.as_slice(), object.pos),
    }
}

fn put_spot(text: &mut Text, objects: &[Object], spot: Spot) -> Result<(), NoMemory>
    ensures { OnOk result (text.new ≡ text.old ++ spot_text (map object_tree objects.now) spot) }
{
    match spot {
        Spot::Null => text.word("null"),
        Spot::Dead => text.word("dead"),
        Spot::At(object, offset) => {
            put_object(text, objects, object)?;
            text.word("+")?;
            text.signed(offset)
        }
    }
}

pub(crate) fn put_example(
    text: &mut Text,
    objects: &[Object],
    example: Example,
) -> Result<(), NoMemory>
    ensures { OnOk result (text.new ≡ text.old ++ example_text (map object_tree objects.now) example) }
{
    match example {
        Example::Number(n) => text.signed(n),
        Example::Point(spot) => put_spot(text, objects, spot),
        Example::Points(left, right) => {
            put_spot(text, objects, left)?;
            text.word(", ")?;
            put_spot(text, objects, right)
        }
        Example::Undef => text.word("undef"),
        Example::Broken => text.word("broken"),
        Example::Nothing => text.word("none"),
    }
}

pub(crate) fn kind_name(kind: WrongKind) -> &'static str
    ensures { result.now ≡ kind_text kind }
{
    match kind {
        WrongKind::Overflow => "Overflow",
        WrongKind::DivideByZero => "DivideByZero",
        WrongKind::Quotient => "Quotient",
        WrongKind::ShiftAmount => "ShiftAmount",
        WrongKind::ShiftResult => "ShiftResult",
        WrongKind::Indeterminate => "Indeterminate",
        WrongKind::Fragment => "Fragment",
        WrongKind::NullUse => "NullUse",
        WrongKind::Dangling => "Dangling",
        WrongKind::Bounds => "Bounds",
        WrongKind::Access => "Access",
        WrongKind::Alignment => "Alignment",
        WrongKind::ReadOnly => "ReadOnly",
        WrongKind::Unrelated => "Unrelated",
        WrongKind::NoValue => "NoValue",
        WrongKind::AssertFailed => "AssertFailed",
    }
}
