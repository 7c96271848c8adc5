// Facts.
#![tactic(auto, using(std::proofs::lemmas::List::append_assoc, c_syntax::proofs::Trees::the_trees))]

ghost use Rattle.std.specs.Prelude.{◌≡◌, ◌++◌, OnOk, codes, map, slice_get};
ghost use Rattle.std.specs.Fmt.{signed_decimal};
ghost use Rattle.std.specs.List.{flat_map};
ghost use Rattle.c_syntax.specs.Types.{ctype_tree, object_tree};
ghost use Rattle.report_alarms.specs.ReportText.{cell_text, fact_line, fact_text, is_plus, is_scalar, is_whole, part_text, sum_text};

use crate::operands::put_object;
use crate::sets::put_set;
use crate::text::{Phrase, Text};
use c_syntax::{CType, Cell, Fact, Object};
use std::alloc::AllocError as NoMemory;

fn is_scalar(ty: &CType) -> bool
    ensures { result ≡ is_scalar (ctype_tree ty.now) }
{
    match ty {
        CType::Int(_) | CType::Pointer(_) => true,
        CType::Void | CType::Array(_, _) | CType::Struct(_) | CType::Function(_) => false,
    }
}

// Whether the cell is all of a scalar object.
fn is_whole(objects: &[Object], cell: Cell) -> bool
    ensures { result ≡ is_whole cell (slice_get (map object_tree objects.now) cell.object) }
{
    match objects.get(cell.object as usize) {
        None => false,
        Some(object) => { is_scalar(&object.ty) && cell.offset == 0 && cell.size == object.size }
    }
}

fn put_part(text: &mut Text, cell: Cell) -> Result<(), NoMemory>
    ensures { OnOk result (text.new ≡ text.old ++ part_text cell) }
{
    text.word("+")?;
    text.number(cell.offset)?;
    text.word(":")?;
    text.number(cell.size)
}

fn put_cell(text: &mut Text, objects: &[Object], cell: Cell) -> Result<(), NoMemory>
    ensures { OnOk result (text.new ≡ text.old ++ cell_text (map object_tree objects.now) cell) }
{
    put_object(text, objects, cell.object)?;
    if is_whole(objects, cell) {
        return Ok(());
    }
    put_part(text, cell)
}

fn put_two(
    text: &mut Text,
    objects: &[Object],
    first: Cell,
    words: &str,
    second: Cell,
) -> Result<(), NoMemory>
    ensures { OnOk result (text.new ≡ text.old ++ (cell_text (map object_tree objects.now) first ++ (words.now ++ cell_text (map object_tree objects.now) second))) }
{
    put_cell(text, objects, first)?;
    text.word(words)?;
    put_cell(text, objects, second)
}

fn put_sum(
    text: &mut Text,
    objects: &[Object],
    is_first_plus: bool,
    first: Cell,
    is_second_plus: bool,
    second: Cell,
) -> Result<(), NoMemory>
    ensures { OnOk result (text.new ≡ text.old
        ++ sum_text is_first_plus (cell_text (map object_tree objects.now) first) is_second_plus (cell_text (map object_tree objects.now) second)) }
{
    match (is_first_plus, is_second_plus) {
        (true, true) => put_two(text, objects, first, " + ", second),
        (true, false) => put_two(text, objects, first, " - ", second),
        (false, true) => put_two(text, objects, second, " - ", first),
        (false, false) => {
            text.word("-")?;
            put_two(text, objects, first, " - ", second)
        }
    }
}

fn put_between(text: &mut Text, lo: i128, hi: i128) -> Result<(), NoMemory>
    ensures { OnOk result (text.new ≡ text.old ++ (codes " in [" ++ (signed_decimal lo ++ (codes "," ++ (signed_decimal hi ++ codes "]"))))) }
{
    text.word(" in [")?;
    text.signed(lo)?;
    text.word(",")?;
    text.signed(hi)?;
    text.word("]")
}

fn put_fact(text: &mut Text, objects: &[Object], fact: &Fact) -> Result<(), NoMemory>
    ensures { OnOk result (text.new ≡ text.old ++ fact_text (map object_tree objects.now) fact.now) }
{
    match fact {
        Fact::Between { x, lo, hi } => {
            put_cell(text, objects, *x)?;
            put_between(text, *lo, *hi)
        }
        Fact::Class { x, rem, modulus } => {
            put_cell(text, objects, *x)?;
            text.word(" = ")?;
            text.signed(*rem)?;
            text.word(" mod ")?;
            text.signed(*modulus)
        }
        Fact::AtMost {
            sx,
            x,
            sy,
            y,
            bound,
        } => {
            put_sum(text, objects, *sx == 1, *x, *sy == 1, *y)?;
            text.word(" <= ")?;
            text.signed(*bound)
        }
        Fact::PointsTo { x, set } => {
            put_cell(text, objects, *x)?;
            text.word(" in ")?;
            put_set(text, objects, set)
        }
    }
}

fn put_fact_line(text: &mut Text, objects: &[Object], fact: &Fact) -> Result<(), NoMemory>
    ensures { OnOk result (text.new ≡ text.old ++ fact_line (map object_tree objects.now) fact.now) }
{
    text.phrase(Phrase::FactLine)?;
    put_fact(text, objects, fact)?;
    text.word("\n")
}

pub(crate) fn put_facts(text: &mut Text, objects: &[Object], facts: &[Fact]) -> Result<(), NoMemory>
    ensures { OnOk result (text.new ≡ text.old ++ flat_map (fact_line (map object_tree objects.now)) facts.now) }
{
    let mut left = facts;
    'each: while let Some((fact, rest)) = left.split_first() {
        put_fact_line(text, objects, fact)?;
        left = rest;
    }
    Ok(())
}
