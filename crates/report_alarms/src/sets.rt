// Sets of pointers.
#![tactic(auto, using(std::proofs::lemmas::List::append_assoc))]

ghost use Rattle.std.specs.Prelude.{◌≡◌, ◌++◌, ◌∷◌, ◌<◌, suc, drop, length, false, true, List, ℕ, IfOk, MatchOption, OnOk, codes, map};
ghost use Rattle.c_syntax.specs.Types.{object_tree};
ghost use Rattle.report_alarms.specs.Named.{HasNoName, IsNextBut, IsNextName};
ghost use Rattle.report_alarms.specs.ReportText.{comma_if, is_some_word, joined, joined_on, names_text, named_from, offset_text, set_text, sized_text, word_if};

use crate::operands::{put_range, put_sized};
use crate::text::{Phrase, Text};
use c_syntax::{Object, Pointers};
use std::alloc::AllocError as NoMemory;

// The least of the names from this number on.
fn next_name(names: &[u64], from: u64) -> Option<u64>
    ensures { MatchOption result (HasNoName names.now from) (IsNextName names.now from) }
{
    let mut next: Option<u64> = None;
    let mut left = names;
    'each: while let Some((name, rest)) = left.split_first() {
        next = nearer(next, *name, from);
        left = rest;
    }
    next
}

// The name, where it stands from this number on and before what was found.
fn nearer(next: Option<u64>, name: u64, from: u64) -> Option<u64>
    ensures { (names rest : List ℕ) → IsNextBut names (name ∷ rest) from next → IsNextBut names rest from result }
{
    if name < from {
        return next;
    }
    match next {
        Some(found) if found <= name => next,
        _ => Some(name),
    }
}

fn put_comma(text: &mut Text, some: bool) -> Result<(), NoMemory>
    ensures { OnOk result (text.new ≡ text.old ++ comma_if some) }
{
    if some {
        return text.word(", ");
    }
    Ok(())
}

// An object behind a comma, where some stand before it.
#[tactic(auto, using(crate::proofs::Joins::one_word))]
fn put_one(text: &mut Text, some: bool, object: &Object) -> Result<(), NoMemory>
    ensures { OnOk result ((rest : List (List ℕ))
        → text.new ++ joined_on true rest ≡ text.old ++ joined_on some (sized_text (object_tree object.now) ∷ rest)) }
{
    put_comma(text, some)?;
    put_sized(text, object)?;
    Ok(())
}

// The objects behind the one at this index.
fn behind(objects: &[Object], index: usize) -> &[Object]
    requires { index < length objects.now }
    ensures { result.now ≡ drop (suc index) objects.now }
{
    &objects[index + 1..]
}

// The objects that are named, by number, with commas between; whether there is one.
fn put_named(text: &mut Text, objects: &[Object], names: &[u64]) -> Result<bool, NoMemory>
    ensures joins { IfOk result (λ some. (rest : List (List ℕ))
        → text.new ++ joined_on some rest ≡ text.old ++ joined_on false (named_from names.now 0 (map object_tree objects.now) ++ rest)) }
    ensures some { IfOk result (λ some. some ≡ is_some_word (named_from names.now 0 (map object_tree objects.now))) }
{
    let mut some = false;
    let mut from = 0u64;
    let mut left = objects;
    'each: loop {
        let Some(number) = next_name(names, from) else {
            return Ok(some);
        };
        let gap = (number - from) as usize;
        let Some(object) = left.get(gap) else {
            return Ok(some);
        };
        put_one(text, some, object)?;
        some = true;
        left = behind(left, gap);
        from = number + 1;
    }
}

// A word, where it is there, behind a comma where some stand before it; whether some stand there now.
#[tactic(auto, using(crate::proofs::Joins::one_word))]
fn put_word_if(text: &mut Text, some: bool, word: &str, is_there: bool) -> Result<bool, NoMemory>
    ensures { IfOk result (λ later. (rest : List (List ℕ))
        → text.new ++ joined_on later rest ≡ text.old ++ joined_on some (word_if is_there word.now ++ rest)) }
{
    if is_there {
        put_comma(text, some)?;
        text.word(word)?;
        return Ok(true);
    }
    Ok(some)
}

fn put_offset(text: &mut Text, is_there: bool, set: &Pointers) -> Result<(), NoMemory>
    ensures { OnOk result (text.new ≡ text.old ++ offset_text is_there set.now) }
{
    if is_there {
        text.phrase(Phrase::OffsetIn)?;
        return put_range(text, set.lo, set.hi, set.modulus, set.rem);
    }
    Ok(())
}

// The objects of a set, null and dead; whether there is an object.
fn put_list(text: &mut Text, objects: &[Object], set: &Pointers) -> Result<bool, NoMemory>
    ensures joins { IfOk result (λ some. text.new ≡ text.old ++ joined (named_from set.now.names 0 (map object_tree objects.now)
        ++ (word_if set.now.null (codes "null") ++ word_if set.now.dead (codes "dead")))) }
    ensures some { IfOk result (λ some. some ≡ is_some_word (named_from set.now.names 0 (map object_tree objects.now))) }
{
    let is_named = put_named(text, objects, set.names.as_slice())?;
    let some = put_word_if(text, is_named, "null", set.null)?;
    let _some = put_word_if(text, some, "dead", set.dead)?;
    Ok(is_named)
}

fn put_members(text: &mut Text, objects: &[Object], set: &Pointers) -> Result<(), NoMemory>
    ensures { OnOk result (text.new ≡ text.old ++ names_text (named_from set.now.names 0 (map object_tree objects.now)) set.now) }
{
    text.word("{")?;
    let is_named = put_list(text, objects, set)?;
    text.word("}")?;
    put_offset(text, is_named, set)
}

pub(crate) fn put_set(text: &mut Text, objects: &[Object], set: &Pointers) -> Result<(), NoMemory>
    ensures { OnOk result (text.new ≡ text.old ++ set_text (map object_tree objects.now) set.now) }
{
    if set.any {
        text.word("any")?;
        return put_offset(text, true, set);
    }
    put_members(text, objects, set)
}
