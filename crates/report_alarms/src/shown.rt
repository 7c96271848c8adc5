// What an alarm shows.
#![tactic(auto, using(std::proofs::lemmas::List::append_assoc))]

ghost use Rattle.std.specs.Prelude.{◌≡◌, ◌++◌, OnOk, codes, map};
ghost use Rattle.c_syntax.specs.Types.{object_tree};
ghost use Rattle.report_alarms.specs.ReportText.{access_text, phrase_text, set_text, shown_text};
ghost use Rattle.report_alarms.specs.declared.text.Phrase.TheVariants as phrases;

use crate::operands::{ends_words, marks_words, put_access, put_allowed, put_range};
use crate::sets::put_set;
use crate::text::{Phrase, Text};
use c_syntax::{Check, Object, Pointers, Shown};
use std::alloc::AllocError as NoMemory;

fn put_one(
    text: &mut Text,
    objects: &[Object],
    check: &Check,
    set: &Pointers,
) -> Result<(), NoMemory>
    ensures { OnOk result (text.new ≡ text.old ++ (phrase_text phrases.PointerIn ++ (set_text (map object_tree objects.now) set.now ++ access_text check.now))) }
{
    text.phrase(Phrase::PointerIn)?;
    put_set(text, objects, set)?;
    put_access(text, check)
}

fn put_pair(
    text: &mut Text,
    objects: &[Object],
    left: &Pointers,
    right: &Pointers,
) -> Result<(), NoMemory>
    ensures { OnOk result (text.new ≡ text.old ++ (phrase_text phrases.LeftPointerIn ++ (set_text (map object_tree objects.now) left.now
        ++ (phrase_text phrases.RightPointerIn ++ set_text (map object_tree objects.now) right.now)))) }
{
    text.phrase(Phrase::LeftPointerIn)?;
    put_set(text, objects, left)?;
    text.phrase(Phrase::RightPointerIn)?;
    put_set(text, objects, right)
}

pub(crate) fn put_shown(
    text: &mut Text,
    objects: &[Object],
    check: &Check,
    shown: &Shown,
) -> Result<(), NoMemory>
    ensures { OnOk result (text.new ≡ text.old ++ shown_text (map object_tree objects.now) check.now shown.now) }
{
    match shown {
        Shown::Number {
            lo,
            hi,
            modulus,
            rem,
        } => {
            text.phrase(Phrase::ValueIn)?;
            put_range(text, *lo, *hi, *modulus, *rem)?;
            text.phrase(Phrase::Allowed)?;
            put_allowed(text, check)
        }
        Shown::One(set) => put_one(text, objects, check, set),
        Shown::Pair(left, right) => put_pair(text, objects, left, right),
        Shown::Marks {
            undef,
            value,
            broken,
        } => {
            text.phrase(Phrase::BytesMayBe)?;
            text.word(marks_words(*undef, *value, *broken))
        }
        Shown::Ends { value, none } => {
            text.phrase(Phrase::EndMayBe)?;
            text.word(ends_words(*value, *none))
        }
    }
}
