// What is answered of a row.

ghost use Rattle.c_syntax.specs.Admission.{IsProper};
ghost use Rattle.mem_shown.specs.Hulls.{AreOfOneForm};

use super::conditions::{are_of_one_form, has_fields, is_shown};
use super::sets::made_set;
use super::words::{check, marks, numbers, object, pointers};
use c_syntax::{Check, Object, Pointers, Shown};
use mem_narrowed::narrowed;
use mem_shown::{Decision, decide, shown_hull, shows_some};
use std::alloc::{AllocError as NoMemory, Global};

/// What is answered of a row: the decision, and whether some operand is shown.
#[derive(Clone, Copy)]
pub struct Told {
    pub decision: Decision,
    pub shows_some: bool,
}

// What is shown of two parts.
#[derive(Clone, Copy)]
enum Meeting {
    // What is in either.
    Hull,
    // What is in both, as the first shows it.
    Both,
}

// What a row has given so far.
#[derive(Drop)]
struct Row {
    objects: Vec<Object>,
    check: Option<Check>,
    shown: Option<Shown>,
    set: Option<Pointers>,
    other: Option<Shown>,
    meeting: Meeting,
}

impl Row {
    // Takes a set; a second one makes a pair.
    fn put_set(&mut self, set: Option<Pointers>) {
        match self.set.take() {
            None => self.set = set,
            Some(left) => {
                if let Some(right) = set {
                    self.shown = Some(Shown::Pair(left, right));
                }
            }
        }
    }

    // Puts aside what is shown so far, to meet what comes behind.
    fn put_aside(&mut self, meeting: Meeting) {
        self.other = self.take_shown();
        self.meeting = meeting;
    }

    // What is shown so far, which the row then has no more.
    fn take_shown(&mut self) -> Option<Shown> {
        match self.set.take() {
            Some(set) => Some(Shown::One(set)),
            None => self.shown.take(),
        }
    }
}

// Takes one part of the row. Answers whether it is one.
fn take(alloc: Global, row: &mut Row, words: &[&str]) -> Result<bool, NoMemory> {
    if let Some(set) = made_set(alloc, words)? {
        row.put_set(Some(set));
        return Ok(true);
    }
    match words {
        ["objects", sizes @ ..] => {
            for size in sizes {
                match object(alloc, size) {
                    Some(object) => row.objects.push(object)?,
                    None => return Ok(false),
                }
            }
        }
        ["number", rest @ ..] => row.shown = numbers(rest),
        ["set", rest @ ..] => {
            let set = pointers(alloc, rest)?;
            row.put_set(set);
        }
        ["or"] => row.put_aside(Meeting::Hull),
        ["and"] => row.put_aside(Meeting::Both),
        [word, list] if row.check.is_some() => row.shown = marks(word, list),
        _ => row.check = check(words),
    }
    Ok(true)
}

// What is shown of both parts, which are of one form.
fn met(alloc: Global, meeting: Meeting, first: &Shown, second: &Shown) -> Result<Shown, NoMemory>
    requires form { AreOfOneForm first.now second.now }
    requires left { IsProper first.now }
    requires right { IsProper second.now }
{
    match meeting {
        Meeting::Hull => shown_hull(first, second),
        Meeting::Both => narrowed(alloc, first, second),
    }
}

// What the row shows: that of its last part, or of this and of what stands before `or` or `and`.
fn shown_of(alloc: Global, row: &mut Row) -> Result<Option<Shown>, NoMemory> {
    let Some(shown) = row.take_shown() else {
        return Ok(None);
    };
    let Some(other) = row.other.take() else {
        return Ok(Some(shown));
    };
    let count = row.objects.len();
    if are_of_one_form(&other, &shown) && is_shown(&other, count) && is_shown(&shown, count) {
        Ok(Some(met(alloc, row.meeting, &other, &shown)?))
    } else {
        Ok(None)
    }
}

// What is decided of the check and what is shown, where they meet the conditions.
fn decided(check: &Check, shown: &Shown, objects: &[Object]) -> Option<Told> {
    if has_fields(check) && is_shown(shown, objects.len()) {
        Some(Told {
            decision: decide(check, shown, objects),
            shows_some: shows_some(shown, objects),
        })
    } else {
        None
    }
}

/// What is decided of a row, if it is one.
pub fn answer(alloc: Global, line: &str) -> Result<Option<Told>, NoMemory> {
    let mut row = Row {
        objects: Vec::new(alloc),
        check: None,
        shown: None,
        set: None,
        other: None,
        meeting: Meeting::Hull,
    };
    for part in line.split(';') {
        let mut words = Vec::new(alloc);
        for word in part.split_whitespace() {
            words.push(word)?;
        }
        if !take(alloc, &mut row, &words)? {
            return Ok(None);
        }
    }
    let shown = shown_of(alloc, &mut row)?;
    match (row.check, shown) {
        (Some(check), Some(shown)) => Ok(decided(&check, &shown, &row.objects)),
        _ => Ok(None),
    }
}
