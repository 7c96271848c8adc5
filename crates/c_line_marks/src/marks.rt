// Line marks, in the order of their lines.
#![tactic(auto)]

ghost use Rattle.std.specs.Prelude.{◌≡◌, ◌≤◌, ℕ, true, false, length, unwrap_or, nat_le, IfOk, IfSome};
ghost use Rattle.std.specs.List.Sorted.{IsNonDecreasingBy, IsPartitionPoint};
ghost use Rattle.c_line_marks.specs.Presumed.{name_or_word};
ghost use Rattle.c_line_marks.specs.Starts.{last_names, name_in, start_at};

use c_syntax_written::Name;
use std::alloc::{AllocError as NoMemory, Global};
use std::marker::Model;

/// A mark, with the number of names that stand up to it.
#[derive(Clone, Copy)]
pub(crate) struct Start {
    pub line: u32,
    pub presumed: u32,
    pub names: usize,
}

/// The line marks of a text, in the order of their lines.
#[derive(Drop)]
pub struct LineMarks {
    starts: Vec<Start>,
    names: Vec<Name>,
}

impl Model for LineMarks {
    ghost use Rattle.std.specs.Prelude.{List, map};
    ghost use Rattle.c_syntax_written.specs.declared.token.Mark.{Mark};
    ghost use Rattle.c_line_marks.specs.Starts.{AreStarts, mark_of};

    ghost Value = { List Mark };

    ghost view = { λ t. map (mark_of t.names.items) t.starts.items };

    ghost invariant = { λ t. AreStarts t.names.items t.starts.items };
}

impl LineMarks {
    ghost use Rattle.std.specs.Prelude.{◌≡◌, ◌≤◌, [], ◌∷◌, ◌++◌, All, OnOk, unwrap_or};
    ghost use Rattle.c_line_marks.specs.Presumed.{last_name, presumed_line, presumed_name};

    /// No marks.
    pub fn new(alloc: Global) -> LineMarks
        ensures { result ≡ [] }
    {
        LineMarks {
            starts: Vec::new(alloc),
            names: Vec::new(alloc),
        }
    }

    /// A mark at the end, for this physical line; without a name it keeps that of the mark before.
    pub fn push(&mut self, line: u32, presumed: u32, name: Option<Name>) -> Result<(), NoMemory>
        requires { All (λ m. m.line ≤ line) self.old }
        ensures { OnOk result (self.new ≡ self.old ++ record { line = line; presumed = presumed; name = unwrap_or name (last_name [] self.old) } ∷ []) }
    {
        let before = last_names(self.starts.as_slice());
        let names = add_name(&mut self.names, before, name)?;
        self.starts.push(Start {
            line,
            presumed,
            names,
        })?;
        Ok(())
    }

    /// The presumed line of a physical line.
    pub fn line(&self, line: u32) -> u64
        ensures { result ≡ presumed_line self.now line }
    {
        match start_at(self.starts.as_slice(), line) {
            None => u64::from(line),
            Some(start) => u64::from(start.presumed) + u64::from(line - start.line),
        }
    }

    /// The presumed file of a physical line, where this word names the file.
    pub fn name<'a>(&'a self, word: &'a [u8], line: u32) -> &'a [u8]
        ensures { result.now ≡ presumed_name self.now word.now line }
    {
        match start_at(self.starts.as_slice(), line) {
            None => word,
            Some(start) => name_or_word(name_in(self.names.as_slice(), start.names), word),
        }
    }
}

// How many names stand up to the last mark.
fn last_names(starts: &[Start]) -> usize
    ensures { result ≡ last_names starts.now }
{
    if starts.len() == 0 {
        return 0;
    }
    starts[starts.len() - 1].names
}

// The number of names up to a mark, which may bring one.
fn add_name(names: &mut Vec<Name>, before: usize, name: Option<Name>) -> Result<usize, NoMemory>
    requires { before ≤ length names.old.items }
    ensures kept { (n : ℕ) → n ≤ length names.old.items → name_in names.new.items n ≡ name_in names.old.items n }
    ensures more { length names.old.items ≤ length names.new.items }
    ensures within { IfOk result (λ n. n ≤ length names.new.items) }
    ensures name { IfOk result (λ n. name_in names.new.items n ≡ unwrap_or name (name_in names.old.items before)) }
{
    match name {
        None => Ok(before),
        Some(name) => {
            names.push(name)?;
            Ok(names.len())
        }
    }
}

// The last mark at this line or before it.
fn start_at(starts: &[Start], line: u32) -> Option<Start>
    requires { IsNonDecreasingBy (λ start. start.line) starts.now }
    ensures at { result ≡ start_at starts.now line }
    ensures before { IfSome result (λ start. start.line ≤ line) }
{
    let count = count_to(starts, line);
    if count == 0 {
        return None;
    }
    Some(starts[count - 1])
}

// How many marks stand at this line or before it.
fn count_to(starts: &[Start], line: u32) -> usize
    requires { IsNonDecreasingBy (λ start. start.line) starts.now }
    ensures bound { result ≤ length starts.now }
    ensures point { IsPartitionPoint (λ start. nat_le start.line line ≡ true) (λ start. nat_le start.line line ≡ false) starts.now result }
{
    starts.partition_point(|start| start.line <= line)
}

// The last of so many names.
fn name_in(names: &[Name], count: usize) -> &[u8]
    ensures { result.now ≡ name_in names.now count }
{
    if count == 0 {
        return &[];
    }
    match names.get(count - 1) {
        None => &[],
        Some(name) => name.as_slice(),
    }
}

fn name_or_word<'a>(name: &'a [u8], word: &'a [u8]) -> &'a [u8]
    ensures { result.now ≡ name_or_word name.now word.now }
{
    if name.is_empty() { word } else { name }
}
