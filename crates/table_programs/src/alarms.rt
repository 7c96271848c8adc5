// The alarms of a file.

ghost use Rattle.c_syntax.specs.Program.{tprogram_tree};
ghost use Rattle.program_alarms.specs.Ready.{IsReady};

mod words;

use crate::files::{MOST, with_lines};
use c_syntax::{Plan, TProgram};
use headline::{Read, program_of};
use headline_words::{NARROWED, RAMP, UNROLLED};
use program_alarms::alarms_of;
use report::{Refusal, refusal_line};
use std::alloc::{AllocError, Global};

/// How loops are walked.
#[derive(Clone, Copy)]
struct Turns {
    /// So many turns one by one.
    unroll: u32,
    /// So many steps of narrowing at most.
    narrow: u32,
}

/// What may go wrong in a file, or the line that it is refused with.
pub fn line(alloc: Global, text: &str) -> Result<String, AllocError> {
    let turns = Turns {
        unroll: UNROLLED,
        narrow: NARROWED,
    };
    answer(alloc, turns, text)
}

/// The same of a row that tells how loops are walked.
pub fn walked_line(alloc: Global, row: &str) -> Result<String, AllocError> {
    let Some((words, text)) = row.split_once(": ") else {
        return String::from_str(alloc, "no file");
    };
    let Some(turns) = turns_of(words) else {
        return String::from_str(alloc, "no numbers");
    };
    answer(alloc, turns, text)
}

// The two numbers of a row; none where there are others.
fn turns_of(words: &str) -> Option<Turns> {
    let (unroll, narrow) = words.split_once(' ')?;
    let (Ok(unroll), Ok(narrow)) = (unroll.parse::<u32>(), narrow.parse::<u32>()) else {
        return None;
    };
    Some(Turns { unroll, narrow })
}

fn answer(alloc: Global, turns: Turns, text: &str) -> Result<String, AllocError> {
    let text = with_lines(alloc, text)?;
    let bytes = text.as_str().as_bytes();
    if bytes.len() > MOST {
        return refused(alloc, &Refusal::FileTooLarge);
    }
    match program_of(alloc, bytes)? {
        Read::Refused(refusal) => refused(alloc, &refusal),
        Read::Program(program, plan) => found(alloc, turns, &program, &plan),
    }
}

// The line of a refusal, without its end.
fn refused(alloc: Global, refusal: &Refusal) -> Result<String, AllocError> {
    let line = refusal_line(alloc, "a.c", refusal)?;
    match str::from_utf8(line.as_slice()) {
        Ok(line) => String::from_str(alloc, line.trim_end()),
        Err(_) => String::from_str(alloc, "?"),
    }
}

// What may go wrong in a program.
fn found(alloc: Global, turns: Turns, program: &TProgram, plan: &Plan) -> Result<String, AllocError>
    requires { IsReady (tprogram_tree program.now) plan.now }
{
    let alarms = alarms_of(alloc, program, plan, turns.unroll, turns.narrow, RAMP)?;
    words::line(alloc, program.objects.as_slice(), alarms.as_slice())
}
