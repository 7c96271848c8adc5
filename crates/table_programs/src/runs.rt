// The run of a file on its inputs.

ghost use Rattle.std.specs.Prelude.{IfOk};
ghost use Rattle.c_layout.specs.WellTyped.{IsWellTyped};
ghost use Rattle.c_syntax.specs.Program.{tprogram_tree};
ghost use Rattle.c_machine.specs.Made.{IsFor};

mod words;

use crate::files::{Fault, plan, program};
use c_machine::{Inputs, Machine, Step};
use c_syntax::{Places, Pos, TProgram, WrongKind};
use std::alloc::{AllocError, Global};

/// What a run comes to.
#[derive(Drop)]
pub enum End {
    Ended(i32),
    Waiting,
    Stopped,
    /// What is wrong and where, and the places of the calls that led there.
    Wrong(Pos, WrongKind, Places),
    StillGoing,
    /// There is no run: the file is refused, or an input is no number.
    Refused,
}

/// What the run of a row, inputs and a file, comes to in at most so many steps.
pub fn line(alloc: Global, most: u32, row: &str) -> Result<String, AllocError> {
    let end = end_of(alloc, most, row)?;
    words::line(alloc, &end)
}

fn end_of(alloc: Global, most: u32, row: &str) -> Result<End, AllocError> {
    match run(alloc, most, row) {
        Ok(end) => Ok(end),
        Err(Fault::NoMemory) => Err(AllocError),
        Err(_) => Ok(End::Refused),
    }
}

fn run(alloc: Global, most: u32, row: &str) -> Result<End, Fault> {
    let Some((inputs, text)) = row.split_once(": ") else {
        return Err(Fault::NoFile);
    };
    let Some(inputs) = numbers(alloc, inputs)? else {
        return Err(Fault::NoFile);
    };
    let program = program(alloc, text)?;
    let machine = machine(alloc, &program, Inputs::from_vec(inputs))?;
    steps(machine, &program, most)
}

// The inputs; none where a word is no number.
fn numbers(alloc: Global, words: &str) -> Result<Option<Vec<i64>>, AllocError> {
    let mut numbers = Vec::new(alloc);
    for word in words.split_whitespace() {
        let Ok(number) = word.parse::<i64>() else {
            return Ok(None);
        };
        numbers.push(number)?;
    }
    Ok(Some(numbers))
}

// The machine of a program that is admitted.
fn machine(alloc: Global, program: &TProgram, inputs: Inputs) -> Result<Machine, Fault>
    requires { IsWellTyped (tprogram_tree program.now) }
    ensures { IfOk result (λ machine. IsFor machine (tprogram_tree program.now)) }
{
    let plan = plan(alloc, program)?;
    match Machine::new(alloc, program, &plan, inputs) {
        Ok(machine) => Ok(machine),
        Err(_) => Err(Fault::NoMemory),
    }
}

fn steps(mut machine: Machine, program: &TProgram, most: u32) -> Result<End, Fault>
    requires { IsFor machine (tprogram_tree program.now) }
{
    'steps: for _ in 0..most {
        if let Some(end) = one_step(&mut machine, program)? {
            return Ok(end);
        }
    }
    Ok(End::StillGoing)
}

// One step, and what the run comes to by it, unless it goes on.
fn one_step(machine: &mut Machine, program: &TProgram) -> Result<Option<End>, Fault>
    requires { IsFor machine.old (tprogram_tree program.now) }
    ensures { IsFor machine.new (tprogram_tree program.now) }
{
    match machine.step(program) {
        Step::Went => Ok(None),
        Step::Ended(n) => Ok(Some(End::Ended(n))),
        Step::Waiting => Ok(Some(End::Waiting)),
        Step::Stopped => Ok(Some(End::Stopped)),
        Step::Wrong(at, kind) => Ok(Some(End::Wrong(at, kind, machine.chain()?))),
        Step::NoMemory => Err(Fault::NoMemory),
    }
}
