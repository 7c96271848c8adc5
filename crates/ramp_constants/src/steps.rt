// The steps of the constants ramp of a program.
#![tactic(auto, using(c_syntax::proofs::Trees::the_trees, crate::proofs::ConstantForms::the_constants))]

ghost use Rattle.std.specs.Prelude.{◌≡◌, ◌++◌, ◌≤ℤ◌, ◌-ℤ◌, ◌+ℤ◌, ◌^◌, neg_ℤ, pos, map, IfOk, OnOk};
ghost use Rattle.std.specs.List.{flat_map};
ghost use Rattle.num_api.specs.Powers.{power_steps};
ghost use Rattle.c_syntax.specs.Program.{tfunction_tree, tprogram_tree};
ghost use Rattle.ramp_constants.specs.Constants.{function_constants, program_constants};
ghost use Rattle.ramp_constants.specs.ConstantSteps.{AreSteps, around, steps_around, steps_by, steps_of};

use crate::kind::RampKind;
use crate::list::StepList;
use crate::powers::add_powers;
use crate::stmts::add_stmt;
use c_syntax::{TFunction, TFunctions, TProgram};
use std::alloc::{AllocError as NoMemory, Global};

/// The steps of a ramp of this kind. The program need not be well typed. The only error is want of memory.
pub fn ramp_steps(alloc: Global, kind: RampKind, program: &TProgram) -> Result<StepList, NoMemory>
    ensures { IfOk result (AreSteps (steps_by kind (tprogram_tree program.now))) }
{
    match kind {
        RampKind::Powers => steps_with(alloc, &[]),
        RampKind::Constants => constant_steps(alloc, program),
    }
}

/// The steps of the constants ramp: those of the powers ramp, and each constant of the program of a size of at most 2^64, with
/// the numbers next to it and the negations of these three. The program need not be well typed. The only error is want of memory.
pub fn constant_steps(alloc: Global, program: &TProgram) -> Result<StepList, NoMemory>
    ensures { IfOk result (AreSteps (steps_of (tprogram_tree program.now))) }
{
    let mut constants = Vec::new(alloc);
    add_functions(&program.functions, &mut constants)?;
    steps_with(alloc, &constants)
}

// The powers steps, and those that these constants give.
fn steps_with(alloc: Global, constants: &[i128]) -> Result<StepList, NoMemory>
    ensures { IfOk result (AreSteps (power_steps ++ flat_map steps_around constants.now)) }
{
    let mut steps = Vec::new(alloc);
    add_powers(&mut steps)?;
    add_around(constants, &mut steps)?;
    StepList::of_numbers(steps)
}

fn add_functions(functions: &TFunctions, constants: &mut Vec<i128>) -> Result<(), NoMemory>
    ensures { OnOk result (constants.new.items ≡ constants.old.items ++ flat_map function_constants (map tfunction_tree functions.now)) }
{
    for function in functions.as_slice() {
        add_function(function, constants)?;
    }
    Ok(())
}

fn add_function(function: &TFunction, constants: &mut Vec<i128>) -> Result<(), NoMemory>
    ensures { OnOk result (constants.new.items ≡ constants.old.items ++ function_constants (tfunction_tree function.now)) }
{
    match &function.body {
        Some(body) => add_stmt(body, constants),
        None => Ok(()),
    }
}

fn add_around(constants: &[i128], steps: &mut Vec<i128>) -> Result<(), NoMemory>
    ensures { OnOk result (steps.new.items ≡ steps.old.items ++ flat_map steps_around constants.now) }
{
    for constant in constants {
        add_steps(*constant, steps)?;
    }
    Ok(())
}

// A constant that is too large gives no step.
fn add_steps(constant: i128, steps: &mut Vec<i128>) -> Result<(), NoMemory>
    ensures { OnOk result (steps.new.items ≡ steps.old.items ++ steps_around constant) }
{
    let most = 1_i128 << 64;
    if constant < -most || constant > most {
        return Ok(());
    }
    steps.push(constant)?;
    steps.push(before(constant))?;
    steps.push(after(constant))?;
    steps.push(opposite(constant))?;
    steps.push(opposite(before(constant)))?;
    steps.push(opposite(after(constant)))?;
    Ok(())
}

fn before(n: i128) -> i128
    requires { neg_ℤ (pos (2 ^ 64)) ≤ℤ n }
    ensures { result ≡ (n -ℤ pos 1) }
{
    n - 1
}

fn after(n: i128) -> i128
    requires { n ≤ℤ pos (2 ^ 64) }
    ensures { result ≡ (n +ℤ pos 1) }
{
    n + 1
}

fn opposite(n: i128) -> i128
    requires { (neg_ℤ (pos (2 ^ 64)) -ℤ pos 1) ≤ℤ n }
    ensures { result ≡ neg_ℤ n }
{
    -n
}
