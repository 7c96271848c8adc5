// The machine.

ghost use Rattle.std.specs.Prelude.{◌≡◌, [], ◌∷◌, IfOk, None};
ghost use Rattle.c_steps.specs.Runs.{calls_in, chain_of};
ghost use Rattle.c_steps.specs.Work as steps;
ghost use Rattle.c_machine.specs.Chains.{call_in};
ghost use Rattle.c_machine_work.specs.Views.{in_front, item_of};
ghost use Rattle.c_machine_work.specs.Works.{work_of};

use crate::functions::Functions;
use crate::inputs::Inputs;
use crate::jumps::Way;
use crate::run::Run;
use crate::step::Step;
use c_machine_values::Values;
use c_machine_work::{AtEnd, Item, Stack, Work};
use c_objects::ObjectMemory;
use c_syntax::{Places, Plan, Pos, TProgram};
use std::alloc::{AllocError as NoMemory, Global};

/// A run of a program, step by step.
#[derive(Drop)]
pub struct Machine {
    alloc: Global,
    run: Run,
    functions: Functions,
    failed: bool,
}

impl Machine {
    ghost use Rattle.std.specs.Prelude.{OnOk};
    ghost use Rattle.c_layout.specs.Plans.{IsPlanFor};
    ghost use Rattle.c_layout.specs.WellTyped.{IsWellTyped};
    ghost use Rattle.c_steps.specs.Runs.{start};
    ghost use Rattle.c_steps.specs.Steps.{step as next_of};
    ghost use Rattle.c_syntax.specs.Program.{tprogram_tree};
    ghost use Rattle.c_machine.specs.Made.{HasFailed, IsFor, IsRunOf, state_of};
    ghost use Rattle.c_machine.specs.Steps.{Answers, Comes};

    /// The machine at the start of a run of the plan's main on the inputs.
    pub fn new(
        alloc: Global,
        program: &TProgram,
        plan: &Plan,
        inputs: Inputs,
    ) -> Result<Machine, NoMemory>
        requires typed { IsWellTyped (tprogram_tree program.now) }
        requires planned { IsPlanFor (tprogram_tree program.now) plan.now }
        ensures start { IfOk result (λ machine. state_of machine ≡ start (tprogram_tree program.now) plan.now.main inputs) }
        ensures made { IfOk result (λ machine. IsFor machine (tprogram_tree program.now)) }
    {
        let work = first_work(alloc, plan.main)?;
        let functions = Functions::of(alloc, &program.functions)?;
        let memory = ObjectMemory::start(
            alloc,
            program.objects.as_slice(),
            program.initial.as_slice(),
        )?;
        Ok(Machine {
            alloc,
            run: Run {
                work,
                values: Values {
                    stack: Stack::new(alloc),
                    memory,
                },
                inputs,
                read: 0,
            },
            functions,
            failed: false,
        })
    }

    /// Makes a step of the run, on the program that the machine was made for. A step that does not go on
    /// leaves the state as it is, so it is answered again; where `NoMemory` was answered once, each
    /// further step answers it.
    pub fn step(&mut self, program: &TProgram) -> Step
        requires { IsFor self.old (tprogram_tree program.now) }
        ensures step { Answers (next_of (tprogram_tree program.now) (state_of self.old)) (state_of self.old) (state_of self.new) result }
        ensures made { IsFor self.new (tprogram_tree program.now) }
        ensures failed { (HasFailed self.old → result ≡ Step.NoMemory) × (result ≡ Step.NoMemory → HasFailed self.new) }
    {
        if self.failed {
            return Step::NoMemory;
        }
        match self.next_step(program) {
            Ok(step) => step,
            Err(_) => {
                self.failed = true;
                Step::NoMemory
            }
        }
    }

    // The row of the next item. Where the run does not go on, the item is put back.
    fn next_step(&mut self, program: &TProgram) -> Result<Step, NoMemory>
        requires { IsRunOf self.old (tprogram_tree program.now) }
        ensures step { IfOk result (λ step. Comes (next_of (tprogram_tree program.now) (state_of self.old)) (state_of self.old) (state_of self.new) step) }
        ensures made { OnOk result (IsRunOf self.new (tprogram_tree program.now)) }
    {
        let item = take_next(&mut self.run.work);
        match self.run.row(self.alloc, program, &self.functions, &item)? {
            Step::Went => Ok(Step::Went),
            step => {
                self.run.work.put(item)?;
                Ok(step)
            }
        }
    }

    /// The places of the calls whose end is still to be reached, outermost first. At the end of a
    /// function it is the caller's chain.
    pub fn chain(&self) -> Result<Places, NoMemory>
        ensures { IfOk result (λ chain. chain ≡ chain_of (state_of self.now).work) }
    {
        let mut calls = Vec::new(self.alloc);
        for item in without_end(self.run.work.as_slice()) {
            if let Some(pos) = call_of(item) {
                calls.push(pos)?;
            }
        }
        Ok(Places::from_vec(calls))
    }
}

// The call of main, and the end of the run.
fn first_work(alloc: Global, main: u64) -> Result<Work, NoMemory>
    ensures { IfOk result (λ work. work_of work ≡ steps.Enter None main steps.GivesZero ∷ steps.Finish ∷ []) }
{
    let mut work = Work::new(alloc);
    work.put(Item::Finish)?;
    work.put(Item::Enter(None, main, AtEnd::GivesZero))?;
    Ok(work)
}

// The next item, taken off.
fn take_next(work: &mut Work) -> Item
    requires { work_of work.old ≡ [] → ⊥ }
    ensures { work_of work.old ≡ item_of result ∷ work_of work.new }
{
    match work.take() {
        Some(item) => item,
        None => unreachable!(),
    }
}

// Work without its next item, where that is the end of a function.
fn without_end(items: &[Item]) -> &[Item]
    ensures { calls_in (in_front result.now []) ≡ chain_of (in_front items.now []) }
{
    match items.split_last() {
        Some((next, rest)) => { if Way::Return.ends(next) { rest } else { items } }
        None => items,
    }
}

// The place of the call whose function's end the item is.
fn call_of(item: &Item) -> Option<Pos>
    ensures { result ≡ call_in (item_of item.now) }
{
    match item {
        Item::Reach(pos, _) => *pos,
        _ => None,
    }
}
