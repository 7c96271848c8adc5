// An order of functions in which each stands after those that it calls, by a search in depth without recursion.
#![tactic(auto)]

ghost use Rattle.std.specs.Prelude.{◌≡◌, ◌≢◌, ◌<◌, ◌≤◌, [], ◌∷◌, ◌++◌, length, take, IfErr, IfOk, MatchBool};
ghost use Rattle.c_layout.specs.Calls.{chain_end};
ghost use Rattle.c_rules_calls.specs.Placed.{placed};
ghost use Rattle.c_rules_calls.specs.Graph.{AreDefined, calls_from, IsClosedList, IsDefined, IsOrderOf};
ghost use Rattle.c_rules_calls.specs.Search.{AreApart, AreGoing, AreOrdered, at, functions_of, IsAmong, IsAtCall, IsDone, IsLastStep, IsStep, IsTurn, IsUnderWay, KeepsDone, NoneIsOpen, TellsClosedList};
ghost use Rattle.c_rules_calls.specs.declared.search.Progress.TheVariants.{New, Open};
ghost use Rattle.c_rules_calls.specs.declared.search.OrderError.TheVariants.{NoMemory};

use crate::call::{Call, Calls};
use crate::graph::CallGraph;
use c_syntax::Numbers;
use std::alloc::{AllocError, AllocFailed, Global};

/// Why functions have no order.
#[derive(Drop)]
pub enum OrderError {
    /// Calls that lead from a function back to itself, of which no two call one function.
    Recursion(Calls),
    /// There was no memory.
    NoMemory,
}

impl From<AllocError> for OrderError {
    ghost from_gives = { λ _ e. e ≡ NoMemory };

    fn from(_error: AllocError) -> OrderError {
        OrderError::NoMemory
    }
}

impl<T: Drop> From<AllocFailed<T>> for OrderError {
    ghost from_gives = { λ _ e. e ≡ NoMemory };

    fn from(_error: AllocFailed<T>) -> OrderError {
        OrderError::NoMemory
    }
}

// How far the search is with a function.
#[derive(Clone, Copy, Drop)]
enum Progress {
    // It was not come to.
    New,
    // So many of its calls were gone through, or are gone through now.
    Open { next: u64 },
    // It stands in the order, and so do all that it calls.
    Done,
}

// Whether the search from one function goes on.
enum Turn {
    GoesOn,
    Ends,
}

// The functions that stand in the order so far, and the way from a function to the one that is looked at.
#[derive(Drop)]
struct Search {
    root: u64,
    made: Calls,
    progress: Vec<Progress>,
    order: Vec<u64>,
}

/// The functions that have a body, each once, after those that it calls. Where calls lead from a function back to
/// itself the error tells of them.
pub fn order_of(alloc: Global, graph: &CallGraph) -> Result<Numbers, OrderError>
    requires defined { AreDefined graph.now }
    ensures ordered { IfOk result (IsOrderOf graph.now) }
    ensures closed { IfErr result (TellsClosedList graph.now) }
{
    let mut search = none_done(alloc, graph)?;
    for root in 0..graph.len() as u64 {
        search_from(alloc, graph, root, &mut search)?;
    }
    Ok(Numbers::from_vec(search.order))
}

// No function is done yet.
fn none_done(alloc: Global, graph: &CallGraph) -> Result<Search, AllocError>
    ensures { IfOk result
        (λ s. AreOrdered graph.now s.progress.items s.order.items × NoneIsOpen s.progress.items × s.made ≡ []) }
{
    let mut progress = Vec::new(alloc);
    for _ in 0..graph.len() {
        progress.push(Progress::New)?;
    }
    Ok(Search {
        root: 0,
        made: Calls::new(alloc),
        progress,
        order: Vec::new(alloc),
    })
}

// All that a function leads to is done, and then the function.
fn search_from(
    alloc: Global,
    graph: &CallGraph,
    root: u64,
    search: &mut Search,
) -> Result<(), OrderError>
    requires defined { AreDefined graph.now }
    requires inside { root < length graph.now }
    requires ordered { AreOrdered graph.now search.old.progress.items search.old.order.items }
    requires none_open { NoneIsOpen search.old.progress.items }
    requires none_made { search.old.made ≡ [] }
    ensures ordered { IfOk result (λ _. AreOrdered graph.now search.new.progress.items search.new.order.items) }
    ensures none_open { IfOk result (λ _. NoneIsOpen search.new.progress.items) }
    ensures none_made { IfOk result (λ _. search.new.made ≡ []) }
    ensures keeps { IfOk result (λ _. KeepsDone search.old.progress.items search.new.progress.items) }
    ensures done { IfOk result (λ _. IsDefined graph.now root → IsDone search.new.progress.items root) }
    ensures closed { IfErr result (TellsClosedList graph.now) }
{
    if !graph.is_defined(root) || !is_new(search.progress[root as usize]) {
        return Ok(());
    }
    search.root = root;
    search.progress[root as usize] = Progress::Open { next: 0 };
    loop {
        match search.step(alloc, graph)? {
            Turn::GoesOn => {}
            Turn::Ends => return Ok(()),
        }
    }
}

fn is_new(progress: Progress) -> bool
    ensures { MatchBool result (progress ≡ New) (progress ≢ New) }
{
    matches!(progress, Progress::New)
}

impl Search {
    // Goes on by one step: to the next call of the function that is looked at, or back from it.
    fn step(&mut self, alloc: Global, graph: &CallGraph) -> Result<Turn, OrderError>
        requires defined { AreDefined graph.now }
        requires ordered { AreOrdered graph.now self.old.progress.items self.old.order.items }
        requires way { IsUnderWay graph.now self.old.progress.items self.old.root self.old.made }
        ensures turn { IfOk result (IsTurn graph.now 1 self.old self.new) }
        ensures closed { IfErr result (TellsClosedList graph.now) }
    {
        let function = self.made.end(self.root);
        match self.progress[function as usize] {
            Progress::Open { next } => match graph.calls(function).get(next as usize) {
                Some(call) => {
                    self.progress[function as usize] = Progress::Open { next: next + 1 };
                    self.go_through(alloc, graph, *call)
                }
                None => self.go_back(graph, function),
            },
            _ => unreachable!(),
        }
    }

    // Goes on with a call of the function that is looked at.
    fn go_through(
        &mut self,
        alloc: Global,
        graph: &CallGraph,
        call: Call,
    ) -> Result<Turn, OrderError>
        requires defined { AreDefined graph.now }
        requires ordered { AreOrdered graph.now self.old.progress.items self.old.order.items }
        requires at_call { IsAtCall graph.now self.old.progress.items self.old.root self.old.made (placed call) }
        ensures turn { IfOk result (IsTurn graph.now 0 self.old self.new) }
        ensures closed { IfErr result (TellsClosedList graph.now) }
    {
        match self.progress[call.callee as usize] {
            Progress::Done => Ok(Turn::GoesOn),
            Progress::Open { .. } => Err(OrderError::Recursion(self.closed(alloc, graph, call)?)),
            Progress::New => {
                self.progress[call.callee as usize] = Progress::Open { next: 0 };
                self.made.push(call)?;
                Ok(Turn::GoesOn)
            }
        }
    }

    // All that the function calls is done.
    fn go_back(&mut self, graph: &CallGraph, function: u64) -> Result<Turn, OrderError>
        requires ordered { AreOrdered graph.now self.old.progress.items self.old.order.items }
        requires way { IsUnderWay graph.now self.old.progress.items self.old.root self.old.made }
        requires function { function ≡ chain_end self.old.root self.old.made }
        requires all { at self.old.progress.items function ≡ Open (length (calls_from graph.now function)) }
        ensures turn { IfOk result (IsTurn graph.now 1 self.old self.new) }
        ensures closed { IfErr result (TellsClosedList graph.now) }
    {
        self.progress[function as usize] = Progress::Done;
        self.order.push(function)?;
        if self.made.is_empty() {
            return Ok(Turn::Ends);
        }
        self.made.pop();
        Ok(Turn::GoesOn)
    }

    // The way from the function that this call calls, which is one of it, and the call.
    fn closed(&self, alloc: Global, graph: &CallGraph, call: Call) -> Result<Calls, AllocError>
        requires going { AreGoing graph.now self.now.progress.items self.now.root (self.now.made ++ placed call ∷ []) }
        requires apart { AreApart (functions_of self.now.root self.now.made) }
        requires among { IsAmong (functions_of self.now.root self.now.made) call.callee }
        ensures { IfOk result (IsClosedList graph.now) }
    {
        let made = self.made.as_slice();
        let mut calls = Calls::new(alloc);
        for step in &made[self.first_at(call.callee)..] {
            calls.push(*step)?;
        }
        calls.push(call)?;
        Ok(calls)
    }

    // How many calls the way makes until it comes to this function.
    fn first_at(&self, function: u64) -> usize
        requires among { IsAmong (functions_of self.now.root self.now.made) function }
        ensures within { result ≤ length self.now.made }
        ensures meets { chain_end self.now.root (take result self.now.made) ≡ function }
    {
        let mut last = self.root;
        for (at, call) in self.made.as_slice().iter().enumerate() {
            if last == function {
                return at;
            }
            last = call.callee;
        }
        self.made.as_slice().len()
    }
}
