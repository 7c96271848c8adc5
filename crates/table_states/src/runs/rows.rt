// The program that the words of a row make, and its run.
#![tactic(auto)]

use super::program::program;
use super::{exprs, stmts};
use c_syntax::Numbers;
use csharp::{CsExpr, CsExprs, CsFunction, CsFunctions, CsStmt, CsStmts, copy_stmt};
use csharp_exec::{Limits, Outcome, run};
use csharp_state::{State, Unanswered};
use std::alloc::{AllocError, AllocFailed, Global};

/// Why a row has no outcome.
#[derive(Drop)]
pub enum Fault {
    /// Its words are none of the notation.
    NoRow,
    /// The run was given up.
    Unanswered(Unanswered),
}

impl From<AllocError> for Fault {
    fn from(_error: AllocError) -> Fault {
        Fault::Unanswered(Unanswered::NoMemory)
    }
}

impl<T: Drop> From<AllocFailed<T>> for Fault {
    fn from(_error: AllocFailed<T>) -> Fault {
        Fault::Unanswered(Unanswered::NoMemory)
    }
}

impl From<Unanswered> for Fault {
    fn from(error: Unanswered) -> Fault {
        Fault::Unanswered(error)
    }
}

/// What was read so far.
#[derive(Drop)]
pub struct Stacks {
    pub alloc: Global,
    pub exprs: Vec<CsExpr>,
    pub stmts: Vec<CsStmt>,
    functions: Vec<CsFunction>,
    inputs: Vec<i128>,
    limits: Limits,
}

/// The outcome of a row, with the state behind it.
pub fn answer(alloc: Global, row: &str) -> Result<(Outcome, State), Fault> {
    let mut stacks = Stacks {
        alloc,
        exprs: Vec::new(alloc),
        stmts: Vec::new(alloc),
        functions: Vec::new(alloc),
        inputs: Vec::new(alloc),
        limits: Limits {
            fuel: 9,
            turns: None,
        },
    };
    for word in row.split_whitespace() {
        stacks.word(word)?;
    }
    let program = program(alloc, CsFunctions::from_vec(stacks.functions))?;
    Ok(run(alloc, &program, stacks.limits, &stacks.inputs)?)
}

impl Stacks {
    fn word(&mut self, word: &str) -> Result<(), Fault> {
        let (head, rest) = word.split_once(':').unwrap_or((word, ""));
        if let Some(expr) = exprs::expr(self, head, rest)? {
            self.exprs.push(expr)?;
            return Ok(());
        }
        if let Some(stmt) = stmts::stmt(self, head, rest)? {
            self.stmts.push(stmt)?;
            return Ok(());
        }
        self.setting(head, rest)
    }

    fn setting(&mut self, head: &str, rest: &str) -> Result<(), Fault> {
        match head {
            "fn" => {
                let body = self.stmt()?;
                let function = CsFunction {
                    params: self.numbers(rest)?,
                    body: copy_stmt(self.alloc, &body)?,
                };
                self.functions.push(function)?;
            }
            "in" => self.inputs.push(number(rest)?)?,
            "fuel" => self.limits.fuel = count(rest)?,
            "turns" => self.limits.turns = Some(count(rest)?),
            _ => return Err(Fault::NoRow),
        }
        Ok(())
    }

    /// The last expression.
    pub fn expr(&mut self) -> Result<CsExpr, Fault> {
        match self.exprs.pop() {
            Some(expr) => Ok(expr),
            None => Err(Fault::NoRow),
        }
    }

    /// The last statement.
    pub fn stmt(&mut self) -> Result<CsStmt, Fault> {
        match self.stmts.pop() {
            Some(stmt) => Ok(stmt),
            None => Err(Fault::NoRow),
        }
    }

    /// The last expressions, as many as a word says, in their order.
    pub fn operands(&mut self, word: &str) -> Result<CsExprs, Fault> {
        let mut exprs = Vec::new(self.alloc);
        for _ in 0..count(word)? {
            exprs.push(self.expr()?)?;
        }
        exprs.reverse();
        Ok(CsExprs::from_vec(exprs))
    }

    /// The last statements, as many as a word says, in their order.
    pub fn items(&mut self, word: &str) -> Result<CsStmts, Fault> {
        let mut items = Vec::new(self.alloc);
        for _ in 0..count(word)? {
            items.push(self.stmt()?)?;
        }
        items.reverse();
        Ok(CsStmts::from_vec(items))
    }

    /// Numbers between plus signs, or none.
    pub fn numbers(&self, word: &str) -> Result<Numbers, Fault> {
        let mut numbers = Vec::new(self.alloc);
        for number in word.split("+").filter(|number| *number != "-") {
            numbers.push(count(number)?)?;
        }
        Ok(Numbers::from_vec(numbers))
    }
}

/// A number without sign.
pub fn count(word: &str) -> Result<u64, Fault> {
    match word.parse::<u64>() {
        Ok(n) => Ok(n),
        Err(_) => Err(Fault::NoRow),
    }
}

/// A number without sign, or none.
pub fn some_count(word: &str) -> Result<Option<u64>, Fault> {
    match word {
        "-" => Ok(None),
        _ => Ok(Some(count(word)?)),
    }
}

/// A whole number.
pub fn number(word: &str) -> Result<i128, Fault> {
    match word.parse::<i128>() {
        Ok(n) => Ok(n),
        Err(_) => Err(Fault::NoRow),
    }
}

/// The two parts of a word at its first colon.
pub fn parts(word: &str) -> Result<(&str, &str), Fault> {
    match word.split_once(':') {
        Some(parts) => Ok(parts),
        None => Err(Fault::NoRow),
    }
}
