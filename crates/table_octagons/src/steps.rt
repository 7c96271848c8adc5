// Steps over a state.

use crate::exprs::{assigned, expression};
use crate::loops::{looped, settled, widened};
use crate::printed::{Step, Told, went};
use crate::words::{range_of, sign, variable};
use env_lift::Env;
use intervals::Interval;
use num_api::{Message, Messages, NExpr, NOp, NumDomain, NumFacts, Oracle, Var};
use octagons::Octagon;
use std::alloc::{AllocError as NoMemory, Global};
use std::mem;

/// A row under way: its state, the copy that it keeps, what the oracle knows, and the messages so far.
#[derive(Drop)]
struct Row {
    alloc: Global,
    state: Octagon,
    kept: Octagon,
    known: Env<Interval>,
    heard: Messages,
}

impl Row {
    // One step.
    fn take(&mut self, words: &[&str]) -> Result<Step, NoMemory> {
        match words {
            ["know", rest @ ..] => self.know(rest),
            ["put", rest @ ..] => self.put(rest),
            ["set", rest @ ..] => self.set(rest),
            ["assume", rest @ ..] => self.assume(rest, true),
            ["refuse", rest @ ..] => self.assume(rest, false),
            ["between", rest @ ..] => self.between(rest),
            ["bound", rest @ ..] => self.bound(rest),
            ["equal", rest @ ..] => self.equal(rest),
            ["forget", x] => self.forget(x),
            ["chain", n] => self.chain(n),
            ["settle", rest @ ..] => self.settle(rest),
            ["fork"] => self.fork(),
            ["join"] => self.join(),
            ["widen"] => self.widen(),
            _ => Ok(Step::Last(self.told(words)?)),
        }
    }

    // What the last step of a row is answered.
    fn told(&mut self, words: &[&str]) -> Result<Told, NoMemory> {
        match words {
            ["show", rest @ ..] => Ok(match expression(self.alloc, rest)? {
                Some(e) => Told::Shown(self.state.range(&e)),
                None => Told::NoRow,
            }),
            ["covers"] => Ok(Told::Truth(self.state.covers(&self.kept))),
            ["covered"] => Ok(Told::Truth(self.kept.covers(&self.state))),
            ["heard"] => {
                let none = Messages::new(self.alloc);
                Ok(Told::Said(mem::replace(&mut self.heard, none)))
            }
            ["facts"] => {
                let mut facts = NumFacts::new(self.alloc);
                self.state.facts(&mut facts)?;
                Ok(Told::Facts(facts))
            }
            _ => Ok(Told::NoRow),
        }
    }

    // The oracle knows a range from now on.
    fn know(&mut self, words: &[&str]) -> Result<Step, NoMemory> {
        match range_of(words) {
            Some((x, range)) if range.holds_some() => {
                self.known.havoc(x, range)?;
                Ok(Step::Next)
            }
            _ => Ok(Step::Last(Told::NoRow)),
        }
    }

    // Gives the variable a number of the range.
    fn put(&mut self, words: &[&str]) -> Result<Step, NoMemory> {
        match range_of(words) {
            Some((x, range)) if range.holds_some() => {
                self.state.havoc(x, range)?;
                self.known.forget(x)?;
                Ok(Step::Next)
            }
            _ => Ok(Step::Last(Told::NoRow)),
        }
    }

    // Assigns an expression.
    fn assign(&mut self, x: Var, e: &NExpr) -> Result<(), NoMemory> {
        self.state.assign(x, e, &self.known, &mut self.heard)?;
        self.known.forget(x)
    }

    fn set(&mut self, words: &[&str]) -> Result<Step, NoMemory> {
        let Some((x, e)) = assigned(self.alloc, words)? else {
            return Ok(Step::Last(Told::NoRow));
        };
        self.assign(x, &e)?;
        Ok(Step::Next)
    }

    // Assigns to so many variables the one before and 1.
    fn chain(&mut self, count: &str) -> Result<Step, NoMemory> {
        let Ok(count) = count.parse::<u8>() else {
            return Ok(Step::Last(Told::NoRow));
        };
        for k in 0..count {
            let before = Box::new(self.alloc, NExpr::Read(Var(u64::from(k))))?;
            let one = Box::new(self.alloc, NExpr::Const(1))?;
            let e = NExpr::Binary(NOp::Add, before, one);
            self.assign(Var(u64::from(k) + 1), &e)?;
        }
        Ok(Step::Next)
    }

    fn assume(&mut self, words: &[&str], truth: bool) -> Result<Step, NoMemory> {
        let Some(e) = expression(self.alloc, words)? else {
            return Ok(Step::Last(Told::NoRow));
        };
        let live = self.state.assume(&e, truth, &self.known, &mut self.heard)?;
        Ok(went(live))
    }

    fn between(&mut self, words: &[&str]) -> Result<Step, NoMemory> {
        let Some((x, range)) = range_of(words) else {
            return Ok(Step::Last(Told::NoRow));
        };
        Ok(went(self.state.accept(&Message::Between(x, range))?))
    }

    fn bound(&mut self, words: &[&str]) -> Result<Step, NoMemory> {
        let [s, x, t, y, n] = words else {
            return Ok(Step::Last(Told::NoRow));
        };
        match (
            sign(s),
            variable(x),
            sign(t),
            variable(y),
            n.parse::<i128>(),
        ) {
            (Some(sx), Some(x), Some(sy), Some(y), Ok(bound)) => {
                let message = Message::AtMost {
                    sx,
                    x,
                    sy,
                    y,
                    bound,
                };
                Ok(went(self.state.accept(&message)?))
            }
            _ => Ok(Step::Last(Told::NoRow)),
        }
    }

    fn equal(&mut self, words: &[&str]) -> Result<Step, NoMemory> {
        let Some((x, e)) = assigned(self.alloc, words)? else {
            return Ok(Step::Last(Told::NoRow));
        };
        Ok(went(self.state.accept(&Message::Equal(x, e))?))
    }

    fn forget(&mut self, x: &str) -> Result<Step, NoMemory> {
        let Some(x) = variable(x) else {
            return Ok(Step::Last(Told::NoRow));
        };
        self.state.forget(x)?;
        Ok(Step::Next)
    }

    fn fork(&mut self) -> Result<Step, NoMemory> {
        self.kept = self.state.copy()?;
        Ok(Step::Next)
    }

    fn join(&mut self) -> Result<Step, NoMemory> {
        self.state.join(&self.kept)?;
        Ok(Step::Next)
    }

    fn widen(&mut self) -> Result<Step, NoMemory> {
        let first = mem::replace(&mut self.kept, Octagon::top(self.alloc));
        self.state = widened(first, &self.state)?;
        self.kept = self.state.copy()?;
        Ok(Step::Next)
    }

    fn settle(&mut self, words: &[&str]) -> Result<Step, NoMemory> {
        let Some(turn) = looped(self.alloc, words)? else {
            return Ok(Step::Last(Told::NoRow));
        };
        let start = mem::replace(&mut self.state, Octagon::top(self.alloc));
        self.state = settled(self.alloc, start, &turn)?;
        Ok(Step::Next)
    }
}

/// What is known at the end of a row.
pub fn answer(alloc: Global, row: &str) -> Result<Told, NoMemory> {
    let mut state = Row {
        alloc,
        state: Octagon::top(alloc),
        kept: Octagon::top(alloc),
        known: Env::top(alloc),
        heard: Messages::new(alloc),
    };
    for part in row.split(';') {
        let mut words = Vec::new(alloc);
        for word in part.split_whitespace() {
            words.push(word)?;
        }
        match state.take(&words)? {
            Step::Next => {}
            Step::Last(told) => return Ok(told),
        }
    }
    Ok(Told::NoRow)
}
