// Steps over a state.

ghost use Rattle.std.specs.Prelude.{◌≡◌};
ghost use Rattle.num_api.specs.Steps.{least};
ghost use Rattle.num_api.specs.Powers.{power_steps};

use crate::exprs::expression;
use crate::words::{range_of, variable};
use channels::Linked;
use env_lift::Env;
use equalities::Equalities;
use intervals::Interval;
use num_api::{
    Live, Message, Messages, NExpr, NumDomain, NumFacts, Oracle, Powers, Ramp, Range, Residue,
    Unknowing, Var, power_step,
};
use residues::{Class, Pair};
use std::alloc::{AllocError as NoMemory, Global};
use std::mem;

/// A range and a class for each variable, and equalities beside them.
type State = Linked<Env<Pair<Interval, Class>>, Equalities>;

/// What a row comes to.
pub enum Told {
    Range(Range),
    Class(Residue),
    Count(usize),
    Truth(bool),
    Dead,
    NoRow,
}

/// Where a row goes on.
enum Step {
    Next,
    Last(Told),
}

fn went(live: Live) -> Step {
    match live {
        Live::Live => Step::Next,
        Live::Dead => Step::Last(Told::Dead),
    }
}

/// A row under way: its state, and the copy that it keeps.
#[derive(Drop)]
struct Row {
    alloc: Global,
    state: State,
    kept: State,
}

impl Row {
    // The steps of a row, as far as the first that ends it.
    fn take_all(&mut self, row: &str) -> Result<Told, NoMemory> {
        for step in row.split(';') {
            match self.take_written(step)? {
                Step::Next => {}
                Step::Last(told) => return Ok(told),
            }
        }
        Ok(Told::NoRow)
    }

    fn take_written(&mut self, step: &str) -> Result<Step, NoMemory> {
        let mut words = Vec::new(self.alloc);
        for word in step.split_whitespace() {
            words.push(word)?;
        }
        match words.as_slice() {
            [word, rest @ ..] => self.take(word, rest),
            [] => Ok(Step::Last(Told::NoRow)),
        }
    }

    fn take(&mut self, word: &str, rest: &[&str]) -> Result<Step, NoMemory> {
        match word {
            "put" => self.put(rest),
            "set" => self.set(rest),
            "assume" => self.assume(rest, true),
            "refuse" => self.assume(rest, false),
            "accept" => self.accept(rest),
            "learn" => self.learn(rest),
            "forget" => self.forget(rest),
            _ => self.take_with_copy(word, rest),
        }
    }

    // A step that takes no words, or the last one.
    fn take_with_copy(&mut self, word: &str, rest: &[&str]) -> Result<Step, NoMemory> {
        match word {
            "fork" => self.kept = self.state.copy()?,
            "join" => self.state.join(&self.kept)?,
            "widen" => {
                widen(&mut self.kept, &self.state)?;
                mem::swap(&mut self.kept, &mut self.state);
            }
            _ => return Ok(Step::Last(self.told(word, rest)?)),
        }
        Ok(Step::Next)
    }

    // What the last step of a row is answered.
    fn told(&self, word: &str, rest: &[&str]) -> Result<Told, NoMemory> {
        match word {
            "range" => self.range(rest),
            "class" => self.class(rest),
            "same" => self.same(rest),
            "covers" => Ok(Told::Truth(self.state.covers(&self.kept))),
            "covered" => Ok(Told::Truth(self.kept.covers(&self.state))),
            "facts" => self.facts(),
            _ => Ok(Told::NoRow),
        }
    }

    fn range(&self, words: &[&str]) -> Result<Told, NoMemory> {
        Ok(match expression(self.alloc, words)? {
            Some(e) => Told::Range(self.state.range(&e)),
            None => Told::NoRow,
        })
    }

    fn class(&self, words: &[&str]) -> Result<Told, NoMemory> {
        Ok(match expression(self.alloc, words)? {
            Some(e) => Told::Class(self.state.residue(&e)),
            None => Told::NoRow,
        })
    }

    fn facts(&self) -> Result<Told, NoMemory> {
        let mut facts = NumFacts::new(self.alloc);
        self.state.facts(&mut facts)?;
        Ok(Told::Count(facts.as_slice().len()))
    }

    // Whether the expression is answered for the variable; without one, whether any is.
    fn same(&self, words: &[&str]) -> Result<Told, NoMemory> {
        let [x, words @ ..] = words else {
            return Ok(Told::NoRow);
        };
        let Some(x) = variable(x) else {
            return Ok(Told::NoRow);
        };
        let found = self.state.same(x);
        if words.is_empty() {
            return Ok(Told::Truth(found.is_some()));
        }
        Ok(match expression(self.alloc, words)? {
            Some(e) => Told::Truth(found.is_some_and(|found| found.is_same(&e))),
            None => Told::NoRow,
        })
    }

    fn put(&mut self, words: &[&str]) -> Result<Step, NoMemory> {
        let Some((x, range)) = range_of(words) else {
            return Ok(Step::Last(Told::NoRow));
        };
        if !range.holds_some() {
            return Ok(Step::Last(Told::NoRow));
        }
        self.state.havoc(x, range)?;
        Ok(Step::Next)
    }

    fn set(&mut self, words: &[&str]) -> Result<Step, NoMemory> {
        let Some((x, e)) = equation(self.alloc, words)? else {
            return Ok(Step::Last(Told::NoRow));
        };
        let mut out = Messages::new(self.alloc);
        self.state.assign(x, &e, &Unknowing, &mut out)?;
        Ok(Step::Next)
    }

    fn assume(&mut self, words: &[&str], truth: bool) -> Result<Step, NoMemory> {
        let Some(e) = expression(self.alloc, words)? else {
            return Ok(Step::Last(Told::NoRow));
        };
        let mut out = Messages::new(self.alloc);
        let live = self.state.assume(&e, truth, &Unknowing, &mut out)?;
        Ok(went(live))
    }

    fn accept(&mut self, words: &[&str]) -> Result<Step, NoMemory> {
        let Some((x, range)) = range_of(words) else {
            return Ok(Step::Last(Told::NoRow));
        };
        Ok(went(self.state.accept(&Message::Between(x, range))?))
    }

    fn learn(&mut self, words: &[&str]) -> Result<Step, NoMemory> {
        let Some((x, e)) = equation(self.alloc, words)? else {
            return Ok(Step::Last(Told::NoRow));
        };
        Ok(went(self.state.accept(&Message::Equal(x, e))?))
    }

    fn forget(&mut self, words: &[&str]) -> Result<Step, NoMemory> {
        let [x] = words else {
            return Ok(Step::Last(Told::NoRow));
        };
        let Some(x) = variable(x) else {
            return Ok(Step::Last(Told::NoRow));
        };
        self.state.forget(x)?;
        Ok(Step::Next)
    }
}

// Widens a state by the next one, by the steps of powers.
fn widen(state: &mut State, next: &State) -> Result<(), NoMemory> {
    let ramp = Ramp::<_>::new::<Powers>(
        257,
        |n: i128| -> Option<i128>
            ensures { result ≡ least power_steps n }
        { power_step(n) },
    );
    state.widen::<_, Powers>(next, &ramp)
}

// A variable and an expression.
fn equation(alloc: Global, words: &[&str]) -> Result<Option<(Var, NExpr)>, NoMemory> {
    let [x, rest @ ..] = words else {
        return Ok(None);
    };
    Ok(match (variable(x), expression(alloc, rest)?) {
        (Some(x), Some(e)) => Some((x, e)),
        _ => None,
    })
}

/// What a row comes to, by the first step that ends it.
pub fn answer(alloc: Global, row: &str) -> Result<Told, NoMemory> {
    let mut state = Row {
        alloc,
        state: State::top(alloc),
        kept: State::top(alloc),
    };
    state.take_all(row)
}
