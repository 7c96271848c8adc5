// Steps over a state.

ghost use Rattle.std.specs.Prelude.{◌≡◌};
ghost use Rattle.num_api.specs.Steps.{least};
ghost use Rattle.num_api.specs.Powers.{power_steps};

use super::exprs::expression;
use crate::rows::{Step, Told, went};
use crate::words::{range_of, variable};
use env_lift::Env;
use intervals::Interval;
use num_api::{
    Message, Messages, NExpr, NumDomain, NumFacts, Oracle, Powers, Ramp, Unknowing, Var,
    power_step, settle,
};
use residues::{Class, Pair};
use std::alloc::{AllocError as NoMemory, Global};
use std::mem;

type State = Env<Pair<Interval, Class>>;

/// A row under way: its state, the copy that it keeps, and the messages so far.
#[derive(Drop)]
struct Row {
    alloc: Global,
    state: State,
    kept: State,
    heard: Messages,
}

impl Row {
    // One step; `fork` keeps a copy of the state for `join`, `covers` and `covered`.
    fn take(&mut self, words: &[&str]) -> Result<Step, NoMemory> {
        match words {
            ["put", rest @ ..] => self.put(rest),
            ["set", rest @ ..] => self.set(rest),
            ["assume", rest @ ..] => self.assume(rest, true),
            ["refuse", rest @ ..] => self.assume(rest, false),
            ["accept", rest @ ..] => self.accept(rest),
            ["forget", x] => self.forget(x),
            ["settle", rest @ ..] => self.settle(rest),
            ["fork"] => {
                self.kept = self.state.copy()?;
                Ok(Step::Next)
            }
            ["join"] => {
                self.state.join(&self.kept)?;
                Ok(Step::Next)
            }
            _ => Ok(Step::Last(self.told(words)?)),
        }
    }

    // What the last step of a row is answered.
    fn told(&self, words: &[&str]) -> Result<Told, NoMemory> {
        match words {
            ["show", rest @ ..] => Ok(match expression(self.alloc, rest)? {
                Some(e) => Told::Shown(self.state.range(&e), self.state.residue(&e)),
                None => Told::NoRow,
            }),
            ["covers"] => Ok(Told::Truth(self.state.covers(&self.kept))),
            ["covered"] => Ok(Told::Truth(self.kept.covers(&self.state))),
            ["heard"] => Ok(Told::Count(self.heard.as_slice().len())),
            ["facts"] => {
                let mut facts = NumFacts::new(self.alloc);
                self.state.facts(&mut facts)?;
                Ok(Told::Count(facts.as_slice().len()))
            }
            ["same", x] => Ok(match variable(x) {
                Some(x) => Told::Truth(self.state.same(x).is_some()),
                None => Told::NoRow,
            }),
            _ => of_expressions(self.alloc, words),
        }
    }

    // Gives the variable a number of the range.
    fn put(&mut self, words: &[&str]) -> Result<Step, NoMemory> {
        let Some((x, range)) = range_of(words) else {
            return Ok(Step::Last(Told::NoRow));
        };
        if !range.holds_some() {
            return Ok(Step::Last(Told::NoRow));
        }
        self.state.havoc(x, range)?;
        Ok(Step::Next)
    }

    fn set(&mut self, words: &[&str]) -> Result<Step, NoMemory> {
        let Some((x, e)) = assigned(self.alloc, words)? else {
            return Ok(Step::Last(Told::NoRow));
        };
        self.state.assign(x, &e, &Unknowing, &mut self.heard)?;
        Ok(Step::Next)
    }

    fn assume(&mut self, words: &[&str], truth: bool) -> Result<Step, NoMemory> {
        let Some(e) = expression(self.alloc, words)? else {
            return Ok(Step::Last(Told::NoRow));
        };
        let live = self.state.assume(&e, truth, &Unknowing, &mut self.heard)?;
        Ok(went(live))
    }

    fn accept(&mut self, words: &[&str]) -> Result<Step, NoMemory> {
        let Some((x, range)) = range_of(words) else {
            return Ok(Step::Last(Told::NoRow));
        };
        Ok(went(self.state.accept(&Message::Between(x, range))?))
    }

    fn forget(&mut self, x: &str) -> Result<Step, NoMemory> {
        let Some(x) = variable(x) else {
            return Ok(Step::Last(Told::NoRow));
        };
        self.state.forget(x)?;
        Ok(Step::Next)
    }

    fn settle(&mut self, words: &[&str]) -> Result<Step, NoMemory> {
        let Some((x, e)) = assigned(self.alloc, words)? else {
            return Ok(Step::Last(Told::NoRow));
        };
        let start = mem::replace(&mut self.state, State::top(self.alloc));
        self.state = settled(self.alloc, start, x, &e)?;
        Ok(Step::Next)
    }
}

// A variable and an expression.
fn assigned(alloc: Global, words: &[&str]) -> Result<Option<(Var, NExpr)>, NoMemory> {
    let [x, rest @ ..] = words else {
        return Ok(None);
    };
    Ok(match (variable(x), expression(alloc, rest)?) {
        (Some(x), Some(e)) => Some((x, e)),
        _ => None,
    })
}

// The state of a loop that begins with this one and assigns the expression at each turn.
fn settled(alloc: Global, start: State, x: Var, e: &NExpr) -> Result<State, NoMemory> {
    let ramp = Ramp::<_>::new::<Powers>(
        257,
        |n: i128| -> Option<i128>
            ensures { result ≡ least power_steps n }
        { power_step(n) },
    );
    settle::<_, _, Powers, _>(
        start,
        |state: &State| -> Result<State, NoMemory> {
            let mut next = state.copy()?;
            let mut out = Messages::new(alloc);
            next.assign(x, e, &Unknowing, &mut out)?;
            Ok(next)
        },
        &ramp,
    )
}

// Whether an expression reads a variable, and whether it is its own copy, or another one behind `is`.
fn of_expressions(alloc: Global, words: &[&str]) -> Result<Told, NoMemory> {
    match words {
        ["reads", rest @ ..] => Ok(match assigned(alloc, rest)? {
            Some((x, e)) => Told::Truth(e.reads(x)),
            None => Told::NoRow,
        }),
        ["alike", rest @ ..] => alike(alloc, rest),
        _ => Ok(Told::NoRow),
    }
}

fn alike(alloc: Global, words: &[&str]) -> Result<Told, NoMemory> {
    let mut sides = words.split(|word| *word == "is");
    let Some(e) = side(alloc, sides.next())? else {
        return Ok(Told::NoRow);
    };
    let other = match side(alloc, sides.next())? {
        Some(other) => other,
        None => e.copy(alloc)?,
    };
    Ok(Told::Truth(e.is_same(&other)))
}

fn side(alloc: Global, words: Option<&[&str]>) -> Result<Option<NExpr>, NoMemory> {
    match words {
        Some(words) => expression(alloc, words),
        None => Ok(None),
    }
}

/// What is known at the end of a row.
pub fn answer(alloc: Global, row: &str) -> Result<Told, NoMemory> {
    let mut state = Row {
        alloc,
        state: State::top(alloc),
        kept: State::top(alloc),
        heard: Messages::new(alloc),
    };
    for part in row.split(';') {
        let mut words = Vec::new(alloc);
        for word in part.split_whitespace() {
            words.push(word)?;
        }
        match state.take(&words)? {
            Step::Next => {}
            Step::Last(told) => return Ok(told),
        }
    }
    Ok(Told::NoRow)
}
