// Loops, widened to a state that holds each turn.

ghost use Rattle.std.specs.Prelude.{◌≡◌};
ghost use Rattle.num_api.specs.Steps.{least};
ghost use Rattle.num_api.specs.Powers.{power_steps};

use crate::exprs::{assigned, expression};
use num_api::{Live, Messages, NExpr, NumDomain, Powers, Ramp, Unknowing, Var, power_step, settle};
use octagons::Octagon;
use std::alloc::{AllocError as NoMemory, Global};

/// A loop: a test that each turn begins with, and what each turn assigns.
#[derive(Drop)]
pub struct Loop {
    test: NExpr,
    body: Vec<(Var, NExpr)>,
}

/// The loop of these words.
pub fn looped(alloc: Global, words: &[&str]) -> Result<Option<Loop>, NoMemory> {
    let mut parts = words.split(|word| *word == ":");
    let Some(first) = parts.next() else {
        return Ok(None);
    };
    let Some(test) = expression(alloc, first)? else {
        return Ok(None);
    };
    let mut body = Vec::new(alloc);
    for part in parts {
        let Some(pair) = assigned(alloc, part)? else {
            return Ok(None);
        };
        body.push(pair)?;
    }
    Ok(Some(Loop { test, body }))
}

/// The first state widened by the next one.
pub fn widened(mut first: Octagon, next: &Octagon) -> Result<Octagon, NoMemory> {
    let ramp = Ramp::<_>::new::<Powers>(
        257,
        |n: i128| -> Option<i128>
            ensures { result ≡ least power_steps n }
        { power_step(n) },
    );
    first.widen::<_, Powers>(next, &ramp)?;
    Ok(first)
}

// What a turn makes of a state.
fn turned(alloc: Global, state: &Octagon, turn: &Loop) -> Result<Octagon, NoMemory> {
    let mut next = state.copy()?;
    let mut out = Messages::new(alloc);
    match next.assume(&turn.test, true, &Unknowing, &mut out)? {
        Live::Dead => return state.copy(),
        Live::Live => {}
    }
    for (x, e) in &turn.body {
        next.assign(*x, e, &Unknowing, &mut out)?;
    }
    let mut joined = state.copy()?;
    joined.join(&next)?;
    Ok(joined)
}

/// A state that holds the first one and with each state the one after a turn.
pub fn settled(alloc: Global, start: Octagon, turn: &Loop) -> Result<Octagon, NoMemory> {
    let ramp = Ramp::<_>::new::<Powers>(
        257,
        |n: i128| -> Option<i128>
            ensures { result ≡ least power_steps n }
        { power_step(n) },
    );
    settle::<_, _, Powers, _>(
        start,
        |state: &Octagon| -> Result<Octagon, NoMemory> { turned(alloc, state, turn) },
        &ramp,
    )
}
