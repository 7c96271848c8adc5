//! Closes matrices of as many variables as there may be, over and over, to be timed: `close` for
//! closings alone, `close_one` for closings and closings after one bound more.
#![tactic(auto)]

use bound_matrix::{Live, Matrix, close, close_one};
use ext_int::Ext::Fin;
use std::alloc::{AllocError, Global};
use std::{env, io};

const TURNS: u32 = 1000;

fn main(rt: HostRuntime) -> io::Result<()> {
    let again = env::args(&rt)?.any(|word| word.as_str() == "close_one");
    let mut alive = 0u32;
    for _ in 0..TURNS {
        if let Ok(Live::Live) = closed(rt.alloc(), again) {
            alive = alive.saturating_add(1);
        }
    }
    println!(rt; "{alive} closed")
}

// A chain of bounds, closed; and closed after one bound more, where that is asked.
fn closed(alloc: Global, again: bool) -> Result<Live, AllocError> {
    let mut m = Matrix::new(alloc, 24)?;
    m.lower(46, 2, Fin(23));
    match close(&mut m) {
        Live::Dead => return Ok(Live::Dead),
        Live::Live => m.lower(2, 0, Fin(1)),
    }
    if again {
        Ok(close_one(&mut m, 2, 0))
    } else {
        Ok(Live::Live)
    }
}
