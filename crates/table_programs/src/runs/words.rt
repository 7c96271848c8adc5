// What a run comes to, as a line.

use crate::runs::End;
use c_syntax::{Places, Pos, WrongKind};
use std::alloc::{AllocError, Global};

/// The line of what a run comes to.
pub fn line(alloc: Global, end: &End) -> Result<String, AllocError> {
    match end {
        End::Ended(n) => format!(in alloc; "Ended({n})"),
        End::Waiting => String::from_str(alloc, "Waiting"),
        End::Stopped => String::from_str(alloc, "Stopped"),
        End::Wrong(at, kind, chain) => wrong(alloc, *at, *kind, chain),
        End::StillGoing => String::from_str(alloc, "StillGoing"),
        End::Refused => String::from_str(alloc, "Refused"),
    }
}

// What is wrong and where, as `Wrong 1:23 DivideByZero [1:54]`.
fn wrong(alloc: Global, at: Pos, kind: WrongKind, chain: &Places) -> Result<String, AllocError> {
    let line = at.line;
    let col = at.col;
    let mut told = format!(in alloc; "Wrong {line}:{col} {kind:?} [")?;
    let mut first = true;
    for call in chain.as_slice() {
        if !first {
            told.push(',')?;
        }
        first = false;
        let line = call.line;
        let col = call.col;
        told.push_str(format!(in alloc; "{line}:{col}")?.as_str())?;
    }
    told.push(']')?;
    Ok(told)
}
