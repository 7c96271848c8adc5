// How many checks of each kind a lowered program has.

use crate::files::{Fault, Written, refusal};
use crate::program::shown;
use c_syntax::WrongKind;
use std::alloc::Global;

const KINDS: [WrongKind; 16] = [
    WrongKind::Overflow,
    WrongKind::DivideByZero,
    WrongKind::Quotient,
    WrongKind::ShiftAmount,
    WrongKind::ShiftResult,
    WrongKind::Indeterminate,
    WrongKind::Fragment,
    WrongKind::NullUse,
    WrongKind::Dangling,
    WrongKind::Bounds,
    WrongKind::Access,
    WrongKind::Alignment,
    WrongKind::ReadOnly,
    WrongKind::Unrelated,
    WrongKind::NoValue,
    WrongKind::AssertFailed,
];

/// The kinds that a file's lowered program has checks of, each with how many.
pub fn line(alloc: Global, text: &str, out: &mut String) -> Written {
    match counted(alloc, text, out) {
        Ok(()) => Ok(()),
        Err(fault) => refusal(fault, out),
    }
}

fn counted(alloc: Global, text: &str, out: &mut String) -> Result<(), Fault> {
    let mut program = String::new(alloc);
    shown(alloc, text, &mut program)?;
    let mut between = "";
    for kind in KINDS {
        let count = times(alloc, kind, program.as_str())?;
        if count > 0 {
            write!(out, "{between}{kind:?} {count}")?;
            between = " ";
        }
    }
    Ok(())
}

// How many checks of a kind are shown.
fn times(alloc: Global, kind: WrongKind, program: &str) -> Result<usize, Fault> {
    let word = format!(in alloc; "?{kind:?}@")?;
    Ok(program.matches(word.as_str()).count())
}
