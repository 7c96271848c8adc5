// A lowered program in the short notation.

use crate::exprs::temp_name;
use crate::files::{Fault, Written, lowered, refusal};
use crate::stmts::braced;
use csharp::{CsFunction, CsProgram};
use std::alloc::Global;

/// The lowered program of a file.
pub fn line(alloc: Global, text: &str, out: &mut String) -> Written {
    match shown(alloc, text, out) {
        Ok(()) => Ok(()),
        Err(fault) => refusal(fault, out),
    }
}

/// Writes the lowered program of a file.
pub fn shown(alloc: Global, text: &str, out: &mut String) -> Result<(), Fault> {
    let program = lowered(alloc, text)?;
    Ok(program_shown(&program, out)?)
}

fn program_shown(program: &CsProgram, out: &mut String) -> Written {
    let rows = program.temps.as_slice().len() / 12;
    let main = program.main;
    write!(out, "rows {rows} main {main}")?;
    let functions = program.functions.as_slice();
    for number in 0..functions.len() {
        write!(out, " f{number}(")?;
        function_shown(&functions[number], out)?;
    }
    Ok(())
}

fn function_shown(function: &CsFunction, out: &mut String) -> Written {
    let mut between = "";
    for temp in function.params.as_slice() {
        out.push_str(between)?;
        temp_name(*temp, out)?;
        between = ",";
    }
    out.push(')')?;
    braced(&function.body, out)
}
