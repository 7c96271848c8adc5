// What is told of a file, as a line.
#![tactic(auto)]

use crate::files::Fault;
use c_syntax::{Objects, Plan, Pos};
use report::{refusal_pos, refusal_text, rule_pos, rule_text};
use std::alloc::{AllocError, Global};

/// The names and sizes of the objects.
pub fn objects(alloc: Global, objects: &Objects) -> Result<String, AllocError> {
    let mut line = String::from_str(alloc, "typed")?;
    for object in objects.as_slice() {
        let name = text_of(alloc, object.name.as_slice())?;
        let size = object.size;
        line.push_str(format!(in alloc; " {name}:{size}")?.as_str())?;
    }
    Ok(line)
}

/// The functions of a plan in their order, and main.
pub fn order(alloc: Global, plan: &Plan) -> Result<String, AllocError> {
    let mut line = String::from_str(alloc, "order")?;
    for function in plan.order.as_slice() {
        line.push_str(format!(in alloc; " {function}")?.as_str())?;
    }
    let main = plan.main;
    line.push_str(format!(in alloc; ", main {main}")?.as_str())?;
    Ok(line)
}

/// Why there is nothing to tell.
pub fn fault(alloc: Global, fault: &Fault) -> Result<String, AllocError> {
    match fault {
        Fault::NoFile => String::from_str(alloc, "no file"),
        Fault::Typing(error) => {
            let text = refusal_text(alloc, error)?;
            refused(alloc, refusal_pos(error), text.as_slice())
        }
        Fault::Rules(error, names) => {
            let text = rule_text(alloc, names, error)?;
            refused(alloc, rule_pos(error), text.as_slice())
        }
        Fault::NoMemory => Err(AllocError),
    }
}

// The line of a refusal, at a place or of the whole file.
fn refused(alloc: Global, at: Option<Pos>, text: &[u8]) -> Result<String, AllocError> {
    let text = text_of(alloc, text)?;
    match at {
        None => format!(in alloc; "a.c: refused: {text}"),
        Some(pos) => {
            let line = pos.line;
            let col = pos.col;
            format!(in alloc; "a.c:{line}:{col}: refused: {text}")
        }
    }
}

fn text_of(alloc: Global, bytes: &[u8]) -> Result<String, AllocError> {
    match str::from_utf8(bytes) {
        Ok(text) => String::from_str(alloc, text),
        Err(_) => String::from_str(alloc, "?"),
    }
}
