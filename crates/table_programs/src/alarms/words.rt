// Alarms, as a line.

use c_syntax::{Alarm, Example, Object, Pos, Spot};
use std::alloc::{AllocError, Global};

/// The line of what may go wrong in a program with these objects.
pub fn line(alloc: Global, objects: &[Object], alarms: &[Alarm]) -> Result<String, AllocError> {
    if alarms.is_empty() {
        return String::from_str(alloc, "no alarm");
    }
    let mut line = String::new(alloc);
    let mut between = "";
    for told in alarms {
        line.push_str(between)?;
        line.push_str(alarm(alloc, objects, told)?.as_str())?;
        between = "; ";
    }
    Ok(line)
}

// What may go wrong and where, with an example and the calls that lead there, as `DivideByZero 1:23 0 > 1:54`.
fn alarm(alloc: Global, objects: &[Object], alarm: &Alarm) -> Result<String, AllocError> {
    let kind = alarm.kind;
    let Pos { line, col, .. } = alarm.pos;
    let example = example(alloc, objects, &alarm.example)?;
    let chain = chain(alloc, alarm.chain.as_slice())?;
    format!(in alloc; "{kind:?} {line}:{col} {example}{chain}")
}

fn chain(alloc: Global, calls: &[Pos]) -> Result<String, AllocError> {
    let mut told = String::new(alloc);
    for call in calls {
        let line = call.line;
        let col = call.col;
        told.push_str(format!(in alloc; " > {line}:{col}")?.as_str())?;
    }
    Ok(told)
}

fn example(alloc: Global, objects: &[Object], example: &Example) -> Result<String, AllocError> {
    match example {
        Example::Number(n) => format!(in alloc; "{n}"),
        Example::Point(at) => spot(alloc, objects, *at),
        Example::Points(left, right) => {
            let left = spot(alloc, objects, *left)?;
            let right = spot(alloc, objects, *right)?;
            format!(in alloc; "{left}, {right}")
        }
        Example::Undef => String::from_str(alloc, "undef"),
        Example::Broken => String::from_str(alloc, "broken"),
        Example::Nothing => String::from_str(alloc, "none"),
    }
}

fn spot(alloc: Global, objects: &[Object], spot: Spot) -> Result<String, AllocError> {
    match spot {
        Spot::Null => String::from_str(alloc, "null"),
        Spot::Dead => String::from_str(alloc, "dead"),
        Spot::At(object, offset) => {
            let place = place(alloc, objects.get(object as usize))?;
            format!(in alloc; "{place}+{offset}")
        }
    }
}

// An object with the place of its name, as `a@1:20`.
fn place(alloc: Global, object: Option<&Object>) -> Result<String, AllocError> {
    let Some(object) = object else {
        return String::from_str(alloc, "?");
    };
    let line = object.pos.line;
    let col = object.pos.col;
    match str::from_utf8(object.name.as_slice()) {
        Ok(name) => format!(in alloc; "{name}@{line}:{col}"),
        Err(_) => format!(in alloc; "?@{line}:{col}"),
    }
}
