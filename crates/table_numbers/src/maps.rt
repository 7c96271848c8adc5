// Maps from variables to numbers.

use env_lift::VarMap;
use num_api::Var;
use std::alloc::{AllocError, Global};

/// The line of what one map or two are asked: `count`, `get` and `without` a variable, `greatest` of what both have, `equal`
/// and `has`.
pub fn line(alloc: Global, words: &[&str]) -> Result<Option<String>, AllocError> {
    let [word, map, rest @ ..] = words else {
        return Ok(None);
    };
    match map_of(alloc, map)? {
        Some(map) => of_map(alloc, word, map, rest),
        None => Ok(None),
    }
}

// The map with these values, given in this order.
fn map_of(alloc: Global, word: &str) -> Result<Option<VarMap<u8>>, AllocError> {
    let mut map = VarMap::new(alloc);
    for entry in word.split(",") {
        match entry_of(entry) {
            Some((x, value)) => map.set(x, value)?,
            None => return Ok(None),
        }
    }
    Ok(Some(map))
}

fn entry_of(entry: &str) -> Option<(Var, u8)> {
    let (x, value) = entry.split_once("=")?;
    Some((Var(x.parse::<u64>().ok()?), value.parse::<u8>().ok()?))
}

fn of_map(
    alloc: Global,
    word: &str,
    map: VarMap<u8>,
    rest: &[&str],
) -> Result<Option<String>, AllocError> {
    match rest {
        [] => Ok(Some(format!(in alloc; "{}", map.len())?)),
        [other] => match other.parse::<u64>() {
            Ok(x) => of_variable(alloc, word, map, Var(x)),
            Err(_) => with_other(alloc, word, &map, other),
        },
        _ => Ok(None),
    }
}

fn of_variable(
    alloc: Global,
    word: &str,
    map: VarMap<u8>,
    x: Var,
) -> Result<Option<String>, AllocError> {
    match word {
        "get" => Ok(Some(found(alloc, map.get(x))?)),
        "without" => Ok(Some(without(alloc, map, x)?)),
        _ => Ok(None),
    }
}

fn found(alloc: Global, value: Option<u8>) -> Result<String, AllocError> {
    match value {
        Some(value) => format!(in alloc; "{value}"),
        None => String::from_str(alloc, "none"),
    }
}

fn without(alloc: Global, mut map: VarMap<u8>, x: Var) -> Result<String, AllocError> {
    map.remove(x);
    listed(alloc, &map.copy(alloc)?)
}

fn with_other(
    alloc: Global,
    word: &str,
    map: &VarMap<u8>,
    other: &str,
) -> Result<Option<String>, AllocError> {
    match map_of(alloc, other)? {
        Some(other) => of_two(alloc, word, map, &other),
        None => Ok(None),
    }
}

fn of_two(
    alloc: Global,
    word: &str,
    map: &VarMap<u8>,
    other: &VarMap<u8>,
) -> Result<Option<String>, AllocError> {
    match word {
        "greatest" => Ok(Some(greatest(alloc, map, other)?)),
        "equal" => truth(alloc, map.all_met(other, |x: u8, y: u8| -> bool { x == y })),
        "has" => truth(alloc, map.all_met(other, |_x: u8, _y: u8| -> bool { true })),
        _ => Ok(None),
    }
}

fn greatest(alloc: Global, map: &VarMap<u8>, other: &VarMap<u8>) -> Result<String, AllocError> {
    let both = map.merge(other, alloc, |x: u8, y: u8| -> u8 { x.max(y) })?;
    listed(alloc, &both)
}

fn truth(alloc: Global, holds: bool) -> Result<Option<String>, AllocError> {
    let line = String::from_str(alloc, if holds { "yes" } else { "no" })?;
    Ok(Some(line))
}

fn listed(alloc: Global, map: &VarMap<u8>) -> Result<String, AllocError> {
    let mut line = String::new(alloc);
    let mut between = "";
    for entry in map.entries() {
        write!(line, "{between}{}={}", entry.var.0, entry.value)?;
        between = ",";
    }
    Ok(line)
}
