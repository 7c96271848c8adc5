// The variables that equalities tie to a test.

use crate::pairs::Equation;
use num_api::{NExpr, Var};
use std::alloc::{AllocError as NoMemory, Global};

// Whether the variable is one of the list.
fn has(vars: &[Var], x: Var) -> bool {
    vars.iter().any(|y| y.0 == x.0)
}

// Adds the variable, where it is not there.
fn add(vars: &mut Vec<Var>, x: Var) -> Result<(), NoMemory> {
    if has(vars.as_slice(), x) {
        return Ok(());
    }
    vars.push(x)?;
    Ok(())
}

// Adds the variables that the expression reads.
fn add_read(vars: &mut Vec<Var>, e: &NExpr) -> Result<(), NoMemory> {
    match e {
        NExpr::Const(_) => Ok(()),
        NExpr::Read(x) => add(vars, *x),
        NExpr::Unary(_, a) => add_read(vars, a),
        NExpr::Binary(_, a, b) => {
            add_read(vars, a)?;
            add_read(vars, b)
        }
    }
}

// Whether the equality speaks of one of the variables.
pub fn is_tied(p: &Equation, vars: &[Var]) -> bool {
    vars.iter().any(|x| p.speaks_of(*x))
}

// Adds the variables of an equality that speaks of one of them.
fn tie(vars: &mut Vec<Var>, p: &Equation) -> Result<(), NoMemory> {
    if !is_tied(p, vars.as_slice()) {
        return Ok(());
    }
    add(vars, p.x)?;
    add_read(vars, &p.e)
}

// The variables of the expression, and those that equalities tie to them, from the newest equality to the
// oldest and back.
pub fn tied(alloc: Global, pairs: &[Equation], e: &NExpr) -> Result<Vec<Var>, NoMemory> {
    let mut vars = Vec::new(alloc);
    add_read(&mut vars, e)?;
    for p in pairs {
        tie(&mut vars, p)?;
    }
    for p in pairs.iter().rev() {
        tie(&mut vars, p)?;
    }
    Ok(vars)
}
