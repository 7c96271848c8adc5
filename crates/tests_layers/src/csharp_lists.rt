// Lists of the language that is analysed, and what is read of a state: each call once.
#![tactic(auto)]

use block_mem::Scalar;
use c_syntax::{Initials, IntType, Numbers, Objects, StructDefs};
use csharp::{CsExpr, CsExprs, CsFunction, CsFunctions, CsProgram, CsStmt, CsStmts, Temps};
use csharp_exec::first_state;
use std::alloc::{AllocError, Global};

fn two_expressions(alloc: Global) -> Result<CsExprs, AllocError> {
    let mut items = Vec::new(alloc);
    items.push(CsExpr::Null)?;
    items.push(CsExpr::Temp { temp: 3 })?;
    Ok(CsExprs::from_vec(items))
}

#[test]
fn expressions(rt: HostRuntime) -> Result<(), AllocError> {
    let list = two_expressions(rt.alloc())?;
    assert!(rt; are_null_and_third(list.as_slice()));
    assert_eq!(rt; list.into_vec().len(), 2);
    Ok(())
}

fn are_null_and_third(expressions: &[CsExpr]) -> bool {
    match expressions {
        [first, second] => {
            matches!(first, CsExpr::Null) && matches!(second, CsExpr::Temp { temp: 3 })
        }
        _ => false,
    }
}

fn two_statements(alloc: Global) -> Result<CsStmts, AllocError> {
    let mut items = Vec::new(alloc);
    items.push(CsStmt::Nothing)?;
    items.push(CsStmt::Exit { level: 2 })?;
    Ok(CsStmts::from_vec(items))
}

#[test]
fn statements(rt: HostRuntime) -> Result<(), AllocError> {
    let list = two_statements(rt.alloc())?;
    assert!(rt; are_nothing_and_exit(list.as_slice()));
    assert_eq!(rt; list.into_vec().len(), 2);
    Ok(())
}

fn are_nothing_and_exit(statements: &[CsStmt]) -> bool {
    match statements {
        [first, second] => {
            matches!(first, CsStmt::Nothing) && matches!(second, CsStmt::Exit { level: 2 })
        }
        _ => false,
    }
}

fn one_function(alloc: Global) -> Result<CsFunctions, AllocError> {
    let mut items = Vec::new(alloc);
    items.push(CsFunction {
        params: Numbers::new(alloc),
        body: CsStmt::Default,
    })?;
    Ok(CsFunctions::from_vec(items))
}

#[test]
fn functions(rt: HostRuntime) -> Result<(), AllocError> {
    let list = one_function(rt.alloc())?;
    assert!(rt; is_one_default(list.as_slice()));
    assert_eq!(rt; list.into_vec().len(), 1);
    Ok(())
}

fn is_one_default(functions: &[CsFunction]) -> bool {
    match functions {
        [only] => matches!(&only.body, CsStmt::Default),
        _ => false,
    }
}

static TYPES: [Scalar; 2] = [Scalar::Pointer, Scalar::Int(IntType::UInt)];

#[test]
fn temporaries(rt: HostRuntime) -> Result<(), AllocError> {
    let list = Temps::from_vec(Vec::from_slice(rt.alloc(), &TYPES)?);
    assert_eq!(rt; list.as_slice(), TYPES.as_slice());
    assert_eq!(rt; list.into_vec().len(), 2);
    Ok(())
}

fn empty_program(alloc: Global) -> CsProgram {
    CsProgram {
        structs: StructDefs::from_vec(Vec::new(alloc)),
        objects: Objects::from_vec(Vec::new(alloc)),
        initial: Initials::from_vec(Vec::new(alloc)),
        functions: CsFunctions::from_vec(Vec::new(alloc)),
        temps: Temps::from_vec(Vec::new(alloc)),
        main: 0,
    }
}

#[test]
fn memory_of_a_state(rt: HostRuntime) {
    let program = empty_program(rt.alloc());
    let state = first_state(rt.alloc(), &program, &[]).expect(&rt, "a state");
    assert_eq!(rt; state.memory().place(0), None);
}

#[test]
fn copy_of_a_state(rt: HostRuntime) -> Result<(), AllocError> {
    let program = empty_program(rt.alloc());
    let state = first_state(rt.alloc(), &program, &[7]).expect(&rt, "a state");
    let copy = state.try_clone()?;
    assert_eq!(rt; copy.memory().count(), 0);
    assert_eq!(rt; copy.temp(0), None);
    Ok(())
}
