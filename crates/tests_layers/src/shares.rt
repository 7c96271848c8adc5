// Each call once.
#![tactic(auto, using(c_syntax::proofs::Trees::the_trees))]

use c_machine_trees::{
    SharedExpr, SharedInit, SharedPlace, SharedStmt, share_exprs, share_init, share_inits,
    share_place, share_stmts, shared_expr, shared_stmt,
};
use c_syntax::{CType, IntType, Pos, TExpr, TExprs, TInit, TInits, TLvalue, TStmt, TStmts};
use std::alloc::{AllocError, Global};

const AT: Pos = Pos {
    file: 0,
    line: 1,
    col: 3,
};

const SEVEN: TExpr = TExpr::Const {
    pos: AT,
    ty: IntType::Long,
    value: 7,
};

fn is_seven(shared: &SharedExpr) -> bool {
    matches!(shared, SharedExpr::Const { value: 7, .. })
}

#[test]
fn expressions(rt: HostRuntime) -> Result<(), AllocError> {
    assert!(rt; is_seven(&*shared_expr(rt.alloc(), &SEVEN)?));
    assert_eq!(rt; shares_of_one(rt.alloc())?, 1);
    Ok(())
}

// How many shares a list of one expression has.
fn shares_of_one(alloc: Global) -> Result<usize, AllocError> {
    let mut items = Vec::new(alloc);
    items.push(SEVEN)?;
    let shares = share_exprs(alloc, &TExprs::from_vec(items))?;
    Ok(shares.as_slice().len())
}

#[test]
fn places(rt: HostRuntime) -> Result<(), AllocError> {
    let place = TLvalue::Var {
        pos: AT,
        object: 4,
        ty: CType::Int(IntType::Long),
        is_const: false,
    };
    let shared = share_place(rt.alloc(), &place)?;
    assert!(rt; matches!(shared, SharedPlace::Var { object: 4, .. }));
    Ok(())
}

const STORE: TInit = TInit::Store {
    offset: 8,
    ty: CType::Int(IntType::Long),
    value: SEVEN,
};

fn is_eighth(shared: &SharedInit) -> bool {
    matches!(shared, SharedInit::Store { offset: 8, .. })
}

#[test]
fn initial_values(rt: HostRuntime) -> Result<(), AllocError> {
    assert!(rt; is_eighth(&share_init(rt.alloc(), &STORE)?));
    assert_eq!(rt; shares_of_one_store(rt.alloc())?, 1);
    Ok(())
}

// How many shares a list of one initial value has.
fn shares_of_one_store(alloc: Global) -> Result<usize, AllocError> {
    let mut items = Vec::new(alloc);
    items.push(STORE)?;
    let shares = share_inits(alloc, &TInits::from_vec(items))?;
    Ok(shares.as_slice().len())
}

const LABEL: TStmt = TStmt::Label { pos: AT, label: 9 };

fn is_ninth(shared: &SharedStmt) -> bool {
    matches!(shared, SharedStmt::Label { label: 9, .. })
}

#[test]
fn statements(rt: HostRuntime) -> Result<(), AllocError> {
    assert!(rt; is_ninth(&*shared_stmt(rt.alloc(), &LABEL)?));
    assert_eq!(rt; shares_of_one_label(rt.alloc())?, 1);
    Ok(())
}

// How many shares a list of one statement has.
fn shares_of_one_label(alloc: Global) -> Result<usize, AllocError> {
    let mut items = Vec::new(alloc);
    items.push(LABEL)?;
    let shares = share_stmts(alloc, &TStmts::from_vec(items))?;
    Ok(shares.as_slice().len())
}
