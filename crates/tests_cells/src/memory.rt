// Loads, stores, copies and bytes that lose their values, with `int a[2]` and `int *p`.

use block_mem::Scalar;
use c_syntax::{IntType, TBinaryOp};
use csharp::CsExpr;
use env_lift::Env;
use ext_int::Ext;
use intervals::Interval;
use machine_nums::{MExpr, Machine};
use mem_cell_exprs::{Known, Types};
use mem_cell_grid::{Grid, Pointers};
use mem_cell_loads::{load, number_range};
use mem_cell_stores::{copy_bytes, store, undefine};
use num_api::{Message, Range, Var};
use residues::{Class, Pair};
use std::alloc::{AllocError as NoMemory, Global};
use std::test::Fail;

type Numbers = Env<Pair<Interval, Class>>;

const INT: Scalar = Scalar::Int(IntType::Int);

// The object `int a[2]`.
const A: u64 = 0;

// The object `int *p`.
const P: u64 = 1;

// A set of which nothing is known, with temporaries of type int, int * and int.
fn nothing(alloc: Global) -> Result<Known<Numbers>, NoMemory> {
    Ok(Known {
        alloc,
        types: Types::of(alloc, &[INT, Scalar::Pointer, INT])?,
        nums: Machine::top(alloc),
        pointers: Pointers::unknown(alloc, 3)?,
        grid: Grid::nothing(alloc, 2)?,
    })
}

fn number(value: i128) -> CsExpr {
    CsExpr::Const {
        ty: IntType::Int,
        value,
    }
}

// The address of an element of a.
fn element(alloc: Global, index: CsExpr) -> Result<CsExpr, NoMemory> {
    Ok(CsExpr::Binary {
        op: TBinaryOp::PointerPlusInt { element: 4 },
        left: Box::new(alloc, CsExpr::Address { object: A })?,
        right: Box::new(alloc, index)?,
    })
}

fn between(lo: i128, hi: i128) -> Range {
    Range {
        lo: Ext::Fin(lo),
        hi: Ext::Fin(hi),
    }
}

fn any_int() -> Range {
    between(-2_147_483_648, 2_147_483_647)
}

// Loads a value of its type into a temporary, if it is there.
fn load_into(known: &mut Known<Numbers>, temp: u64, address: &CsExpr) -> Result<(), NoMemory> {
    let types = known.types.as_slice();
    if temp < types.len() as u64 {
        let ty = types[temp as usize];
        return load(known, temp, address, ty);
    }
    Ok(())
}

// What an int may be that is loaded from an address.
fn loaded(known: &mut Known<Numbers>, address: &CsExpr) -> Result<Range, NoMemory> {
    load_into(known, 0, address)?;
    number_range(known, MExpr::Read(Var(0), IntType::Int))
}

// A set in which a is 3 and 5.
fn three_and_five(alloc: Global) -> Result<Known<Numbers>, NoMemory> {
    let mut known = nothing(alloc)?;
    undefine(&mut known, A, 8)?;
    store(&mut known, &element(alloc, number(0))?, INT, &number(3))?;
    store(&mut known, &element(alloc, number(1))?, INT, &number(5))?;
    Ok(known)
}

// Gives the third temporary a number from 0 to 1.
fn choose_index(known: &mut Known<Numbers>) -> Result<(), NoMemory> {
    known.nums.havoc(Var(4), IntType::Int)?;
    let _live = known.nums.accept(&Message::Between(Var(4), between(0, 1)))?;
    Ok(())
}

// What is stored is loaded, at each place alone.
#[test]
fn loads_what_was_stored(rt: HostRuntime) -> Result<(), Fail> {
    let alloc = rt.alloc();
    let mut known = three_and_five(alloc)?;
    assert_eq!(rt;
        loaded(&mut known, &element(alloc, number(0))?)?,
        between(3, 3)
    );
    assert_eq!(rt;
        loaded(&mut known, &element(alloc, number(1))?)?,
        between(5, 5)
    );
    Ok(())
}

// At one of two places a load finds what either may hold, and a store may hit either.
#[test]
fn loads_and_stores_at_one_of_two_places(rt: HostRuntime) -> Result<(), Fail> {
    let alloc = rt.alloc();
    let mut known = three_and_five(alloc)?;
    choose_index(&mut known)?;
    let either = element(alloc, CsExpr::Temp { temp: 2 })?;
    assert_eq!(rt; loaded(&mut known, &either)?, between(3, 5));
    store(&mut known, &either, INT, &number(7))?;
    assert_eq!(rt;
        loaded(&mut known, &element(alloc, number(0))?)?,
        between(3, 7)
    );
    assert_eq!(rt;
        loaded(&mut known, &element(alloc, number(1))?)?,
        between(5, 7)
    );
    Ok(())
}

// A pointer that is stored is loaded, with its offset.
#[test]
fn loads_through_a_stored_pointer(rt: HostRuntime) -> Result<(), Fail> {
    let alloc = rt.alloc();
    let mut known = three_and_five(alloc)?;
    let p = CsExpr::Address { object: P };
    store(&mut known, &p, Scalar::Pointer, &element(alloc, number(1))?)?;
    load_into(&mut known, 1, &p)?;
    assert_eq!(rt;
        loaded(&mut known, &CsExpr::Temp { temp: 1 })?,
        between(5, 5)
    );
    Ok(())
}

// Of bytes that a copy writes nothing stays known, nor of bytes without a value.
#[test]
fn forgets_what_is_written(rt: HostRuntime) -> Result<(), Fail> {
    let alloc = rt.alloc();
    let mut known = three_and_five(alloc)?;
    copy_bytes(&mut known, &element(alloc, number(0))?, 4)?;
    assert_eq!(rt; loaded(&mut known, &element(alloc, number(0))?)?, any_int());
    assert_eq!(rt;
        loaded(&mut known, &element(alloc, number(1))?)?,
        between(5, 5)
    );
    undefine(&mut known, A, 8)?;
    assert_eq!(rt; loaded(&mut known, &element(alloc, number(1))?)?, any_int());
    Ok(())
}
