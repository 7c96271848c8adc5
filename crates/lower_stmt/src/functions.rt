// Functions, in the plan's order: the rows of each begin behind those of all that it calls.
#![tactic(auto, using(c_syntax::proofs::Trees::the_trees, csharp::proofs::CodeTrees::the_code_trees))]

ghost use Rattle.std.specs.Prelude.{◌≡◌, ◌+◌, max, IfOk, length};
ghost use Rattle.c_syntax.specs.Program.{tprogram_tree};
ghost use Rattle.c_syntax.specs.TypedStmt.{tstmt_tree};
ghost use Rattle.csharp.specs.Trees.{Scope, Store, Temp, csfunction_tree, csstmt_tree, more, none};
ghost use Rattle.lower_trees.specs.Checking.{address_at as address_of};
ghost use Rattle.lower_trees.specs.Temps.{temp_at as temp_of};
ghost use Rattle.lower_trees.specs.LowerProgram as programs;
ghost use Rattle.lower_trees.specs.LowerStmt as statements;
ghost use Rattle.lower_nodes.specs.Parts.{coded_tree};

use crate::codes::{only, scope};
use crate::context::Context;
use crate::listed::Listed;
use crate::stmts::lower_stmt;
use block_mem::Scalar;
use c_syntax::{IntType, Numbers, TProgram, TStmt};
use csharp::{CsExpr, CsFunction, CsStmt};
use lower_nodes::{Coded, address_at, is_main, number, one_more, scalar_or_int, sequence, temp_at};
use std::alloc::{AllocError as NoMemory, Global};

/// The type of a parameter, which is an object.
fn param_scalar(program: &TProgram, object: u64) -> Scalar
    ensures { result ≡ programs.param_scalar (tprogram_tree program.now) object }
{
    match program.objects.as_slice().get(object as usize) {
        None => Scalar::Int(IntType::Int),
        Some(found) => scalar_or_int(&found.ty),
    }
}

// The temporaries of the arguments.
fn param_temps(
    alloc: Global,
    program: &TProgram,
    d: u64,
    params: &[u64],
) -> Result<Numbers, NoMemory>
    ensures { IfOk result (λ temps. temps ≡ programs.param_temps (tprogram_tree program.now) d params.now) }
{
    let mut temps = Vec::new(alloc);
    let mut row = d;
    for object in params {
        let ty = param_scalar(program, *object);
        let temp = temp_at(row, ty)?;
        temps.push(temp)?;
        row = one_more(row)?;
    }
    Ok(Numbers::from_vec(temps))
}

// Each argument becomes the value of its object, in front of a body.
fn body_scope(
    alloc: Global,
    program: &TProgram,
    d: u64,
    params: &Numbers,
    body: Coded,
) -> Result<Coded, NoMemory>
    ensures { IfOk result (λ c. coded_tree c
        ≡ statements.coded (Scope params.now (programs.param_stores (tprogram_tree program.now) d params.now (more (coded_tree body).code none))) (coded_tree body).top) }
{
    let mut listed = Listed::new(alloc);
    let mut row = d;
    for object in params.as_slice() {
        let store = param_store(alloc, program, row, *object)?;
        listed.push(only(0, store))?;
        row = one_more(row)?;
    }
    listed.push(body)?;
    scope(params, listed.finish(0))
}

fn param_store(alloc: Global, program: &TProgram, row: u64, object: u64) -> Result<CsStmt, NoMemory>
    ensures { IfOk result (λ s. csstmt_tree s
        ≡ Store (programs.param_scalar (tprogram_tree program.now) object) (address_of object 0) (Temp (temp_of row (programs.param_scalar (tprogram_tree program.now) object)))) }
{
    let ty = param_scalar(program, object);
    let temp = temp_at(row, ty)?;
    let address = address_at(alloc, object, 0)?;
    Ok(CsStmt::Store {
        ty,
        address,
        value: CsExpr::Temp { temp },
    })
}

// main gives 0 where its end is reached.
fn ended(alloc: Global, program: &TProgram, f: u64, code: CsStmt) -> Result<CsStmt, NoMemory>
    ensures { IfOk result (λ s. csstmt_tree s ≡ programs.ended (tprogram_tree program.now) f (csstmt_tree code)) }
{
    if is_main(program, f) {
        let give = CsStmt::Return {
            value: Some(number(0)),
        };
        sequence(alloc, code, give)
    } else {
        Ok(code)
    }
}

/// A function that was lowered, and the rows that are used up to its end.
#[derive(Drop)]
pub struct Placed {
    pub function: CsFunction,
    pub top: u64,
}

/// A function with a body, from its first row on.
pub fn lower_function(
    alloc: Global,
    program: &TProgram,
    f: u64,
    d: u64,
    params: &Numbers,
    body: &TStmt,
) -> Result<Placed, NoMemory>
    ensures function { IfOk result (λ placed. csfunction_tree placed.function
        ≡ record {
          params = programs.param_temps (tprogram_tree program.now) d params.now;
          body = programs.body_code (tprogram_tree program.now) f d params.now (tstmt_tree body.now);
        }) }
    ensures top { IfOk result (λ placed. placed.top
        ≡ max (d + length params.now) (statements.lower_stmt (tprogram_tree program.now) d statements.InLoop (tstmt_tree body.now)).top) }
{
    let temps = param_temps(alloc, program, d, params.as_slice())?;
    let behind = behind_params(d, params.as_slice().len() as u64)?;
    let coded = lower_stmt(alloc, program, d, &Context::InLoop, body)?;
    let top = behind.max(coded.top);
    let coded = body_scope(alloc, program, d, params, coded)?;
    let body = ended(alloc, program, f, coded.code)?;
    Ok(Placed {
        function: CsFunction {
            params: temps,
            body,
        },
        top,
    })
}

fn behind_params(d: u64, count: u64) -> Result<u64, NoMemory>
    ensures { IfOk result (λ n. n ≡ d + count) }
{
    match d.checked_add(count) {
        None => Err(NoMemory),
        Some(n) => Ok(n),
    }
}
