// Declarations with their initialisers: each item goes into the object, in their order, and what none of them names
// becomes 0.
#![tactic(auto, unfolding(c_syntax::specs::TypedStmt::tinit_tree), using(csharp::proofs::CodeTrees::the_code_trees))]

ghost use Rattle.std.specs.Prelude.{◌≡◌, ℕ, [], IfOk, OnOk, map};
ghost use Rattle.c_syntax.specs.Program.{tprogram_tree};
ghost use Rattle.c_syntax.specs.TypedStmt.{tinit_tree};
ghost use Rattle.csharp.specs.Trees.{CsStmtTrees, Scope, Undefine, more};
ghost use Rattle.lower_trees.specs.LowerStmt as statements;
ghost use Rattle.lower_nodes.specs.Parts.{coded_tree};
ghost use Rattle.lower_stmt.specs.Views.{listed_before, no_items};

use crate::codes::{only, scope};
use crate::listed::Listed;
use c_syntax::{Numbers, TInit, TInits, TProgram};
use csharp::CsStmt;
use lower_expr::{lower_expr, lower_source};
use lower_nodes::{Coded, address_at, scalar_or_int, sequence};
use lower_zeros::zero_rest;
use std::alloc::{AllocError as NoMemory, Global};

/// The declaration of an automatic object.
pub fn declare(
    alloc: Global,
    program: &TProgram,
    d: u64,
    object: u64,
    inits: &TInits,
    zeroes_rest: bool,
) -> Result<Coded, NoMemory>
    ensures { IfOk result (λ c. coded_tree c
        ≡ statements.coded
        (Scope [] (more (Undefine object) (statements.inits_code (tprogram_tree program.now) d object (map tinit_tree inits.now)
        (statements.rest_code (tprogram_tree program.now) object (map tinit_tree inits.now) zeroes_rest))))
        (statements.inits_top (tprogram_tree program.now) d object (map tinit_tree inits.now))) }
{
    let mut listed = lower_inits(alloc, program, d, object, inits)?;
    zeroed(alloc, program, object, inits, zeroes_rest, &mut listed)?;
    let none = Numbers::new(alloc);
    scope(&none, listed.finish(d))
}

// The object loses its values, and each item goes into it.
fn lower_inits(
    alloc: Global,
    program: &TProgram,
    d: u64,
    object: u64,
    inits: &TInits,
) -> Result<Listed, NoMemory>
    ensures { IfOk result (λ l. (rest : CsStmtTrees) → listed_before l (record { items = rest; top = d })
        ≡ record {
          items = more (Undefine object) (statements.inits_code (tprogram_tree program.now) d object (map tinit_tree inits.now) rest);
          top = statements.inits_top (tprogram_tree program.now) d object (map tinit_tree inits.now);
        }) }
{
    let mut listed = Listed::new(alloc);
    listed.push(only(0, CsStmt::Undefine { object }))?;
    for init in inits.as_slice() {
        let coded = lower_init(alloc, program, d, object, init)?;
        listed.push(coded)?;
    }
    Ok(listed)
}

// What no item names becomes 0, where the initialiser asks for it.
fn zeroed(
    alloc: Global,
    program: &TProgram,
    object: u64,
    inits: &TInits,
    zeroes_rest: bool,
    listed: &mut Listed,
) -> Result<(), NoMemory>
    ensures { OnOk result ((d : ℕ) → listed_before listed.new (no_items d)
        ≡ listed_before listed.old (record { items = statements.rest_code (tprogram_tree program.now) object (map tinit_tree inits.now) zeroes_rest; top = d })) }
{
    if !zeroes_rest {
        return Ok(());
    }
    zero_rest(alloc, program, object, inits, &mut listed.items)
}

fn lower_init(
    alloc: Global,
    program: &TProgram,
    d: u64,
    object: u64,
    init: &TInit,
) -> Result<Coded, NoMemory>
    ensures { IfOk result (λ c. coded_tree c ≡ statements.init_code (tprogram_tree program.now) d object (tinit_tree init.now)) }
{
    match init {
        TInit::Store { offset, ty, value } => {
            let part = lower_expr(alloc, program, d, value)?;
            let address = address_at(alloc, object, *offset)?;
            let store = CsStmt::Store {
                ty: scalar_or_int(ty),
                address,
                value: part.value,
            };
            let code = sequence(alloc, part.before, store)?;
            Ok(Coded {
                code,
                top: part.top,
            })
        }
        TInit::Copy {
            offset,
            extent,
            source,
        } => {
            let part = lower_source(alloc, program, d, source, *extent)?;
            let to = address_at(alloc, object, *offset)?;
            let copy = CsStmt::CopyBytes {
                size: extent.size,
                to,
                from: part.value,
            };
            let code = sequence(alloc, part.before, copy)?;
            Ok(Coded {
                code,
                top: part.top,
            })
        }
    }
}
