// How many statements functions have, with those of the functions that they call.
#![tactic(auto, using(c_syntax::proofs::Trees::the_trees, c_syntax::proofs::Sizes::the_typed_sizes, crate::proofs::Counts::the_counts))]

ghost use Rattle.std.specs.Prelude.{◌≡◌, ◌+◌, ◌<◌, length, get_or, map, All, IfOk};
ghost use Rattle.std.specs.List.{sum_by};
ghost use Rattle.c_syntax.specs.Program.{tfunction_tree, tprogram_tree};
ghost use Rattle.c_syntax.specs.TypedStmt.{tstmt_tree, tstmts_tree};
ghost use Rattle.c_rules_calls.specs.Graph.{AreDefined, graph_of, IsDefined, IsOrderOf};
ghost use Rattle.c_rules_calls.specs.Inlined.{blocks_of, body_size, declared_by, declares, ended, function_size, IsInlinedSize, sizes_of, statements_among, statements_in};

use crate::call::Call;
use crate::graph::CallGraph;
use c_syntax::{BlockKind, Numbers, TFunction, TProgram, TStmt, TStmts};
use std::alloc::{AllocError as NoMemory, Global};

/// How many statements this function has with those of the functions that it calls, once for each call: the greatest
/// number of 64 bits where they are more.
pub fn inlined_size(
    alloc: Global,
    program: &TProgram,
    graph: &CallGraph,
    order: &Numbers,
    main: u64,
) -> Result<u64, NoMemory>
    requires known { AreDefined graph.now }
    requires order { IsOrderOf graph.now order.now }
    requires main { IsDefined graph.now main }
    requires calls { graph.now ≡ graph_of (tprogram_tree program.now) }
    ensures { IfOk result (IsInlinedSize graph.now (sizes_of (tprogram_tree program.now)) main) }
{
    let mut sizes = own_sizes(alloc, program)?;
    for function in order.as_slice() {
        sizes[*function as usize] = with_calls(
            sizes[*function as usize],
            graph.calls(*function),
            &sizes,
        );
    }
    Ok(sizes[main as usize])
}

// The size of each function without those that it calls.
fn own_sizes(alloc: Global, program: &TProgram) -> Result<Vec<u64>, NoMemory>
    ensures { IfOk result (λ sizes. sizes.items ≡ map ended (sizes_of (tprogram_tree program.now))) }
{
    let mut sizes = Vec::new(alloc);
    for function in program.functions.as_slice() {
        sizes.push(own_size(function))?;
    }
    Ok(sizes)
}

fn own_size(function: &TFunction) -> u64
    ensures { result ≡ ended (function_size (tfunction_tree function.now)) }
{
    match &function.body {
        Some(body) => own_body_size(body),
        None => 0,
    }
}

// The block of a body is no statement of it.
fn own_body_size(body: &TStmt) -> u64
    ensures { result ≡ ended (body_size (tstmt_tree body.now)) }
{
    match body {
        TStmt::Block { items, .. } => size_among(items),
        TStmt::Empty { .. } => size_in(body),
        TStmt::Expr { .. } => size_in(body),
        TStmt::Declare { .. } => size_in(body),
        TStmt::Static { .. } => size_in(body),
        TStmt::If { .. } => size_in(body),
        TStmt::While { .. } => size_in(body),
        TStmt::DoWhile { .. } => size_in(body),
        TStmt::For { .. } => size_in(body),
        TStmt::Switch { .. } => size_in(body),
        TStmt::Break { .. } => size_in(body),
        TStmt::Continue { .. } => size_in(body),
        TStmt::Goto { .. } => size_in(body),
        TStmt::Return { .. } => size_in(body),
        TStmt::Label { .. } => size_in(body),
        TStmt::Case { .. } => size_in(body),
        TStmt::Default { .. } => size_in(body),
    }
}

// A size and that of each function that is called.
fn with_calls(size: u64, calls: &[Call], sizes: &[u64]) -> u64
    requires inside { All (λ call. call.callee < length sizes.now) calls.now }
    ensures { result ≡ ended (size + sum_by (λ call. get_or sizes.now call.callee 0) calls.now) }
{
    let mut all = size;
    for call in calls {
        all = all.saturating_add(sizes[call.callee as usize]);
    }
    all
}

#[cycle(sizes)]
fn size_in(stmt: &TStmt) -> u64
    ensures { result ≡ ended (statements_in (tstmt_tree stmt.now)) }
{
    match stmt {
        TStmt::Block { kind, items, .. } => block_size(*kind, items),
        TStmt::Switch { kind, items, .. } => block_size(*kind, items).saturating_add(1),
        TStmt::If {
            then,
            otherwise,
            ..
        } => size_in(then)
            .saturating_add(size_in(otherwise))
            .saturating_add(1),
        TStmt::While { body, .. } => size_in(body).saturating_add(1),
        TStmt::DoWhile { body, .. } => size_in(body).saturating_add(1),
        TStmt::For { head, body, .. } => for_size(head, body),
        TStmt::Empty { .. } => 1,
        TStmt::Expr { .. } => 1,
        TStmt::Declare { .. } => 1,
        TStmt::Static { .. } => 1,
        TStmt::Break { .. } => 1,
        TStmt::Continue { .. } => 1,
        TStmt::Goto { .. } => 1,
        TStmt::Return { .. } => 1,
        TStmt::Label { .. } => 1,
        TStmt::Case { .. } => 1,
        TStmt::Default { .. } => 1,
    }
}

#[cycle(sizes)]
fn block_size(kind: BlockKind, items: &TStmts) -> u64
    ensures { result ≡ ended (blocks_of kind + statements_among (tstmts_tree items.now)) }
{
    let inside = size_among(items);
    match kind {
        BlockKind::Written => inside.saturating_add(1),
        BlockKind::Added => inside,
    }
}

#[cycle(sizes)]
fn for_size(head: &TStmts, body: &TStmt) -> u64
    ensures { result ≡ ended (1 + (declared_by (tstmts_tree head.now) + statements_in (tstmt_tree body.now))) }
{
    declared(head)
        .saturating_add(size_in(body))
        .saturating_add(1)
}

#[cycle(sizes)]
fn size_among(items: &TStmts) -> u64
    ensures { result ≡ ended (statements_among (tstmts_tree items.now)) }
{
    let mut size: u64 = 0;
    for item in items.as_slice() {
        size = size.saturating_add(size_in(item));
    }
    size
}

fn declared(head: &TStmts) -> u64
    ensures { result ≡ ended (declared_by (tstmts_tree head.now)) }
{
    let mut count: u64 = 0;
    for item in head.as_slice() {
        count = count.saturating_add(declared_by_item(item));
    }
    count
}

fn declared_by_item(item: &TStmt) -> u64
    ensures { result ≡ declares (tstmt_tree item.now) }
{
    match item {
        TStmt::Expr { .. } => 0,
        _ => 1,
    }
}
