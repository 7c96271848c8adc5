// The table of the objects whose addresses a program takes.
#![tactic(auto, using(c_syntax::proofs::Trees::the_trees, crate::proofs::TakenForms::the_taken))]

ghost use Rattle.std.specs.Prelude.{◌≡◌, ◌++◌, true, map, slice_set, IfOk, OnOk};
ghost use Rattle.std.specs.List.{flat_map, range_with_len};
ghost use Rattle.c_syntax.specs.Program.{tfunction_tree, tprogram_tree};
ghost use Rattle.c_rules_effects.specs.Taken.{byte_taken, function_taken, initial_taken, is_among, taken_table};

use crate::taken_stmts::add_stmt;
use c_syntax::{InitByte, Initial, Initials, TFunction, TFunctions, TProgram};
use std::alloc::{AllocError as NoMemory, Global};

/// Of each object of a program, by its number, whether its address is taken.
pub fn taken_table(alloc: Global, program: &TProgram) -> Result<Vec<bool>, NoMemory>
    ensures { IfOk result (λ table. table.items ≡ taken_table (tprogram_tree program.now)) }
{
    let mut taken = Vec::new(alloc);
    add_functions(&program.functions, &mut taken)?;
    add_initials(&program.initial, &mut taken)?;
    marked(alloc, program.objects.as_slice().len(), &taken)
}

fn add_functions(functions: &TFunctions, taken: &mut Vec<u64>) -> Result<(), NoMemory>
    ensures { OnOk result (taken.new.items ≡ taken.old.items ++ flat_map function_taken (map tfunction_tree functions.now)) }
{
    for function in functions.as_slice() {
        add_function(function, taken)?;
    }
    Ok(())
}

fn add_function(function: &TFunction, taken: &mut Vec<u64>) -> Result<(), NoMemory>
    ensures { OnOk result (taken.new.items ≡ taken.old.items ++ function_taken (tfunction_tree function.now)) }
{
    match &function.body {
        Some(body) => add_stmt(body, taken),
        None => Ok(()),
    }
}

fn add_initials(initials: &Initials, taken: &mut Vec<u64>) -> Result<(), NoMemory>
    ensures { OnOk result (taken.new.items ≡ taken.old.items ++ flat_map initial_taken initials.now) }
{
    for initial in initials.as_slice() {
        add_initial(initial, taken)?;
    }
    Ok(())
}

fn add_initial(initial: &Initial, taken: &mut Vec<u64>) -> Result<(), NoMemory>
    ensures { OnOk result (taken.new.items ≡ taken.old.items ++ initial_taken initial.now) }
{
    for byte in initial.bytes.as_slice() {
        add_byte(*byte, taken)?;
    }
    Ok(())
}

fn add_byte(byte: InitByte, taken: &mut Vec<u64>) -> Result<(), NoMemory>
    ensures { OnOk result (taken.new.items ≡ taken.old.items ++ byte_taken byte) }
{
    match byte {
        InitByte::Num(_) => Ok(()),
        InitByte::Piece { object, .. } => {
            taken.push(object)?;
            Ok(())
        }
    }
}

// Of each number below a count, whether it is one of these.
fn marked(alloc: Global, count: usize, numbers: &[u64]) -> Result<Vec<bool>, NoMemory>
    ensures { IfOk result (λ table. table.items ≡ map (is_among numbers.now) (range_with_len 0 count)) }
{
    let mut table = vec![in alloc; false; count]?;
    for number in numbers {
        mark(&mut table, *number);
    }
    Ok(table)
}

// A number past the table marks nothing.
fn mark(table: &mut Vec<bool>, number: u64)
    ensures { table.new.items ≡ slice_set table.old.items number true }
{
    let place = number as usize;
    if place < table.len() {
        table[place] = true;
    }
}
