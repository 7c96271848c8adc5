// Initial values of static objects.
#![tactic(auto)]

ghost use Rattle.std.specs.Prelude.{◌≡◌, ◌==◌, ◌<◌, ◌++◌, ◌∷◌, [], ℕ, List, None, Some, IfOk, OnOk, find, get_or, if◌then◌else◌, length, map, nat_lt, replicate, set, unwrap_or, vec_len};
ghost use Rattle.c_syntax.specs.declared.program.InitByte.TheVariants.{Num};
ghost use Rattle.c_syntax.specs.declared.program.Initial.{Initial};
ghost use Rattle.c_syntax.specs.Types.{object_tree};
ghost use Rattle.c_typing.specs.File as files;

use c_syntax::{InitByte, InitBytes, Initial, Object};
use std::alloc::{AllocError as NoMemory, Global};

/// An initial value for each static object, in the order of the objects: the first of those that it was given, or zeros (C11
/// 6.7.9p10).
pub fn static_initials(
    alloc: Global,
    given: Vec<Initial>,
    objects: &[Object],
) -> Result<Vec<Initial>, NoMemory>
    ensures { IfOk result (λ all. all.items ≡ files.initials_from given.items 0 (map object_tree objects.now)) }
{
    let table = by_number(alloc, given, objects.len())?;
    from_table(alloc, table, objects)
}

// The initial value that each object was given first, by its number.
fn by_number(
    alloc: Global,
    given: Vec<Initial>,
    count: usize,
) -> Result<Vec<Option<Initial>>, NoMemory>
    ensures count { IfOk result (λ table. vec_len table ≡ count) }
    ensures first { IfOk result (λ table. (n : ℕ) → n < count → get_or table.items n None ≡ find (λ i. i.object == n) given.items) }
{
    let mut table = empty_table(alloc, count)?;
    let mut left = given;
    'each: while let Some(initial) = left.pop() {
        put(&mut table, initial);
    }
    Ok(table)
}

// A table in which no object has an initial value.
fn empty_table(alloc: Global, count: usize) -> Result<Vec<Option<Initial>>, NoMemory>
    ensures count { IfOk result (λ table. vec_len table ≡ count) }
    ensures nothing { IfOk result (λ table. (n : ℕ) → get_or table.items n None ≡ None) }
{
    let mut table = Vec::new(alloc);
    'each: while table.len() < count {
        table.push(None)?;
    }
    Ok(table)
}

// The initial value in the place of its object, if the table has one.
fn put(table: &mut Vec<Option<Initial>>, initial: Initial)
    ensures count { vec_len table.new ≡ vec_len table.old }
    ensures place { table.new.items ≡ (if nat_lt initial.object (vec_len table.old)
        then set table.old.items initial.object (Some initial) else table.old.items) }
{
    let n = initial.object as usize;
    if n < table.len() {
        table[n] = Some(initial);
    }
}

// The initial values of static objects, each taken out of the table.
fn from_table(
    alloc: Global,
    table: Vec<Option<Initial>>,
    objects: &[Object],
) -> Result<Vec<Initial>, NoMemory>
    requires { vec_len table ≡ length objects.now }
    ensures { (given : List Initial) → ((n : ℕ) → n < length objects.now → get_or table.items n None ≡ find (λ i. i.object == n) given)
        → IfOk result (λ all. all.items ≡ files.initials_from given 0 (map object_tree objects.now)) }
{
    let mut left = table;
    let mut all = Vec::new(alloc);
    'each: while let Some(given) = left.pop() {
        let n = left.len();
        add_initial(alloc, &mut all, n as u64, &objects[n], given)?;
    }
    all.reverse();
    Ok(all)
}

// Puts the initial value of an object behind the others, if it is static.
fn add_initial(
    alloc: Global,
    all: &mut Vec<Initial>,
    n: u64,
    object: &Object,
    given: Option<Initial>,
) -> Result<(), NoMemory>
    ensures { OnOk result (all.new.items ≡ (if object.now.is_static then all.old.items
        ++ unwrap_or given (record { object = n; bytes = replicate object.now.size (Num 0) }) ∷ [] else all.old.items)) }
{
    if object.is_static {
        let initial = initial_of(alloc, n, object.size, given)?;
        all.push(initial)?;
    }
    Ok(())
}

// The initial value of a static object of this size.
fn initial_of(
    alloc: Global,
    object: u64,
    size: u64,
    given: Option<Initial>,
) -> Result<Initial, NoMemory>
    ensures { IfOk result (λ initial. initial ≡ unwrap_or given (record { object = object; bytes = replicate size (Num 0) })) }
{
    match given {
        Some(initial) => Ok(initial),
        None => {
            let bytes = vec![in alloc; InitByte::Num(0); size as usize]?;
            Ok(Initial {
                object,
                bytes: InitBytes::from_vec(bytes),
            })
        }
    }
}
