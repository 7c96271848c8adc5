// Entries by rising variable, and passes over them.

ghost use Rattle.std.specs.Prelude.{◌≡◌, ℕ, ◌≤◌, Bool, true, List, [], ◌++◌, length, take, drop, if◌then◌else◌, nat_eq, Some, None, IsTrue, OnOk, OnErr, IfOk, IfErr};
ghost use Rattle.env_lift.specs.Entries.{value_in, AreBelow, AreFrom, IsRising, IsFoundAt, IsPlaceAt};
ghost use Rattle.env_lift.specs.Passes.{Puts, IsMerged, IsMet, AllMet, is_met, all_met, Computes};

use num_api::Var;
use std::alloc::{AllocError as NoMemory, Global};

/// A variable with its value.
#[derive(Clone, Copy, PartialEq, Eq)]
pub struct Entry<T> {
    pub var: Var,
    pub value: T,
}

// How many of the entries stand below the variable.
pub fn count_below<T>(entries: &[Entry<T>], x: Var) -> usize
    requires { IsRising entries.now }
    ensures few { result ≤ length entries.now }
    ensures below { AreBelow x.0 (take result entries.now) }
    ensures from { AreFrom x.0 (drop result entries.now) }
{
    entries.partition_point(|entry| entry.var.0 < x.0)
}

// The variable's value, of entries that do not stand below it.
pub fn first_value<T: Copy>(entries: &[Entry<T>], x: Var) -> Option<T>
    requires rising { IsRising entries.now }
    requires from { AreFrom x.0 entries.now }
    ensures { result ≡ value_in entries.now x.0 }
{
    match entries.first() {
        Some(first) => {
            if first.var.0 == x.0 {
                Some(first.value)
            } else {
                None
            }
        }
        None => None,
    }
}

// The entries that do not stand below the variable.
pub fn entries_from<T>(entries: &[Entry<T>], x: Var) -> &[Entry<T>]
    requires { IsRising entries.now }
    ensures rising { IsRising result.now }
    ensures from { AreFrom x.0 result.now }
    ensures same { (y : ℕ) → x.0 ≤ y → value_in result.now y ≡ value_in entries.now y }
{
    let mut rest = entries;
    while let Some((first, tail)) = rest.split_first() {
        if x.0 <= first.var.0 {
            return rest;
        }
        rest = tail;
    }
    rest
}

// Where the entry of the variable is, or, as an error, where it would have to be put.
pub fn place_of<T>(entries: &[Entry<T>], x: Var) -> Result<usize, usize>
    requires { IsRising entries.now }
    ensures found { IfOk result (λ i. IsFoundAt x.0 entries.now i) }
    ensures absent { IfErr result (λ i. IsPlaceAt x.0 entries.now i) }
{
    let at = count_below(entries, x);
    match entries.get(at) {
        Some(entry) => { if entry.var.0 == x.0 { Ok(at) } else { Err(at) } }
        None => Err(at),
    }
}

// Gives the variable the value.
pub fn put_value<T: Copy>(entries: &mut Vec<Entry<T>>, x: Var, value: T) -> Result<(), NoMemory>
    requires { IsRising entries.old.items }
    ensures rising { IsRising entries.new.items }
    ensures ok { OnOk result ((y : ℕ) → value_in entries.new.items y ≡ (if nat_eq y x.0 then Some value else value_in entries.old.items y)) }
    ensures err { OnErr result (entries.new.items ≡ entries.old.items) }
{
    let entry = Entry { var: x, value };
    match place_of(entries, x) {
        Ok(at) => {
            entries[at] = entry;
            Ok(())
        }
        Err(at) => {
            entries.insert(at, entry)?;
            Ok(())
        }
    }
}

// Takes the variable's value away.
pub fn remove_value<T: Copy>(entries: &mut Vec<Entry<T>>, x: Var)
    requires { IsRising entries.old.items }
    ensures rising { IsRising entries.new.items }
    ensures value { (y : ℕ) → value_in entries.new.items y ≡ (if nat_eq y x.0 then None else value_in entries.old.items y) }
{
    match place_of(entries, x) {
        Ok(at) => {
            entries.remove(at);
        }
        Err(_) => {}
    }
}

// Puts out an entry with what the function gives of its value and the one that was found.
fn put_met<T: Copy, F: Fn(T, T) -> T>(
    entry: &Entry<T>,
    found: Option<T>,
    f: &F,
    out: &mut Vec<Entry<T>>,
) -> Result<(), NoMemory>
    requires { F.IsAlwaysCallable f.now }
    ensures { OnOk result ((put : List (Entry T)) × Puts (F.post f.now) entry.now found put × (out.new.items ≡ out.old.items ++ put)) }
{
    match found {
        Some(other) => {
            out.push(Entry {
                var: entry.var,
                value: f(entry.value, other),
            })?;
            Ok(())
        }
        None => Ok(()),
    }
}

// The entries whose variable the others have too, each with what the function gives of both values.
pub fn merged<T: Copy, F: Fn(T, T) -> T>(
    alloc: Global,
    entries: &[Entry<T>],
    others: &[Entry<T>],
    f: &F,
) -> Result<Vec<Entry<T>>, NoMemory>
    requires callable { F.IsAlwaysCallable f.now }
    requires first { IsRising entries.now }
    requires second { IsRising others.now }
    ensures { IfOk result (λ out. IsMerged (F.post f.now) entries.now others.now out.items) }
{
    let mut out = Vec::new(alloc);
    let mut rest = others;
    for entry in entries {
        rest = entries_from(rest, entry.var);
        put_met(entry, first_value(rest, entry.var), f, &mut out)?;
    }
    Ok(out)
}

// Whether a value was found that passes the test beside the first.
fn passes<T: Copy, F: Fn(T, T) -> bool>(value: T, found: Option<T>, test: &F) -> bool
    requires { F.IsAlwaysCallable test.now }
    ensures value { (t : T → T → Bool) → Computes (F.post test.now) t → result ≡ is_met t value found }
    ensures met { IsTrue result → IsMet (λ a b. F.post test.now a b true) value found }
{
    match found {
        Some(other) => test(value, other),
        None => false,
    }
}

// Whether the others have each entry's variable, with a value that passes the test beside the entry's.
pub fn all_pass<T: Copy, F: Fn(T, T) -> bool>(
    entries: &[Entry<T>],
    others: &[Entry<T>],
    test: &F,
) -> bool
    requires callable { F.IsAlwaysCallable test.now }
    requires first { IsRising entries.now }
    requires second { IsRising others.now }
    ensures value { (t : T → T → Bool) → Computes (F.post test.now) t → result ≡ all_met t entries.now others.now }
    ensures met { IsTrue result → AllMet (λ a b. F.post test.now a b true) entries.now others.now }
{
    let mut rest = others;
    for entry in entries {
        rest = entries_from(rest, entry.var);
        if !passes(entry.value, first_value(rest, entry.var), test) {
            return false;
        }
    }
    true
}

// The same entries once more.
pub fn copy_entries<T: Copy>(alloc: Global, entries: &[Entry<T>]) -> Result<Vec<Entry<T>>, NoMemory>
    ensures { IfOk result (λ out. out.items ≡ entries.now) }
{
    let mut out = Vec::new(alloc);
    for entry in entries {
        out.push(Entry {
            var: entry.var,
            value: entry.value,
        })?;
    }
    Ok(out)
}
