// Whole rows of temporaries: a row has one temporary for each scalar type.
#![tactic(auto)]

ghost use Rattle.std.specs.Prelude.{◌≡◌, ◌<◌, ◌++◌, Some, length, take, slice_get, OnOk, OnErr};
ghost use Rattle.lower_trees.specs.Temps.{row};
ghost use Rattle.lower_expr.specs.Rows.{with_rows};

use block_mem::Scalar;
use c_syntax::IntType;
use csharp::Temps;
use std::alloc::{AllocError as NoMemory, Global};
use std::mem;

/// Appends temporaries until there are so many whole rows. Where memory runs out, the list is as it was.
pub fn add_rows(alloc: Global, temps: &mut Temps, count: u64) -> Result<(), NoMemory>
    ensures ok { OnOk result (temps.new ≡ with_rows temps.old count) }
    ensures err { OnErr result (temps.new ≡ temps.old) }
{
    let mut items = mem::replace(temps, Temps::from_vec(Vec::new(alloc))).into_vec();
    let before = items.len();
    let filled = fill(&mut items, count);
    if filled.is_err() {
        items.truncate(before);
    }
    *temps = Temps::from_vec(items);
    filled
}

fn fill(items: &mut Vec<Scalar>, count: u64) -> Result<(), NoMemory>
    ensures ok { OnOk result (items.new.items ≡ with_rows items.old.items count) }
    ensures front { take (length items.old.items) items.new.items ≡ items.old.items }
{
    while ((items.len() / 12) as u64) < count {
        items.push(in_row(items.len() % 12))?;
    }
    Ok(())
}

// The type of the temporary at this place of a row.
fn in_row(place: usize) -> Scalar
    requires { place < 12 }
    ensures { slice_get row place ≡ Some result }
{
    match place {
        0 => Scalar::Int(IntType::Char),
        1 => Scalar::Int(IntType::SChar),
        2 => Scalar::Int(IntType::UChar),
        3 => Scalar::Int(IntType::Short),
        4 => Scalar::Int(IntType::UShort),
        5 => Scalar::Int(IntType::Int),
        6 => Scalar::Int(IntType::UInt),
        7 => Scalar::Int(IntType::Long),
        8 => Scalar::Int(IntType::ULong),
        9 => Scalar::Int(IntType::LLong),
        10 => Scalar::Int(IntType::ULLong),
        _ => Scalar::Pointer,
    }
}
