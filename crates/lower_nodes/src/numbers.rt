// Numbers of temporaries, depths and exits. A number above 2^64 - 1 would be that of a table, or a tree, that no memory
// holds.
#![tactic(auto)]

ghost use Rattle.std.specs.Prelude.{◌≡◌, ◌≤◌, ◌<◌, ◌^◌, suc, IfOk, OnOk};
ghost use Rattle.lower_trees.specs.Temps as temps;

use block_mem::Scalar;
use c_syntax::IntType;
use std::alloc::AllocError as NoMemory;

fn int_place(t: IntType) -> u64
    ensures value { result ≡ temps.int_place t }
    ensures bound { result ≤ 10 }
{
    match t {
        IntType::Char => 0,
        IntType::SChar => 1,
        IntType::UChar => 2,
        IntType::Short => 3,
        IntType::UShort => 4,
        IntType::Int => 5,
        IntType::UInt => 6,
        IntType::Long => 7,
        IntType::ULong => 8,
        IntType::LLong => 9,
        IntType::ULLong => 10,
    }
}

fn scalar_place(ty: Scalar) -> u64
    ensures { result ≡ temps.scalar_place ty }
{
    match ty {
        Scalar::Int(t) => int_place(t),
        Scalar::Pointer => 11,
    }
}

/// The temporary of this type at a depth, which is the number of a row, from 0.
pub fn temp_at(depth: u64, ty: Scalar) -> Result<u64, NoMemory>
    ensures value { IfOk result (λ temp. temp ≡ temps.temp_at depth ty) }
    ensures bound { OnOk result (depth < 2 ^ 61) }
{
    let place = scalar_place(ty);
    match depth.checked_mul(12) {
        None => Err(NoMemory),
        Some(first) => match first.checked_add(place) {
            None => Err(NoMemory),
            Some(temp) => Ok(temp),
        },
    }
}

/// One more than a depth or an exit's number.
pub fn one_more(n: u64) -> Result<u64, NoMemory>
    ensures { IfOk result (λ next. next ≡ suc n) }
{
    match n.checked_add(1) {
        None => Err(NoMemory),
        Some(next) => Ok(next),
    }
}
