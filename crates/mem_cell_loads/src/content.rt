// What is known of a value.

ghost use Rattle.std.specs.Prelude.{◌≡◌, ℤ, List, IfSome, None, OnOk, Some, option_map};
ghost use Rattle.num_api.specs.Ranges.{InRange, all_numbers};
ghost use Rattle.num_api.specs.Valuation.{SetTo};
ghost use Rattle.machine_nums.specs.MExprs.{mexpr_tree};
ghost use Rattle.machine_nums.specs.Machine.{machine_value};
ghost use Rattle.machine_nums.specs.Machines.{Admits};
ghost use Rattle.mem_cell_loads.specs.Reads.{IsNumberOfType};

use block_mem::Scalar;
use machine_nums::{MExpr, Machine};
use mem_cell_bytes::SharedSet;
use num_api::{Message, NumDomain, Range, Var};
use std::alloc::AllocError as NoMemory;

/// What is known of a value: its number, or a range of numbers, and what a pointer may point to. The number of a pointer is
/// its offset, or 0.
#[derive(Drop)]
pub struct Content {
    pub number: Option<MExpr>,
    pub range: Range,
    pub set: Option<SharedSet>,
}

/// Of a value nothing is known.
pub fn anything() -> Content
    ensures number { result.number ≡ None }
    ensures range { result.range ≡ all_numbers }
    ensures set { result.set ≡ None }
{
    Content {
        number: None,
        range: Range::all(),
        set: None,
    }
}

// Gives a variable any number of a type that lies in a range.
fn put_range<D: NumDomain>(
    nums: &mut Machine<D>,
    x: Var,
    ty: Scalar,
    range: Range,
) -> Result<(), NoMemory>
    ensures { OnOk result ((v w : List ℤ) (n : ℤ) → Admits D.admits nums.old v → IsNumberOfType ty n → InRange range n → SetTo x.0 n v w
        → Admits D.admits nums.new w) }
{
    match ty {
        Scalar::Int(ty) => nums.havoc(x, ty)?,
        Scalar::Pointer => nums.forget(x)?,
    }
    let told = Message::Between(x, range);
    let _live = nums.accept(&told)?;
    Ok(())
}

/// Gives a variable the number of a value of a type.
pub fn put_number<D: NumDomain>(
    nums: &mut Machine<D>,
    x: Var,
    ty: Scalar,
    content: &Content,
) -> Result<(), NoMemory>
    ensures { OnOk result ((v w : List ℤ) (n : ℤ) → Admits D.admits nums.old v → IsNumberOfType ty n → InRange content.now.range n
        → IfSome (option_map mexpr_tree content.now.number) (λ m. machine_value v m ≡ Some n) → SetTo x.0 n v w → Admits D.admits nums.new w) }
{
    match &content.number {
        Some(m) => nums.set(x, m),
        None => put_range(nums, x, ty, content.range),
    }
}

// What a value of a type may point to: of an integer nothing is said.
pub fn set_for(ty: Scalar, set: Option<SharedSet>) -> Option<SharedSet>
    ensures { IfSome result (λ s. set ≡ Some s) }
{
    match ty {
        Scalar::Int(_) => None,
        Scalar::Pointer => set,
    }
}
