// The numbers of what is loaded, over the variables of cells.
#![tactic(auto, using(machine_nums::proofs::Trees::mexpr_trees))]

ghost use Rattle.std.specs.Prelude.{◌≡◌, ◌<◌, ℤ, List, IfOk, IfSome, Some};
ghost use Rattle.std.specs.Int.{byte_len};
ghost use Rattle.c_syntax_written.specs.Integer.{std_width};
ghost use Rattle.num_api.specs.Ranges.{InRange};
ghost use Rattle.block_mem.specs.Bytes.{size_of as size_of_scalar};
ghost use Rattle.machine_nums.specs.MExprs.{mexpr_tree};
ghost use Rattle.machine_nums.specs.Machine.{machine_value};
ghost use Rattle.machine_nums.specs.Machines.{Admits};
ghost use Rattle.mem_cell_bytes.specs.Fills.{fill_number, repeated};
ghost use Rattle.mem_cell_bytes.specs.declared.entry.FillByte.TheVariants as fills;
ghost use Rattle.mem_cell_loads.specs.declared.found.Found.TheVariants as founds;
ghost use Rattle.mem_cell_loads.specs.Found.{IsFound, IsNumberAt, number_type};

use crate::found::{Found, cell_variable};
use block_mem::Scalar;
use c_syntax::IntType;
use machine_nums::MExpr;
use mem_cell_bytes::{Entry, FillByte};
use mem_cell_exprs::{Known, is_long};
use num_api::{NumDomain, Range};
use std::alloc::{AllocError as NoMemory, Global};

// So many equal bytes as a type has, as a number.
fn fill_bits(byte: u8, ty: IntType) -> u64
    ensures value { result ≡ repeated (byte_len (std_width ty)) byte }
    ensures proper { byte < 256 }
{
    let n = u64::from(byte);
    match ty {
        IntType::Char | IntType::SChar | IntType::UChar => n,
        IntType::Short | IntType::UShort => 257 * n,
        IntType::Int | IntType::UInt => 16_843_009 * n,
        IntType::Long | IntType::ULong | IntType::LLong | IntType::ULLong => {
            72_340_172_838_076_673 * n
        }
    }
}

// The number of a type whose bytes all are one.
fn constant(alloc: Global, byte: u8, ty: IntType) -> Result<MExpr, NoMemory>
    ensures value { IfOk result (λ m. (v : List ℤ) → machine_value v (mexpr_tree m) ≡ Some (fill_number (fills.Num byte) ty)) }
    ensures proper { IfOk result (λ m. byte < 256) }
{
    let bits = MExpr::Const(IntType::ULong, i128::from(fill_bits(byte, ty)));
    Ok(MExpr::Convert(ty, Box::new(alloc, bits)?))
}

// The type as which a value is read: a pointer's number is its offset.
fn read_as(ty: Scalar) -> IntType
    ensures { result ≡ number_type ty }
{
    match ty {
        Scalar::Int(ty) => ty,
        Scalar::Pointer => IntType::Long,
    }
}

// The number of equal bytes.
fn fill_value<D: NumDomain>(
    known: &Known<D>,
    object: u64,
    at: u64,
    ty: Scalar,
    x: FillByte,
) -> Result<Option<MExpr>, NoMemory>
    ensures { IfOk result (λ found. IfSome found (λ m. IsFound known.now.grid object at (size_of_scalar ty) (founds.Fill x)
        → IsNumberAt D.admits known.now object at ty (mexpr_tree m))) }
{
    match x {
        FillByte::Undef => Ok(None),
        FillByte::Num(byte) => Ok(Some(constant(known.alloc, byte, read_as(ty))?)),
    }
}

// The number of a cell, where it is read whole.
fn cell_value<D: NumDomain>(
    known: &Known<D>,
    object: u64,
    at: u64,
    ty: Scalar,
    e: &Entry,
) -> Result<Option<MExpr>, NoMemory>
    ensures { IfOk result (λ found. IfSome found (λ m. IsFound known.now.grid object at (size_of_scalar ty) (founds.Cell e.now)
        → IsNumberAt D.admits known.now object at ty (mexpr_tree m))) }
{
    let Some(x) = cell_variable(object, e) else {
        return Ok(None);
    };
    match ty {
        Scalar::Int(ty) => {
            if e.ty == ty {
                Ok(Some(MExpr::Read(x, ty)))
            } else {
                Ok(None)
            }
        }
        Scalar::Pointer => {
            let offset = MExpr::Read(x, IntType::Long);
            if is_long(&known.nums, &offset)? {
                Ok(Some(offset))
            } else {
                Ok(None)
            }
        }
    }
}

/// The number that a load gives of what is known of its bytes, where it is known.
pub fn number_of<D: NumDomain>(
    known: &Known<D>,
    object: u64,
    at: u64,
    ty: Scalar,
    found: &Found,
) -> Result<Option<MExpr>, NoMemory>
    ensures { IfOk result (λ number. IfSome number (λ m. IsFound known.now.grid object at (size_of_scalar ty) found.now
        → IsNumberAt D.admits known.now object at ty (mexpr_tree m))) }
{
    match found {
        Found::Cell(e) => cell_value(known, object, at, ty, e),
        Found::Fill(x) => fill_value(known, object, at, ty, *x),
        Found::Nothing => Ok(None),
    }
}

/// A range of the values of an expression.
pub fn number_range<D: NumDomain>(known: &Known<D>, m: MExpr) -> Result<Range, NoMemory>
    ensures { IfOk result (λ r. (v : List ℤ) (n : ℤ) → Admits D.admits known.now.nums v → machine_value v (mexpr_tree m) ≡ Some n → InRange r n) }
{
    let value = MExpr::Convert(IntType::Long, Box::new(known.alloc, m)?);
    let (range, _class) = known.nums.check_range(&value)?;
    Ok(range)
}
