// The bytes of a scalar.
#![tactic(auto)]

ghost use Rattle.std.specs.Prelude.{◌≡◌, IfOk, map, option_map};
ghost use Rattle.c_syntax.specs.Types.{ctype_tree, object_tree};
ghost use Rattle.c_syntax.specs.TypedExpr.{texpr_tree};
ghost use Rattle.c_syntax_written.specs.Integer.{HasNumber};
ghost use Rattle.block_mem.specs.Numbers as numbers;
ghost use Rattle.c_typing.specs.Inits as inits;
ghost use Rattle.c_check_nodes.specs.Views.{address_of};

use c_check_nodes::{Address, static_address};
use c_check_operators::constant_value;
use c_syntax::{CType, InitByte, IntType, Object, TExpr};
use std::alloc::{AllocError as NoMemory, Global};

/// The bytes of a scalar that a static object holds.
#[tactic(auto, using(c_syntax::proofs::Trees::the_trees))]
pub(crate) fn scalar_bytes(
    alloc: Global,
    objects: &[Object],
    ty: &CType,
    value: &TExpr,
) -> Result<Vec<InitByte>, NoMemory>
    ensures { IfOk result (λ bytes. bytes.items ≡ inits.scalar_bytes (map object_tree objects.now) (ctype_tree ty.now) (texpr_tree value.now)) }
{
    match ty {
        CType::Int(t) => {
            let number = constant_value(value)?;
            let bytes = number_bytes(alloc, *t, number.unwrap_or(0))?;
            Ok(bytes)
        }
        CType::Void
        | CType::Pointer(_)
        | CType::Array(_, _)
        | CType::Struct(_)
        | CType::Function(_) => {
            let address = static_address(objects, value)?;
            let bytes = address_bytes(alloc, address)?;
            Ok(bytes)
        }
    }
}

// A number from its lowest byte.
fn number_bytes(alloc: Global, t: IntType, n: i128) -> Result<Vec<InitByte>, NoMemory>
    ensures { IfOk result (λ bytes. bytes.items ≡ inits.number_bytes t n) }
{
    if n < t.least() || i128::from(t.greatest()) < n {
        return Err(NoMemory);
    }
    let bytes = low_bytes(alloc, t.bytes(), bits_in(t, n))?;
    Ok(bytes)
}

// The bits of a number of a type.
fn bits_in(t: IntType, n: i128) -> u64
    requires { HasNumber t n }
    ensures { result ≡ numbers.bits_in t n }
{
    if n < 0 {
        // The least number is half of what the type counts, below 0.
        (n - 2 * t.least()) as u64
    } else {
        n as u64
    }
}

// So many low bytes of a number, the lowest first.
fn low_bytes(alloc: Global, count: u8, bits: u64) -> Result<Vec<InitByte>, NoMemory>
    ensures { IfOk result (λ bytes. bytes.items ≡ map inits.number_byte (numbers.low_bytes count bits)) }
{
    let mut bytes = Vec::new(alloc);
    let mut rest = bits;
    'each: for _ in 0..count {
        bytes.push(InitByte::Num((rest % 256) as u8))?;
        rest /= 256;
    }
    Ok(bytes)
}

// A pointer: its eight pieces, or eight zeros.
fn address_bytes(alloc: Global, address: Option<Address>) -> Result<Vec<InitByte>, NoMemory>
    ensures { IfOk result (λ bytes. bytes.items ≡ inits.address_bytes (option_map address_of address)) }
{
    match address {
        None | Some(Address::Nowhere) => {
            let zeros = vec![in alloc; InitByte::Num(0); 8]?;
            Ok(zeros)
        }
        Some(Address::Inside { object, offset }) => match i64::try_from(offset) {
            Err(_) => Err(NoMemory),
            Ok(offset) => {
                let pieces = pieces(alloc, object, offset)?;
                Ok(pieces)
            }
        },
    }
}

// The eight pieces of a pointer.
fn pieces(alloc: Global, object: u64, offset: i64) -> Result<Vec<InitByte>, NoMemory>
    ensures { IfOk result (λ bytes. bytes.items ≡ inits.piece_bytes object offset 0 8) }
{
    let mut bytes = Vec::new(alloc);
    for k in 0..8 {
        bytes.push(InitByte::Piece { object, offset, k })?;
    }
    Ok(bytes)
}
