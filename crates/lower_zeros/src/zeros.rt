// What an initialiser leaves of an object becomes 0: a store for each scalar of which no item names a byte, and one of
// unsigned char for each other byte that none names.
#![tactic(auto, using(csharp::proofs::CodeTrees::the_code_trees))]

ghost use Rattle.std.specs.Prelude.{◌≡◌, ◌<◌, ◌≤◌, ◌+◌, ◌-◌, ◌^◌, ℕ, List, OnOk, IfOk, map, length};
ghost use Rattle.block_mem.specs.Bytes.{size_of};
ghost use Rattle.c_objects.specs.Opening.{size_of as size_of_object};
ghost use Rattle.c_objects.specs.Writing.{is_named};
ghost use Rattle.c_syntax.specs.Program.{tprogram_tree};
ghost use Rattle.c_syntax.specs.TypedStmt.{TInitTree, tinit_tree};
ghost use Rattle.csharp.specs.Trees.{CsStmtTrees, Store, csexpr_tree, csstmt_tree, csstmts_from};
ghost use Rattle.lower_trees.specs.Checking as checking;
ghost use Rattle.lower_trees.specs.Zeros as zeros;
ghost use Rattle.lower_zeros.specs.Named.{AreMarked, joined};

use crate::named::marks_of;
use crate::scalars::scalar_from;
use block_mem::Scalar;
use c_syntax::{IntType, TInits, TProgram};
use csharp::{CsExpr, CsStmt};
use lower_nodes::address_at;
use std::alloc::{AllocError as NoMemory, Global};

// Objects are at most so large, in bytes: what is larger has no statement for each of its bytes in memory.
const LARGEST: u64 = 1 << 40;

/// Appends the stores of 0 into an object that the items of its initialiser leave. Where memory runs out, some of them
/// were appended.
pub fn zero_rest(
    alloc: Global,
    program: &TProgram,
    object: u64,
    inits: &TInits,
    out: &mut Vec<CsStmt>,
) -> Result<(), NoMemory>
    ensures { OnOk result ((rest : CsStmtTrees) → joined (csstmts_from out.new.items) rest
        ≡ joined (csstmts_from out.old.items)
        (zeros.zero_cells (zeros.object_scalars (tprogram_tree program.now) object) (is_named (map tinit_tree inits.now)) object 0 0
        (size_of_object (tprogram_tree program.now).objects object) rest)) }
{
    let size = object_size(program, object);
    if size > LARGEST {
        return Err(NoMemory);
    }
    let marks = marks_of(alloc, inits, size)?;
    zero_unmarked(alloc, program, object, &marks, out)
}

fn object_size(program: &TProgram, object: u64) -> u64
    ensures { result ≡ size_of_object (tprogram_tree program.now).objects object }
{
    match program.objects.as_slice().get(object as usize) {
        None => 0,
        Some(found) => found.size,
    }
}

// The stores into the bytes that have no mark.
fn zero_unmarked(
    alloc: Global,
    program: &TProgram,
    object: u64,
    marks: &[bool],
    out: &mut Vec<CsStmt>,
) -> Result<(), NoMemory>
    requires { length marks.now ≤ 2 ^ 40 }
    ensures { (inits : List TInitTree) → AreMarked inits marks.now → OnOk result ((rest : CsStmtTrees) → joined (csstmts_from out.new.items) rest
        ≡ joined (csstmts_from out.old.items)
        (zeros.zero_cells (zeros.object_scalars (tprogram_tree program.now) object) (is_named inits) object 0 0 (length marks.now) rest)) }
{
    let mut skip = 0;
    for byte in 0..marks.len() {
        skip = zero_byte(alloc, program, object, marks, byte, skip, out)?;
    }
    Ok(())
}

// The store that begins at a byte, if one does; how many bytes behind it became 0 with it.
fn zero_byte(
    alloc: Global,
    program: &TProgram,
    object: u64,
    marks: &[bool],
    byte: usize,
    skip: u64,
    out: &mut Vec<CsStmt>,
) -> Result<u64, NoMemory>
    requires inside { byte < length marks.now }
    requires small { length marks.now ≤ 2 ^ 40 }
    ensures { (inits : List TInitTree) → AreMarked inits marks.now → IfOk result (λ behind. (rest : CsStmtTrees) → joined (csstmts_from out.new.items)
        (zeros.zero_cells (zeros.object_scalars (tprogram_tree program.now) object) (is_named inits) object (byte + 1) behind (length marks.now - (byte + 1)) rest)
        ≡ joined (csstmts_from out.old.items)
        (zeros.zero_cells (zeros.object_scalars (tprogram_tree program.now) object) (is_named inits) object byte skip (length marks.now - byte) rest)) }
{
    if skip > 0 {
        return Ok(skip - 1);
    }
    if marks[byte] {
        return Ok(0);
    }
    let ty = free_or_byte(program, object, marks, byte);
    let store = zero_store(alloc, object, byte as u64, ty)?;
    out.push(store)?;
    Ok(scalar_size(ty) - 1)
}

fn zero_store(alloc: Global, object: u64, byte: u64, ty: Scalar) -> Result<CsStmt, NoMemory>
    ensures { IfOk result (λ s. csstmt_tree s ≡ Store ty (checking.address_at object byte) (zeros.zero_term ty)) }
{
    let address = address_at(alloc, object, byte)?;
    Ok(CsStmt::Store {
        ty,
        address,
        value: zero_term(ty),
    })
}

fn zero_term(ty: Scalar) -> CsExpr
    ensures { csexpr_tree result ≡ zeros.zero_term ty }
{
    match ty {
        Scalar::Int(ty) => CsExpr::Const { ty, value: 0 },
        Scalar::Pointer => CsExpr::Null,
    }
}

fn scalar_size(ty: Scalar) -> u64
    ensures value { result ≡ size_of ty }
    ensures least { 1 ≤ result }
{
    match ty {
        Scalar::Int(t) => u64::from(t.bytes()),
        Scalar::Pointer => 8,
    }
}

// The scalar that becomes 0 at a byte: the one that begins there, where it is free, and else a byte.
fn free_or_byte(program: &TProgram, object: u64, marks: &[bool], byte: usize) -> Scalar
    requires inside { byte < length marks.now }
    requires small { length marks.now ≤ 2 ^ 40 }
    ensures { (inits : List TInitTree) → AreMarked inits marks.now → result
        ≡ zeros.free_or_byte (is_named inits) byte (length marks.now - byte) (zeros.object_scalars (tprogram_tree program.now) object byte) }
{
    match scalar_at(program, object, byte as u64) {
        None => Scalar::Int(IntType::UChar),
        Some(ty) => if is_free(marks, byte, ty) {
            ty
        } else {
            Scalar::Int(IntType::UChar)
        },
    }
}

fn scalar_at(program: &TProgram, object: u64, byte: u64) -> Option<Scalar>
    requires { byte ≤ 2 ^ 40 }
    ensures { result ≡ zeros.object_scalars (tprogram_tree program.now) object byte }
{
    match program.objects.as_slice().get(object as usize) {
        None => None,
        Some(found) => scalar_from(&program.structs, &found.ty, byte),
    }
}

// Whether a scalar at a byte has room, stands at a multiple of its size, and has no byte with a mark.
fn is_free(marks: &[bool], byte: usize, ty: Scalar) -> bool
    requires { byte < length marks.now }
    ensures { (inits : List TInitTree) → AreMarked inits marks.now → result
        ≡ zeros.is_free (is_named inits) byte (length marks.now - byte) ty }
{
    let size = scalar_size(ty) as usize;
    size <= marks.len() - byte && byte % size == 0 && none_marked(marks, byte, size)
}

fn none_marked(marks: &[bool], byte: usize, size: usize) -> bool
    requires { byte + size ≤ length marks.now }
    ensures { (inits : List TInitTree) → AreMarked inits marks.now → result ≡ zeros.none_named (is_named inits) byte size }
{
    for k in 0..size {
        if marks[byte + k] {
            return false;
        }
    }
    true
}
