//! One memory of bytes, in blocks that are numbered as they are made.
//!
//! A block is a list of bytes with two marks, live and read-only. A byte has no value, is a number, or is
//! a piece of a stored pointer: a pointer is its eight pieces. A number is stored from its lowest byte. A
//! store or a copy that overwrites a pointer in part makes the rest of it Undef.
//!
//! For example, after `0x01020304` was stored as an `int` at offset 0 of a block, a load of a `char` at
//! offset 1 gives 3, and a load of a `long` at offset 0 is refused: `Access` in a block of four bytes.
//!
//! | What | Stated in `specs/` | Promised by |
//! |---|---|---|
//! | blocks, accesses, loads, stores, copies | `Block`, `Blocks`, `Bytes`, `Numbers`, `Pieces` | the calls of `Memory` |
//! | what an access that passes is | `Passing` | `Memory::access` |
//! | what later loads give | `AfterStore` | `Memory::store`, `put`, `copy` |
//! | stored pointers are whole | `Whole` | `pointers_stay_whole`, `cut_is_by_contents` |
//! | bytes are proper | `Proper` | `Memory::count`, `Memory::load` |
#![tactic(auto)]

ghost use Rattle.std.specs.Prelude.{ℕ, ◌≡◌, ◌<◌, Bool, false, List, [], ◌∷◌, ◌++◌, length, None, slice_index_or};
ghost use Rattle.block_mem.specs.declared.types.Byte.{Byte};
ghost use Rattle.block_mem.specs.declared.types.Pointer.{Pointer};
ghost use Rattle.block_mem.specs.declared.types.Scalar.{Scalar};
ghost use Rattle.block_mem.specs.declared.types.Value.{Value};
ghost use Rattle.block_mem.specs.Block.{BlockView, new_block};
ghost use Rattle.block_mem.specs.Blocks.{with_ended, with_undefined, wrong_access, store, copy};
ghost use Rattle.block_mem.specs.Bytes.{IsOf, size_of};
ghost use Rattle.block_mem.specs.declared.types.Byte.TheVariants.{Undef};
ghost use Rattle.block_mem.specs.Pieces.{cut};
ghost use Rattle.block_mem.specs.Whole.{AreWhole, PointersAreWhole, IsLeft};

mod block;
mod blocks;
mod loading;
mod moving;
mod numbers;
mod pieces;
mod types;

pub use blocks::Memory;
pub use types::{Byte, Pointer, Scalar, Value};

/// Where every pointer is whole, to cut pointers by the places of their pieces is to cut them by
/// their contents: exactly those lose the rest of their pieces of which a byte was overwritten.
pub fn cut_is_by_contents()
    ensures { (bs : List Byte) → PointersAreWhole bs → (at n q : ℕ) → IsLeft bs at n q (slice_index_or (cut bs at n) q Undef) }
{}

/// In each memory that a program reaches all stored pointers are whole: they are in a memory without
/// blocks, and stay so where a block is made, ends or loses the values of its bytes, and where a value
/// is put in or bytes are copied. So there a cut is by contents, with no exception.
pub fn pointers_stay_whole()
    ensures none { AreWhole [] }
    ensures made { (m : List BlockView) (size : ℕ) (read_only : Bool) → AreWhole m → AreWhole (m ++ new_block size read_only ∷ []) }
    ensures ended { (m : List BlockView) (b : ℕ) → b < length m → AreWhole m → AreWhole (with_ended m b) }
    ensures undefined { (m : List BlockView) (b : ℕ) → b < length m → AreWhole m → AreWhole (with_undefined m b) }
    ensures put { (m : List BlockView) (at : Pointer) (ty : Scalar) (v : Value) → at.block < length m → IsOf ty v
        → wrong_access m at (size_of ty) 1 false ≡ None → AreWhole m → AreWhole (store m at v) }
    ensures copied { (m : List BlockView) (to from : Pointer) (n : ℕ) → to.block < length m
        → wrong_access m to n 1 false ≡ None → wrong_access m from n 1 false ≡ None → AreWhole m → AreWhole (copy m to from n) }
{}
