// Memory as a list of blocks.
ghost use Rattle.std.specs.Prelude.{◌≡◌, IfOk};
ghost use Rattle.block_mem.specs.Blocks.{place};

use crate::block::{Block, place_of};
use crate::loading::{loaded, scalar_size, value_bytes};
use crate::moving::{Transfer, copy_bytes};
use crate::types::{Byte, Pointer, Scalar, Value};
use c_syntax::WrongKind;
use std::alloc::{AllocError as NoMemory, Global};
use std::marker::Model;

/// One memory. Contracts see it as the list of its blocks, each with its number as its place in the
/// list. A block is never taken out, so that no number is used twice. Its bytes are proper: a number
/// has eight bits, and a piece is one of a pointer to a block that was made.
#[derive(Drop)]
pub struct Memory {
    alloc: Global,
    blocks: Vec<Block>,
}

impl Model for Memory {
    ghost use Rattle.std.specs.Prelude.{List};
    ghost use Rattle.block_mem.specs.Block.{BlockView};

    ghost Value = { List BlockView };

    ghost view = { λ m. m.blocks.items };

    ghost use Rattle.block_mem.specs.Proper.{AreProper};

    ghost invariant = { λ m. AreProper m.blocks.items };
}

impl Memory {
    ghost use Rattle.std.specs.Prelude.{◌≡◌, ◌<◌, [], ◌∷◌, ◌++◌, true, false, length, None, Some, IfOk, OnOk, OnErr, MatchResult};
    ghost use Rattle.block_mem.specs.AfterStore.{ReadsParts, KeepsElsewhere};
    ghost use Rattle.block_mem.specs.Block.{new_block};
    ghost use Rattle.block_mem.specs.Bytes.{IsOf, size_of};
    ghost use Rattle.block_mem.specs.Passing.{IsPassing};
    ghost use Rattle.block_mem.specs.Proper.{AreProper, IsMade, IsProper};
    ghost use Rattle.block_mem.specs.Whole.{KeepsWhole};
    ghost use Rattle.block_mem.specs.Blocks.{block_at, bytes_at, loaded, with_ended, with_undefined, wrong_access, HasByte, load, store, copy, byte, set_byte};

    /// Memory without blocks.
    pub fn new(alloc: Global) -> Memory
        ensures { result ≡ [] }
    {
        Memory {
            alloc,
            blocks: Vec::new(alloc),
        }
    }

    /// The same memory once more.
    pub fn try_clone(&self) -> Result<Memory, NoMemory>
        ensures { IfOk result (λ m. m ≡ self.now) }
    {
        Ok(Memory {
            alloc: self.alloc,
            blocks: copy_blocks(self.alloc, &self.blocks)?,
        })
    }

    /// How many blocks were made.
    pub fn count(&self) -> u64
        ensures count { result ≡ length self.now }
        ensures proper { AreProper self.now }
    {
        self.blocks.len() as u64
    }

    /// Makes a live block of `size` bytes without a value, and gives its number. A block that is
    /// read-only refuses each store. After `NoMemory` the memory is as it was.
    pub fn alloc_block(&mut self, size: u64, read_only: bool) -> Result<u64, NoMemory>
        ensures number { IfOk result (λ n. n ≡ length self.old) }
        ensures made { OnOk result (self.new ≡ self.old ++ new_block size read_only ∷ []) }
        ensures no_memory { OnErr result (self.new ≡ self.old) }
    {
        let block = Block::new(self.alloc, size as usize, read_only)?;
        let number = self.blocks.len() as u64;
        match self.blocks.push(block) {
            Ok(()) => Ok(number),
            Err(_) => Err(NoMemory),
        }
    }

    /// Ends a block. A dead one stays as it is.
    pub fn free_block(&mut self, block: u64)
        requires made { block < length self.old }
        ensures ended { self.new ≡ with_ended self.old block }
    {
        let block = &mut self.blocks[block as usize];
        block.end();
    }

    /// Whether `size` bytes from `at` on may be read, or written where `write` is set. The answer is
    /// the first of these that is wrong: Dangling, for a dead block; Access, for bytes outside of
    /// the block; Alignment, for an offset that is no multiple of `align`; ReadOnly, for a write to
    /// a block that is read-only.
    pub fn access(&self, at: Pointer, size: u64, align: u64, write: bool) -> Result<(), WrongKind>
        requires made { at.block < length self.now }
        ensures answer { MatchResult result (λ _. wrong_access self.now at size align write ≡ None) (λ k. wrong_access self.now at size align write ≡ Some k) }
        ensures passes { OnOk result (IsPassing self.now at size align) }
    {
        match self.blocks[at.block as usize].wrong(at.offset, size, align, write) {
            Some(kind) => Err(kind),
            None => Ok(()),
        }
    }

    /// Loads the value of a type. After what `access` refuses, it is Indeterminate where a byte has
    /// no value, and Fragment where the bytes have, but hold no value of the type.
    pub fn load(&self, at: Pointer, ty: Scalar) -> Result<Value, WrongKind>
        requires made { at.block < length self.now }
        ensures loaded { result ≡ load self.now at ty }
        ensures typed { IfOk result (λ v. IsOf ty v) }
        ensures block { IfOk result (λ v. IsMade (length self.now) v) }
    {
        let size = scalar_size(ty);
        let block = &self.blocks[at.block as usize];
        match block.wrong(at.offset, size as u64, size as u64, false) {
            Some(kind) => Err(kind),
            None => {
                let start = start_of(at);
                loaded(ty, &block.bytes()[start..start + size])
            }
        }
    }

    /// Stores a value of a type, which if it is a pointer is one to a block that was made. Pointers that are overwritten in part leave Undef behind. A store
    /// that is refused changes nothing. Where all pointers were whole, all are whole again.
    pub fn store(&mut self, at: Pointer, ty: Scalar, v: Value) -> Result<(), WrongKind>
        requires made { at.block < length self.old }
        requires typed { IsOf ty v }
        requires block { IsMade (length self.old) v }
        ensures answer { MatchResult result (λ _. wrong_access self.old at (size_of ty) (size_of ty) true ≡ None)
            (λ k. wrong_access self.old at (size_of ty) (size_of ty) true ≡ Some k) }
        ensures ok { OnOk result (self.new ≡ store self.old at v) }
        ensures err { OnErr result (self.new ≡ self.old) }

        // What follows for later loads.
        ensures reads_back { OnOk result (load self.new at ty ≡ Ok v) }
        ensures reads_parts { OnOk result (ReadsParts self.new at v) }
        ensures elsewhere { OnOk result (KeepsElsewhere self.old self.new at (size_of ty)) }
        ensures whole { OnOk result (KeepsWhole self.old self.new at (size_of ty)) }
    {
        let size = scalar_size(ty);
        let block = &mut self.blocks[at.block as usize];
        if let Some(kind) = block.wrong(at.offset, size as u64, size as u64, true) {
            return Err(kind);
        }
        let bytes = value_bytes(ty, v);
        block.store(start_of(at), &bytes[..size]);
        Ok(())
    }

    /// Puts in a value of a type where an object is initialised: as `store` does, but whether the
    /// block is read-only and where in it the value stands is not asked. Pointers that are overwritten
    /// in part leave Undef behind.
    pub fn put(&mut self, at: Pointer, ty: Scalar, v: Value)
        requires made { at.block < length self.old }
        requires typed { IsOf ty v }
        requires block { IsMade (length self.old) v }
        requires inside { wrong_access self.old at (size_of ty) 1 false ≡ None }
        ensures stored { self.new ≡ store self.old at v }
        ensures reads_back { loaded ty (bytes_at self.new at (size_of ty)) ≡ Ok v }
        ensures elsewhere { KeepsElsewhere self.old self.new at (size_of ty) }
        ensures whole { KeepsWhole self.old self.new at (size_of ty) }
    {
        let size = scalar_size(ty);
        let whole = value_bytes(ty, v);
        let block = &mut self.blocks[at.block as usize];
        block.store(start_of(at), &whole[..size]);
    }

    /// Takes the value of every byte of a block away, in a read-only block and in a dead one too.
    pub fn undefine(&mut self, block: u64)
        requires made { block < length self.old }
        ensures undefined { self.new ≡ with_undefined self.old block }
    {
        let block = &mut self.blocks[block as usize];
        block.undefine();
    }

    /// Whether a block is live: `free_block` has not ended it.
    pub fn is_live(&self, block: u64) -> bool
        requires made { block < length self.now }
        ensures { result ≡ (block_at self.now block).live }
    {
        self.blocks[block as usize].is_live()
    }

    /// How many bytes a block has, live or dead.
    pub fn size(&self, block: u64) -> u64
        requires made { block < length self.now }
        ensures { result ≡ length (block_at self.now block).bytes }
    {
        self.blocks[block as usize].bytes().len() as u64
    }

    /// Copies `size` bytes. All are read before any is written, so the ranges may overlap. A piece
    /// of a pointer that is not copied whole becomes Undef, and so does what is left of a pointer
    /// that is overwritten in part. Where all pointers were whole, all are whole again.
    pub fn copy(&mut self, to: Pointer, from: Pointer, size: u64)
        requires target_made { to.block < length self.old }
        requires source_made { from.block < length self.old }
        requires target { wrong_access self.old to size 1 false ≡ None }
        requires source { wrong_access self.old from size 1 false ≡ None }
        ensures copied { self.new ≡ copy self.old to from size }
        ensures elsewhere { KeepsElsewhere self.old self.new to size }
        ensures whole { KeepsWhole self.old self.new to size }
    {
        let transfer = Transfer {
            to_block: to.block as usize,
            to: start_of(to),
            from_block: from.block as usize,
            from: start_of(from),
            count: size as usize,
        };
        copy_bytes(&mut self.blocks, transfer);
    }

    /// A byte, read without a check.
    pub fn byte(&self, at: Pointer) -> Byte
        requires made { at.block < length self.now }
        requires inside { HasByte self.now at }
        ensures { result ≡ byte self.now at }
    {
        self.blocks[at.block as usize].bytes()[start_of(at)]
    }

    /// Puts in one byte that is proper without a check, in a read-only block too. No pointer is cut.
    pub fn set_byte(&mut self, at: Pointer, b: Byte)
        requires made { at.block < length self.old }
        requires inside { HasByte self.old at }
        requires proper { IsProper (length self.old) b }
        ensures { self.new ≡ set_byte self.old at b }
    {
        let block = &mut self.blocks[at.block as usize];
        block.put(start_of(at), b);
    }
}

/// Where in its block a pointer points.
fn start_of(at: Pointer) -> usize
    ensures { result ≡ place at }
{
    match place_of(at.offset) {
        Some(place) => place as usize,
        None => 0,
    }
}

/// The same blocks once more.
fn copy_blocks(alloc: Global, blocks: &[Block]) -> Result<Vec<Block>, NoMemory>
    ensures { IfOk result (λ copies. copies.items ≡ blocks.now) }
{
    let mut copies = Vec::new(alloc);
    for block in blocks {
        let copy = block.copy()?;
        copies.push(copy)?;
    }
    Ok(copies)
}
