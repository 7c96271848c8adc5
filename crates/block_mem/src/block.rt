// One block of memory.
ghost use Rattle.std.specs.Prelude.{◌≡◌, ◌+◌, ◌≤◌, ◌↔◌, IsTrue};
ghost use Rattle.block_mem.specs.Block.{place_of};

use crate::pieces;
use crate::types::Byte;
use c_syntax::WrongKind;
use std::alloc::{AllocError as NoMemory, Global};
use std::marker::Model;

/// The bytes of an object, and whether they may be written and used. A dead block keeps its bytes.
#[derive(Drop)]
pub struct Block {
    read_only: bool,
    live: bool,
    bytes: Vec<Byte>,
}

impl Model for Block {
    ghost use Rattle.block_mem.specs.Block.{BlockView};

    ghost Value = { BlockView };

    ghost view = { λ b. record { read_only = b.read_only; live = b.live; bytes = b.bytes.items } };
}

impl Block {
    ghost use Rattle.std.specs.Prelude.{◌≡◌, ◌+◌, ◌≤◌, ◌<◌, false, IfOk, length, replicate, slice_set};
    ghost use Rattle.block_mem.specs.declared.types.Byte.TheVariants.{Undef};
    ghost use Rattle.block_mem.specs.Pieces.{stored, cut};
    ghost use Rattle.block_mem.specs.Block.{BlockView, new_block, wrong_in};

    /// A live block of `size` bytes without a value.
    pub fn new(alloc: Global, size: usize, read_only: bool) -> Result<Block, NoMemory>
        ensures { IfOk result (λ b. b ≡ new_block size read_only) }
    {
        let bytes = vec![in alloc; Byte::Undef; size]?;
        Ok(Block {
            read_only,
            live: true,
            bytes,
        })
    }

    /// The same block once more.
    pub fn copy(&self) -> Result<Block, NoMemory>
        ensures { IfOk result (λ b. b ≡ self.now) }
    {
        Ok(Block {
            read_only: self.read_only,
            live: self.live,
            bytes: self.bytes.clone()?,
        })
    }

    /// The bytes, from the first to the last.
    pub fn bytes(&self) -> &[Byte]
        ensures { result.now ≡ self.now.bytes }
    {
        self.bytes.as_slice()
    }

    /// Ends the block.
    pub fn end(&mut self)
        ensures { self.new ≡ record self.old { live = false } }
    {
        self.live = false;
    }

    /// Whether the block has not ended.
    pub fn is_live(&self) -> bool
        ensures { result ≡ self.now.live }
    {
        self.live
    }

    /// Takes the value of each byte away.
    pub fn undefine(&mut self)
        ensures { self.new ≡ record self.old { bytes = replicate (length self.old.bytes) Undef } }
    {
        self.bytes.fill(Byte::Undef);
    }

    /// What is wrong first with an access of `size` bytes from an offset on.
    pub fn wrong(&self, offset: i64, size: u64, align: u64, write: bool) -> Option<WrongKind>
        ensures { result ≡ wrong_in self.now offset size align write }
    {
        if !self.live {
            return Some(WrongKind::Dangling);
        }
        let Some(start) = place_of(offset) else {
            return Some(WrongKind::Access);
        };
        if !is_inside(start, size, self.bytes.len()) {
            return Some(WrongKind::Access);
        }
        if !start.is_multiple_of(align) {
            return Some(WrongKind::Alignment);
        }
        if write && self.read_only {
            return Some(WrongKind::ReadOnly);
        }
        None
    }

    /// Puts in one byte.
    pub fn put(&mut self, place: usize, byte: Byte)
        requires { place < length self.old.bytes }
        ensures { self.new ≡ record self.old { bytes = slice_set self.old.bytes place byte } }
    {
        self.bytes[place] = byte;
    }

    /// Puts in the byte `index` of those from `start` on.
    pub fn put_after(&mut self, start: usize, index: usize, byte: Byte)
        requires { start + index < length self.old.bytes }
        ensures { self.new ≡ record self.old { bytes = slice_set self.old.bytes (start + index) byte } }
    {
        self.bytes[start + index] = byte;
    }

    /// Makes Undef what is left of the pointers of which the `count` bytes from a place on had a
    /// piece.
    pub fn cut(&mut self, place: usize, count: usize)
        requires { place + count ≤ length self.old.bytes }
        ensures { self.new ≡ record self.old { bytes = cut self.old.bytes place count } }
    {
        pieces::cut(&mut self.bytes, place, count);
    }

    /// Stores new bytes from a place on.
    pub fn store(&mut self, place: usize, new: &[Byte])
        requires { place + length new.now ≤ length self.old.bytes }
        ensures { self.new ≡ record self.old { bytes = stored self.old.bytes place new.now } }
    {
        pieces::put_bytes(&mut self.bytes, place, new);
        pieces::cut(&mut self.bytes, place, new.len());
    }
}

/// An offset as a place in a block, unless it is negative.
pub fn place_of(offset: i64) -> Option<u64>
    ensures { result ≡ place_of offset }
{
    if offset < 0 {
        None
    } else {
        Some(offset as u64)
    }
}

fn is_inside(place: u64, count: u64, size: usize) -> bool
    ensures { IsTrue result ↔ (place + count ≤ size) }
{
    match place.checked_add(count) {
        Some(end) => end <= size as u64,
        None => false,
    }
}
