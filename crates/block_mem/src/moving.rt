// Copies of bytes between places that may overlap.
ghost use Rattle.std.specs.Prelude.{◌≡◌, ◌<◌, ◌≤◌};
ghost use Rattle.block_mem.specs.Moves.{IsWithin, with_one, moved, copied};

use crate::block::Block;
use crate::pieces::taken_byte;

/// A copy of `count` bytes from one place to another.
#[derive(Clone, Copy)]
pub struct Transfer {
    pub to_block: usize,
    pub to: usize,
    pub from_block: usize,
    pub from: usize,
    pub count: usize,
}

/// Copies one byte.
fn copy_byte(blocks: &mut [Block], transfer: Transfer, i: usize)
    requires within { IsWithin blocks.old transfer }
    requires index { i < transfer.count }
    ensures { blocks.new ≡ with_one blocks.old transfer i }
{
    let source = blocks[transfer.from_block].bytes();
    let place = transfer.from + i;
    let byte = taken_byte(transfer.from, transfer.count, place, source[place]);
    let target = &mut blocks[transfer.to_block];
    target.put_after(transfer.to, i, byte);
}

/// Copies from the first byte on, as a copy to a place that is not higher has to.
fn copy_up(blocks: &mut [Block], transfer: Transfer)
    requires within { IsWithin blocks.old transfer }
    requires order { transfer.to ≤ transfer.from }
    ensures { blocks.new ≡ moved blocks.old transfer }
{
    for i in 0..transfer.count {
        copy_byte(blocks, transfer, i);
    }
}

/// Copies from the last byte on, as a copy to a higher place has to.
fn copy_down(blocks: &mut [Block], transfer: Transfer)
    requires within { IsWithin blocks.old transfer }
    requires order { transfer.from ≤ transfer.to }
    ensures { blocks.new ≡ moved blocks.old transfer }
{
    let mut left = transfer.count;
    while left > 0 {
        left -= 1;
        copy_byte(blocks, transfer, left);
    }
}

/// Copies the bytes in the order in which none is overwritten before it is read.
fn move_bytes(blocks: &mut [Block], transfer: Transfer)
    requires { IsWithin blocks.old transfer }
    ensures { blocks.new ≡ moved blocks.old transfer }
{
    if transfer.to <= transfer.from {
        copy_up(blocks, transfer);
    } else {
        copy_down(blocks, transfer);
    }
}

/// Copies bytes as if all were read before any is written, and cuts the pointers that are
/// overwritten in part.
pub fn copy_bytes(blocks: &mut [Block], transfer: Transfer)
    requires { IsWithin blocks.old transfer }
    ensures { blocks.new ≡ copied blocks.old transfer }
{
    move_bytes(blocks, transfer);
    let block = &mut blocks[transfer.to_block];
    block.cut(transfer.to, transfer.count);
}
