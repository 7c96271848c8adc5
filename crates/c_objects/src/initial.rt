// What is left of an initialiser.

ghost use Rattle.std.specs.Prelude.{◌≡◌, ℕ, ◌<◌, ◌≤◌, ◌^◌, Some, List, length, map, true, false};
ghost use Rattle.c_syntax.specs.TypedStmt.{TInitTree};
ghost use Rattle.block_mem.specs.Blocks.{block_at};
ghost use Rattle.c_objects.specs.Kept.{IsFillable};
ghost use Rattle.c_objects.specs.Writing as writing;
ghost use Rattle.c_objects.specs.Writing.{are_named, named_by, NameSame, names_byte, Rise, with_blocks, zeroed};

use crate::memory::ObjectMemory;
use block_mem::{Pointer, Scalar, Value};
use c_syntax::IntType;

/// The bytes of an object that an item of its initialiser names: so many, from the offset of the
/// first on.
#[derive(Clone, Copy)]
pub struct NamedBytes {
    pub first: u64,
    pub count: u64,
}

impl ObjectMemory {
    /// Makes each byte of an object 0 that no item of its initialiser names, as by stores. Given is
    /// what the items name, in their order.
    pub fn fill_rest(&mut self, object: u64, named: &[NamedBytes])
        requires { IsFillable self.old object }
        ensures { (inits : List TInitTree) → named.now ≡ map named_by inits → writing.rest self.old object inits ≡ Some self.new }
    {
        if let Some(block) = self.place(object) {
            self.zero_unnamed(block, named);
        }
    }

    fn zero_unnamed(&mut self, block: u64, named: &[NamedBytes])
        requires made { block < length self.old.blocks }
        requires live { (block_at self.old.blocks block).live ≡ true }
        requires small { length (block_at self.old.blocks block).bytes < 2 ^ 63 }
        ensures { self.new ≡ with_blocks self.old (zeroed (are_named named.now) block (length (block_at self.old.blocks block).bytes) self.old.blocks) }
    {
        let size = self.blocks.size(block);
        let rising = is_rising(named);
        let mut left = named;
        for offset in 0..size {
            left = ahead(left, offset);
            self.fill_byte(block, offset, left, rising);
        }
    }

    fn fill_byte(&mut self, block: u64, offset: u64, named: &[NamedBytes], rising: bool)
        requires rises { rising ≡ true → (low : ℕ) × Rise low named.now }
        requires made { block < length self.old.blocks }
        requires live { (block_at self.old.blocks block).live ≡ true }
        requires inside { offset < length (block_at self.old.blocks block).bytes }
        requires small { length (block_at self.old.blocks block).bytes < 2 ^ 63 }
        ensures { self.new ≡ with_blocks self.old (writing.zero_byte (are_named named.now) block offset self.old.blocks) }
    {
        if !is_named(named, offset, rising) {
            self.zero(block, offset);
        }
    }

    fn zero(&mut self, block: u64, offset: u64)
        requires made { block < length self.old.blocks }
        requires live { (block_at self.old.blocks block).live ≡ true }
        requires inside { offset < length (block_at self.old.blocks block).bytes }
        requires small { length (block_at self.old.blocks block).bytes < 2 ^ 63 }
        ensures { self.new ≡ with_blocks self.old (writing.zero_at block offset self.old.blocks) }
    {
        let at = Pointer {
            block,
            offset: offset as i64,
        };
        self.blocks.put(
            at,
            Scalar::Int(IntType::UChar),
            Value::Int(IntType::UChar, 0),
        );
    }
}

// The byte is named. Where the items rise, the first that begins behind it is the last to ask.
fn is_named(named: &[NamedBytes], offset: u64, rising: bool) -> bool
    requires { rising ≡ true → (low : ℕ) × Rise low named.now }
    ensures { result ≡ are_named named.now offset }
{
    for bytes in named {
        if names(bytes, offset) {
            return true;
        }
        if rising && bytes.first > offset {
            return false;
        }
    }
    false
}

// No item begins before the one that it follows.
fn is_rising(named: &[NamedBytes]) -> bool
    ensures { result ≡ true → Rise 0 named.now }
{
    let mut from = 0;
    for bytes in named {
        if bytes.first < from {
            return false;
        }
        from = bytes.first;
    }
    true
}

// The items without the first ones that end before the byte.
fn ahead(named: &[NamedBytes], byte: u64) -> &[NamedBytes]
    ensures same { NameSame byte result.now named.now }
    ensures rises { (low : ℕ) → Rise low named.now → (later : ℕ) × Rise later result.now }
{
    let mut left = named;
    while let Some((first, rest)) = left.split_first() {
        if !is_past(first, byte) {
            return left;
        }
        left = rest;
    }
    left
}

// The item ends before the byte.
fn is_past(named: &NamedBytes, byte: u64) -> bool
    ensures { result ≡ true → (k : ℕ) → byte ≤ k → names_byte named.now k ≡ false }
{
    named.first <= byte && byte - named.first >= named.count
}

fn names(named: &NamedBytes, byte: u64) -> bool
    ensures { result ≡ names_byte named.now byte }
{
    named.first <= byte && byte - named.first < named.count
}
