// Stored pointers, and what becomes of them where only some of their bytes are overwritten or copied.
ghost use Rattle.std.specs.Prelude.{◌≡◌, ◌<◌, ◌≤◌, ◌+◌, length, ◌^◌};
ghost use Rattle.block_mem.specs.Pieces.{pieces, is_piece, are_pieces, is_cut, cut_byte, cut, is_whole, taken_byte, put_bytes};

use crate::types::{Byte, Pointer};

/// The bytes of a pointer.
pub fn pieces_of(pointer: Pointer) -> [Byte; 8]
    ensures { result ≡ pieces pointer 0 8 }
{
    [
        Byte::Frag(pointer, 0),
        Byte::Frag(pointer, 1),
        Byte::Frag(pointer, 2),
        Byte::Frag(pointer, 3),
        Byte::Frag(pointer, 4),
        Byte::Frag(pointer, 5),
        Byte::Frag(pointer, 6),
        Byte::Frag(pointer, 7),
    ]
}

fn is_piece(pointer: Pointer, piece: usize, byte: Byte) -> bool
    ensures { result ≡ is_piece pointer piece byte }
{
    match byte {
        Byte::Frag(other, k) => {
            pointer.block == other.block
                && pointer.offset == other.offset
                && piece == usize::from(k)
        }
        _ => false,
    }
}

/// Whether bytes are the pieces of a pointer from the first on.
pub fn are_pieces(pointer: Pointer, bytes: &[Byte]) -> bool
    ensures { result ≡ are_pieces pointer 0 bytes.now }
{
    for (piece, byte) in bytes.iter().enumerate() {
        if !is_piece(pointer, piece, *byte) {
            return false;
        }
    }
    true
}

/// The byte of a place after `count` bytes from `at` on were overwritten.
fn cut_byte(at: usize, count: usize, place: usize, byte: Byte) -> Byte
    requires written { at + count < 2 ^ 63 }
    requires placed { place < 2 ^ 63 }
    ensures { result ≡ cut_byte at count place byte }
{
    match byte {
        Byte::Frag(_, k) if is_cut(at, count, place, usize::from(k)) => Byte::Undef,
        _ => byte,
    }
}

fn is_cut(at: usize, count: usize, place: usize, piece: usize) -> bool
    requires written { at + count < 2 ^ 63 }
    requires placed { place < 2 ^ 63 }
    requires piece { piece < 256 }
    ensures { result ≡ is_cut at count place piece }
{
    0 < count
        && piece < 8
        && (place < at || at + count <= place)
        && at + piece < place + 8
        && place < at + count + piece
}

/// Makes Undef what is left of the pointers of which the `count` bytes from `at` on had a piece.
pub fn cut(bytes: &mut [Byte], at: usize, count: usize)
    requires { at + count ≤ length bytes.old }
    ensures { bytes.new ≡ cut bytes.old at count }
{
    let first = at.saturating_sub(7);
    let end = bytes.len().min(at + count + 7);
    for place in first..end {
        bytes[place] = cut_byte(at, count, place, bytes[place]);
    }
}

/// The byte of a place as it is in a copy of `count` bytes from `at` on.
pub fn taken_byte(at: usize, count: usize, place: usize, byte: Byte) -> Byte
    requires written { at + count < 2 ^ 63 }
    requires placed { place < 2 ^ 63 }
    ensures { result ≡ taken_byte at count place byte }
{
    match byte {
        Byte::Frag(_, k) if k < 8 && !is_whole(at, count, place, usize::from(k)) => Byte::Undef,
        _ => byte,
    }
}

fn is_whole(at: usize, count: usize, place: usize, piece: usize) -> bool
    requires written { at + count < 2 ^ 63 }
    requires placed { place < 2 ^ 63 }
    requires piece { piece < 256 }
    ensures { result ≡ is_whole at count place piece }
{
    at + piece <= place && place + 8 <= at + count + piece
}

/// Writes new bytes from `at` on.
pub fn put_bytes(bytes: &mut [Byte], at: usize, new: &[Byte])
    requires { at + length new.now ≤ length bytes.old }
    ensures { bytes.new ≡ put_bytes bytes.old at new.now }
{
    bytes[at..at + new.len()].copy_from_slice(new);
}
