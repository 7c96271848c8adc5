// A file read to its end.
ghost use Rattle.std.specs.Prelude.{◌≡◌, ◌⊎◌, ◌<◌, ◌≤◌, ◌++◌, List, ℕ, Option, Some, length, take, IfOk, OnOk, IsErrOf};
ghost use Rattle.outside_io.specs.Io.{Rose};
ghost use Rattle.outside_io.specs.declared.reading.ReadError.TheVariants.{NoMemory};

use crate::Files;
use c_syntax_written::Bytes;
use std::alloc::{AllocError, Global};
use thiserror::Error;

/// The most bytes of a file that are read.
pub const MAX_BYTES: usize = 4_194_304;

// Every turn but the last takes a byte, and the bytes of all turns but the last two fit.
const MAX_TURNS: usize = 4_194_306;

// How many bytes a turn asks for.
const PIECE: usize = 65_536;

/// Why a file was not read.
#[derive(Clone, Copy, Debug, PartialEq, Eq, Error)]
pub enum ReadError {
    /// It could not be opened, or a read failed.
    #[error("a read failed")]
    Fault,

    /// It has more than `MAX_BYTES` bytes.
    #[error("more than 4194304 bytes")]
    TooLarge,

    /// There was no memory for it.
    #[error("out of memory")]
    NoMemory,
}

impl From<AllocError> for ReadError {
    ghost from_gives = { λ _ e. e ≡ NoMemory };

    fn from(_: AllocError) -> Self {
        ReadError::NoMemory
    }
}

/// The bytes of a name, read to their end: at most `MAX_BYTES`.
pub fn read_all<F: Files>(alloc: Global, files: &mut F, name: &str) -> Result<Bytes, ReadError>
    ensures told { (n : List ℕ) → F.told files.new n ≡ F.told files.old n }
    ensures later { (n : List ℕ) → F.faults files.old n ≤ F.faults files.new n }

    ensures ok { IfOk result (λ bytes. (b : List ℕ) → F.told files.old name.now ≡ Some b → bytes ≡ b) }
    ensures small { IfOk result (λ bytes. length bytes ≤ MAX_BYTES) }
    ensures too_large { IsErrOf result ReadError.TooLarge
        → (b : List ℕ) → F.told files.old name.now ≡ Some b → MAX_BYTES < length b }
    ensures fault { IsErrOf result ReadError.Fault → Rose (F.faults files.old name.now) (F.faults files.new name.now) }
{
    let mut bytes = Vec::new(alloc);
    let mut piece = zeros(alloc, PIECE)?;
    let Ok(()) = files.begin(name) else {
        return Err(ReadError::Fault);
    };
    for _turn in 0..MAX_TURNS {
        let into = piece.as_mut_slice();
        let count = match files.read(into) {
            Ok(count) => count,
            Err(_) => return Err(ReadError::Fault),
        };
        if count == 0 {
            return Ok(Bytes::from_vec(bytes));
        }
        let total = add(&mut bytes, into, count)?;
        if total > MAX_BYTES {
            return Err(ReadError::TooLarge);
        }
    }
    unreachable!()
}

// A piece to read into. Its length is a parameter, so that no proof sees a list of that many zeros.
fn zeros(alloc: Global, len: usize) -> Result<Vec<u8>, AllocError>
    ensures { IfOk result (λ v. length v.items ≡ len) }
{
    vec![in alloc; 0u8; len]
}

// Adds the front of a piece, and says how many bytes there are then.
fn add(bytes: &mut Vec<u8>, piece: &[u8], count: usize) -> Result<usize, AllocError>
    requires { count ≤ length piece.now }
    ensures items { OnOk result (bytes.new.items ≡ bytes.old.items ++ take count piece.now) }
    ensures len { IfOk result (λ n. n ≡ length bytes.new.items) }
{
    bytes.extend_from_slice(&piece[..count])?;
    Ok(bytes.len())
}
