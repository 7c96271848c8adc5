// C's integers over a numeric domain, beside what `c_values` gives for them.

mod exprs;
mod outcomes;
mod points;
mod random;
mod trials;

use crate::env;
use c_syntax::IntType;
use machine_nums::Machine;
pub use points::{KINDS, Walked, walk};
pub use trials::{Told, tried};

/// The machine that is tried.
pub type State = Machine<env::State>;

/// All integer types.
pub const TYPES: [IntType; 11] = [
    IntType::Char,
    IntType::SChar,
    IntType::UChar,
    IntType::Short,
    IntType::UShort,
    IntType::Int,
    IntType::UInt,
    IntType::Long,
    IntType::ULong,
    IntType::LLong,
    IntType::ULLong,
];
