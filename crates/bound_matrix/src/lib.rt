//! Bounds of differences of signed variables (octagons): matrices of which half is kept, and their
//! tight closing over whole numbers.
//!
//! Variable k stands as two indices, `V(2k) = v(k)` and `V(2k + 1) = -v(k)`. The bound of `i` and
//! `j` is one of `V(j) - V(i)`, and so also of `V(i xor 1) - V(j xor 1)`. A matrix keeps such a pair
//! of bounds once, so it is always coherent. A finite bound is at most 2^100 in size. For example, from
//! `V(0) - V(2) <= 1` and `V(2) - V(4) <= 2` closing has `V(0) - V(4) <= 3`.
//!
//! What a bound says stands in `specs/Bound.antt`, the points of a matrix in `specs/Points.antt`. `close`
//! and `close_one` promise that no point is lost, that Dead has none, and that what is left is tightly
//! closed.
#![tactic(auto)]

mod counting;
mod halves;
mod kept;
mod matrices;
mod table;
mod tighten;
mod transfer;

pub use counting::Steps;
pub use ext_int::Live;
pub use halves::Half;
pub use matrices::{Matrix, close, close_one};
pub use tighten::{close_counted, close_one_counted};
