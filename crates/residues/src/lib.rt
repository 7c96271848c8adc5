//! Congruence classes of whole numbers, and pairs of two value domains.
//!
//! A class says what its numbers are up to a multiple of a modulus, as addresses are multiples of 4.
//! A pair keeps a range beside it: the numbers that are in both. Each end of its range moves inward to
//! the nearest number of the class, and where one number is left the class is that number's.
//!
//! The operators on bits go by low bits: numbers that are the same up to a multiple of a power of two
//! have the same low bits. So 4 up to multiples of 8, with the bits of -8 kept, is 0 up to multiples of
//! 8; and the join of 4 and 8 is 0 up to multiples of 4.
//!
//! specs/Class.antt and specs/Classes.antt say what classes are, specs/Pair.antt and specs/Inward.antt
//! what pairs are, specs/ClassBounds.antt how much operators leave open. The laws are promised by
//! `ValueDomain` at `Class` and `Pair`; at `Class` beside them that `meet` is exact, that `join` and `widen`
//! are least, that an operator is exact on two numbers and keeps steps and low bits; at `Pair` that the
//! bounds that are kept are the range's, and that classes decide equality.
#![tactic(auto)]

mod class;
mod ends;
mod numbers;
mod pair;

pub use class::Class;
pub use pair::Pair;
