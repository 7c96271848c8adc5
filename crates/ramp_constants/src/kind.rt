// Kinds of ramps.
#![tactic(auto)]

/// Which steps widening stops at.
#[derive(Clone, Copy, Debug, PartialEq, Eq)]
pub enum RampKind {
    /// 0, the powers of two, those less one, and the negations of all these.
    Powers,
    /// The same, and the constants of the program with the numbers next to them.
    Constants,
}
