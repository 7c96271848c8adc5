// Steps up and down.

/// The way of a step: `++` or `--`.
#[derive(Clone, Copy, PartialEq, Eq)]
pub enum StepWay {
    /// `++a`, `a++`
    Up,
    /// `--a`, `a--`
    Down,
}
