// Why a place is refused.

/// Why a place of a text is refused, in the order in which the reasons are asked.
#[derive(Clone, Copy, Debug, PartialEq, Eq)]
pub enum Reason {
    /// A byte that begins nothing: `@`.
    BadByte,
    /// A comment or a literal that does not end: `/* a`.
    Unterminated,
    /// A number that is no integer constant: `08`, `1.5`.
    BadNumber,
    /// An integer constant that no type of its row holds: `18446744073709551616`.
    TooWide,
    /// An escape or a character that is not allowed, or a prefix of a literal: `'\q'`, `''`, `L'a'`.
    BadEscape,
    /// A `#` that is first of its line: `#define N 1`.
    Directive,
}
