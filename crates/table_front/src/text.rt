// Pieces of text that several answers have.

use c_syntax_written::{Name, Pos};
use std::alloc::AllocError;
use std::fmt::Debug;

pub type Written = Result<(), AllocError>;

/// The letters of a word.
pub fn word(out: &mut String, name: &Name) -> Written {
    for byte in name.as_slice() {
        out.push(char::from(*byte))?;
    }
    Ok(())
}

/// A number, in decimal.
pub fn number(out: &mut String, n: u128) -> Written {
    if n >= 10 {
        number(out, n / 10)?;
    }
    out.push(char::from(b'0' + (n % 10) as u8))
}

/// A number with its sign.
pub fn signed(out: &mut String, n: i128) -> Written {
    if n < 0 {
        out.push('-')?;
    }
    number(out, n.unsigned_abs())
}

/// The name of a variant.
pub fn shown(out: &mut String, value: &impl Debug) -> Written {
    write!(out, "{value:?}")
}

/// A line and a column, as in `1:7`.
pub fn place(out: &mut String, pos: Pos) -> Written {
    number(out, u128::from(pos.line))?;
    out.push(':')?;
    number(out, u128::from(pos.col))
}

/// What is refused and where, as in `syntax 1:7`.
pub fn refusal(out: &mut String, reason: &str, pos: Pos) -> Written {
    out.push_str(reason)?;
    out.push(' ')?;
    place(out, pos)
}
