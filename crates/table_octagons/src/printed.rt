// What a row is answered, as it is printed.

use ext_int::Ext;
use num_api::{Live, Message, Messages, NumFacts, Range};
use std::alloc::{AllocError, Global};
use std::fmt;

/// What a row is answered.
#[derive(Drop)]
pub enum Told {
    Shown(Range),
    Said(Messages),
    Facts(NumFacts),
    Truth(bool),
    Dead,
    NoRow,
}

/// Where a row goes on.
#[derive(Drop)]
pub enum Step {
    Next,
    Last(Told),
}

/// Where a row goes on behind a test or a message.
pub fn went(live: Live) -> Step {
    match live {
        Live::Live => Step::Next,
        Live::Dead => Step::Last(Told::Dead),
    }
}

// An end, as it is printed.
#[derive(Clone, Copy)]
struct End(Ext);

impl fmt::Display for End {
    fn fmt<W: fmt::Write>(&self, f: &mut fmt::Formatter<W>) -> fmt::Result {
        match self.0 {
            Ext::Low => write!(f, "-inf"),
            Ext::Fin(n) => write!(f, "{n}"),
            Ext::High => write!(f, "inf"),
        }
    }
}

// The letter of a variable, or `?`.
fn letter(x: u64) -> char {
    if x < 26 {
        char::from(b'a' + x as u8)
    } else {
        '?'
    }
}

fn sign(s: i8) -> char {
    if s < 0 { '-' } else { '+' }
}

// The text of a message.
fn message(alloc: Global, m: &Message) -> Result<String, AllocError> {
    match m {
        Message::Between(x, r) => {
            format!(in alloc; "{} {}..{}", letter(x.0), End(r.lo), End(r.hi))
        }
        Message::AtMost {
            sx,
            x,
            sy,
            y,
            bound,
        } => {
            format!(in alloc;
                "{}{}{}{} {bound}",
                sign(*sx),
                letter(x.0),
                sign(*sy),
                letter(y.0)
            )
        }
        Message::Class(x, _) => format!(in alloc; "class of {}", letter(x.0)),
        Message::Equal(x, _) => format!(in alloc; "equality of {}", letter(x.0)),
    }
}

// The text of messages.
fn messages(alloc: Global, list: &[Message]) -> Result<String, AllocError> {
    let mut text = String::new(alloc);
    for m in list {
        if !text.is_empty() {
            text.push_str(", ")?;
        }
        text.push_str(message(alloc, m)?.as_str())?;
    }
    if text.is_empty() {
        text.push_str("nothing")?;
    }
    Ok(text)
}

/// The line of what a row is answered.
pub fn text(alloc: Global, told: Told) -> Result<String, AllocError> {
    match told {
        Told::Shown(r) => format!(in alloc; "{}..{}", End(r.lo), End(r.hi)),
        Told::Said(list) => messages(alloc, list.as_slice()),
        Told::Facts(list) => messages(alloc, list.as_slice()),
        Told::Truth(true) => String::from_str(alloc, "yes"),
        Told::Truth(false) => String::from_str(alloc, "no"),
        Told::Dead => String::from_str(alloc, "dead"),
        Told::NoRow => String::from_str(alloc, "no such row"),
    }
}
