// The words of a command line.
#![tactic(auto)]

use headline_words::{Asked, WordsError, command};
use ramp_constants::RampKind;
use std::alloc::{AllocError, Global};

/// What the words of a row ask for, the program's name before them. Each space ends a word, so that two in a row have an empty
/// word between them.
pub fn line(alloc: Global, row: &str) -> Result<String, AllocError> {
    let mut words = Vec::new(alloc);
    words.push(String::from_str(alloc, "verac")?)?;
    for word in row.split(' ') {
        words.push(String::from_str(alloc, word)?)?;
    }
    match command(alloc, &words) {
        Ok(asked) => told(alloc, asked),
        Err(WordsError::Usage) => String::from_str(alloc, "usage"),
        Err(WordsError::NoMemory) => Err(AllocError),
    }
}

// As `a.c unroll 3 narrow 2`, with `powers` behind it for the ramp of powers alone, and `state` where facts are asked for.
fn told(alloc: Global, asked: Asked) -> Result<String, AllocError> {
    let Asked {
        file,
        unroll,
        narrow,
        ramp,
        state,
    } = asked;
    let steps = match ramp {
        RampKind::Powers => " powers",
        RampKind::Constants => "",
    };
    let facts = if state { " state" } else { "" };
    format!(in alloc; "{file} unroll {unroll} narrow {narrow}{steps}{facts}")
}
