// The rows of typing: words on a stack of operands, questions on types, and texts of C.

mod answer;
mod calls;
mod declared;
mod letters;
mod nodes;
mod questions;
mod rows;
mod spelled;
mod texts;

use std::alloc::{AllocError, Global};

/// What a row of this word is answered.
pub fn line(alloc: Global, word: &str, row: &str) -> Result<String, AllocError> {
    if word == "text" {
        return match texts::line(alloc, row) {
            Ok(line) => Ok(line),
            Err(fault) => answer::placed(alloc, &fault),
        };
    }
    let told = match word {
        "ask" => questions::line(alloc, row),
        _ => rows::line(alloc, row),
    };
    match told {
        Ok(line) => Ok(line),
        Err(fault) => answer::fault(alloc, &fault),
    }
}
