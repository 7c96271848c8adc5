// A case of the table: its word, and its text.

use std::alloc::{AllocError, Global};

/// A case, line by line.
#[derive(Drop)]
pub struct Case {
    word: Option<Vec<u8>>,
    text: Vec<u8>,
    lines: u64,
}

impl Case {
    pub fn new(alloc: Global) -> Case {
        Case {
            word: None,
            text: Vec::new(alloc),
            lines: 0,
        }
    }

    /// The next line of the case, the first of which is its word.
    pub fn push(&mut self, alloc: Global, line: &[u8]) -> Result<(), AllocError> {
        if self.word.is_none() {
            self.begin(alloc, line)
        } else {
            self.add(line)
        }
    }

    fn begin(&mut self, alloc: Global, word: &[u8]) -> Result<(), AllocError> {
        self.word = Some(word.to_vec(alloc)?);
        Ok(())
    }

    fn add(&mut self, line: &[u8]) -> Result<(), AllocError> {
        if self.lines > 0 {
            self.text.push(b'\n')?;
        }
        self.lines = self.lines.saturating_add(1);
        self.text.extend_from_slice(line)
    }

    pub fn word(&self) -> &[u8] {
        match &self.word {
            Some(word) => word.as_slice(),
            None => &[],
        }
    }

    /// The lines behind the word, with line ends between them.
    pub fn text(&self) -> &[u8] {
        self.text.as_slice()
    }
}
