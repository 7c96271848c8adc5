// A text that is written from its front.
#![tactic(auto)]

use std::alloc::{AllocError as NoMemory, Global};
use std::marker::Model;

/// What stands before and between the parts of a line.
#[derive(Clone, Copy)]
pub(crate) enum Phrase {
    OffsetIn,
    AccessOf,
    AlignedTo,
    ValueIn,
    Allowed,
    PointerIn,
    LeftPointerIn,
    RightPointerIn,
    BytesMayBe,
    EndMayBe,
    FactLine,
    InMain,
    ShownLine,
    ExampleLine,
    NoAlarm,
}

impl Phrase {
    ghost use Rattle.std.specs.Prelude.{◌≡◌};
    ghost use Rattle.report_alarms.specs.ReportText.{phrase_text};

    #[tactic(auto, unfolding(crate::specs::ReportText::phrase_text))]
    fn words(self) -> &'static str
        ensures { result.now ≡ phrase_text self }
    {
        match self {
            Phrase::OffsetIn => " with offset in ",
            Phrase::AccessOf => "; access of ",
            Phrase::AlignedTo => " bytes aligned to ",
            Phrase::ValueIn => "value in ",
            Phrase::Allowed => "; allowed ",
            Phrase::PointerIn => "pointer in ",
            Phrase::LeftPointerIn => "left pointer in ",
            Phrase::RightPointerIn => "; right pointer in ",
            Phrase::BytesMayBe => "bytes may be ",
            Phrase::EndMayBe => "end may be ",
            Phrase::FactLine => "  fact: ",
            Phrase::InMain => " in main",
            Phrase::ShownLine => "\n  shown: ",
            Phrase::ExampleLine => "\n  example: ",
            Phrase::NoAlarm => "no alarm\n",
        }
    }
}

/// A text, in bytes.
#[derive(Drop)]
pub(crate) struct Text {
    alloc: Global,
    bytes: Vec<u8>,
}

impl Model for Text {
    ghost use Rattle.std.specs.Prelude.{List, ℕ};

    ghost Value = { List ℕ };

    ghost view = { λ t. t.bytes.items };
}

impl Text {
    ghost use Rattle.std.specs.Prelude.{◌≡◌, [], ◌++◌, OnOk, decimal};
    ghost use Rattle.std.specs.Fmt.{signed_decimal};
    ghost use Rattle.report_alarms.specs.ReportText.{phrase_text};

    /// The text with nothing in it.
    pub(crate) fn new(alloc: Global) -> Text
        ensures { result ≡ [] }
    {
        Text {
            alloc,
            bytes: Vec::new(alloc),
        }
    }

    /// The bytes, given back without taking memory.
    pub(crate) fn into_bytes(self) -> Vec<u8>
        ensures { result.items ≡ self }
    {
        let Text { alloc: _, bytes } = self;
        bytes
    }

    /// These bytes at the end.
    pub(crate) fn bytes(&mut self, bytes: &[u8]) -> Result<(), NoMemory>
        ensures { OnOk result (self.new ≡ self.old ++ bytes.now) }
    {
        self.bytes.extend_from_slice(bytes)
    }

    /// These words at the end.
    pub(crate) fn word(&mut self, word: &str) -> Result<(), NoMemory>
        ensures { OnOk result (self.new ≡ self.old ++ word.now) }
    {
        self.bytes.extend_from_slice(word.as_bytes())
    }

    /// A phrase at the end.
    #[tactic(auto, unfolding(crate::specs::ReportText::phrase_text))]
    pub(crate) fn phrase(&mut self, phrase: Phrase) -> Result<(), NoMemory>
        ensures { OnOk result (self.new ≡ self.old ++ phrase_text phrase) }
    {
        self.word(phrase.words())
    }

    /// A number at the end.
    pub(crate) fn number(&mut self, n: u64) -> Result<(), NoMemory>
        ensures { OnOk result (self.new ≡ self.old ++ decimal n) }
    {
        let digits = n.to_string(self.alloc)?;
        self.bytes.extend_from_slice(digits.as_bytes())
    }

    /// A number with its sign at the end.
    pub(crate) fn signed(&mut self, n: i128) -> Result<(), NoMemory>
        ensures { OnOk result (self.new ≡ self.old ++ signed_decimal n) }
    {
        let digits = n.to_string(self.alloc)?;
        self.bytes.extend_from_slice(digits.as_bytes())
    }
}
