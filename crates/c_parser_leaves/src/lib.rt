//! The parser of what holds no expression: words, constants and literals, the name that is declared,
//! members behind `.` and `->`, tags, and how lists and forms end.
//!
//! Each reader takes the tokens of one form from the front, by the steps of `c_parser_steps`, and hands on
//! what it made with the tokens behind it. For example, `simple_suffix` reads `.x + 1` up to the `+`, and
//! gives the member of what stands before it.
//!
//! `specs/Readers.antt` and `specs/Tags.antt` state what the readers answer, as the grammar's descent
//! (`Goes`) does, and `specs/Ends.antt` how a list goes on; each call promises its own.
#![tactic(auto)]

// The value that a call answered; its fault is returned as it is. `?` would convert it as well.
macro_rules! got {
    ($answer:expr) => {
        match $answer {
            Ok(got) => got,
            Err(fault) => return Err(fault),
        }
    };
}

mod ends;
mod leaf;
mod made;
mod suffix;
mod tag;
mod tail;

pub use ends::{comma_end, members_end, tells_type, type_comes_again};
pub use leaf::{simple_primary, simple_spec};
pub use made::{closed, handed};
pub use suffix::{calls_no_word, is_no_suffix, no_arguments, simple_suffix, word_of};
pub use tag::{enumeration_head, enumeration_of, structure_head, structure_of};
pub use tail::{
    calls_no_name, consts, declared_name, is_no_tail, no_parameters, no_size, params_come,
    type_name_comes,
};
