//! The checks of lowered programs look at what stands at the sites of their source.
//!
//! Each check of a lowered function is made at a site of the function that was lowered. Where two pointers are compared or
//! subtracted there, it looks at both; where a named place stands, it looks at the address of the object that the place is
//! in, moved by constants and by products with constants; elsewhere it looks at one operand.
//!
//! So where sites at one place of the text agree, as those of a file do, checks of one place and kind in one function have
//! as many operands, calls at one place are of one function, and one alarm can show what fails all checks of one chain,
//! place and kind.
//!
//! | What | Stated in `specs/` | Promised by |
//! |---|---|---|
//! | what a check looks at, by its site | `Looks`, `Laws` | `lowered_checks_are_sited` |
//! | checks of one place and kind | `Laws` | `lowered_checks_are_of_one_form` |
//! | checks where a named place stands | `Laws` | `lowered_places_are_named` |
//! | calls at one place | `Laws` | `lowered_calls_agree` |
#![tactic(auto)]

mod laws;

pub use laws::{
    lowered_calls_agree, lowered_checks_are_of_one_form, lowered_checks_are_sited,
    lowered_places_are_named,
};
