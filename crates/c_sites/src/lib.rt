//! The sites of a typed program: where its nodes make checks and calls, and what they look at there.
//!
//! A node looks at a place, a pointer or a number, at two pointers beside one another, or at a function that it calls. Of
//! a place that is named, as `a[i].x`, the object that it is in is told, and whether it is an element. What reads or writes
//! a place does so where the place stands.
//!
//! For example, in `a[i] = p - q;` of an array `a` and two pointers the sites are `a` and `[`, in the object `a`, the latter
//! with an element; `i`, `p` and `q`, each in its object; and `-`, which looks at two pointers.
//!
//! A program may be asked that sites at one place of a function agree. Then all checks that are made at one place look at
//! the same: no check of two pointers stands where another looks at one, and what stands where a named place stands is a
//! place in the same object. Calls at one place are then of one function.
//!
//! | What | Stated in `specs/` | Promised by |
//! |---|---|---|
//! | sites, and where they agree | `Sites` | - |
//! | the checks, with what they look at | `SitedChecks`, `SitedLaws` | `checks_are_sited`, `checks_stand_at_sites` |
//! | calls | `SitedLaws` | `calls_stand_at_sites` |
//! | checks and calls at one place | `SitedLaws` | `checks_agree`, `calls_agree` |
#![tactic(auto)]

mod laws;

pub use laws::{
    calls_agree, calls_stand_at_sites, checks_agree, checks_are_sited, checks_stand_at_sites,
};
