//! Two domains that tell each other what they find.
//!
//! `Linked<A, B>` is the numeric domain of the valuations that both of its sides admit. A change is made on
//! the second side first, which may ask the first one as it was; then the first side is changed. What each
//! puts out is then handed to the other, and the first side hears it once more in the reverse order, since
//! what it heard last may make what it heard before say more. With x = y + 1 on the second side, a test
//! `y < 10` on the first is told there as x = y + 1, and x is at most 10. The ranges that the first puts out
//! it is handed again, so that it has heard all ranges that a call puts out, whichever side found them.
//!
//! specs/Links.antt says what is answered, specs/Hearing.antt what is heard.
#![tactic(auto)]

mod both;
mod delivery;
mod linked;

pub use delivery::{deliver, exchange};
pub use linked::Linked;
