//! The one state that a run without inputs has, where it is known.
//!
//! A run without inputs has one state at each point. `OneState` is that state, or nothing that is known. Each action of
//! the language takes it to the state behind the action; where there is none, as behind a statement that waits for an
//! input, nothing is known. No value, no operand of a check and no action but `input` looks at the inputs that are left,
//! so what is told of the one state holds of each state that has its temporaries and its memory.
//!
//! Where what comes next is nothing that `csharp_state` holds, a call gives up as if out of memory.
//!
//! For example, `set` of a temporary to the product of two constants leaves the one state with that product, and
//! `operand` of a check on that temporary is this number alone.
//!
//! | What | Stated in | Promised by |
//! |---|---|---|
//! | states that are the one state but for their inputs | `One` | `start`, each call that changes the state |
//! | the actions | `Actions` of csharp | `set`, `load`, `store`, `copy_bytes`, `undefine`, `enter`, `leave` |
//! | tests and checks | `value_of` and `look_of` of csharp, `judge` of c_values | `assume`, `pass`, `operand` |
//! | the numbers of whole objects | `Telling`; `FactsOf` of mem_api | `facts` |
#![tactic(auto)]

mod changes;
mod checks;
mod facts;
mod state;

pub use state::OneState;
