//! The machine of C follows the code of lowered functions where these are called: laws.
//!
//! Arguments go into the temporaries of the parameters, and from there into their objects, which the machine fills in one step.
//! What a body comes to, the call comes to: its value is in its temporary, what goes wrong in it has the call's place in front
//! of the chain, and where a value is due and the end is reached, the check behind the call fails. The call takes one unit of
//! fuel, for the step that enters the function.
//!
//! | What | Stated in |
//! |---|---|
//! | how a call is entered | `proofs/Entering` |
//! | the scope of the parameters, and the end of the call | `proofs/Called` |
//! | calls follow from bodies with less fuel (`calls_follow`) | `proofs/Calls` |
#![tactic(auto)]
