// States stay typed.
#![tactic(auto)]

ghost use Rattle.csharp_typed_laws.specs.Counts.{CountsStay};
ghost use Rattle.csharp_typed_laws.specs.Jumps.{BodiesReturn, JumpsLeadAround};
ghost use Rattle.csharp_typed_laws.specs.Kept.{BodiesAreTyped, CopyKeeps, EnterKeeps, FirstStatesAreTyped, GiveKeeps, InputKeeps, LeaveKeeps};
ghost use Rattle.csharp_typed_laws.specs.Kept.{LoadKeeps, PassKeeps, PointersStayWhole, RunsAreTyped, SetKeeps, StoreKeeps, TypedStatesStayTyped};
ghost use Rattle.csharp_typed_laws.specs.Kept.{UndefineKeeps, ValuesAreTyped};

/// Behind a statement that ends normally or leaves there are as many temporaries as before it.
pub fn counts_stay()
    ensures { CountsStay }
{}

/// The first state of a formed program is typed, where its initial bytes have eight bits.
pub fn first_states_are_typed()
    ensures { FirstStatesAreTyped }
{}

/// In a typed state a typed expression has a value of its type, of a block that was made, or none.
pub fn values_are_typed()
    ensures { ValuesAreTyped }
{}

/// Each action of a typed statement leads from a typed state to a typed one, where it leads to one at all.
pub fn actions_keep_states_typed()
    ensures set { SetKeeps }
    ensures load { LoadKeeps }
    ensures store { StoreKeeps }
    ensures copy { CopyKeeps }
    ensures undefine { UndefineKeeps }
    ensures input { InputKeeps }
    ensures enter { EnterKeeps }
    ensures leave { LeaveKeeps }
    ensures pass { PassKeeps }
    ensures give { GiveKeeps }
{}

/// In a formed program typed code leads from a typed state to typed ones: where it ends normally, and where it leaves,
/// with a value that fits the temporary that takes it. At a check that fails memory keeps what it keeps.
pub fn typed_states_stay_typed()
    ensures stay { TypedStatesStayTyped }
    ensures bodies { BodiesAreTyped }
    ensures runs { RunsAreTyped }
{}

/// Typed code leaves stored pointers whole, also up to a check that fails.
pub fn pointers_stay_whole()
    ensures { PointersStayWhole }
{}

/// Exits and gotos of formed code lead to blocks and labels around it, so the body of a function of a formed program is
/// left by a return alone.
pub fn jumps_lead_around()
    ensures code { JumpsLeadAround }
    ensures bodies { BodiesReturn }
{}
