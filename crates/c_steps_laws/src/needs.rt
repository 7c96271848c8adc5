// What rows find.
#![tactic(auto)]

ghost use Rattle.c_steps_laws.specs.Laws.{RowsFindShapes, RowsFindNeeds, WorkIsLeft, MemoriesAreSound, StartsFit, StepsKeepFitting, FittingStatesStep};

/// Where a state fits, the stack has what the next item takes: so many values or places of structs, and
/// where the item takes a value of a scalar type, it names one.
pub fn rows_find_shapes()
    ensures { RowsFindShapes }
{}

/// These are of their types and of blocks that were made, objects that are named live, and stores and
/// copies are made where their looks pass. The program is well typed.
pub fn rows_find_needs()
    ensures { RowsFindNeeds }
{}

/// A state that fits has a next item.
pub fn work_is_left()
    ensures { WorkIsLeft }
{}

/// Each block fits its object, no object is too large for a pointer, and memory has a place for each
/// object of the program.
pub fn memories_are_sound()
    ensures { MemoriesAreSound }
{}

/// The start of a run fits. Initial bytes have eight bits, as each byte in the code has.
pub fn starts_fit()
    ensures { StartsFit }
{}

/// A step from a state that fits leads to one.
pub fn steps_keep_fitting()
    ensures { StepsKeepFitting }
{}

/// A state that fits does not stand without a row.
pub fn fitting_states_step()
    ensures { FittingStatesStep }
{}
