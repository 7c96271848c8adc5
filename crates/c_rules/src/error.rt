// What refuses a program.

ghost use Rattle.std.specs.Prelude.{◌≡◌};
ghost use Rattle.c_rules.specs.declared.error.RuleError.TheVariants.{NoMemory};

use c_rules_calls::Calls;
use c_rules_effects::Effects;
use c_syntax::Pos;
use std::alloc::AllocError;

/// What refuses a program.
#[derive(Drop)]
pub enum RuleError {
    /// The first node, children before their parents, of which one side writes what another touches, with the effects of
    /// two such sides.
    Unsequenced(Pos, Effects, Effects),
    /// Calls that lead from a function back to itself, of which no two call one function.
    Recursion(Calls),
    /// No function named main has a body, no parameters and the result int.
    NoMain,
    /// The first call in the text of a function without a body.
    UndefinedFunction(Pos),
    /// 65 calls in a chain from main.
    TooDeepCalls(Calls),
    /// The inlined size of main, which is above 2,000,000 and ends at the greatest number of 64 bits.
    TooLarge(u64),
    /// The first goto in the text that leads into a block that is not around it.
    GotoIntoBlock(Pos),
    /// There was no memory.
    NoMemory,
}

impl From<AllocError> for RuleError {
    ghost from_gives = { λ _ e. e ≡ NoMemory };

    fn from(_error: AllocError) -> RuleError {
        RuleError::NoMemory
    }
}
