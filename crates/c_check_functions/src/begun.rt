// Functions whose bodies follow.

use c_check_names::Scope;
use c_syntax::CType;

/// A function whose body follows: its number and its result, and the scope around its body.
#[derive(Drop)]
pub struct Begun {
    pub number: u64,
    pub result: CType,
    pub outside: Scope,
}
