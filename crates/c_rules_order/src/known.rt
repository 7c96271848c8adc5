// What is known of a program where its expressions are looked at.

use c_rules_effects::Effects;

/// What is known of a whole program.
#[derive(Drop)]
pub struct Known {
    /// Of each object, by its number, whether its address is taken.
    pub taken: Vec<bool>,
    /// Of each function, by its number, what calls of it read and write.
    pub functions: Vec<Effects>,
}
