// Whole initialisers.
#![tactic(auto)]

use c_syntax::TInit;

/// What an initialiser stores; whether a list or a string stands there, so that what no item names is zero; and how many
/// elements an array without size has by it.
#[derive(Drop)]
pub struct Initialised {
    pub items: Vec<TInit>,
    pub zeroes_rest: bool,
    pub count: u64,
}
