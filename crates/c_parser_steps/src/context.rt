// What the descent knows besides the tokens.

ghost use Rattle.std.specs.Prelude.{◌≡◌};
ghost use Rattle.c_grammar.specs.Classes.{names_type};
ghost use Rattle.c_parser_steps.specs.Views.{scene_of};

use crate::type_names::TypeNames;
use c_grammar::Setting;
use std::alloc::Global;

/// The memory that trees are made in, the typedef names in force, and where the tokens stand.
#[derive(Drop)]
pub struct Context<'a> {
    pub alloc: Global,
    pub types: &'a TypeNames,
    pub setting: Setting,
}

impl Context<'_> {
    /// Whether the name is a typedef name in force.
    #[tactic(auto, unfolding(c_grammar::specs::Classes::names_type))]
    pub fn names_type(&self, name: &[u8]) -> bool
        ensures { result ≡ names_type (scene_of self.now) name.now }
    {
        self.types.contains(name)
    }
}
