// The parameters that a declarator lists.
#![tactic(auto)]

ghost use Rattle.std.specs.Prelude.{◌≡◌, map};
ghost use Rattle.std.specs.Option.{option_map};
ghost use Rattle.c_check_declarators.specs.Views.{step_tree};
ghost use Rattle.c_check_functions.specs.Views as views;
ghost use Rattle.c_check_functions.specs.Views.{list_tree};

use c_check_declarators::{Parameter, Step};
use c_check_names::{Binding, TagBinding};

/// The parameters that a declarator lists, and the names and tags that the list declares.
#[derive(Drop)]
pub(crate) struct ParameterList {
    pub params: Vec<Parameter>,
    pub names: Vec<Binding>,
    pub tags: Vec<TagBinding>,
}

/// The list of a declarator that says first that its name is a function (C11 6.9.1p2).
pub(crate) fn own_list(steps: Vec<Step>) -> Option<ParameterList>
    ensures { option_map list_tree result ≡ views.own_list (map step_tree steps.items) }
{
    let mut left = steps;
    left.reverse();
    match left.pop() {
        None => None,
        Some(first) => list_in(first),
    }
}

// The list of a step.
fn list_in(step: Step) -> Option<ParameterList>
    ensures { option_map list_tree result ≡ views.list_in (step_tree step) }
{
    match step {
        Step::FunctionOf(params, names, tags) => Some(ParameterList {
            params,
            names,
            tags,
        }),
        Step::PointerTo(_) => None,
        Step::ArrayOf(_, _) => None,
        Step::OpenArray => None,
    }
}
