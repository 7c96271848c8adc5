// What a declarator says of its name, as it is written. By loops, since a declarator may have any number of forms.
#![tactic(auto, using(c_syntax_written::proofs::Trees::the_written_trees))]

ghost use Rattle.std.specs.Prelude.{◌≡◌, option_map};
ghost use Rattle.c_syntax_written.specs.Written.{declarator_tree};
ghost use Rattle.c_typing.specs.Context as contexts;

use c_syntax_written::{Declarator, Name};

/// The name that a declarator has.
#[tactic(auto, using(c_syntax_written::proofs::Trees::the_written_trees), unfolding(c_typing::specs::Context::name_in))]
pub(crate) fn name_in(declarator: &Declarator) -> Option<&Name>
    ensures { option_map (λ n. n.now) result ≡ contexts.name_in (declarator_tree declarator.now) }
{
    let mut part = declarator;
    'inward: loop {
        match part {
            Declarator::Absent => return None,
            Declarator::Name { name, .. } => return Some(name),
            Declarator::Grouped { inner, .. }
            | Declarator::Pointer { inner, .. }
            | Declarator::Array { inner, .. }
            | Declarator::OpenArray { inner, .. }
            | Declarator::Function { inner, .. }
            | Declarator::VoidFunction { inner, .. } => part = inner,
        }
    }
}

/// Whether the first thing that a declarator says of its name is that it is a function (C11 6.7.6.3).
#[tactic(auto, using(c_syntax_written::proofs::Trees::the_written_trees), unfolding(c_typing::specs::Context::is_function_declarator))]
pub(crate) fn is_function_declarator(declarator: &Declarator) -> bool
    ensures { result ≡ contexts.is_function_declarator (declarator_tree declarator.now) }
{
    let mut part = declarator;
    'inward: loop {
        match part {
            Declarator::Absent => return false,
            Declarator::Name { .. } => return false,
            Declarator::Grouped { inner, .. }
            | Declarator::Pointer { inner, .. }
            | Declarator::Array { inner, .. }
            | Declarator::OpenArray { inner, .. } => part = inner,
            Declarator::Function { inner, .. } | Declarator::VoidFunction { inner, .. } => {
                if is_plain_name(inner) {
                    return true;
                }
                part = inner;
            }
        }
    }
}

// Whether it is a name with nothing round it but parentheses.
#[tactic(auto, using(c_syntax_written::proofs::Trees::the_written_trees), unfolding(c_typing::specs::Context::is_plain_name))]
fn is_plain_name(declarator: &Declarator) -> bool
    ensures { result ≡ contexts.is_plain_name (declarator_tree declarator.now) }
{
    let mut part = declarator;
    'inward: loop {
        match part {
            Declarator::Name { .. } => return true,
            Declarator::Grouped { inner, .. } => part = inner,
            Declarator::Absent => return false,
            Declarator::Pointer { .. } => return false,
            Declarator::Array { .. } => return false,
            Declarator::OpenArray { .. } => return false,
            Declarator::Function { .. } => return false,
            Declarator::VoidFunction { .. } => return false,
        }
    }
}
