// Whether a name may be declared here.
#![tactic(auto)]

ghost use Rattle.std.specs.Prelude.{◌≡◌, option_map};
ghost use Rattle.c_typing.specs.Decls as decls;
ghost use Rattle.c_typing.specs.Names as names;
ghost use Rattle.c_check_names.specs.Trees.{binding_tree, meaning_tree};
ghost use Rattle.c_check_names.specs.Worlds.{world_of};
ghost use Rattle.c_check_decls.specs.Entities.{conflict_of};

use c_check_names::{Binding, Meaning, World};
use c_syntax::Pos;

/// The place of the declaration with which another one of the name is Redeclared, if it is. `agrees` says whether the other
/// is one of the entity of the file that has the name; where the file has none it is true.
pub fn conflict(world: &World, name: &[u8], agrees: bool) -> Option<Pos>
    ensures { result ≡ conflict_of (decls.binding_here (world_of world.now) name.now) (names.linked_as (world_of world.now) name.now) agrees }
{
    match binding_here(world, name) {
        None => match world.linked_as(name) {
            None => None,
            Some(linked) => if agrees { None } else { Some(linked.pos) },
        },
        Some(binding) => match world.linked_as(name) {
            None => Some(binding.pos),
            Some(linked) => if is_same_entity(&binding.meaning, &linked.meaning) && agrees {
                None
            } else {
                Some(binding.pos)
            },
        },
    }
}

// The declaration of the name in the innermost scope.
fn binding_here<'w>(world: &'w World, name: &[u8]) -> Option<&'w Binding>
    ensures { option_map (λ b. binding_tree b.now) result ≡ decls.binding_here (world_of world.now) name.now }
{
    world.names.first_from(name, world.first_name)
}

// One entity by its number.
fn is_same_entity(a: &Meaning, b: &Meaning) -> bool
    ensures { result ≡ decls.is_same_entity (meaning_tree a.now) (meaning_tree b.now) }
{
    match a {
        Meaning::Object(m) => match b {
            Meaning::Object(n) => m == n,
            _ => false,
        },
        Meaning::Function(m) => match b {
            Meaning::Function(n) => m == n,
            _ => false,
        },
        Meaning::Missing(_, _) => matches!(b, Meaning::Missing(_, _)),
        Meaning::Parameter(_, _, _) | Meaning::TypeName(_) | Meaning::Enumeration(_) => false,
    }
}
