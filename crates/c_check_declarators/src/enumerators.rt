// Enumeration constants, and sizes of arrays.
#![tactic(auto)]

ghost use Rattle.std.specs.Prelude.{◌≡◌, IfOk, option_map};
ghost use Rattle.c_typing.specs.Names as names;
ghost use Rattle.c_typing.specs.Typing as typing;
ghost use Rattle.c_typing.specs.Declarators as declarators;
ghost use Rattle.c_typing.specs.World as worlds;
ghost use Rattle.c_check_declarators.specs.Views.{step_tree};
ghost use Rattle.c_check_names.specs.Views.{Answers};
ghost use Rattle.c_check_names.specs.Worlds.{world_of};

use crate::Step;
use c_check_names::{Meaning, TypeError, World};
use c_syntax::{Name, Pos};

/// Declares an enumeration constant of this value, and gives the value of the next. What is no constant, or no int, is
/// NotConstant at the value; a name that this scope has is Redeclared. Once out of memory the program is only dropped.
pub fn enumerator(
    world: &mut World,
    pos: Pos,
    value_pos: Pos,
    name: &Name,
    value: Option<i128>,
) -> Result<i128, TypeError>
    ensures { Answers (λ out. out ≡ typing.enumerator (world_of world.old) pos value_pos name.now value) (λ n. n) (world_of world.new) result }
{
    match value {
        None => Err(TypeError::NotConstant(value_pos)),
        Some(n) => {
            if !is_int(n) {
                return Err(TypeError::NotConstant(value_pos));
            }
            match world.first_here(pos, name.as_slice()) {
                Some(first) => Err(TypeError::Redeclared(pos, first)),
                None => {
                    let name = name.copy()?;
                    world.declare(pos, name, Meaning::Enumeration(n))?;
                    Ok(n + 1)
                }
            }
        }
    }
}

// Whether it is a value of int.
fn is_int(n: i128) -> bool
    ensures { result ≡ typing.is_int n }
{
    -2_147_483_648 <= n && n <= 2_147_483_647
}

/// The step of an array by the value of its size, which is a constant above 0, else NotConstant at the size. A number
/// that no `u64` holds, which is no value of a C type, is out of memory.
pub fn array_sized(size_pos: Pos, value: Option<i128>) -> Result<Step, TypeError>
    ensures { (w : worlds.World) (shape : declarators.Shape)
        → Answers (λ out. out ≡ typing.array_sized w size_pos shape value) (λ step. typing.with_step shape (step_tree step)) w result }
{
    match value {
        None => Err(TypeError::NotConstant(size_pos)),
        Some(n) => {
            if n <= 0 {
                return Err(TypeError::NotConstant(size_pos));
            }
            match u64::try_from(n) {
                Err(_) => Err(TypeError::NoMemory),
                Ok(n) => Ok(Step::ArrayOf(size_pos, n)),
            }
        }
    }
}
