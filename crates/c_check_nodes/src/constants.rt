// Numbers and characters.
#![tactic(auto, using(c_syntax::proofs::Trees::the_trees))]

ghost use Rattle.std.specs.Prelude.{◌≡◌};
ghost use Rattle.c_layout.specs.Conversion.{literal_type_of};
ghost use Rattle.c_typing.specs.Nodes as nodes;
ghost use Rattle.c_typing.specs.World as worlds;
ghost use Rattle.c_typing.specs.World.{World};
ghost use Rattle.c_check_operators.specs.OperandViews.{operand_tree};
ghost use Rattle.c_check_names.specs.Views.{Answers};

use c_check_names::TypeError;
use c_check_operators::Operand;
use c_layout::{literal_type, wrap};
use c_syntax::{Constant, IntType, Pos, TExpr};

/// An integer constant (C11 6.4.4.1p5). Where no type of its row holds it, it is NotConstant, which the lexer has
/// asked before.
pub fn number(at: Pos, constant: Constant) -> Result<Operand, TypeError>
    ensures { (w : World) → Answers (λ out. out ≡ nodes.number w at constant) operand_tree w result }
{
    match constant_type(constant) {
        None => Err(TypeError::NotConstant(at)),
        Some(ty) => Ok(Operand::Value(TExpr::Const {
            pos: at,
            ty,
            value: i128::from(constant.value),
        })),
    }
}

// The type of a constant. More than two `l`, which no text has, are as two.
fn constant_type(constant: Constant) -> Option<IntType>
    ensures { result ≡ literal_type_of constant.value constant.decimal constant.unsigned constant.longs }
{
    let longs = constant.longs.min(2);
    literal_type(constant.value, constant.decimal, constant.unsigned, longs)
}

/// A character constant, which is an int of the char's value (C11 6.4.4.4p10). It has no refusal.
pub fn character(at: Pos, byte: u8) -> Operand
    ensures { (w : World) → nodes.character w at byte ≡ worlds.Typed (operand_tree result) w }
{
    Operand::Value(TExpr::Const {
        pos: at,
        ty: IntType::Int,
        value: wrap(IntType::Char, i128::from(byte)),
    })
}
