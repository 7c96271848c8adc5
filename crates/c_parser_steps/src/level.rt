// Levels of operators.

ghost use Rattle.std.specs.Prelude.{◌≡◌};
ghost use Rattle.c_parser_steps.specs.Kinds.{joint_here, joint_for, operand_of};
ghost use Rattle.c_grammar.specs.Choice.{joint_of_sign};
ghost use Rattle.c_grammar.specs.Classes.{joint_sign};

use crate::token::sign_at;
use c_grammar::{Joint, Level};
use c_syntax_written::{BinaryOp, Placed, Punctuator};

/// What stands on either side of a joint of a level.
#[derive(Clone, Copy, PartialEq, Eq)]
pub enum OperandKind {
    Assignment,
    /// The operands of the next level, and joints between them.
    Run(Level),
    Cast,
}

/// The operands of a level.
pub fn operand_of(level: Level) -> OperandKind
    ensures { result ≡ operand_of level }
{
    match level {
        Level::Commas => OperandKind::Assignment,
        Level::Ors => OperandKind::Run(Level::Ands),
        Level::Ands => OperandKind::Run(Level::BitOrs),
        Level::BitOrs => OperandKind::Run(Level::BitXors),
        Level::BitXors => OperandKind::Run(Level::BitAnds),
        Level::BitAnds => OperandKind::Run(Level::Equalities),
        Level::Equalities => OperandKind::Run(Level::Relations),
        Level::Relations => OperandKind::Run(Level::Shifts),
        Level::Shifts => OperandKind::Run(Level::Sums),
        Level::Sums => OperandKind::Run(Level::Products),
        Level::Products => OperandKind::Cast,
    }
}

/// The joint of the level that comes, where one does.
pub fn joint_at(level: Level, tokens: &[Placed]) -> Option<Joint>
    ensures { result ≡ joint_here level tokens.now }
{
    match sign_at(tokens) {
        Some(sign) => joint_of(level, sign),
        None => None,
    }
}

fn joint_of(level: Level, sign: Punctuator) -> Option<Joint>
    ensures { result ≡ joint_for level (joint_of_sign sign) }
{
    match level {
        Level::Commas => comma_of(sign),
        Level::Ors => or_of(sign),
        Level::Ands => and_of(sign),
        Level::BitOrs => bit_or_of(sign),
        Level::BitXors => bit_xor_of(sign),
        Level::BitAnds => bit_and_of(sign),
        Level::Equalities => equality_of(sign),
        Level::Relations => relation_of(sign),
        Level::Shifts => shift_of(sign),
        Level::Sums => sum_of(sign),
        Level::Products => product_of(sign),
    }
}

fn comma_of(sign: Punctuator) -> Option<Joint>
    ensures { result ≡ joint_for Level.Commas (joint_of_sign sign) }
{
    match sign {
        Punctuator::Comma => Some(Joint::Comma),
        _ => None,
    }
}

fn or_of(sign: Punctuator) -> Option<Joint>
    ensures { result ≡ joint_for Level.Ors (joint_of_sign sign) }
{
    match sign {
        Punctuator::Or => Some(Joint::Binary(BinaryOp::Or)),
        _ => None,
    }
}

fn and_of(sign: Punctuator) -> Option<Joint>
    ensures { result ≡ joint_for Level.Ands (joint_of_sign sign) }
{
    match sign {
        Punctuator::And => Some(Joint::Binary(BinaryOp::And)),
        _ => None,
    }
}

fn bit_or_of(sign: Punctuator) -> Option<Joint>
    ensures { result ≡ joint_for Level.BitOrs (joint_of_sign sign) }
{
    match sign {
        Punctuator::Bar => Some(Joint::Binary(BinaryOp::BitOr)),
        _ => None,
    }
}

fn bit_xor_of(sign: Punctuator) -> Option<Joint>
    ensures { result ≡ joint_for Level.BitXors (joint_of_sign sign) }
{
    match sign {
        Punctuator::Caret => Some(Joint::Binary(BinaryOp::BitXor)),
        _ => None,
    }
}

fn bit_and_of(sign: Punctuator) -> Option<Joint>
    ensures { result ≡ joint_for Level.BitAnds (joint_of_sign sign) }
{
    match sign {
        Punctuator::Ampersand => Some(Joint::Binary(BinaryOp::BitAnd)),
        _ => None,
    }
}

fn equality_of(sign: Punctuator) -> Option<Joint>
    ensures { result ≡ joint_for Level.Equalities (joint_of_sign sign) }
{
    match sign {
        Punctuator::Equal => Some(Joint::Binary(BinaryOp::Equal)),
        Punctuator::NotEqual => Some(Joint::Binary(BinaryOp::Unequal)),
        _ => None,
    }
}

fn relation_of(sign: Punctuator) -> Option<Joint>
    ensures { result ≡ joint_for Level.Relations (joint_of_sign sign) }
{
    match sign {
        Punctuator::Less => Some(Joint::Binary(BinaryOp::Less)),
        Punctuator::Greater => Some(Joint::Binary(BinaryOp::Greater)),
        Punctuator::LessEqual => Some(Joint::Binary(BinaryOp::AtMost)),
        Punctuator::GreaterEqual => Some(Joint::Binary(BinaryOp::AtLeast)),
        _ => None,
    }
}

fn shift_of(sign: Punctuator) -> Option<Joint>
    ensures { result ≡ joint_for Level.Shifts (joint_of_sign sign) }
{
    match sign {
        Punctuator::ShiftLeft => Some(Joint::Binary(BinaryOp::ShiftLeft)),
        Punctuator::ShiftRight => Some(Joint::Binary(BinaryOp::ShiftRight)),
        _ => None,
    }
}

fn sum_of(sign: Punctuator) -> Option<Joint>
    ensures { result ≡ joint_for Level.Sums (joint_of_sign sign) }
{
    match sign {
        Punctuator::Plus => Some(Joint::Binary(BinaryOp::Plus)),
        Punctuator::Minus => Some(Joint::Binary(BinaryOp::Minus)),
        _ => None,
    }
}

fn product_of(sign: Punctuator) -> Option<Joint>
    ensures { result ≡ joint_for Level.Products (joint_of_sign sign) }
{
    match sign {
        Punctuator::Star => Some(Joint::Binary(BinaryOp::Multiply)),
        Punctuator::Slash => Some(Joint::Binary(BinaryOp::Divide)),
        Punctuator::Percent => Some(Joint::Binary(BinaryOp::Remainder)),
        _ => None,
    }
}

/// How a joint is written.
pub fn joint_sign(joint: Joint) -> Punctuator
    ensures { result ≡ joint_sign joint }
{
    match joint {
        Joint::Comma => Punctuator::Comma,
        Joint::Binary(op) => binary_sign(op),
    }
}

fn binary_sign(op: BinaryOp) -> Punctuator
    ensures { result ≡ joint_sign (Joint.Binary op) }
{
    match op {
        BinaryOp::Multiply => Punctuator::Star,
        BinaryOp::Divide => Punctuator::Slash,
        BinaryOp::Remainder => Punctuator::Percent,
        BinaryOp::Plus => Punctuator::Plus,
        BinaryOp::Minus => Punctuator::Minus,
        BinaryOp::ShiftLeft => Punctuator::ShiftLeft,
        BinaryOp::ShiftRight => Punctuator::ShiftRight,
        BinaryOp::Less => Punctuator::Less,
        BinaryOp::Greater => Punctuator::Greater,
        BinaryOp::AtMost => Punctuator::LessEqual,
        BinaryOp::AtLeast => Punctuator::GreaterEqual,
        BinaryOp::Equal => Punctuator::Equal,
        BinaryOp::Unequal => Punctuator::NotEqual,
        BinaryOp::BitAnd => Punctuator::Ampersand,
        BinaryOp::BitXor => Punctuator::Caret,
        BinaryOp::BitOr => Punctuator::Bar,
        BinaryOp::And => Punctuator::And,
        BinaryOp::Or => Punctuator::Or,
    }
}
