// Operators by their spellings.
#![tactic(auto)]

use c_syntax::{AssignOp, BinaryOp, Op, UnaryOp};

/// The unary operator of a word.
pub fn unary(word: &str) -> Option<UnaryOp> {
    Some(match word {
        "u&" => UnaryOp::AddressOf,
        "u*" => UnaryOp::Deref,
        "u+" => UnaryOp::Plus,
        "u-" => UnaryOp::Minus,
        "u~" => UnaryOp::Complement,
        "u!" => UnaryOp::Not,
        _ => return None,
    })
}

/// The operator between two values of a word.
pub fn binary(word: &str) -> Option<BinaryOp> {
    Some(match word {
        "*" => BinaryOp::Multiply,
        "/" => BinaryOp::Divide,
        "%" => BinaryOp::Remainder,
        "+" => BinaryOp::Plus,
        "-" => BinaryOp::Minus,
        "<<" => BinaryOp::ShiftLeft,
        ">>" => BinaryOp::ShiftRight,
        "<" => BinaryOp::Less,
        ">" => BinaryOp::Greater,
        "<=" => BinaryOp::AtMost,
        ">=" => BinaryOp::AtLeast,
        "==" => BinaryOp::Equal,
        "!=" => BinaryOp::Unequal,
        "&" => BinaryOp::BitAnd,
        "^" => BinaryOp::BitXor,
        "|" => BinaryOp::BitOr,
        "&&" => BinaryOp::And,
        "||" => BinaryOp::Or,
        _ => return None,
    })
}

/// The operator of an `op=` of a word.
pub fn compound(word: &str) -> Option<AssignOp> {
    Some(match word {
        "*=" => AssignOp::Multiply,
        "/=" => AssignOp::Divide,
        "%=" => AssignOp::Remainder,
        "+=" => AssignOp::Plus,
        "-=" => AssignOp::Minus,
        "<<=" => AssignOp::ShiftLeft,
        ">>=" => AssignOp::ShiftRight,
        "&=" => AssignOp::BitAnd,
        "^=" => AssignOp::BitXor,
        "|=" => AssignOp::BitOr,
        _ => return None,
    })
}

/// How a refusal spells an operator.
pub fn op(op: Op) -> &'static str {
    match op {
        Op::Plus => "+",
        Op::Minus => "-",
        Op::Complement => "~",
        Op::Not => "!",
        Op::Multiply => "*",
        Op::Divide => "/",
        Op::Remainder => "%",
        Op::ShiftLeft => "<<",
        Op::ShiftRight => ">>",
        Op::Less => "<",
        Op::Greater => ">",
        Op::AtMost => "<=",
        Op::AtLeast => ">=",
        Op::Equal => "==",
        Op::Unequal => "!=",
        Op::BitAnd => "&",
        Op::BitXor => "^",
        Op::BitOr => "|",
        Op::And => "&&",
        Op::Or => "||",
        _ => told(op),
    }
}

fn told(op: Op) -> &'static str {
    match op {
        Op::Cond => "?:",
        Op::Assign => "=",
        Op::AssignMultiply => "*=",
        Op::AssignDivide => "/=",
        Op::AssignRemainder => "%=",
        Op::AssignPlus => "+=",
        Op::AssignMinus => "-=",
        Op::AssignShiftLeft => "<<=",
        Op::AssignShiftRight => ">>=",
        Op::AssignBitAnd => "&=",
        Op::AssignBitXor => "^=",
        Op::AssignBitOr => "|=",
        Op::Increment => "++",
        Op::Decrement => "--",
        Op::Comma => ",",
        Op::Dot => ".",
        Op::Arrow => "->",
        Op::Index => "[]",
        Op::Call => "call",
        Op::Return => "return",
        Op::Init => "init",
        Op::Cast => "cast",
        Op::Sizeof => "sizeof",
        Op::Test => "test",
        Op::Switch => "switch",
        _ => "?",
    }
}
