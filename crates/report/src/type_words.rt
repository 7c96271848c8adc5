// Operators, integer types and constructs as words.

ghost use Rattle.std.specs.Prelude.{◌≡◌};
ghost use Rattle.report.specs.Words.{construct_text, int_text, op_text};

use c_syntax::{Construct, IntType, Op};

/// The type in C's words (C11 6.7.2).
pub fn int_name(t: IntType) -> &'static str
    ensures { result.now ≡ int_text t }
{
    match t {
        IntType::Char => "char",
        IntType::SChar => "signed char",
        IntType::UChar => "unsigned char",
        IntType::Short => "short",
        IntType::UShort => "unsigned short",
        IntType::Int => "int",
        IntType::UInt => "unsigned int",
        IntType::Long => "long",
        IntType::ULong => "unsigned long",
        IntType::LLong => "long long",
        IntType::ULLong => "unsigned long long",
    }
}

/// The operator as it is spelled (C11 6.4.6), and what has no spelling of its own by a word.
pub fn op_name(op: Op) -> &'static str
    ensures { result.now ≡ op_text op }
{
    match op {
        Op::Plus => "+",
        Op::Minus => "-",
        Op::Complement => "~",
        Op::Not => "!",
        Op::Multiply => "*",
        Op::Divide => "/",
        Op::Remainder => "%",
        Op::ShiftLeft => "<<",
        Op::ShiftRight => ">>",
        Op::Less => "<",
        Op::Greater => ">",
        Op::AtMost => "<=",
        Op::AtLeast => ">=",
        Op::Equal => "==",
        Op::Unequal => "!=",
        Op::BitAnd => "&",
        Op::BitXor => "^",
        Op::BitOr => "|",
        Op::And => "&&",
        Op::Or => "||",
        Op::Cond => "?:",
        Op::Assign => "=",
        Op::AssignMultiply => "*=",
        Op::AssignDivide => "/=",
        Op::AssignRemainder => "%=",
        Op::AssignPlus => "+=",
        Op::AssignMinus => "-=",
        Op::AssignShiftLeft => "<<=",
        Op::AssignShiftRight => ">>=",
        Op::AssignBitAnd => "&=",
        Op::AssignBitXor => "^=",
        Op::AssignBitOr => "|=",
        Op::Increment => "++",
        Op::Decrement => "--",
        Op::Comma => ",",
        Op::Dot => ".",
        Op::Arrow => "->",
        Op::Index => "[]",
        Op::Call => "call",
        Op::Return => "return",
        Op::Init => "init",
        Op::Cast => "cast",
        Op::Sizeof => "sizeof",
        Op::Test => "test",
        Op::Switch => "switch",
    }
}

/// The name of a construct that this profile leaves out.
pub fn construct_name(construct: Construct) -> &'static str
    ensures { result.now ≡ construct_text construct }
{
    match construct {
        Construct::Floating => "Floating",
        Construct::Union => "Union",
        Construct::Bool => "Bool",
        Construct::Inline => "Inline",
        Construct::ThreadLocal => "ThreadLocal",
        Construct::Generic => "Generic",
        Construct::StaticAssert => "StaticAssert",
        Construct::Qualifier => "Qualifier",
        Construct::AlignmentWord => "AlignmentWord",
        Construct::Complex => "Complex",
        Construct::BitField => "BitField",
        Construct::Variadic => "Variadic",
        Construct::Designator => "Designator",
        Construct::CompoundLiteral => "CompoundLiteral",
        Construct::InnerTypedef => "InnerTypedef",
        Construct::TypedefAgain => "TypedefAgain",
        Construct::FunctionPointer => "FunctionPointer",
        Construct::OldParameters => "OldParameters",
        Construct::NestedCase => "NestedCase",
        Construct::FlexibleArray => "FlexibleArray",
        Construct::StructByValue => "StructByValue",
        Construct::ConstMember => "ConstMember",
        Construct::PointerInteger => "PointerInteger",
        Construct::MainShape => "MainShape",
    }
}
