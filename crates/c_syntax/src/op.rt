// Operators by their spellings.

/// The operators that a message on operands may name. Those without a spelling of their own are
/// `Call` for the operands of a call, `Return` for the value of a `return`, `Init` for an
/// initialiser, `Cast` for a cast, `Sizeof` for the size of a type or expression, `Test` for a
/// condition and `Switch` for the value that a `switch` takes.
#[derive(Clone, Copy, PartialEq, Eq)]
pub enum Op {
    /// `+`
    Plus,
    /// `-`
    Minus,
    /// `~`
    Complement,
    /// `!`
    Not,
    /// `*`
    Multiply,
    /// `/`
    Divide,
    /// `%`
    Remainder,
    /// `<<`
    ShiftLeft,
    /// `>>`
    ShiftRight,
    /// `<`
    Less,
    /// `>`
    Greater,
    /// `<=`
    AtMost,
    /// `>=`
    AtLeast,
    /// `==`
    Equal,
    /// `!=`
    Unequal,
    /// `&`
    BitAnd,
    /// `^`
    BitXor,
    /// `|`
    BitOr,
    /// `&&`
    And,
    /// `||`
    Or,
    /// `?:`
    Cond,
    /// `=`
    Assign,
    /// `*=`
    AssignMultiply,
    /// `/=`
    AssignDivide,
    /// `%=`
    AssignRemainder,
    /// `+=`
    AssignPlus,
    /// `-=`
    AssignMinus,
    /// `<<=`
    AssignShiftLeft,
    /// `>>=`
    AssignShiftRight,
    /// `&=`
    AssignBitAnd,
    /// `^=`
    AssignBitXor,
    /// `|=`
    AssignBitOr,
    /// `++`
    Increment,
    /// `--`
    Decrement,
    /// `,`
    Comma,
    /// `.`
    Dot,
    /// `->`
    Arrow,
    /// `a[i]`
    Index,
    Call,
    Return,
    Init,
    Cast,
    Sizeof,
    Test,
    Switch,
}
