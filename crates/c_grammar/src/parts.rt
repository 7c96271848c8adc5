// What the parts of a file are told apart by: where a token stands, the ranks of operators, whose a
// declarator is, and what ends an expression.

ghost use Rattle.std.specs.Prelude.{◌≡◌};
ghost use Rattle.c_grammar.specs.Classes.{closing_sign};
ghost use Rattle.c_grammar.specs.Refused.{in_member, may_name, may_omit};

use c_syntax_written::{BinaryOp, Punctuator};

/// Where a token stands.
#[derive(Clone, Copy, PartialEq, Eq)]
pub enum Setting {
    /// Outside of functions.
    AtFile,
    /// In a block, but not directly in that of a switch.
    InBlock,
    /// Directly in the block of a switch.
    InSwitch,
}

/// The operators of one rank, which lean to the left (C11 6.5.5 to 6.5.14, and 6.5.17).
#[derive(Clone, Copy, PartialEq, Eq)]
pub enum Level {
    /// `,`
    Commas,
    /// `||`
    Ors,
    /// `&&`
    Ands,
    /// `|`
    BitOrs,
    /// `^`
    BitXors,
    /// `&`
    BitAnds,
    /// `==`, `!=`
    Equalities,
    /// `<`, `>`, `<=`, `>=`
    Relations,
    /// `<<`, `>>`
    Shifts,
    /// `+`, `-`
    Sums,
    /// `*`, `/`, `%`
    Products,
}

/// What may stand between two operands of a rank.
#[derive(Clone, Copy, PartialEq, Eq)]
pub enum Joint {
    /// `a, b`
    Comma,
    /// `a + b`
    Binary(BinaryOp),
}

/// Whose declarator it is.
#[derive(Clone, Copy, PartialEq, Eq)]
pub enum Role {
    /// One that names something: `int *a;`.
    Naming,
    /// One of a member: `struct s { int *a; };`.
    OfMember,
    /// One of a parameter, which may go without a name: `int f(int *);`.
    OfParameter,
    /// One of a type name, which must: `sizeof(int *)`.
    OfTypeName,
}

impl Role {
    /// Whether the declarator may have no name.
    pub fn may_omit(self) -> bool
        ensures { result ≡ may_omit self }
    {
        match self {
            Role::Naming | Role::OfMember => false,
            Role::OfParameter | Role::OfTypeName => true,
        }
    }

    /// Whether the declarator may have a name.
    pub fn may_name(self) -> bool
        ensures { result ≡ may_name self }
    {
        match self {
            Role::Naming | Role::OfMember | Role::OfParameter => true,
            Role::OfTypeName => false,
        }
    }

    /// Whether it is a declarator of a member.
    pub fn is_member(self) -> bool
        ensures { result ≡ in_member self }
    {
        match self {
            Role::OfMember => true,
            Role::Naming | Role::OfParameter | Role::OfTypeName => false,
        }
    }
}

/// What ends an expression or a type name.
#[derive(Clone, Copy, PartialEq, Eq)]
pub enum Closing {
    /// `;`
    BySemicolon,
    /// `)`
    ByParenthesis,
    /// `]`
    ByBracket,
    /// `:`
    ByColon,
}

impl Closing {
    /// How it is written: `Closing::ByColon.sign()` is `Punctuator::Colon`.
    pub fn sign(self) -> Punctuator
        ensures { result ≡ closing_sign self }
    {
        match self {
            Closing::BySemicolon => Punctuator::Semicolon,
            Closing::ByParenthesis => Punctuator::RightParenthesis,
            Closing::ByBracket => Punctuator::RightBracket,
            Closing::ByColon => Punctuator::Colon,
        }
    }
}
