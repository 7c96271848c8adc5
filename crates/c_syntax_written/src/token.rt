// Tokens with their places.

use crate::{Bytes, Name, Pos};
use std::alloc::Global;
use std::marker::Model;

/// The keywords of C11 6.4.1. Any other word is a `Token::Word`.
#[derive(Clone, Copy, PartialEq, Eq)]
pub enum Keyword {
    Auto,
    Break,
    Case,
    Char,
    Const,
    Continue,
    Default,
    Do,
    Double,
    Else,
    Enum,
    Extern,
    Float,
    For,
    Goto,
    If,
    Inline,
    Int,
    Long,
    Register,
    Restrict,
    Return,
    Short,
    Signed,
    Sizeof,
    Static,
    Struct,
    Switch,
    Typedef,
    Union,
    Unsigned,
    Void,
    Volatile,
    While,
    /// `_Alignas`
    AlignAs,
    /// `_Alignof`
    AlignOf,
    /// `_Atomic`
    Atomic,
    /// `_Bool`
    Bool,
    /// `_Complex`
    Complex,
    /// `_Generic`
    Generic,
    /// `_Imaginary`
    Imaginary,
    /// `_Noreturn`
    NoReturn,
    /// `_Static_assert`
    StaticAssert,
    /// `_Thread_local`
    ThreadLocal,
}

/// The punctuators of C11 6.4.6 but `#`, `##` and the digraphs.
#[derive(Clone, Copy, PartialEq, Eq)]
pub enum Punctuator {
    /// `[`
    LeftBracket,
    /// `]`
    RightBracket,
    /// `(`
    LeftParenthesis,
    /// `)`
    RightParenthesis,
    /// `{`
    LeftBrace,
    /// `}`
    RightBrace,
    /// `.`
    Dot,
    /// `->`
    Arrow,
    /// `++`
    Increment,
    /// `--`
    Decrement,
    /// `&`
    Ampersand,
    /// `*`
    Star,
    /// `+`
    Plus,
    /// `-`
    Minus,
    /// `~`
    Tilde,
    /// `!`
    Exclamation,
    /// `/`
    Slash,
    /// `%`
    Percent,
    /// `<<`
    ShiftLeft,
    /// `>>`
    ShiftRight,
    /// `<`
    Less,
    /// `>`
    Greater,
    /// `<=`
    LessEqual,
    /// `>=`
    GreaterEqual,
    /// `==`
    Equal,
    /// `!=`
    NotEqual,
    /// `^`
    Caret,
    /// `|`
    Bar,
    /// `&&`
    And,
    /// `||`
    Or,
    /// `?`
    Question,
    /// `:`
    Colon,
    /// `;`
    Semicolon,
    /// `...`
    Ellipsis,
    /// `=`
    Assign,
    /// `*=`
    MultiplyAssign,
    /// `/=`
    DivideAssign,
    /// `%=`
    RemainderAssign,
    /// `+=`
    AddAssign,
    /// `-=`
    SubtractAssign,
    /// `<<=`
    ShiftLeftAssign,
    /// `>>=`
    ShiftRightAssign,
    /// `&=`
    AndAssign,
    /// `^=`
    XorAssign,
    /// `|=`
    OrAssign,
    /// `,`
    Comma,
}

/// An integer constant (C11 6.4.4.1). `decimal` tells that it is neither octal nor hexadecimal.
/// `unsigned` and `longs`, from 0 to 2, are its suffix.
#[derive(Clone, Copy, PartialEq, Eq)]
pub struct Constant {
    pub value: u64,
    pub decimal: bool,
    pub unsigned: bool,
    pub longs: u8,
}

/// A token of C11 6.4. A character constant has its value as an int, of -128 to 127, and a string
/// literal the bytes between its quotes, with each escape replaced by its value.
#[derive(Drop)]
pub enum Token {
    /// `main`
    Word(Name),
    /// `return`
    Keyword(Keyword),
    /// `10u`
    Number(Constant),
    /// `'a'`, which is 97.
    Character(i32),
    /// `"a\n"`, which is the bytes 97 and 10.
    Text(Bytes),
    /// `+=`
    Punctuator(Punctuator),
}

/// A token and the place of its first byte.
#[derive(Drop)]
pub struct Placed {
    pub pos: Pos,
    pub token: Token,
}

/// The physical line `line` has the presumed line `presumed` in the file `name`. An empty name
/// stands for the file word of the command.
#[derive(Drop)]
pub struct Mark {
    pub line: u32,
    pub presumed: u32,
    pub name: Name,
}

/// Tokens in their order.
#[derive(Drop)]
pub struct PlacedList {
    items: Vec<Placed>,
}

impl Model for PlacedList {
    ghost use Rattle.std.specs.Prelude.{List};
    ghost use Rattle.c_syntax_written.specs.declared.token.Placed.{Placed};

    ghost Value = { List Placed };

    ghost view = { λ l. l.items.items };
}

impl PlacedList {
    ghost use Rattle.std.specs.Prelude.{◌≡◌, []};

    /// The list with nothing in it.
    pub fn new(alloc: Global) -> PlacedList
        ensures { result ≡ [] }
    {
        PlacedList {
            items: Vec::new(alloc),
        }
    }

    /// The list of these items, in a block of their size.
    pub fn from_vec(items: Vec<Placed>) -> PlacedList
        ensures { result ≡ items.items }
    {
        let mut items = items;
        items.shrink_to_fit();
        PlacedList { items }
    }

    /// The items, given back without taking memory.
    pub fn into_vec(self) -> Vec<Placed>
        ensures { result.items ≡ self }
    {
        let PlacedList { items } = self;
        items
    }

    /// The tokens, in their order.
    pub fn as_slice(&self) -> &[Placed]
        ensures { result.now ≡ self.now }
    {
        self.items.as_slice()
    }
}

/// Line marks in their order.
#[derive(Drop)]
pub struct Marks {
    items: Vec<Mark>,
}

impl Model for Marks {
    ghost use Rattle.std.specs.Prelude.{List};
    ghost use Rattle.c_syntax_written.specs.declared.token.Mark.{Mark};

    ghost Value = { List Mark };

    ghost view = { λ l. l.items.items };
}

impl Marks {
    ghost use Rattle.std.specs.Prelude.{◌≡◌, []};

    /// The list with nothing in it.
    pub fn new(alloc: Global) -> Marks
        ensures { result ≡ [] }
    {
        Marks {
            items: Vec::new(alloc),
        }
    }

    /// The list of these items.
    pub fn from_vec(items: Vec<Mark>) -> Marks
        ensures { result ≡ items.items }
    {
        Marks { items }
    }

    /// The items, given back without taking memory.
    pub fn into_vec(self) -> Vec<Mark>
        ensures { result.items ≡ self }
    {
        let Marks { items } = self;
        items
    }

    /// The marks, in their order.
    pub fn as_slice(&self) -> &[Mark]
        ensures { result.now ≡ self.now }
    {
        self.items.as_slice()
    }
}

/// What a text is cut into. `end` is the place after its last byte.
#[derive(Drop)]
pub struct Tokens {
    pub list: PlacedList,
    pub marks: Marks,
    pub end: Pos,
}
