// Expressions, types and declarators as they are written. A declarator may hold expressions, and an
// expression types, so all of these hold each other.
#![tactic(auto, using(crate::proofs::Trees::the_written_trees))]

ghost use Rattle.std.specs.Prelude.{◌≡◌};
ghost use Rattle.c_syntax_written.specs.Written.{expr_tree, spec_tree, declarators_from, declarators_tree, enumerators_from, enumerators_tree, exprs_from, exprs_tree, memberdecls_from, memberdecls_tree, no_exprs, no_params, params_from, params_tree, specs_from, specs_tree};
ghost use Rattle.c_syntax_written.specs.WrittenParts.{expr_pos, as_word, spec_pos};

use crate::{Bytes, Constant, Name, Pos, StepWay};
use std::alloc::Global;

/// An operator that stands before its operand.
#[derive(Clone, Copy, Debug, PartialEq, Eq)]
pub enum UnaryOp {
    AddressOf,
    Deref,
    Plus,
    Minus,
    Complement,
    Not,
}

/// An operator that stands between its operands.
#[derive(Clone, Copy, Debug, PartialEq, Eq)]
pub enum BinaryOp {
    Multiply,
    Divide,
    Remainder,
    Plus,
    Minus,
    ShiftLeft,
    ShiftRight,
    Less,
    Greater,
    AtMost,
    AtLeast,
    Equal,
    Unequal,
    BitAnd,
    BitXor,
    BitOr,
    And,
    Or,
}

/// The operator of an `op=`.
#[derive(Clone, Copy, Debug, PartialEq, Eq)]
pub enum AssignOp {
    Multiply,
    Divide,
    Remainder,
    Plus,
    Minus,
    ShiftLeft,
    ShiftRight,
    BitAnd,
    BitXor,
    BitOr,
}

/// A word of C11 6.7.1 that tells how an object or a function is kept.
#[derive(Clone, Copy, Debug, PartialEq, Eq)]
pub enum StorageWord {
    Typedef,
    Extern,
    Static,
    Auto,
    Register,
}

/// A word of C11 6.7.2 that is a type or a part of one.
#[derive(Clone, Copy, Debug, PartialEq, Eq)]
pub enum TypeWord {
    Void,
    Char,
    Short,
    Int,
    Long,
    Signed,
    Unsigned,
}

/// The tag of a struct or an enumeration, and its place.
#[derive(Drop)]
pub struct Tag {
    pub pos: Pos,
    pub name: Name,
}

/// An expression.
#[cycle(written)]
pub enum Expr {
    Word {
        pos: Pos,
        name: Name,
    },
    Number {
        pos: Pos,
        constant: Constant,
    },
    /// A character constant, by its byte.
    Character {
        pos: Pos,
        byte: u8,
    },
    /// String literals that stand next to each other, by their bytes without the closing zero.
    Strings {
        pos: Pos,
        bytes: Bytes,
    },
    /// An expression between parentheses.
    Enclosed {
        pos: Pos,
        inner: Box<Expr>,
    },
    Index {
        pos: Pos,
        base: Box<Expr>,
        index: Box<Expr>,
    },
    /// A call of a word, whose place is that of the call.
    Call {
        pos: Pos,
        name: Box<Name>,
        args: Box<Exprs>,
    },
    Dot {
        pos: Pos,
        base: Box<Expr>,
        member: Box<Name>,
    },
    Arrow {
        pos: Pos,
        base: Box<Expr>,
        member: Box<Name>,
    },
    /// `++` or `--` after its operand.
    PostStep {
        pos: Pos,
        way: StepWay,
        operand: Box<Expr>,
    },
    /// `++` or `--` before its operand.
    PreStep {
        pos: Pos,
        way: StepWay,
        operand: Box<Expr>,
    },
    Unary {
        pos: Pos,
        op: UnaryOp,
        operand: Box<Expr>,
    },
    SizeofExpr {
        pos: Pos,
        operand: Box<Expr>,
    },
    SizeofType {
        pos: Pos,
        specs: Box<Specs>,
        declarator: Box<Declarator>,
    },
    /// The place is that of the opening parenthesis.
    Cast {
        pos: Pos,
        specs: Box<Specs>,
        declarator: Box<Declarator>,
        operand: Box<Expr>,
    },
    Binary {
        pos: Pos,
        op: BinaryOp,
        left: Box<Expr>,
        right: Box<Expr>,
    },
    Cond {
        pos: Pos,
        condition: Box<Expr>,
        then: Box<Expr>,
        otherwise: Box<Expr>,
    },
    Assign {
        pos: Pos,
        left: Box<Expr>,
        right: Box<Expr>,
    },
    Compound {
        pos: Pos,
        op: AssignOp,
        left: Box<Expr>,
        right: Box<Expr>,
    },
    Comma {
        pos: Pos,
        left: Box<Expr>,
        right: Box<Expr>,
    },
}

/// One of the words and types that begin a declaration.
#[cycle(written)]
pub enum Spec {
    Storage {
        pos: Pos,
        word: StorageWord,
    },
    Const {
        pos: Pos,
    },
    Basic {
        pos: Pos,
        word: TypeWord,
    },
    TypedefName {
        pos: Pos,
        name: Name,
    },
    Struct {
        pos: Pos,
        tag: Tag,
    },
    StructBody {
        pos: Pos,
        tag: Option<Tag>,
        members: MemberDecls,
    },
    Enum {
        pos: Pos,
        tag: Tag,
    },
    EnumBody {
        pos: Pos,
        tag: Option<Tag>,
        enumerators: Enumerators,
    },
}

/// Members of a struct that are declared together. The place is that of the first of their specs.
#[cycle(written)]
#[derive(Drop)]
pub enum MemberDecl {
    Members {
        pos: Pos,
        specs: Specs,
        declarators: Declarators,
    },
}

/// An enumeration constant, with its value or without.
#[cycle(written)]
#[derive(Drop)]
pub enum Enumerator {
    Plain {
        pos: Pos,
        name: Name,
    },
    Valued {
        pos: Pos,
        name: Name,
        value: Box<Expr>,
    },
}

/// A declarator, or an abstract one, which has no word in it.
#[cycle(written)]
pub enum Declarator {
    /// An abstract declarator of no tokens.
    Absent,
    Name {
        pos: Pos,
        name: Name,
    },
    /// A declarator between parentheses.
    Grouped {
        pos: Pos,
        inner: Box<Declarator>,
    },
    /// `*`, which may be followed by `const`.
    Pointer {
        pos: Pos,
        is_const: bool,
        inner: Box<Declarator>,
    },
    Array {
        pos: Pos,
        inner: Box<Declarator>,
        size: Box<Expr>,
    },
    /// Brackets with nothing between them.
    OpenArray {
        pos: Pos,
        inner: Box<Declarator>,
    },
    /// Parameters, or nothing, between parentheses.
    Function {
        pos: Pos,
        inner: Box<Declarator>,
        params: Params,
    },
    /// `(void)`.
    VoidFunction {
        pos: Pos,
        inner: Box<Declarator>,
    },
}

// Letting go of a node is a call of this crate, so that the crates above need not prove again that it ends: it goes as
// deep as the nesting, and along a chain of declarators by a loop.
impl Drop for Expr {
    #[cycle(written)]
    fn drop(self) {
        match self {
            Expr::Word {
                pos: _,
                name: _name,
            } => {}
            Expr::Number {
                pos: _,
                constant: _,
            } => {}
            Expr::Character { pos: _, byte: _ } => {}
            Expr::Strings {
                pos: _,
                bytes: _bytes,
            } => {}
            Expr::Enclosed {
                pos: _,
                inner: _inner,
            } => {}
            Expr::Index {
                pos: _,
                base: _base,
                index: _index,
            } => {}
            Expr::Call {
                pos: _,
                name: _name,
                args: _args,
            } => {}
            Expr::Dot {
                pos: _,
                base: _base,
                member: _member,
            } => {}
            Expr::Arrow {
                pos: _,
                base: _base,
                member: _member,
            } => {}
            Expr::PostStep {
                pos: _,
                way: _,
                operand: _operand,
            } => {}
            Expr::PreStep {
                pos: _,
                way: _,
                operand: _operand,
            } => {}
            Expr::Unary {
                pos: _,
                op: _,
                operand: _operand,
            } => {}
            Expr::SizeofExpr {
                pos: _,
                operand: _operand,
            } => {}
            Expr::SizeofType {
                pos: _,
                specs: _specs,
                declarator: _declarator,
            } => {}
            Expr::Cast {
                pos: _,
                specs: _specs,
                declarator: _declarator,
                operand: _operand,
            } => {}
            Expr::Binary {
                pos: _,
                op: _,
                left: _left,
                right: _right,
            } => {}
            Expr::Cond {
                pos: _,
                condition: _condition,
                then: _then,
                otherwise: _otherwise,
            } => {}
            Expr::Assign {
                pos: _,
                left: _left,
                right: _right,
            } => {}
            Expr::Compound {
                pos: _,
                op: _,
                left: _left,
                right: _right,
            } => {}
            Expr::Comma {
                pos: _,
                left: _left,
                right: _right,
            } => {}
        }
    }
}

impl Drop for Spec {
    #[cycle(written)]
    fn drop(self) {
        match self {
            Spec::Storage { pos: _, word: _ } => {}
            Spec::Const { pos: _ } => {}
            Spec::Basic { pos: _, word: _ } => {}
            Spec::TypedefName {
                pos: _,
                name: _name,
            } => {}
            Spec::Struct { pos: _, tag: _tag } => {}
            Spec::StructBody {
                pos: _,
                tag: _tag,
                members: _members,
            } => {}
            Spec::Enum { pos: _, tag: _tag } => {}
            Spec::EnumBody {
                pos: _,
                tag: _tag,
                enumerators: _enumerators,
            } => {}
        }
    }
}

// By a loop over the declarator inside, so that a long chain of forms takes no stack. What else a form holds,
// as the size of an array, is bounded by the nesting.
impl Drop for Declarator {
    #[cycle(written)]
    fn drop(mut self) {
        loop {
            match self {
                Declarator::Absent => return,
                Declarator::Name {
                    pos: _,
                    name: _name,
                } => return,
                Declarator::Grouped { pos: _, inner } => self = Box::into_inner(inner),
                Declarator::Pointer {
                    pos: _,
                    is_const: _,
                    inner,
                } => self = Box::into_inner(inner),
                Declarator::Array {
                    pos: _,
                    inner,
                    size: _size,
                } => self = Box::into_inner(inner),
                Declarator::OpenArray { pos: _, inner } => self = Box::into_inner(inner),
                Declarator::Function {
                    pos: _,
                    inner,
                    params: _params,
                } => self = Box::into_inner(inner),
                Declarator::VoidFunction { pos: _, inner } => self = Box::into_inner(inner),
            }
        }
    }
}

/// A parameter, with a name or without. The place is that of the first of its specs.
#[cycle(written)]
#[derive(Drop)]
pub enum Param {
    Named {
        pos: Pos,
        specs: Specs,
        declarator: Declarator,
    },
    Abstract {
        pos: Pos,
        specs: Specs,
        declarator: Declarator,
    },
}

/// Expressions in their order, as the arguments of a call.
#[cycle(written)]
#[derive(Drop)]
pub struct Exprs {
    items: Vec<Expr>,
}

/// The specs of a declaration in their order.
#[cycle(written)]
#[derive(Drop)]
pub struct Specs {
    items: Vec<Spec>,
}

/// The members of a struct, line by line.
#[cycle(written)]
#[derive(Drop)]
pub struct MemberDecls {
    items: Vec<MemberDecl>,
}

/// The constants of an enumeration.
#[cycle(written)]
#[derive(Drop)]
pub struct Enumerators {
    items: Vec<Enumerator>,
}

/// Declarators in their order.
#[cycle(written)]
#[derive(Drop)]
pub struct Declarators {
    items: Vec<Declarator>,
}

/// Parameters in their order.
#[cycle(written)]
#[derive(Drop)]
pub struct Params {
    items: Vec<Param>,
}

impl Expr {
    /// The place of the node.
    pub fn pos(&self) -> Pos
        ensures { result ≡ expr_pos (expr_tree self.now) }
    {
        match self {
            Expr::Word { pos, .. }
            | Expr::Number { pos, .. }
            | Expr::Character { pos, .. }
            | Expr::Strings { pos, .. }
            | Expr::Enclosed { pos, .. }
            | Expr::Index { pos, .. }
            | Expr::Call { pos, .. }
            | Expr::Dot { pos, .. }
            | Expr::Arrow { pos, .. }
            | Expr::PostStep { pos, .. }
            | Expr::PreStep { pos, .. }
            | Expr::Unary { pos, .. }
            | Expr::SizeofExpr { pos, .. }
            | Expr::SizeofType { pos, .. }
            | Expr::Cast { pos, .. }
            | Expr::Binary { pos, .. }
            | Expr::Cond { pos, .. }
            | Expr::Assign { pos, .. }
            | Expr::Compound { pos, .. }
            | Expr::Comma { pos, .. } => *pos,
        }
    }
}

impl Expr {
    /// The place and the name of a word, and nothing of another expression: `a` gives `a`, `(a)` nothing.
    pub fn into_word(self) -> Option<(Pos, Name)>
        ensures { result ≡ as_word (expr_tree self) }
    {
        match self {
            Expr::Word { pos, name } => Some((pos, name)),
            _ => None,
        }
    }
}

impl Spec {
    /// The place of the node.
    pub fn pos(&self) -> Pos
        ensures { result ≡ spec_pos (spec_tree self.now) }
    {
        match self {
            Spec::Storage { pos, .. }
            | Spec::Const { pos, .. }
            | Spec::Basic { pos, .. }
            | Spec::TypedefName { pos, .. }
            | Spec::Struct { pos, .. }
            | Spec::StructBody { pos, .. }
            | Spec::Enum { pos, .. }
            | Spec::EnumBody { pos, .. } => *pos,
        }
    }
}

impl Exprs {
    /// The list with nothing in it.
    pub fn new(alloc: Global) -> Exprs
        ensures { exprs_tree result ≡ no_exprs }
    {
        Exprs {
            items: Vec::new(alloc),
        }
    }

    /// The list of these items, in a block of their size.
    pub fn from_vec(items: Vec<Expr>) -> Exprs
        ensures { exprs_tree result ≡ exprs_from items.items }
    {
        let mut items = items;
        items.shrink_to_fit();
        Exprs { items }
    }

    /// The items, given back without taking memory.
    pub fn into_vec(self) -> Vec<Expr>
        ensures { exprs_from result.items ≡ exprs_tree self }
    {
        let Exprs { items } = self;
        items
    }

    /// The expressions, in their order.
    pub fn as_slice(&self) -> &[Expr]
        ensures { exprs_from result.now ≡ exprs_tree self.now }
    {
        self.items.as_slice()
    }
}

impl Specs {
    /// The list of these items, in a block of their size.
    pub fn from_vec(items: Vec<Spec>) -> Specs
        ensures { specs_tree result ≡ specs_from items.items }
    {
        let mut items = items;
        items.shrink_to_fit();
        Specs { items }
    }

    /// The items, given back without taking memory.
    pub fn into_vec(self) -> Vec<Spec>
        ensures { specs_from result.items ≡ specs_tree self }
    {
        let Specs { items } = self;
        items
    }

    /// The specs, in their order.
    pub fn as_slice(&self) -> &[Spec]
        ensures { specs_from result.now ≡ specs_tree self.now }
    {
        self.items.as_slice()
    }
}

impl MemberDecls {
    /// The list of these items, in a block of their size.
    pub fn from_vec(items: Vec<MemberDecl>) -> MemberDecls
        ensures { memberdecls_tree result ≡ memberdecls_from items.items }
    {
        let mut items = items;
        items.shrink_to_fit();
        MemberDecls { items }
    }

    /// The items, given back without taking memory.
    pub fn into_vec(self) -> Vec<MemberDecl>
        ensures { memberdecls_from result.items ≡ memberdecls_tree self }
    {
        let MemberDecls { items } = self;
        items
    }

    /// The lines of members, in their order.
    pub fn as_slice(&self) -> &[MemberDecl]
        ensures { memberdecls_from result.now ≡ memberdecls_tree self.now }
    {
        self.items.as_slice()
    }
}

impl Enumerators {
    /// The list of these items, in a block of their size.
    pub fn from_vec(items: Vec<Enumerator>) -> Enumerators
        ensures { enumerators_tree result ≡ enumerators_from items.items }
    {
        let mut items = items;
        items.shrink_to_fit();
        Enumerators { items }
    }

    /// The items, given back without taking memory.
    pub fn into_vec(self) -> Vec<Enumerator>
        ensures { enumerators_from result.items ≡ enumerators_tree self }
    {
        let Enumerators { items } = self;
        items
    }

    /// The constants, in their order.
    pub fn as_slice(&self) -> &[Enumerator]
        ensures { enumerators_from result.now ≡ enumerators_tree self.now }
    {
        self.items.as_slice()
    }
}

impl Declarators {
    /// The list of these items, in a block of their size.
    pub fn from_vec(items: Vec<Declarator>) -> Declarators
        ensures { declarators_tree result ≡ declarators_from items.items }
    {
        let mut items = items;
        items.shrink_to_fit();
        Declarators { items }
    }

    /// The items, given back without taking memory.
    pub fn into_vec(self) -> Vec<Declarator>
        ensures { declarators_from result.items ≡ declarators_tree self }
    {
        let Declarators { items } = self;
        items
    }

    /// The declarators, in their order.
    pub fn as_slice(&self) -> &[Declarator]
        ensures { declarators_from result.now ≡ declarators_tree self.now }
    {
        self.items.as_slice()
    }
}

impl Params {
    /// The list with nothing in it.
    pub fn new(alloc: Global) -> Params
        ensures { params_tree result ≡ no_params }
    {
        Params {
            items: Vec::new(alloc),
        }
    }

    /// The list of these items, in a block of their size.
    pub fn from_vec(items: Vec<Param>) -> Params
        ensures { params_tree result ≡ params_from items.items }
    {
        let mut items = items;
        items.shrink_to_fit();
        Params { items }
    }

    /// The items, given back without taking memory.
    pub fn into_vec(self) -> Vec<Param>
        ensures { params_from result.items ≡ params_tree self }
    {
        let Params { items } = self;
        items
    }

    /// The parameters, in their order.
    pub fn as_slice(&self) -> &[Param]
        ensures { params_from result.now ≡ params_tree self.now }
    {
        self.items.as_slice()
    }
}
