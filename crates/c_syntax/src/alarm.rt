// What may go wrong, and what an alarm says of it.

use crate::{Numbers, Places, Pos};
use std::alloc::Global;
use std::marker::Model;

/// The causes of undefined behaviour, in the order of their numbers, from 1.
#[derive(Clone, Copy, Debug, PartialEq, Eq)]
pub enum WrongKind {
    /// `INT_MAX + 1`
    Overflow,
    /// `a / 0`
    DivideByZero,
    /// `INT_MIN / -1`
    Quotient,
    /// `a << 32`, where `a` is an int.
    ShiftAmount,
    /// `-1 << 1`, `1 << 31`
    ShiftResult,
    /// A load of bytes that have no value.
    Indeterminate,
    /// A load of bytes that are no value of its type, as half of a pointer.
    Fragment,
    /// `*p`, where `p` is null.
    NullUse,
    /// `*p`, where what `p` points to has ended.
    Dangling,
    /// `a + 5`, where `a` has three elements.
    Bounds,
    /// `a[3]`, where `a` has three elements.
    Access,
    /// A load of an int at an odd address.
    Alignment,
    /// A store to a string literal or a const object.
    ReadOnly,
    /// `p < q`, where they point to two objects.
    Unrelated,
    /// A use of the value of a call that returned none.
    NoValue,
    /// An assertion whose operand is 0.
    AssertFailed,
}

/// What is checked. `lo` and `hi` are the ends of the allowed numbers for Overflow, Quotient,
/// ShiftAmount and ShiftResult. For Access and Alignment `size` is the number of bytes of the
/// access and `align` its alignment. For Unrelated `size` is the size of an element for a
/// difference, 1 for an order and 0 for an equality. A field that a kind does not use is 0.
#[derive(Clone, Copy, PartialEq, Eq)]
pub struct Check {
    pub kind: WrongKind,
    pub lo: i128,
    pub hi: i128,
    pub size: u64,
    pub align: u64,
}

/// The pointers that may be there: those to the objects `names`, null and dead ones, or any.
/// Offsets lie between `lo` and `hi`, where these are there, and are `rem` modulo `modulus`.
#[derive(Drop)]
pub struct Pointers {
    pub any: bool,
    pub null: bool,
    pub dead: bool,
    pub names: Numbers,
    pub lo: Option<i128>,
    pub hi: Option<i128>,
    pub modulus: i128,
    pub rem: i128,
}

/// The operands that an alarm shows. A modulus of 1 says nothing, and under a modulus of 0 the
/// number is `rem`.
#[derive(Drop)]
pub enum Shown {
    /// A whole number.
    Number {
        lo: Option<i128>,
        hi: Option<i128>,
        modulus: i128,
        rem: i128,
    },
    /// One pointer.
    One(Pointers),
    /// The two pointers of a comparison or a difference.
    Pair(Pointers, Pointers),
    /// What a load may have met: no value, a value, or neither.
    Marks {
        undef: bool,
        value: bool,
        broken: bool,
    },
    /// How a call may have ended: with a value, or without.
    Ends {
        value: bool,
        none: bool,
    },
}

/// Where a pointer may point: nowhere, to an object that has ended, or to an offset in bytes of
/// an object.
#[derive(Clone, Copy, Debug, PartialEq, Eq)]
pub enum Spot {
    /// The null pointer.
    Null,
    /// Into an object that has ended.
    Dead,
    /// `&a[1]`, as the number of `a` and 4.
    At(u64, i128),
}

/// An operand that fails the check of an alarm.
#[derive(Clone, Copy, Debug, PartialEq, Eq)]
pub enum Example {
    /// `2147483648`, of an overflow.
    Number(i128),
    /// The pointer of an access.
    Point(Spot),
    /// The two pointers of a comparison or a difference.
    Points(Spot, Spot),
    /// A byte without a value.
    Undef,
    /// Bytes that are no value of the type.
    Broken,
    /// A call that returned no value.
    Nothing,
}

/// Bytes of an object that are read as one scalar.
#[derive(Clone, Copy, PartialEq, Eq)]
pub struct Cell {
    pub object: u64,
    pub offset: u64,
    pub size: u64,
}

/// What is known where an alarm is raised. In an AtMost `sx` and `sy` are 1 or -1.
#[derive(Drop)]
pub enum Fact {
    /// `lo <= x <= hi`
    Between {
        x: Cell,
        lo: i128,
        hi: i128,
    },
    /// `x` is `rem` modulo `modulus`.
    Class {
        x: Cell,
        rem: i128,
        modulus: i128,
    },
    /// `sx * x + sy * y <= bound`
    AtMost {
        sx: i8,
        x: Cell,
        sy: i8,
        y: Cell,
        bound: i128,
    },
    /// The pointer `x` is one of a set.
    PointsTo {
        x: Cell,
        set: Pointers,
    },
}

/// A check that may fail. `chain` has the places of the calls that lead there from main,
/// outermost first.
#[derive(Drop)]
pub struct Alarm {
    pub chain: Places,
    pub pos: Pos,
    pub kind: WrongKind,
    pub check: Check,
    pub shown: Shown,
    pub example: Example,
    pub facts: Facts,
}

/// Facts in their order.
#[derive(Drop)]
pub struct Facts {
    items: Vec<Fact>,
}

impl Model for Facts {
    ghost use Rattle.std.specs.Prelude.{List};
    ghost use Rattle.c_syntax.specs.declared.alarm.Fact.{Fact};

    ghost Value = { List Fact };

    ghost view = { λ l. l.items.items };
}

impl Facts {
    ghost use Rattle.std.specs.Prelude.{◌≡◌, []};

    /// The list with nothing in it.
    pub fn new(alloc: Global) -> Facts
        ensures { result ≡ [] }
    {
        Facts {
            items: Vec::new(alloc),
        }
    }

    /// The list of these items.
    pub fn from_vec(items: Vec<Fact>) -> Facts
        ensures { result ≡ items.items }
    {
        Facts { items }
    }

    /// The items, given back without taking memory.
    pub fn into_vec(self) -> Vec<Fact>
        ensures { result.items ≡ self }
    {
        let Facts { items } = self;
        items
    }

    /// The facts, in their order.
    pub fn as_slice(&self) -> &[Fact]
        ensures { result.now ≡ self.now }
    {
        self.items.as_slice()
    }
}

/// Alarms in their order.
#[derive(Drop)]
pub struct Alarms {
    items: Vec<Alarm>,
}

impl Model for Alarms {
    ghost use Rattle.std.specs.Prelude.{List};
    ghost use Rattle.c_syntax.specs.declared.alarm.Alarm.{Alarm};

    ghost Value = { List Alarm };

    ghost view = { λ l. l.items.items };
}

impl Alarms {
    ghost use Rattle.std.specs.Prelude.{◌≡◌, []};

    /// The list with nothing in it.
    pub fn new(alloc: Global) -> Alarms
        ensures { result ≡ [] }
    {
        Alarms {
            items: Vec::new(alloc),
        }
    }

    /// The list of these items.
    pub fn from_vec(items: Vec<Alarm>) -> Alarms
        ensures { result ≡ items.items }
    {
        Alarms { items }
    }

    /// The items, given back without taking memory.
    pub fn into_vec(self) -> Vec<Alarm>
        ensures { result.items ≡ self }
    {
        let Alarms { items } = self;
        items
    }

    /// The alarms, in their order.
    pub fn as_slice(&self) -> &[Alarm]
        ensures { result.now ≡ self.now }
    {
        self.items.as_slice()
    }
}
