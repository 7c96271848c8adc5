ghost use Rattle.std.specs.Prelude.{◌≡◌, ◌<◌, length};

use block_mem::*;
use c_syntax::{IntType, WrongKind};
use std::alloc::AllocError as NoMemory;
use std::process::Abort;

const INT: Scalar = Scalar::Int(IntType::Int);

const CHAR: Scalar = Scalar::Int(IntType::Char);

/// What a load gives.
type Loaded = Result<Value, WrongKind>;

fn loads(rt: &impl Abort, memory: &Memory, at: Pointer, ty: Scalar, want: Loaded) {
    assert!(rt; at.block < memory.count());
    assert_eq!(rt; memory.load(at, ty), want, "at {}", at.offset);
}

// 0x01020304 is the bytes 4, 3, 2, 1, and 0xff is -1 as a char.
static NUMBERS: [(i64, IntType, Loaded); 13] = [
    (8, IntType::Char, Ok(Value::Int(IntType::Char, -1))),
    (8, IntType::UChar, Ok(Value::Int(IntType::UChar, 255))),
    (9, IntType::SChar, Ok(Value::Int(IntType::SChar, 3))),
    (10, IntType::Char, Ok(Value::Int(IntType::Char, 2))),
    (11, IntType::Char, Ok(Value::Int(IntType::Char, 1))),
    (8, IntType::Short, Ok(Value::Int(IntType::Short, 1023))),
    (10, IntType::UShort, Ok(Value::Int(IntType::UShort, 258))),
    (8, IntType::UInt, Ok(Value::Int(IntType::UInt, 16_909_311))),
    (8, IntType::Long, Err(WrongKind::Indeterminate)),
    (12, IntType::Char, Err(WrongKind::Indeterminate)),
    (9, IntType::Short, Err(WrongKind::Alignment)),
    (16, IntType::Char, Err(WrongKind::Access)),
    (-4, IntType::Int, Err(WrongKind::Access)),
];

#[test]
fn reads_a_number_by_its_bytes(rt: HostRuntime) -> Result<(), NoMemory> {
    let mut memory = Memory::new(rt.alloc());
    let block = memory.alloc_block(16, false)?;
    let at = Pointer { block, offset: 8 };
    let stored = memory.store(at, INT, Value::Int(IntType::Int, 0x0102_03ff));
    assert!(rt; stored.is_ok());
    for (offset, ty, want) in &NUMBERS {
        let at = Pointer {
            block,
            offset: *offset,
        };
        loads(&rt, &memory, at, Scalar::Int(*ty), *want);
    }
    Ok(())
}

#[test]
fn a_copy_of_memory_loads_the_same(rt: HostRuntime) -> Result<(), NoMemory> {
    let mut memory = Memory::new(rt.alloc());
    let block = memory.alloc_block(4, false)?;
    let at = Pointer { block, offset: 0 };
    let stored = memory.store(at, INT, Value::Int(IntType::Int, 7));
    assert!(rt; stored.is_ok());
    let copy = memory.try_clone()?;
    loads(&rt, &copy, at, INT, Ok(Value::Int(IntType::Int, 7)));
    Ok(())
}

// An access: its offset, size and alignment, and whether it writes; and what is wrong with it.
type Row = (i64, u64, u64, bool, Option<WrongKind>);

fn is_as_told(memory: &Memory, block: u64, rows: &[Row]) -> bool
    requires { block < length memory.now }
{
    for (offset, size, align, write, kind) in rows {
        let at = Pointer {
            block,
            offset: *offset,
        };
        if memory.access(at, *size, *align, *write).err() != *kind {
            return false;
        }
    }
    true
}

static OF_A_LIVE_BLOCK: [Row; 8] = [
    (0, 16, 8, true, None),
    (16, 0, 16, true, None),
    (16, 1, 1, false, Some(WrongKind::Access)),
    (0, 17, 1, false, Some(WrongKind::Access)),
    (-1, 1, 1, false, Some(WrongKind::Access)),
    (8, u64::MAX, 1, false, Some(WrongKind::Access)),
    (13, 4, 4, false, Some(WrongKind::Access)),
    (10, 4, 4, false, Some(WrongKind::Alignment)),
];

static OF_A_FIXED_BLOCK: [Row; 3] = [
    (4, 4, 4, false, None),
    (4, 4, 4, true, Some(WrongKind::ReadOnly)),
    (2, 4, 4, true, Some(WrongKind::Alignment)),
];

static OF_A_DEAD_BLOCK: [Row; 2] = [
    (0, 4, 4, false, Some(WrongKind::Dangling)),
    (-1, 99, 3, true, Some(WrongKind::Dangling)),
];

#[test]
fn refuses_accesses_in_order(rt: HostRuntime) -> Result<(), NoMemory> {
    let mut memory = Memory::new(rt.alloc());
    let live = memory.alloc_block(16, false)?;
    assert!(rt; is_as_told(&memory, live, &OF_A_LIVE_BLOCK));
    let fixed = memory.alloc_block(16, true)?;
    assert!(rt; is_as_told(&memory, fixed, &OF_A_FIXED_BLOCK));
    memory.free_block(fixed);
    assert!(rt; is_as_told(&memory, fixed, &OF_A_DEAD_BLOCK));
    Ok(())
}

/// A step with memory.
#[derive(Clone, Copy)]
enum Step {
    /// A pointer to bytes before the first block is stored.
    Aim(Pointer),
    /// The null pointer is stored.
    Null(Pointer),
    /// A char is stored.
    Char(Pointer, i8),
    /// The last piece of another pointer is put in.
    Piece(Pointer),
    /// So many bytes are copied, to one place from another.
    Copy(Pointer, Pointer, u64),
    /// A scalar is loaded, which gives this.
    Load(Pointer, Scalar, Loaded),
}

fn follow(rt: &impl Abort, memory: &mut Memory, step: Step) {
    match step {
        Step::Aim(at) => aim(rt, memory, at),
        Step::Null(at) => null(rt, memory, at),
        Step::Char(at, n) => char_at(rt, memory, at, n),
        Step::Piece(at) => piece(rt, memory, at),
        Step::Copy(to, from, size) => copies(rt, memory, to, from, size),
        Step::Load(at, ty, want) => loads(rt, memory, at, ty, want),
    }
}

fn aim(rt: &impl Abort, memory: &mut Memory, at: Pointer) {
    assert!(rt; at.block < memory.count());
    assert!(rt;
        memory
            .store(at, Scalar::Pointer, Value::Ptr(BEFORE))
            .is_ok()
    );
}

fn null(rt: &impl Abort, memory: &mut Memory, at: Pointer) {
    assert!(rt; at.block < memory.count());
    assert!(rt; memory.store(at, Scalar::Pointer, Value::Null).is_ok());
}

fn char_at(rt: &impl Abort, memory: &mut Memory, at: Pointer, n: i8) {
    assert!(rt; at.block < memory.count());
    let value = Value::Int(IntType::Char, n as i128);
    assert!(rt; memory.store(at, CHAR, value).is_ok());
}

// Puts in a byte, where there is one.
fn piece(rt: &impl Abort, memory: &mut Memory, at: Pointer) {
    assert!(rt; at.block < memory.count());
    assert!(rt; memory.access(at, 1, 1, false).is_ok());
    memory.set_byte(at, Byte::Frag(OTHER, 7));
}

// Copies, where both ranges are inside their blocks.
fn copies(rt: &impl Abort, memory: &mut Memory, to: Pointer, from: Pointer, size: u64) {
    assert!(rt; to.block < memory.count() && from.block < memory.count());
    assert!(rt; memory.access(to, size, 1, false).is_ok());
    assert!(rt; memory.access(from, size, 1, false).is_ok());
    memory.copy(to, from, size);
}

// Places in the first block, and the second one.

const BEFORE: Pointer = Pointer {
    block: 0,
    offset: -3,
};

const FRONT: Pointer = Pointer {
    block: 0,
    offset: 0,
};

const OTHER: Pointer = Pointer {
    block: 0,
    offset: 3,
};

const AT: Pointer = Pointer {
    block: 0,
    offset: 8,
};

const PART: Pointer = Pointer {
    block: 0,
    offset: 11,
};

const ODD: Pointer = Pointer {
    block: 0,
    offset: 12,
};

const LAST: Pointer = Pointer {
    block: 0,
    offset: 15,
};

const BEHIND: Pointer = Pointer {
    block: 0,
    offset: 16,
};

const TARGET: Pointer = Pointer {
    block: 1,
    offset: 0,
};

static CUTS: [Step; 13] = [
    Step::Aim(AT),
    Step::Load(AT, Scalar::Pointer, Ok(Value::Ptr(BEFORE))),
    Step::Load(AT, INT, Err(WrongKind::Fragment)),
    Step::Char(PART, -2),
    Step::Load(PART, CHAR, Ok(Value::Int(IntType::Char, -2))),
    Step::Load(AT, Scalar::Pointer, Err(WrongKind::Indeterminate)),
    Step::Load(LAST, CHAR, Err(WrongKind::Indeterminate)),
    Step::Aim(AT),
    Step::Piece(LAST),
    Step::Load(AT, Scalar::Pointer, Err(WrongKind::Fragment)),
    Step::Null(AT),
    Step::Load(AT, Scalar::Pointer, Ok(Value::Null)),
    Step::Load(AT, INT, Ok(Value::Int(IntType::Int, 0))),
];

#[test]
fn cuts_pointers(rt: HostRuntime) -> Result<(), NoMemory> {
    let mut memory = Memory::new(rt.alloc());
    assert_eq!(rt; memory.alloc_block(32, false)?, 0);
    for step in &CUTS {
        follow(&rt, &mut memory, *step);
    }
    Ok(())
}

static COPIES: [Step; 14] = [
    Step::Aim(AT),
    Step::Copy(TARGET, AT, 8),
    Step::Load(TARGET, Scalar::Pointer, Ok(Value::Ptr(BEFORE))),
    Step::Copy(TARGET, AT, 4),
    Step::Load(TARGET, Scalar::Pointer, Err(WrongKind::Indeterminate)),
    // Up by 8 bytes of 16, and down again: the ranges overlap.
    Step::Copy(AT, FRONT, 16),
    Step::Load(BEHIND, Scalar::Pointer, Ok(Value::Ptr(BEFORE))),
    Step::Load(AT, Scalar::Pointer, Err(WrongKind::Indeterminate)),
    Step::Copy(FRONT, AT, 16),
    Step::Load(AT, Scalar::Pointer, Ok(Value::Ptr(BEFORE))),
    // To a place that is no multiple of 8, over the pointer's own front.
    Step::Copy(ODD, AT, 8),
    Step::Load(AT, CHAR, Err(WrongKind::Indeterminate)),
    Step::Copy(AT, ODD, 8),
    Step::Load(AT, Scalar::Pointer, Ok(Value::Ptr(BEFORE))),
];

#[test]
fn copies_pointers(rt: HostRuntime) -> Result<(), NoMemory> {
    let mut memory = Memory::new(rt.alloc());
    assert_eq!(rt; memory.alloc_block(32, false)?, 0);
    assert_eq!(rt; memory.alloc_block(16, false)?, 1);
    for step in &COPIES {
        follow(&rt, &mut memory, *step);
    }
    Ok(())
}

#[test]
fn puts_bytes_into_read_only_blocks(rt: HostRuntime) -> Result<(), NoMemory> {
    let mut memory = Memory::new(rt.alloc());
    let block = memory.alloc_block(2, true)?;
    let at = Pointer { block, offset: 1 };
    assert_eq!(rt; memory.byte(at), Byte::Undef);
    memory.set_byte(at, Byte::Num(200));
    assert_eq!(rt; memory.byte(at), Byte::Num(200));
    let stored = memory.store(at, CHAR, Value::Int(IntType::Char, 1));
    assert_eq!(rt; stored.err(), Some(WrongKind::ReadOnly));
    loads(&rt, &memory, at, CHAR, Ok(Value::Int(IntType::Char, -56)));
    Ok(())
}

#[test]
fn puts_values_into_read_only_blocks(rt: HostRuntime) -> Result<(), NoMemory> {
    let mut memory = Memory::new(rt.alloc());
    let block = memory.alloc_block(2, true)?;
    let at = Pointer { block, offset: 1 };
    assert!(rt; memory.access(at, 1, 1, false).is_ok());
    memory.put(at, CHAR, Value::Int(IntType::Char, 7));
    loads(&rt, &memory, at, CHAR, Ok(Value::Int(IntType::Char, 7)));
    assert_eq!(rt; memory.count(), 1);
    assert_eq!(rt; memory.size(block), 2);
    assert!(rt; memory.is_live(block));
    memory.undefine(block);
    loads(&rt, &memory, at, CHAR, Err(WrongKind::Indeterminate));
    Ok(())
}
