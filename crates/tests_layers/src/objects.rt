// The memory of objects: each call once. What puts bytes in is called by the runs of the table of programs.

ghost use Rattle.std.specs.Prelude.{◌≡◌, ◌<◌, [], ◌∷◌, All, IfOk, IfSome, IsSome, Some, length, true};
ghost use Rattle.c_objects.specs.Statics.{HasBlock};
ghost use Rattle.c_values.specs.Places.{place_of};

use block_mem::{Pointer, Scalar, Value};
use c_objects::ObjectMemory;
use c_syntax::{
    Arithmetic, CType, InitByte, InitBytes, Initial, IntType, Name, Object, Pos, Spot, TBinaryOp,
    TUnaryOp, WrongKind,
};
use c_values::Wrong;
use std::alloc::{AllocError, Global};
use std::test::Fail;

const INT: Scalar = Scalar::Int(IntType::Int);

fn object(alloc: Global, size: u64) -> Object
    ensures size { result.size ≡ size }
    ensures fixed { result.is_static ≡ true }
{
    Object {
        name: Name::new(alloc),
        pos: Pos {
            file: 0,
            line: 1,
            col: 1,
        },
        ty: CType::Int(IntType::Int),
        size,
        read_only: false,
        is_static: true,
    }
}

fn int(n: i128) -> Value
    ensures { result ≡ Value.Int IntType.Int n }
{
    Value::Int(IntType::Int, n)
}

#[test]
fn objects_begin_and_end(rt: HostRuntime) -> Result<(), Fail> {
    let alloc = rt.alloc();
    let objects = [object(alloc, 12), object(alloc, 4)];
    let mut memory = ObjectMemory::new(alloc, 2)?;
    memory.open(&objects, 1)?;
    assert_eq!(rt; memory.place(1), Some(0));
    assert_eq!(rt; memory.count(), 1);
    memory.shut(1);
    assert_eq!(rt; memory.place(1), None);
    memory.open_all(&objects, &[0, 1])?;
    assert_eq!(rt; memory.place(0), Some(1));
    memory.shut_all(&[1, 0]);
    assert_eq!(rt; memory.place(0), None);
    Ok(())
}

#[test]
fn operators_on_numbers(rt: HostRuntime) -> Result<(), Fail> {
    let memory = ObjectMemory::new(rt.alloc(), 0)?;
    let add = TBinaryOp::Arithmetic(Arithmetic::Add, IntType::Int);
    assert_eq!(rt; memory.binary(&[], add, int(2), int(3)), Ok(int(5)));
    assert_eq!(rt; memory.unary(TUnaryOp::Not, INT, int(0)), Ok(int(1)));
    assert_eq!(rt; memory.check_test(INT, int(0)), Ok(()));
    assert_eq!(rt; memory.check_assertion(INT, int(1)), Ok(()));
    Ok(())
}

// Memory in which object 0 lives, of 12 bytes.
fn opened(alloc: Global) -> Result<ObjectMemory, AllocError> {
    let objects = [object(alloc, 12)];
    let mut memory = ObjectMemory::new(alloc, 1)?;
    memory.open(&objects, 0)?;
    Ok(memory)
}

// The place 4 bytes into object 0, where that lives.
fn inside(memory: &ObjectMemory) -> Option<Pointer>
    ensures made { IfSome result (λ at. at.block < length memory.now.blocks) }
    ensures lives { IfSome result (λ at. IsSome (place_of memory.now 0)) }
{
    match memory.place(0) {
        Some(block) => Some(Pointer { block, offset: 4 }),
        None => None,
    }
}

#[test]
fn places_are_told(rt: HostRuntime) -> Result<(), Fail> {
    let memory = opened(rt.alloc())?;
    assert_eq!(rt; memory.place(0), Some(0));
    let Some(at) = inside(&memory) else {
        return Ok(());
    };
    assert_eq!(rt; memory.address(0, 4), Value::Ptr(at));
    assert_eq!(rt; memory.spot_at(at), Spot::At(0, 4));
    assert_eq!(rt; memory.spot(Value::Ptr(at)), Spot::At(0, 4));
    assert_eq!(rt; memory.check_read(Value::Ptr(at), 8, 4), Ok(()));
    assert_eq!(rt; memory.check_write(Value::Ptr(at), 4, 4), Ok(()));
    Ok(())
}

// Stores an int there, and answers whether that went well.
fn put_seven(memory: &mut ObjectMemory) -> bool {
    match inside(memory) {
        Some(at) => memory.store(INT, Value::Ptr(at), int(7)).is_ok(),
        None => false,
    }
}

// Loads the int from there.
fn loaded(memory: &ObjectMemory) -> Option<Result<Value, Wrong>> {
    match inside(memory) {
        Some(at) => Some(memory.load(INT, Value::Ptr(at))),
        None => None,
    }
}

// Takes the values of object 0 away.
fn undefine(memory: &mut ObjectMemory) {
    match inside(memory) {
        Some(_) => memory.undefine(0),
        None => {}
    }
}

#[test]
fn values_are_stored(rt: HostRuntime) -> Result<(), Fail> {
    let mut memory = opened(rt.alloc())?;
    assert!(rt; put_seven(&mut memory));
    assert!(rt; matches!(loaded(&memory), Some(Ok(Value::Int(IntType::Int, 7)))));
    undefine(&mut memory);
    assert!(rt;
        matches!(
            loaded(&memory),
            Some(Err(Wrong {
                kind: WrongKind::Indeterminate,
                ..
            }))
        )
    );
    Ok(())
}

// An int of value 5, and a pointer to it.
fn started(alloc: Global) -> Result<ObjectMemory, AllocError> {
    let objects = [object(alloc, 4), object(alloc, 8)];
    let five = vec![in alloc;
        InitByte::Num(5),
        InitByte::Num(0),
        InitByte::Num(0),
        InitByte::Num(0),
    ]?;
    let initials = [
        Initial {
            object: 0,
            bytes: InitBytes::from_vec(five),
        },
        Initial {
            object: 1,
            bytes: InitBytes::from_vec(pointer(alloc)?),
        },
    ];
    ObjectMemory::start(alloc, &objects, &initials)
}

// The pieces of a pointer to the first byte of object 0.
fn pointer(alloc: Global) -> Result<Vec<InitByte>, AllocError>
    ensures { IfOk result (λ pieces. (length pieces.items ≡ 8) × All (λ piece. HasBlock (Some 0 ∷ Some 1 ∷ []) piece) pieces.items) }
{
    let mut pieces = Vec::new(alloc);
    for k in 0..8 {
        pieces.push(InitByte::Piece {
            object: 0,
            offset: 0,
            k,
        })?;
    }
    Ok(pieces)
}

#[test]
fn initial_bytes(rt: HostRuntime) -> Result<(), Fail> {
    let memory = started(rt.alloc())?;
    let (Some(number), Some(block)) = (memory.place(0), memory.place(1)) else {
        return Ok(());
    };
    let five = Value::Ptr(Pointer {
        block: number,
        offset: 0,
    });
    assert_eq!(rt; memory.load(INT, five), Ok(int(5)));
    let at = Value::Ptr(Pointer { block, offset: 0 });
    assert_eq!(rt; memory.load(Scalar::Pointer, at), Ok(five));
    Ok(())
}

#[test]
fn no_member_of_null(rt: HostRuntime) -> Result<(), Fail> {
    let memory = ObjectMemory::new(rt.alloc(), 0)?;
    let moved = memory.member(&[], Value::Null, 4);
    assert_eq!(rt; moved.map_err(|wrong| wrong.kind), Err(WrongKind::NullUse));
    Ok(())
}
