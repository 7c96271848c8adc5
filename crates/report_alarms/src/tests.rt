// The text of one alarm of a program with one object.

use crate::alarms_text;
use c_syntax::{
    Alarm, CType, Cell, Check, Example, Fact, Facts, Initials, IntType, Name, Object, Objects,
    Places, Pos, Shown, StructDefs, TFunctions, TProgram, WrongKind,
};
use std::alloc::{AllocError as NoMemory, Global};

fn object(alloc: Global) -> Result<Object, NoMemory> {
    Ok(Object {
        name: Name::from_vec(b"x".to_vec(alloc)?),
        pos: Pos {
            file: 0,
            line: 1,
            col: 20,
        },
        ty: CType::Int(IntType::Int),
        size: 4,
        read_only: false,
        is_static: false,
    })
}

fn program(alloc: Global) -> Result<TProgram, NoMemory> {
    let mut objects = Vec::new(alloc);
    objects.push(object(alloc)?)?;
    Ok(TProgram {
        structs: StructDefs::new(alloc),
        objects: Objects::from_vec(objects),
        functions: TFunctions::new(alloc),
        initial: Initials::new(alloc),
    })
}

fn facts(alloc: Global) -> Result<Facts, NoMemory> {
    let mut facts = Vec::new(alloc);
    let x = Cell {
        object: 0,
        offset: 0,
        size: 4,
    };
    facts.push(Fact::Between {
        x,
        lo: 3,
        hi: 2147483647,
    })?;
    Ok(Facts::from_vec(facts))
}

fn alarm(alloc: Global) -> Result<Alarm, NoMemory> {
    Ok(Alarm {
        chain: Places::new(alloc),
        pos: Pos {
            file: 0,
            line: 1,
            col: 36,
        },
        kind: WrongKind::Overflow,
        check: Check {
            kind: WrongKind::Overflow,
            lo: -2147483648,
            hi: 2147483647,
            size: 0,
            align: 0,
        },
        shown: Shown::Number {
            lo: Some(4),
            hi: Some(2147483648),
            modulus: 4,
            rem: 0,
        },
        example: Example::Number(2147483648),
        facts: facts(alloc)?,
    })
}

fn told(alloc: Global) -> Result<Vec<u8>, NoMemory> {
    let mut alarms = Vec::new(alloc);
    alarms.push(alarm(alloc)?)?;
    alarms_text(alloc, "a.c", &program(alloc)?, 0, true, alarms.as_slice())
}

#[test]
fn tells_an_alarm_with_its_facts(rt: HostRuntime) -> Result<(), NoMemory> {
    let text = told(rt.alloc())?;
    let lines =
        b"a.c:1:36: Overflow in main\n  shown: value in [4,2147483648] and = 0 mod 4; allowed [-2147483648,2147483647]\n  example: 2147483648\n  fact: x@1:20 in [3,2147483647]\nalarms 1\n";
    assert!(rt; text.as_slice() == lines.as_slice());
    Ok(())
}
