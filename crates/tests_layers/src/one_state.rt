// Each call once, on a program with one int object and one int temporary. What a test owns is lent to small functions,
// since each way out of a function drops all that it owns.

ghost use Rattle.std.specs.Prelude.{◌≡◌, IfOk, length, map};
ghost use Rattle.c_syntax.specs.Types.{object_tree};
ghost use Rattle.mem_one_state.specs.One.{IsFor};

use block_mem::Scalar;
use c_syntax::{
    Arithmetic, CType, Check, Fact, Facts, Initials, IntType, Name, Object, Objects, Pos,
    StructDefs, TBinaryOp, WrongKind,
};
use csharp::{CsCheck, CsExpr, CsExprs, CsFunctions, CsProgram, Temps};
use csharp_state::Operand;
use ext_int::Live;
use mem_one_state::OneState;
use std::alloc::{AllocError as NoMemory, Global};

const INT: Scalar = Scalar::Int(IntType::Int);

const AT: Pos = Pos {
    file: 0,
    line: 1,
    col: 1,
};

fn objects(alloc: Global) -> Result<Objects, NoMemory>
    ensures { IfOk result (λ objects. length objects ≡ 1) }
{
    let mut objects = Vec::new(alloc);
    objects.push(Object {
        name: Name::new(alloc),
        pos: AT,
        ty: CType::Int(IntType::Int),
        size: 4,
        read_only: false,
        is_static: false,
    })?;
    Ok(Objects::from_vec(objects))
}

fn program(alloc: Global) -> Result<CsProgram, NoMemory>
    ensures { IfOk result (λ program. length program.objects ≡ 1) }
{
    let objects = objects(alloc)?;
    let temps = vec![in alloc; INT; 1]?;
    Ok(CsProgram {
        structs: StructDefs::from_vec(Vec::new(alloc)),
        objects,
        initial: Initials::from_vec(Vec::new(alloc)),
        functions: CsFunctions::from_vec(Vec::new(alloc)),
        temps: Temps::from_vec(temps),
        main: 0,
    })
}

fn start(alloc: Global) -> Result<OneState, NoMemory> {
    let program = program(alloc)?;
    OneState::start(alloc, &program)
}

fn int(value: i128) -> CsExpr {
    CsExpr::Const {
        ty: IntType::Int,
        value,
    }
}

// 2 * 3
fn six(alloc: Global) -> Result<CsExpr, NoMemory> {
    let left = Box::new(alloc, int(2))?;
    let right = Box::new(alloc, int(3))?;
    Ok(CsExpr::Binary {
        op: TBinaryOp::Arithmetic(Arithmetic::Multiply, IntType::Int),
        left,
        right,
    })
}

// Whether the one operand is 0, as a check of a division asks.
fn divides_by(alloc: Global, divisor: CsExpr) -> Result<CsCheck, NoMemory> {
    let mut operands = Vec::new(alloc);
    operands.push(divisor)?;
    Ok(CsCheck {
        check: Check {
            kind: WrongKind::DivideByZero,
            lo: 0,
            hi: 0,
            size: 0,
            align: 1,
        },
        pos: AT,
        ty: None,
        operands: CsExprs::from_vec(operands),
    })
}

// Puts a product into the temporary.
fn put_six(alloc: Global, one: &mut OneState) -> Result<(), NoMemory> {
    let six = six(alloc)?;
    one.set(0, &six)
}

// The one state of a program behind a product that was put into its temporary.
fn behind_a_product(alloc: Global) -> Result<OneState, NoMemory> {
    let mut one = start(alloc)?;
    put_six(alloc, &mut one)?;
    one.copy()
}

// The operand of a division by this in the state.
fn divisor_in(alloc: Global, one: &OneState, divisor: CsExpr) -> Result<Option<Operand>, NoMemory> {
    let check = divides_by(alloc, divisor)?;
    one.operand(&check)
}

// Whether a division by this passes in the state.
fn passes(alloc: Global, one: &OneState, divisor: CsExpr) -> Result<Live, NoMemory> {
    let check = divides_by(alloc, divisor)?;
    one.pass(&[], &check)
}

#[test]
fn operand_is_known(rt: HostRuntime) -> Result<(), NoMemory> {
    let one = behind_a_product(rt.alloc())?;
    let found = divisor_in(rt.alloc(), &one, CsExpr::Temp { temp: 0 })?;
    assert!(rt; matches!(found, Some(Operand::Number(6))));
    Ok(())
}

#[test]
fn truth_is_known(rt: HostRuntime) -> Result<(), NoMemory> {
    let one = behind_a_product(rt.alloc())?;
    let six = CsExpr::Temp { temp: 0 };
    assert_eq!(rt; one.assume(&six, true)?, Live::Live);
    assert_eq!(rt; one.assume(&six, false)?, Live::Dead);
    assert_eq!(rt; passes(rt.alloc(), &one, int(0))?, Live::Dead);
    Ok(())
}

// Puts 5 into the object, copies it onto itself and loads it.
fn put_five(one: &mut OneState) -> Result<(), NoMemory> {
    let object = CsExpr::Address { object: 0 };
    one.store(&object, INT, &int(5))?;
    one.copy_bytes(&object, &object, 4)?;
    one.load(0, &object, INT)
}

// The one state of the program once its object lives.
fn inside(alloc: Global, program: &CsProgram) -> Result<OneState, NoMemory>
    requires { length program.now.objects ≡ 1 }
    ensures { IfOk result (λ one. IsFor (map object_tree program.now.objects) one) }
{
    let mut one = OneState::start(alloc, program)?;
    one.enter(program.objects.as_slice(), &[0])?;
    Ok(one)
}

// What is told of the program's objects.
fn told(alloc: Global, one: &OneState, program: &CsProgram) -> Result<Facts, NoMemory> {
    let mut out = Facts::new(alloc);
    one.facts(alloc, program.objects.as_slice(), &mut out)?;
    Ok(out)
}

// What is told of the object while it is 5.
fn told_of_five(alloc: Global, program: &CsProgram) -> Result<Facts, NoMemory>
    requires { length program.now.objects ≡ 1 }
{
    let mut one = inside(alloc, program)?;
    put_five(&mut one)?;
    told(alloc, &one, program)
}

#[test]
fn number_is_told(rt: HostRuntime) -> Result<(), NoMemory> {
    let program = program(rt.alloc())?;
    let facts = told_of_five(rt.alloc(), &program)?;
    assert!(rt; matches!(facts.as_slice(), [Fact::Between { lo: 5, hi: 5, .. }]));
    Ok(())
}

#[test]
fn object_ends(rt: HostRuntime) -> Result<(), NoMemory> {
    let program = program(rt.alloc())?;
    let mut one = inside(rt.alloc(), &program)?;
    one.undefine(0);
    one.leave(&[0]);
    assert!(rt; one.is_known());
    Ok(())
}

#[test]
fn nothing_is_known(rt: HostRuntime) -> Result<(), NoMemory> {
    let mut one = OneState::unknown();
    let found = divisor_in(rt.alloc(), &one, int(0))?;
    assert!(rt; found.is_none());
    one.forget();
    assert!(rt; !one.is_known() && one.known().is_none());
    Ok(())
}
