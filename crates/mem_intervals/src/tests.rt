// The loop that widens, an object that is known, and the one state, at a program with one integer object. What a test
// owns is lent to small functions, since each way out of a function drops all that it owns.

ghost use Rattle.std.specs.Prelude.{◌≡◌, ◌∷◌, [], IfOk, length, map};
ghost use Rattle.c_syntax.specs.Types.{object_tree};
ghost use Rattle.c_layout.specs.Checks.{plain_check};
ghost use Rattle.csharp.specs.Trees.{CsProgramTree, cscheck_tree, csexpr_tree, csprogram_tree};
ghost use Rattle.num_api.specs.Powers.{power_steps};
ghost use Rattle.num_api.specs.Steps.{least};
ghost use Rattle.mem_one_state.specs.One.{IsFor};
ghost use Rattle.mem_intervals.specs.Small.{IsSetFor, IsSmallSet};

use crate::declared::Declared;
use crate::states::IntervalStates;
use crate::temps::Temps;
use block_mem::Scalar;
use c_objects::ObjectMemory;
use c_syntax::{
    CType, Check, InitByte, InitBytes, Initial, Initials, IntType, Name, Object, Objects, Pos,
    Shown, StructDefs, WrongKind,
};
use csharp::{CsCheck, CsExpr, CsExprs, CsFunctions, CsProgram};
use ext_int::Live;
use mem_api::{MemDomain, settle};
use mem_objects::{Cells, Copies};
use mem_one_state::OneState;
use num_api::{Powers, Ramp, power_step};
use std::alloc::{AllocError as NoMemory, Global};

const INT: Scalar = Scalar::Int(IntType::Int);

const AT: Pos = Pos {
    file: 0,
    line: 1,
    col: 1,
};

fn objects(alloc: Global, is_static: bool) -> Result<Objects, NoMemory>
    ensures { IfOk result (λ objects. length objects ≡ 1) }
{
    let mut objects = Vec::new(alloc);
    objects.push(Object {
        name: Name::new(alloc),
        pos: AT,
        ty: CType::Int(IntType::Int),
        size: 4,
        read_only: false,
        is_static,
    })?;
    Ok(Objects::from_vec(objects))
}

// A program with one integer object and one integer temporary.
fn program(alloc: Global, is_static: bool, initial: Initials) -> Result<CsProgram, NoMemory>
    ensures objects { IfOk result (λ p. length p.objects ≡ 1) }
    ensures temps { IfOk result (λ p. p.temps ≡ Scalar.Int IntType.Int ∷ []) }
{
    let objects = objects(alloc, is_static)?;
    let temps = vec![in alloc; INT; 1]?;
    Ok(CsProgram {
        structs: StructDefs::from_vec(Vec::new(alloc)),
        objects,
        initial,
        functions: CsFunctions::from_vec(Vec::new(alloc)),
        temps: csharp::Temps::from_vec(temps),
        main: 0,
    })
}

// The object begins as 5.
fn five(alloc: Global) -> Result<Initials, NoMemory> {
    let mut bytes = vec![in alloc; InitByte::Num(0); 4]?;
    bytes[0] = InitByte::Num(5);
    let mut initial = Vec::new(alloc);
    initial.push(Initial {
        object: 0,
        bytes: InitBytes::from_vec(bytes),
    })?;
    Ok(Initials::from_vec(initial))
}

// What is known of objects in the one state; where that is not known, no object lives.
fn cells_of(alloc: Global, objects: &[Object], one: &OneState) -> Result<Cells, NoMemory>
    requires { IsFor (map object_tree objects.now) one.now }
{
    match one.known() {
        Some(state) => Cells::start(alloc, objects, state.memory()),
        None => {
            let memory = ObjectMemory::new(alloc, objects.len())?;
            Cells::start(alloc, objects, &memory)
        }
    }
}

// The states in which each temporary is 0, with what is known of objects and the one state.
fn of_parts(
    alloc: Global,
    program: &CsProgram,
    cells: Cells,
    one: OneState,
) -> Result<IntervalStates, NoMemory>
    requires { IsFor (map object_tree program.now.objects) one }
    ensures { IfOk result (λ m. IsSetFor (csprogram_tree program.now) m) }
{
    let objects = Declared::of(alloc, &program.objects)?;
    let temps = Temps::zeroed(alloc, program.temps.as_slice())?;
    let copies = Copies::none(alloc, program.temps.as_slice().len())?;
    Ok(IntervalStates {
        alloc,
        objects,
        temps,
        cells,
        copies,
        one,
    })
}

fn states_of(alloc: Global, program: &CsProgram, one: OneState) -> Result<IntervalStates, NoMemory>
    requires objects { length program.now.objects ≡ 1 }
    requires temps { program.now.temps ≡ Scalar.Int IntType.Int ∷ [] }
    requires one { IsFor (map object_tree program.now.objects) one }
    ensures { IfOk result IsSmallSet }
{
    let cells = cells_of(alloc, program.objects.as_slice(), &one)?;
    of_parts(alloc, program, cells, one)
}

// The states of the program whose object does not live yet, where the one state is not known.
fn unknown(alloc: Global) -> Result<IntervalStates, NoMemory>
    ensures { IfOk result IsSmallSet }
{
    let program = program(alloc, false, Initials::new(alloc))?;
    states_of(alloc, &program, OneState::unknown())
}

// The one state of the program whose object begins as 5.
fn known(alloc: Global) -> Result<IntervalStates, NoMemory>
    ensures { IfOk result IsSmallSet }
{
    let initial = five(alloc)?;
    let program = program(alloc, true, initial)?;
    let one = OneState::start(alloc, &program)?;
    states_of(alloc, &program, one)
}

// A check of one operand.
#[tactic(auto, using(csharp::proofs::CodeTrees::the_code_trees))]
fn check_of(
    alloc: Global,
    kind: WrongKind,
    ty: Option<Scalar>,
    operand: CsExpr,
) -> Result<CsCheck, NoMemory>
    ensures { IfOk result (λ c. cscheck_tree c ≡ record { check = plain_check kind; pos = c.pos; ty = ty; operands = csexpr_tree operand ∷ [] }) }
{
    let mut operands = Vec::new(alloc);
    operands.push(operand)?;
    Ok(CsCheck {
        check: Check {
            kind,
            lo: 0,
            hi: 0,
            size: 0,
            align: 0,
        },
        pos: AT,
        ty,
        operands: CsExprs::from_vec(operands),
    })
}

// Whether this number is shown alone.
fn is_number(shown: &Shown, n: i128) -> bool {
    match shown {
        Shown::Number { lo, hi, .. } => *lo == Some(n) && *hi == Some(n),
        _ => false,
    }
}

// Whether it is shown alone that a load finds no value.
fn is_undefined(shown: &Shown) -> bool {
    match shown {
        Shown::Marks {
            undef,
            value,
            broken,
        } => *undef && !*value && !*broken,
        _ => false,
    }
}

// What the loop comes to where each step gives the set that it is given.
fn settled(start: &IntervalStates) -> Result<IntervalStates, NoMemory>
    requires { IsSmallSet start.now }
    ensures { IfOk result (λ m. (q : CsProgramTree) → IsSetFor q start.now → IsSetFor q m) }
{
    let ramp = Ramp::<_>::new::<Powers>(
        257,
        |n: i128| -> Option<i128>
            ensures { result ≡ least power_steps n }
        { power_step(n) },
    );
    let first = start.copy()?;
    settle::<_, _, Powers, _>(
        first,
        |m: &IntervalStates| -> Result<IntervalStates, NoMemory>
            ensures { IfOk result (λ next. next ≡ m.now) }
        { m.copy() },
        &ramp,
    )
}

// Whether the set holds what the loop comes to from it.
fn holds_settled(start: &IntervalStates) -> Result<bool, NoMemory>
    requires { IsSmallSet start.now }
{
    let state = settled(start)?;
    start.covers(&state)
}

#[test]
fn settles(rt: HostRuntime) -> Result<(), NoMemory> {
    let start = unknown(rt.alloc())?;
    assert!(rt; holds_settled(&start)?);
    Ok(())
}

// Puts 7 into the object.
fn store_seven(state: &mut IntervalStates) -> Result<(), NoMemory>
    requires { IsSmallSet state.now }
    ensures { IsSmallSet state.new }
{
    let seven = CsExpr::Const {
        ty: IntType::Int,
        value: 7,
    };
    state.store(&CsExpr::Address { object: 0 }, INT, &seven)
}

// Puts the object into the temporary.
fn load_object(state: &mut IntervalStates) -> Result<(), NoMemory>
    requires { IsSmallSet state.now }
    ensures { IsSmallSet state.new }
{
    state.load(0, &CsExpr::Address { object: 0 }, INT)
}

// The object begins to live.
fn enter(state: &mut IntervalStates) -> Result<(), NoMemory>
    requires { IsSmallSet state.now }
    ensures { IsSmallSet state.new }
{
    state.enter(&[0])
}

// Puts 7 into the object, which begins to live, and that into the temporary.
fn enter_seven(state: &mut IntervalStates) -> Result<(), NoMemory>
    requires { IsSmallSet state.now }
    ensures { IsSmallSet state.new }
{
    enter(state)?;
    store_seven(state)?;
    load_object(state)
}

// What is shown of the temporary where it is divided by.
fn shown_divisor(state: &IntervalStates) -> Result<Shown, NoMemory>
    requires { IsSmallSet state.now }
{
    let divisor = check_of(
        state.alloc,
        WrongKind::DivideByZero,
        None,
        CsExpr::Temp { temp: 0 },
    )?;
    state.show(&divisor)
}

// Whether a division by the temporary passes.
fn passes(state: &mut IntervalStates) -> Result<Live, NoMemory>
    requires { IsSmallSet state.now }
    ensures { IsSmallSet state.new }
{
    let divisor = check_of(
        state.alloc,
        WrongKind::DivideByZero,
        None,
        CsExpr::Temp { temp: 0 },
    )?;
    state.pass(&divisor)
}

// Whether the temporary may be 0.
fn may_be_zero(state: &mut IntervalStates) -> Result<Live, NoMemory>
    requires { IsSmallSet state.now }
    ensures { IsSmallSet state.new }
{
    state.assume(&CsExpr::Temp { temp: 0 }, false)
}

// Whether this number of the temporary is shown alone.
fn shows_number(state: &IntervalStates, n: i128) -> Result<bool, NoMemory>
    requires { IsSmallSet state.now }
{
    let shown = shown_divisor(state)?;
    Ok(is_number(&shown, n))
}

// Whether an object that is 7 is shown alone, passes, and is not 0.
fn knows_seven(state: &mut IntervalStates) -> Result<bool, NoMemory>
    requires { IsSmallSet state.now }
{
    enter_seven(state)?;
    let is_shown = shows_number(state, 7)?;
    let passes = passes(state)?;
    let zero = may_be_zero(state)?;
    state.leave(&[0])?;
    Ok(is_shown && matches!(passes, Live::Live) && matches!(zero, Live::Dead))
}

#[test]
fn knows_an_object(rt: HostRuntime) -> Result<(), NoMemory> {
    let mut state = unknown(rt.alloc())?;
    assert!(rt; knows_seven(&mut state)?);
    Ok(())
}

// The object loses its value.
fn undefine(state: &mut IntervalStates) -> Result<(), NoMemory>
    requires { IsSmallSet state.now }
    ensures { IsSmallSet state.new }
{
    state.undefine(0)
}

// What is shown of a load of the object.
fn shown_value(state: &IntervalStates) -> Result<Shown, NoMemory>
    requires { IsSmallSet state.now }
{
    let value = check_of(
        state.alloc,
        WrongKind::Indeterminate,
        Some(INT),
        CsExpr::Address { object: 0 },
    )?;
    state.show(&value)
}

// Whether it is shown alone that the object has no value.
fn shows_no_value(state: &IntervalStates) -> Result<bool, NoMemory>
    requires { IsSmallSet state.now }
{
    let shown = shown_value(state)?;
    Ok(is_undefined(&shown))
}

// Whether the object is shown alone as 5, and then as one that has lost its value.
fn shows_five(state: &mut IntervalStates) -> Result<bool, NoMemory>
    requires { IsSmallSet state.now }
{
    load_object(state)?;
    let is_five = shows_number(state, 5)?;
    undefine(state)?;
    let is_lost = shows_no_value(state)?;
    Ok(is_five && is_lost)
}

#[test]
fn follows_the_one_state(rt: HostRuntime) -> Result<(), NoMemory> {
    let mut state = known(rt.alloc())?;
    assert!(rt; shows_five(&mut state)?);
    Ok(())
}
