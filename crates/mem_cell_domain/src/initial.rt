// Initial bytes of objects.

ghost use Rattle.std.specs.Prelude.{◌≡◌, ◌<◌, ◌^◌, [], IsTrue, IfOk, List, OnOk, Some, slice_get};
ghost use Rattle.c_syntax.specs.declared.program.InitByte.{InitByte as CInitByte};
ghost use Rattle.c_syntax.specs.Types.{ObjectTree};
ghost use Rattle.c_objects.specs.Statics.{with_initials};
ghost use Rattle.c_values.specs.Places.{ObjectMemory};
ghost use Rattle.mem_cell_domain.specs.Starts.{AreBytesOf, AreFrom, AreLong, ArePlaces, AreRunning};

use c_syntax::{InitByte, Initial};
use mem_cell_bytes::{FillByte, Held, Stretch};
use mem_cell_grid::Grid;
use std::alloc::{AllocError as NoMemory, Global};

// Puts a stretch behind others, if it has a byte.
fn push_run(stretches: &mut Vec<Stretch>, run: Stretch) -> Result<(), NoMemory>
    ensures { OnOk result ((bytes : List CInitByte) → AreRunning bytes stretches.old.items run → AreFrom bytes stretches.new.items) }
{
    if run.from < run.to {
        stretches.push(run)?;
    }
    Ok(())
}

// Whether a byte goes on with a stretch.
fn goes_on(run: Stretch, at: u64, fill: FillByte) -> bool
    ensures { IsTrue result → (run.to ≡ at) × (run.byte ≡ fill) }
{
    run.to == at && run.byte == fill
}

// One number more: it makes the last stretch longer, or begins another.
fn next_number(
    stretches: &mut Vec<Stretch>,
    run: Stretch,
    at: u64,
    number: u8,
) -> Result<Stretch, NoMemory>
    requires { at < 2 ^ 63 }
    ensures { IfOk result (λ next. (bytes : List CInitByte) → slice_get bytes at ≡ Some (InitByte.Num number) → AreRunning bytes stretches.old.items run
        → AreRunning bytes stretches.new.items next) }
{
    let fill = FillByte::Num(number);
    if goes_on(run, at, fill) {
        return Ok(Stretch {
            from: run.from,
            to: at + 1,
            byte: fill,
        });
    }
    push_run(stretches, run)?;
    Ok(Stretch {
        from: at,
        to: at + 1,
        byte: fill,
    })
}

// One byte more: of a piece of a pointer nothing is known.
fn next_run(
    stretches: &mut Vec<Stretch>,
    run: Stretch,
    at: u64,
    byte: InitByte,
) -> Result<Stretch, NoMemory>
    requires { at < 2 ^ 63 }
    ensures { IfOk result (λ next. (bytes : List CInitByte) → slice_get bytes at ≡ Some byte → AreRunning bytes stretches.old.items run
        → AreRunning bytes stretches.new.items next) }
{
    match byte {
        InitByte::Num(number) => next_number(stretches, run, at, number),
        InitByte::Piece { .. } => {
            push_run(stretches, run)?;
            Ok(Stretch {
                from: at,
                to: at,
                byte: FillByte::Undef,
            })
        }
    }
}

// The stretches of equal numbers among initial bytes.
fn number_stretches(alloc: Global, bytes: &[InitByte]) -> Result<Vec<Stretch>, NoMemory>
    ensures { IfOk result (λ stretches. AreFrom bytes.now stretches.items) }
{
    let mut stretches = Vec::new(alloc);
    let mut run = Stretch {
        from: 0,
        to: 0,
        byte: FillByte::Undef,
    };
    for (at, byte) in bytes.iter().enumerate() {
        run = next_run(&mut stretches, run, at as u64, *byte)?;
    }
    push_run(&mut stretches, run)?;
    Ok(stretches)
}

// What is known of an object with these initial bytes.
fn initial_held(alloc: Global, bytes: &[InitByte]) -> Result<Held, NoMemory>
    ensures from { IfOk result (λ h. AreFrom bytes.now h.stretches) }
    ensures none { IfOk result (λ h. h.cells ≡ []) }
{
    let stretches = number_stretches(alloc, bytes)?;
    Held::of(alloc, Vec::new(alloc), stretches)
}

/// What is known of objects once their initial bytes are put in.
pub fn put_initials(alloc: Global, grid: &mut Grid, initials: &[Initial]) -> Result<(), NoMemory>
    ensures { OnOk result ((objects : List ObjectTree) (m : ObjectMemory) → ArePlaces objects m → AreLong objects initials.now → AreBytesOf grid.old m
        → AreBytesOf grid.new (with_initials m initials.now)) }
{
    for initial in initials {
        let held = initial_held(alloc, initial.bytes.as_slice())?;
        grid.put(initial.object, held);
    }
    Ok(())
}
