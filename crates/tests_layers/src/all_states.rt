// The set of all states, as a small domain that keeps every law and claims none of the exact ones.

ghost use Rattle.std.specs.Prelude.{◌≡◌, IfOk, length, map, false};
ghost use Rattle.num_api.specs.Steps.{least};
ghost use Rattle.num_api.specs.Powers.{power_steps};
ghost use Rattle.csharp.specs.Trees.{csexpr_tree};
ghost use Rattle.mem_api.specs.Owned.{IsOwned, any_pointer as all_pointers, any_pointers as one_or_two, anything as of_kind};

use block_mem::Scalar;
use c_syntax::{Facts, IntType, Numbers, Pointers, Shown, WrongKind};
use csharp::{CsCheck, CsExpr, CsProgram};
use ext_int::Live;
use mem_api::{MemDomain, settle};
use num_api::{Powers, Ramp, Steps, power_step};
use std::alloc::{AllocError as NoMemory, Global};

/// All states of the programs that have so many objects.
#[derive(Drop)]
struct Everything {
    alloc: Global,
    objects: u64,
}

fn any_pointer(alloc: Global) -> Pointers
    ensures { result ≡ all_pointers }
{
    Pointers {
        any: true,
        null: true,
        dead: true,
        names: Numbers::new(alloc),
        lo: None,
        hi: None,
        modulus: 1,
        rem: 0,
    }
}

fn any_pointers(alloc: Global, operands: &[CsExpr]) -> Shown
    ensures { result ≡ one_or_two (map csexpr_tree operands.now) }
{
    match operands {
        [_, _] => Shown::Pair(any_pointer(alloc), any_pointer(alloc)),
        _ => Shown::One(any_pointer(alloc)),
    }
}

fn anything(alloc: Global, kind: WrongKind, operands: &[CsExpr]) -> Shown
    ensures { result ≡ of_kind kind (map csexpr_tree operands.now) }
{
    match kind {
        WrongKind::Indeterminate | WrongKind::Fragment => Shown::Marks {
            undef: true,
            value: true,
            broken: true,
        },
        WrongKind::NullUse | WrongKind::Dangling => any_pointers(alloc, operands),
        WrongKind::Bounds | WrongKind::Access | WrongKind::Alignment | WrongKind::ReadOnly => {
            Shown::One(any_pointer(alloc))
        }
        WrongKind::Unrelated => Shown::Pair(any_pointer(alloc), any_pointer(alloc)),
        WrongKind::NoValue => Shown::Ends {
            value: true,
            none: true,
        },
        WrongKind::Overflow
        | WrongKind::DivideByZero
        | WrongKind::Quotient
        | WrongKind::ShiftAmount
        | WrongKind::ShiftResult
        | WrongKind::AssertFailed => Shown::Number {
            lo: None,
            hi: None,
            modulus: 1,
            rem: 0,
        },
    }
}

impl MemDomain for Everything {
    ghost is_for = { λ m q. length q.objects ≡ m.objects };

    ghost stands = { λ m s. IsOwned m.objects s.memory };

    ghost sharp = { λ m s. ⊥ };

    ghost exact = { λ q. false };

    ghost under = { λ m p. ⊥ };

    ghost weight = { λ steps m. 0 };

    fn start(alloc: Global, program: &CsProgram) -> Result<Self, NoMemory> {
        Ok(Everything {
            alloc,
            objects: program.objects.as_slice().len() as u64,
        })
    }

    fn copy(&self) -> Result<Self, NoMemory> {
        Ok(Everything {
            alloc: self.alloc,
            objects: self.objects,
        })
    }

    fn set(&mut self, _temp: u64, _value: &CsExpr) -> Result<(), NoMemory> {
        Ok(())
    }

    fn load(&mut self, _temp: u64, _address: &CsExpr, _ty: Scalar) -> Result<(), NoMemory> {
        Ok(())
    }

    fn store(&mut self, _address: &CsExpr, _ty: Scalar, _value: &CsExpr) -> Result<(), NoMemory> {
        Ok(())
    }

    fn copy_bytes(&mut self, _to: &CsExpr, _from: &CsExpr, _size: u64) -> Result<(), NoMemory> {
        Ok(())
    }

    fn undefine(&mut self, _object: u64) -> Result<(), NoMemory> {
        Ok(())
    }

    fn input(&mut self, _temp: u64, _ty: IntType) -> Result<(), NoMemory> {
        Ok(())
    }

    fn enter(&mut self, _names: &[u64]) -> Result<(), NoMemory> {
        Ok(())
    }

    fn leave(&mut self, _names: &[u64]) -> Result<(), NoMemory> {
        Ok(())
    }

    fn assume(&mut self, _condition: &CsExpr, _truth: bool) -> Result<Live, NoMemory> {
        Ok(Live::Live)
    }

    fn show(&self, check: &CsCheck) -> Result<Shown, NoMemory> {
        Ok(anything(self.alloc, check.check.kind, check.operands.as_slice()))
    }

    fn pass(&mut self, _check: &CsCheck) -> Result<Live, NoMemory> {
        Ok(Live::Live)
    }

    fn join(&mut self, _other: &Self) -> Result<(), NoMemory> {
        Ok(())
    }

    fn widen<U: Fn(i128) -> Option<i128>, S: Steps>(
        &mut self,
        _next: &Self,
        _ramp: &Ramp<U>,
    ) -> Result<bool, NoMemory> {
        Ok(false)
    }

    fn covers(&self, _other: &Self) -> Result<bool, NoMemory> {
        Ok(true)
    }

    fn facts(&self, _out: &mut Facts) -> Result<(), NoMemory> {
        Ok(())
    }

    ghost sharp_stands = { λ m s h. absurd h };

    ghost sharp_alone = { λ m s t h stands. absurd h };

    ghost under_left = { λ m p q h. absurd h };

    ghost under_right = { λ m p q h. absurd h };
}

#[test]
fn settles(rt: HostRuntime) {
    let ramp = Ramp::<_>::new::<Powers>(
        257,
        |n: i128| -> Option<i128>
            ensures { result ≡ least power_steps n }
        { power_step(n) },
    );
    let start = Everything {
        alloc: rt.alloc(),
        objects: 0,
    };
    let state = settle::<_, _, Powers, _>(
        start,
        |m: &Everything| -> Result<Everything, NoMemory>
            ensures { IfOk result (λ next. next ≡ m.now) }
        { m.copy() },
        &ramp,
    )
    .expect(&rt, "memory");
    assert_eq!(rt; state.objects, 0);
}
