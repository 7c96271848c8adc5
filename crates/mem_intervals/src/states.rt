// The sets of states.
#![tactic(auto, using(csharp::proofs::CodeTrees::the_code_trees))]

ghost use Rattle.std.specs.Prelude.{◌≡◌, false, IsTrue, ◌&&◌, length, map, [], Some, if◌then◌else◌, IfOk, MatchBool};
ghost use Rattle.csharp.specs.Trees.{CsProgramTree};
ghost use Rattle.c_syntax.specs.Types.{object_tree};
ghost use Rattle.num_api.specs.Lives.{is_live};
ghost use Rattle.mem_temps.specs.Operators.{LiesIn};
ghost use Rattle.mem_objects.specs.Cells.{cut_by, are_cells_left};
ghost use Rattle.mem_objects.specs.Under.{have_own_sizes};
ghost use Rattle.mem_one_state.specs.One.{IsFor};
ghost use Rattle.mem_intervals.specs.SetLaws.{sharp_alike, set_first, set_second};
ghost use Rattle.mem_intervals.specs.Sets.{IsIn, IsUnder, CoversAll, below, knows_any};

use crate::alone::alone_or;
use crate::declared::Declared;
use crate::shows::shown;
use crate::temps::Temps;
use block_mem::Scalar;
use c_syntax::{Facts, IntType, Shown};
use csharp::{CsCheck, CsExpr, CsProgram};
use ext_int::{Live, max, min};
use machine_nums::type_range;
use mem_api::MemDomain;
use mem_objects::{Cells, Copies, KnownCell, accessed, are_left, cut_cells};
use mem_one_state::OneState;
use mem_temps::{Ranges, cut_by_test, exact_range, passes_one, passes_two, value_range};
use num_api::{Ramp, Range, Steps, may_be};
use std::alloc::{AllocError as NoMemory, Global};

/// The states of a program whose temporaries and integer objects have values in these ranges, in which what has just
/// passed its check has one of the numbers that passed, and some temporaries are copies of objects; where it is known, the
/// one state of a run without inputs.
#[derive(Drop)]
pub struct IntervalStates {
    pub(crate) alloc: Global,
    pub(crate) objects: Declared,
    pub(crate) temps: Temps,
    pub(crate) cells: Cells,
    pub(crate) copies: Copies,
    pub(crate) one: OneState,
}

impl IntervalStates {
    // Whether it is known that all that this set knows holds in the other.
    fn covers_all(&self, other: &IntervalStates) -> bool
        ensures yes { IsTrue result → CoversAll self.now.temps.ranges self.now.temps.passed self.now.cells self.now.copies self.now.one
            other.now.temps.ranges other.now.temps.passed other.now.cells other.now.copies }
        ensures no { result ≡ false → IsTrue (knows_any self.now.temps.ranges self.now.temps.passed self.now.cells self.now.copies self.now.one) }
    {
        !self.one.is_known()
            && self.temps.ranges.covers(&other.temps.ranges)
            && self.temps.passed.covers(&other.temps.passed)
            && self.cells.covers(&other.cells)
            && self.copies.covers(&other.copies)
    }

    // Cuts objects with the temporaries that are copies of them, and tells whether numbers are left of each.
    fn cut_objects(&mut self) -> Result<bool, NoMemory>
        ensures kept { (self.new.objects ≡ self.old.objects) × (self.new.temps ≡ self.old.temps) × (self.new.copies ≡ self.old.copies) × (self.new.one ≡ self.old.one) }
        ensures cells { IfOk result (λ left. (self.new.cells ≡ cut_by self.old.copies self.old.temps.ranges (below (length self.old.copies)) self.old.cells)
            × (left ≡ are_cells_left self.old.copies (below (length self.old.copies)) self.new.cells)) }
    {
        let temps = numbers_below(self.alloc, self.copies.len())?;
        cut_cells(
            &mut self.cells,
            &self.copies,
            &self.temps.ranges,
            temps.as_slice(),
        );
        Ok(are_left(&self.cells, &self.copies, temps.as_slice()))
    }
}

// The numbers below this one, from 0 on.
fn numbers_below(alloc: Global, count: usize) -> Result<Vec<u64>, NoMemory>
    ensures { IfOk result (λ numbers. numbers.items ≡ below count) }
{
    let mut numbers = Vec::new(alloc);
    for number in 0..count as u64 {
        numbers.push(number)?;
    }
    Ok(numbers)
}

// Whether each number of the range is one of the type.
fn lies_in(range: Range, ty: IntType) -> bool
    ensures { MatchBool result (LiesIn ty range) (LiesIn ty range → ⊥) }
{
    let own = type_range(ty);
    max(own.lo, range.lo) == range.lo && min(own.hi, range.hi) == range.hi
}

// `Live` where both are.
fn live_if_both(some: bool, live: Live) -> Live
    ensures { is_live result ≡ (some && is_live live) }
{
    if some { live } else { Live::Dead }
}

impl MemDomain for IntervalStates {
    ghost is_for = { λ m q. (map object_tree m.objects ≡ q.objects) × (q.temps ≡ m.temps.types) × IsFor q.objects m.one };

    ghost stands = { λ m s. IsIn (map object_tree m.objects) m.temps.types m.temps.ranges m.temps.passed m.cells m.copies m.one s };

    ghost sharp = { λ m s. (m.one ≡ Some s) × (s.inputs ≡ [])
        × IsIn (map object_tree m.objects) m.temps.types m.temps.ranges m.temps.passed m.cells m.copies m.one s };

    ghost exact = { λ q. have_own_sizes q.objects };

    ghost under = { λ m p. IsUnder (map object_tree m.objects) m.temps.types m.temps.ranges m.temps.passed m.cells m.copies p };

    ghost weight = { λ steps m. if knows_any m.temps.ranges m.temps.passed m.cells m.copies m.one then 1 else 0 };

    fn start(alloc: Global, program: &CsProgram) -> Result<Self, NoMemory> {
        let objects = Declared::of(alloc, &program.objects)?;
        let temps = Temps::zeroed(alloc, program.temps.as_slice())?;
        let copies = Copies::none(alloc, program.temps.as_slice().len())?;
        let one = OneState::start(alloc, program)?;
        let cells = match one.known() {
            Some(state) => Cells::start(alloc, objects.as_slice(), state.memory())?,
            None => unreachable!(),
        };
        Ok(IntervalStates {
            alloc,
            objects,
            temps,
            cells,
            copies,
            one,
        })
    }

    fn copy(&self) -> Result<Self, NoMemory> {
        Ok(IntervalStates {
            alloc: self.alloc,
            objects: self.objects.copy()?,
            temps: self.temps.copy()?,
            cells: self.cells.copy()?,
            copies: self.copies.copy()?,
            one: self.one.copy()?,
        })
    }

    fn set(&mut self, temp: u64, value: &CsExpr) -> Result<(), NoMemory> {
        let range = self.temps.known_range(value);
        let source = self.copies.source(value);
        self.temps.put(temp, range);
        self.copies.put(temp, source);
        self.one.set(temp, value)
    }

    fn load(&mut self, temp: u64, address: &CsExpr, ty: Scalar) -> Result<(), NoMemory> {
        match accessed(&self.cells, address, ty) {
            Some(known) => {
                self.temps.put(temp, known.cell.range);
                self.copies.put(temp, Some(known.number));
            }
            None => {
                self.temps.put(temp, Range::all());
                self.copies.put(temp, None);
            }
        }
        self.one.load(temp, address, ty)
    }

    fn store(&mut self, address: &CsExpr, ty: Scalar, value: &CsExpr) -> Result<(), NoMemory> {
        let range = value_range(&self.temps.ranges, value);
        self.temps.pass_on();
        match accessed(&self.cells, address, ty) {
            Some(known) => {
                if lies_in(range, known.cell.ty) {
                    let cell = KnownCell {
                        ty: known.cell.ty,
                        range,
                        may_be_undefined: false,
                        read_only: known.cell.read_only,
                    };
                    self.cells.put(known.number, cell);
                } else {
                    self.cells.hide(known.number);
                }
                self.copies.forget_object(known.number);
            }
            None => {
                self.cells.forget();
                self.copies.forget();
            }
        }
        self.one.store(address, ty, value)
    }

    fn copy_bytes(&mut self, to: &CsExpr, from: &CsExpr, size: u64) -> Result<(), NoMemory> {
        self.temps.pass_on();
        self.cells.forget();
        self.copies.forget();
        self.one.copy_bytes(to, from, size)
    }

    fn undefine(&mut self, object: u64) -> Result<(), NoMemory> {
        self.temps.pass_on();
        self.cells.undefine(object);
        self.copies.forget_object(object);
        self.one.undefine(object);
        Ok(())
    }

    fn input(&mut self, temp: u64, ty: IntType) -> Result<(), NoMemory> {
        self.temps.put(temp, type_range(ty));
        self.copies.put(temp, None);
        self.one.forget();
        Ok(())
    }

    fn enter(&mut self, names: &[u64]) -> Result<(), NoMemory> {
        self.temps.passed.keep_for(names);
        self.cells.enter(self.objects.as_slice(), names);
        self.copies.forget_objects(names);
        self.one.enter(self.objects.as_slice(), names)
    }

    fn leave(&mut self, names: &[u64]) -> Result<(), NoMemory> {
        self.temps.passed.keep_for(names);
        self.cells.leave(names);
        self.copies.forget_objects(names);
        self.one.leave(names);
        Ok(())
    }

    fn assume(&mut self, condition: &CsExpr, truth: bool) -> Result<Live, NoMemory> {
        let range = value_range(&self.temps.ranges, condition);
        if !may_be(range, truth) {
            return Ok(Live::Dead);
        }
        let live = self.one.assume(condition, truth)?;
        self.temps.pass_on();
        let some = cut_by_test(&mut self.temps.ranges, condition, truth);
        let left = self.cut_objects()?;
        Ok(live_if_both(some, live_if_both(left, live)))
    }

    fn show(&self, check: &CsCheck) -> Result<Shown, NoMemory> {
        let wide = shown(self.alloc, &self.temps.ranges, &self.cells, check)?;
        match self.one.operand(check)? {
            Some(operand) => {
                let count = self.objects.as_slice().len() as u64;
                alone_or(self.alloc, wide, count, operand)
            }
            None => Ok(wide),
        }
    }

    fn pass(&mut self, check: &CsCheck) -> Result<Live, NoMemory> {
        let kind = check.check.kind;
        let live = self.one.pass(self.objects.as_slice(), check)?;
        match check.operands.as_slice() {
            [e] => {
                let value = value_range(&self.temps.ranges, e);
                let exact = exact_range(&self.temps.ranges, e);
                let passes = passes_one(kind, &check.check, value, exact);
                let left = self.temps.keep_passing(&check.check, e, value, exact)?;
                Ok(live_if_both(passes, live_if_both(left, live)))
            }
            [left, right] => {
                let first = value_range(&self.temps.ranges, left);
                let second = value_range(&self.temps.ranges, right);
                self.temps.pass_on();
                Ok(live_if_both(passes_two(kind, &check.check, first, second), live))
            }
            _ => unreachable!(),
        }
    }

    fn join(&mut self, other: &Self) -> Result<(), NoMemory> {
        let passed = self.temps.passed.joined(self.alloc, &other.temps.passed)?;
        self.temps.ranges.join(&other.temps.ranges);
        self.temps.passed = passed;
        self.cells.join(&other.cells);
        self.copies.join(&other.copies);
        self.one.forget();
        Ok(())
    }

    fn widen<U: Fn(i128) -> Option<i128>, S: Steps>(
        &mut self,
        next: &Self,
        _ramp: &Ramp<U>,
    ) -> Result<bool, NoMemory> {
        if self.covers_all(next) {
            return Ok(false);
        }
        self.temps.ranges = Ranges::repeated(self.alloc, self.temps.ranges.len(), Range::all())?;
        self.temps.pass_on();
        self.cells.forget();
        self.copies.forget();
        self.one.forget();
        Ok(true)
    }

    fn covers(&self, other: &Self) -> Result<bool, NoMemory> {
        Ok(self.covers_all(other))
    }

    fn facts(&self, out: &mut Facts) -> Result<(), NoMemory> {
        self.one.facts(self.alloc, self.objects.as_slice(), out)
    }

    ghost sharp_stands = { λ m s h. h.2 };

    ghost sharp_alone = { λ m s t h stands. sharp_alike m.one s t h.0 stands.same };

    ghost under_left = { λ m p q h. set_first (map object_tree m.objects) m.temps.types m.temps.ranges m.temps.passed m.cells m.copies p q h };

    ghost under_right = { λ m p q h. set_second (map object_tree m.objects) m.temps.types m.temps.ranges m.temps.passed m.cells m.copies p q h };
}
