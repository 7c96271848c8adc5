// Sides of a node, and two of them that are compared.
#![tactic(auto, using(c_rules_effects::proofs::Joins::the_joins))]

ghost use Rattle.std.specs.Prelude.{◌≡◌, ◌++◌, IfOk, OnOk};
ghost use Rattle.c_rules_order.specs.Made.{all_joined, with_call};

use c_rules_calls::{Call, Calls};
use c_rules_effects::{Effects, Touch, Touches, copy_touch, place_of};
use c_syntax::{Pos, TLvalue};
use std::alloc::{AllocError as NoMemory, Global};

/// What a part of an expression does.
#[derive(Drop)]
pub struct Side {
    /// What it reads and writes itself.
    pub own: Effects,
    /// The calls that it makes.
    pub calls: Calls,
}

/// Two sides of one node.
#[derive(Drop)]
pub struct Comparison {
    /// Where the node stands.
    pub pos: Pos,
    pub left: Side,
    pub right: Side,
}

impl Side {
    ghost use Rattle.std.specs.Prelude.{◌≡◌, IfOk, OnOk};
    ghost use Rattle.c_syntax.specs.TypedExpr.{tlvalue_tree};
    ghost use Rattle.c_rules_effects.specs.Places.{place_of};
    ghost use Rattle.c_rules_effects.specs.Joined.{change_at, read_at, write_at};
    ghost use Rattle.c_rules_order.specs.Made.{no_side, only, sides_joined, with_call, with_own};
    ghost use Rattle.c_rules_order.specs.Sides.{writes_alone};

    // It does nothing.
    pub(crate) fn new(alloc: Global) -> Side
        ensures { result ≡ no_side }
    {
        Side {
            own: Effects::new(alloc),
            calls: Calls::new(alloc),
        }
    }

    // It reads one place.
    pub(crate) fn reading(alloc: Global, place: &TLvalue) -> Result<Side, NoMemory>
        ensures { IfOk result (λ side. side ≡ only (read_at (place_of (tlvalue_tree place.now)))) }
    {
        let mut side = Side::new(alloc);
        side.read(alloc, place)?;
        Ok(side)
    }

    // It writes one place.
    pub(crate) fn writing(alloc: Global, place: &TLvalue) -> Result<Side, NoMemory>
        ensures { IfOk result (λ side. side ≡ only (write_at (place_of (tlvalue_tree place.now)))) }
    {
        let mut side = Side::new(alloc);
        side.write(alloc, place)?;
        Ok(side)
    }

    // It writes copies of these.
    pub(crate) fn writing_all(alloc: Global, touches: &[Touch]) -> Result<Side, NoMemory>
        ensures { IfOk result (λ side. side ≡ writes_alone touches.now) }
    {
        let mut writes = Touches::new(alloc);
        for touch in touches {
            writes.push(copy_touch(alloc, touch)?)?;
        }
        Ok(Side {
            own: Effects {
                reads: Touches::new(alloc),
                writes,
            },
            calls: Calls::new(alloc),
        })
    }

    // And then what another does.
    pub(crate) fn join(&mut self, alloc: Global, other: &Side) -> Result<(), NoMemory>
        ensures { OnOk result (self.new ≡ sides_joined self.old other.now) }
    {
        self.own.join(alloc, &other.own)?;
        push_calls(&mut self.calls, &other.calls)?;
        Ok(())
    }

    // And reads a place.
    pub(crate) fn read(&mut self, alloc: Global, place: &TLvalue) -> Result<(), NoMemory>
        ensures { OnOk result (self.new ≡ with_own self.old (read_at (place_of (tlvalue_tree place.now)))) }
    {
        self.own.reads.push(place_of(alloc, place)?)?;
        Ok(())
    }

    // And writes a place.
    pub(crate) fn write(&mut self, alloc: Global, place: &TLvalue) -> Result<(), NoMemory>
        ensures { OnOk result (self.new ≡ with_own self.old (write_at (place_of (tlvalue_tree place.now)))) }
    {
        self.own.writes.push(place_of(alloc, place)?)?;
        Ok(())
    }

    // And reads and writes a place.
    pub(crate) fn change(&mut self, alloc: Global, place: &TLvalue) -> Result<(), NoMemory>
        ensures { OnOk result (self.new ≡ with_own self.old (change_at (place_of (tlvalue_tree place.now)))) }
    {
        self.read(alloc, place)?;
        self.write(alloc, place)?;
        Ok(())
    }

    // And calls a function.
    pub(crate) fn call(&mut self, pos: Pos, callee: u64) -> Result<(), NoMemory>
        ensures { OnOk result (self.new ≡ with_call self.old pos callee) }
    {
        self.calls.push(Call { pos, callee })?;
        Ok(())
    }

    /// The same once more.
    pub fn copy(&self, alloc: Global) -> Result<Side, NoMemory>
        ensures { IfOk result (λ copy. copy ≡ self.now) }
    {
        let mut copy = Side::new(alloc);
        copy.join(alloc, self)?;
        Ok(copy)
    }
}

fn push_calls(calls: &mut Calls, others: &Calls) -> Result<(), NoMemory>
    ensures { OnOk result (calls.new ≡ calls.old ++ others.now) }
{
    for call in others.as_slice() {
        calls.push(*call)?;
    }
    Ok(())
}

// What several do, one after the other.
fn all_joined(alloc: Global, sides: &[Side]) -> Result<Side, NoMemory>
    ensures { IfOk result (λ all. all ≡ all_joined sides.now) }
{
    let mut all = Side::new(alloc);
    for side in sides {
        all.join(alloc, side)?;
    }
    Ok(all)
}

// What several do, one after the other, and then a call.
pub(crate) fn called_with(
    alloc: Global,
    sides: &[Side],
    pos: Pos,
    callee: u64,
) -> Result<Side, NoMemory>
    ensures { IfOk result (λ side. side ≡ with_call (all_joined sides.now) pos callee) }
{
    let mut side = all_joined(alloc, sides)?;
    side.call(pos, callee)?;
    Ok(side)
}
