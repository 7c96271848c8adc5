// Messages of what a state knows.

ghost use Rattle.std.specs.Prelude.{◌≡◌, ℤ, List, OnOk, IfOk};
ghost use Rattle.ext_int.specs.Valuation.{value_at};
ghost use Rattle.num_api.specs.Messages.{Adds, TellsOf};
ghost use Rattle.env_lift.specs.Entries.{IsRising};
ghost use Rattle.env_lift.specs.States.{AllAdmit};

use crate::entries::Entry;
use crate::map::VarMap;
use num_api::{Message, Messages, NExpr, NumFacts, ValueDomain, Var};
use std::alloc::AllocError as NoMemory;

// Puts out the range and the class of a variable.
pub fn tell<V: ValueDomain>(x: Var, value: &V, out: &mut Messages) -> Result<(), NoMemory>
    ensures kept { OnOk result (Adds out.old out.new) }
    ensures told { OnOk result ((v : List ℤ) → V.admits value.now (value_at v x.0) → TellsOf v out.old out.new) }
{
    out.push(Message::Between(x, value.range()))?;
    out.push(Message::Class(x, value.residue()))?;
    Ok(())
}

// Puts out the range and the class of a variable that has a value.
fn tell_variable<V: ValueDomain>(
    state: &VarMap<V>,
    x: Var,
    out: &mut Messages,
) -> Result<(), NoMemory>
    ensures kept { OnOk result (Adds out.old out.new) }
    ensures told { OnOk result ((v : List ℤ) → AllAdmit V.admits state.now v → TellsOf v out.old out.new) }
{
    match state.get(x) {
        Some(value) => tell(x, &value, out),
        None => Ok(()),
    }
}

// Puts out the ranges and classes of the variables that the expression reads.
pub fn tell_read<V: ValueDomain>(
    state: &VarMap<V>,
    e: &NExpr,
    out: &mut Messages,
) -> Result<(), NoMemory>
    ensures kept { OnOk result (Adds out.old out.new) }
    ensures told { OnOk result ((v : List ℤ) → AllAdmit V.admits state.now v → TellsOf v out.old out.new) }
{
    match e {
        NExpr::Const(_) => Ok(()),
        NExpr::Read(x) => tell_variable(state, *x, out),
        NExpr::Unary(_, a) => tell_read(state, a, out),
        NExpr::Binary(_, a, b) => {
            tell_read(state, a, out)?;
            tell_read(state, b, out)?;
            Ok(())
        }
    }
}

// Puts out the range and the class of an entry as facts.
fn put_fact<V: ValueDomain>(entry: &Entry<V>, out: &mut NumFacts) -> Result<(), NoMemory>
    ensures kept { OnOk result (Adds out.old out.new) }
    ensures told { OnOk result ((v : List ℤ) → V.admits entry.now.value (value_at v entry.now.var.0) → TellsOf v out.old out.new) }
{
    out.push(Message::Between(entry.var, entry.value.range()))?;
    out.push(Message::Class(entry.var, entry.value.residue()))?;
    Ok(())
}

// Puts out the range and the class of each variable.
pub fn put_facts<V: ValueDomain>(entries: &[Entry<V>], out: &mut NumFacts) -> Result<(), NoMemory>
    requires { IsRising entries.now }
    ensures kept { OnOk result (Adds out.old out.new) }
    ensures told { OnOk result ((v : List ℤ) → AllAdmit V.admits entries.now v → TellsOf v out.old out.new) }
{
    for entry in entries {
        put_fact(entry, out)?;
    }
    Ok(())
}
