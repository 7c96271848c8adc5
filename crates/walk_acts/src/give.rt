// What a call takes and gives.
#![tactic(auto, using(csharp::proofs::CodeTrees::the_code_trees))]

ghost use Rattle.std.specs.Prelude.{◌≡◌, IfOk, IfSome, OnOk, Option, Some, None, map, option_map};
ghost use Rattle.block_mem.specs.declared.types.Value.{Value};
ghost use Rattle.block_mem.specs.declared.types.Value.TheVariants as values;
ghost use Rattle.c_syntax_written.specs.declared.int_type.IntType.TheVariants as ints;
ghost use Rattle.csharp.specs.Trees.{CsProgramTree, csexpr_tree};
ghost use Rattle.csharp.specs.Trees as code;
ghost use Rattle.csharp.specs.States.{State, value_of};
ghost use Rattle.csharp.specs.Actions.{pass, put_into};
ghost use Rattle.mem_api.specs.Given.{IsOf};
ghost use Rattle.walk_owes.specs.Owes.{InSome, SomeFor, returned};
ghost use Rattle.walk_owes.specs.Walkable.{AreArgsReady, IsGivenTo, IsTarget};

use c_syntax::IntType;
use csharp::CsExpr;
use mem_api::MemDomain;
use std::alloc::AllocError as NoMemory;
use walk_owes::Target;

/// Puts the arguments of a call into the temporaries of the parameters.
pub fn pass_args<M: MemDomain>(
    args: &[CsExpr],
    params: &[u64],
    state: &mut M,
) -> Result<(), NoMemory>
    requires ready { (q : CsProgramTree) × M.is_for state.old q × AreArgsReady q (map csexpr_tree args.now) params.now }
    ensures is_for { OnOk result ((q : CsProgramTree) → M.is_for state.old q → M.is_for state.new q) }
    ensures stands { OnOk result ((s t : State) → M.stands state.old s → pass (map csexpr_tree args.now) params.now s ≡ Some t → M.stands state.new t) }
    ensures sharp { OnOk result ((s t : State) → M.sharp state.old s → pass (map csexpr_tree args.now) params.now s ≡ Some t → M.sharp state.new t) }
{
    let mut rest = args;
    let mut others = params;
    while let Some((arg, more)) = rest.split_first() {
        let Some((param, last)) = others.split_first() else {
            return Ok(());
        };
        state.set(*param, arg)?;
        rest = more;
        others = last;
    }
    Ok(())
}

// Puts a number into a temporary, where there is one.
fn set_number<M: MemDomain>(temp: Option<u64>, number: i128, state: &mut M) -> Result<(), NoMemory>
    requires given { (q : CsProgramTree) × M.is_for state.old q × IfSome temp (λ d. IsOf q (code.Set d (code.Const ints.Int number))) }
    ensures is_for { OnOk result ((q : CsProgramTree) → M.is_for state.old q → M.is_for state.new q) }
    ensures stands { OnOk result ((s : State) → M.stands state.old s → M.stands state.new (put_into temp (values.Int ints.Int number) s)) }
    ensures sharp { OnOk result ((s : State) → M.sharp state.old s → M.sharp state.new (put_into temp (values.Int ints.Int number) s)) }
{
    match temp {
        None => Ok(()),
        Some(temp) => {
            let value = CsExpr::Const {
                ty: IntType::Int,
                value: number,
            };
            state.set(temp, &value)?;
            Ok(())
        }
    }
}

// Puts a value into a temporary, where there is one.
fn set_value<M: MemDomain>(temp: Option<u64>, value: &CsExpr, state: &mut M) -> Result<(), NoMemory>
    requires given { (q : CsProgramTree) × M.is_for state.old q × IfSome temp (λ d. IsOf q (code.Set d (csexpr_tree value.now))) }
    ensures is_for { OnOk result ((q : CsProgramTree) → M.is_for state.old q → M.is_for state.new q) }
    ensures stands { OnOk result ((s : State) (v : Value) → M.stands state.old s → value_of (csexpr_tree value.now) s ≡ Some v → M.stands state.new (put_into temp v s)) }
    ensures sharp { OnOk result ((s : State) (v : Value) → M.sharp state.old s → value_of (csexpr_tree value.now) s ≡ Some v → M.sharp state.new (put_into temp v s)) }
{
    match temp {
        None => Ok(()),
        Some(temp) => {
            state.set(temp, value)?;
            Ok(())
        }
    }
}

/// Puts what a return gives into the temporaries of its call.
pub fn give<M: MemDomain>(to: Target, value: &Option<CsExpr>, state: &mut M) -> Result<(), NoMemory>
    requires given { (q : CsProgramTree) × M.is_for state.old q × IsTarget q to × IsGivenTo q to (option_map csexpr_tree value.now) }
    ensures is_for { OnOk result ((q : CsProgramTree) → M.is_for state.old q → M.is_for state.new q) }
    ensures none { OnOk result ((s : State) → value.now ≡ None → M.stands state.old s → M.stands state.new (returned to None s)) }
    ensures sharp_none { OnOk result ((s : State) → value.now ≡ None → M.sharp state.old s → M.sharp state.new (returned to None s)) }
    ensures some { OnOk result ((e : CsExpr) (s : State) (v : Value) → value.now ≡ Some e → M.stands state.old s → value_of (csexpr_tree e) s ≡ Some v
        → M.stands state.new (returned to (Some v) s)) }
    ensures sharp_some { OnOk result ((e : CsExpr) (s : State) (v : Value) → value.now ≡ Some e → M.sharp state.old s → value_of (csexpr_tree e) s ≡ Some v
        → M.sharp state.new (returned to (Some v) s)) }
{
    match value {
        None => {
            set_number(to.flag, 0, state)?;
            Ok(())
        }
        Some(value) => {
            set_value(to.value, value, state)?;
            set_number(to.flag, 1, state)?;
            Ok(())
        }
    }
}

/// Tells a call that no value was given, where its body may end without a return.
pub fn give_none<M: MemDomain>(to: Target, after: Option<M>) -> Result<Option<M>, NoMemory>
    requires given { (q : CsProgramTree) × SomeFor M.is_for q after × IsTarget q to }
    ensures is_for { IfOk result (λ m. (q : CsProgramTree) → SomeFor M.is_for q after → SomeFor M.is_for q m) }
    ensures none { IfOk result (λ m. (s : State) → InSome M.stands after s → InSome M.stands m (returned to None s)) }
    ensures sharp_none { IfOk result (λ m. (s : State) → InSome M.sharp after s → InSome M.sharp m (returned to None s)) }
    ensures dead { IfOk result (λ m. after ≡ None → m ≡ None) }
{
    match after {
        None => Ok(None),
        Some(mut state) => {
            set_number(to.flag, 0, &mut state)?;
            Ok(Some(state))
        }
    }
}
