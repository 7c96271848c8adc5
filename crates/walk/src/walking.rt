// A walk that stands at a set.
#![tactic(auto, using(csharp::proofs::CodeTrees::the_code_trees))]

ghost use Rattle.std.specs.Prelude.{◌≡◌, ◌<◌, [], length, IfOk, OnOk, Some, slice_get};
ghost use Rattle.num_api.specs.Told.{Keeps};
ghost use Rattle.csharp.specs.Trees.{CsFunctionTree, csprogram_tree, csstmt_tree};
ghost use Rattle.csharp.specs.Formed.{IsFormed};
ghost use Rattle.csharp.specs.Meaning.{beyond};
ghost use Rattle.alarm_claims.specs.Admitted.{Gains};
ghost use Rattle.walk_owes.specs.Exactly.{Exact};
ghost use Rattle.walk_owes.specs.Owes.{AllFor, Grows, HasTyped, Sound};
ghost use Rattle.walk_owes.specs.Walkable.{IsStatementOf, nowhere};
ghost use Rattle.walk.specs.Behind.{set_behind};

use c_syntax::Alarms;
use csharp::{CsProgram, CsStmt};
use csharp_laws::formed_ranks_are_small;
use ext_int::Live;
use iterator::{Settings, walk};
use mem_api::MemDomain;
use num_api::{Ramp, Steps};
use std::alloc::{AllocError as NoMemory, Global};
use std::marker::PhantomData;
use std::mem;
use walk_owes::{Kept, Target};

/// The exits, labels and returns that were reached, each with its set.
pub type KeptStates<M> = Vec<Kept<M>>;

/// A walk: the set at which it stands and those that it keeps, how many turns of a loop it makes one by one, how many
/// steps of narrowing, and the ramp by which it widens.
#[derive(Drop)]
pub struct Walk<'r, M, U, S> {
    alloc: Global,
    pub unroll: u32,
    pub narrow: u32,
    ramp: &'r Ramp<U>,
    state: M,
    kept: KeptStates<M>,
    steps: PhantomData<S>,
}

impl<'r, M: MemDomain, U: Fn(i128) -> Option<i128>, S: Steps> Walk<'r, M, U, S> {
    /// A walk that stands at this set and keeps none.
    pub fn new(
        alloc: Global,
        state: M,
        unroll: u32,
        narrow: u32,
        ramp: &'r Ramp<U>,
    ) -> Walk<'r, M, U, S>
        ensures state { result.state ≡ state }
        ensures kept { result.kept.items ≡ [] }
        ensures ramp { result.ramp.now ≡ ramp.now }
        ensures unroll { result.unroll ≡ unroll }
        ensures narrow { result.narrow ≡ narrow }
    {
        Walk {
            alloc,
            unroll,
            narrow,
            ramp,
            state,
            kept: Vec::new(alloc),
            steps: PhantomData,
        }
    }

    /// The set at which the walk stands.
    pub fn state(&self) -> &M
        ensures { result.now ≡ self.now.state }
    {
        &self.state
    }

    /// The sets that are kept, each with the way by which it left.
    pub fn kept(&self) -> &[Kept<M>]
        ensures { result.now ≡ self.now.kept.items }
    {
        self.kept.as_slice()
    }

    /// Walks through a statement of a formed program. `Dead` says that no state comes behind it; the set stays then.
    pub fn statement(
        &mut self,
        program: &CsProgram,
        s: &CsStmt,
        out: &mut Alarms,
    ) -> Result<Live, NoMemory>
        requires ramp { Keeps U.pre U.post self.old.ramp.now S.list }
        requires formed { IsFormed (csprogram_tree program.now) }
        requires part { IsStatementOf (csprogram_tree program.now) (csstmt_tree s.now) }
        requires is_for { M.is_for self.old.state (csprogram_tree program.now) }
        requires kept_for { AllFor M.is_for (csprogram_tree program.now) self.old.kept.items }
        ensures ramp { self.new.ramp.now ≡ self.old.ramp.now }
        ensures is_for { OnOk result (M.is_for self.new.state (csprogram_tree program.now)) }
        ensures kept_for { OnOk result (AllFor M.is_for (csprogram_tree program.now) self.new.kept.items) }
        ensures sound { IfOk result (λ live. Sound (HasTyped M.stands (csprogram_tree program.now)) (csprogram_tree program.now) nowhere (csstmt_tree s.now)
            (Some self.old.state) (set_behind live self.new.state) self.new.kept.items out.new) }
        ensures grows { OnOk result (Grows (HasTyped M.stands (csprogram_tree program.now)) (csprogram_tree program.now) self.old.kept.items out.old self.new.kept.items out.new) }
        ensures gains { OnOk result (Gains (csprogram_tree program.now) (csstmt_tree s.now) out.old out.new) }
        ensures unroll { self.new.unroll ≡ self.old.unroll }
        ensures exact { IfOk result (λ live. Exact (HasTyped M.sharp (csprogram_tree program.now)) (beyond self.old.unroll) (csprogram_tree program.now) nowhere (csstmt_tree s.now)
            (Some self.old.state) (set_behind live self.new.state) self.old.kept.items out.old self.new.kept.items out.new) }
    {
        formed_ranks_are_small();
        let set = Settings {
            alloc: self.alloc,
            unroll: self.unroll,
            narrow: self.narrow,
            ramp: self.ramp,
        };
        let depth = program.functions.as_slice().len() as u64;
        let to = Target {
            value: None,
            flag: None,
        };
        let state = self.state.copy()?;
        let mut found = mem::replace(out, Alarms::new(self.alloc)).into_vec();
        let after = walk::<M, U, S>(
            &set,
            program,
            depth,
            to,
            s,
            state,
            &mut self.kept,
            &mut found,
        );
        *out = Alarms::from_vec(found);
        match after? {
            None => Ok(Live::Dead),
            Some(state) => {
                self.state = state;
                Ok(Live::Live)
            }
        }
    }

    /// Walks through the body of a function of a formed program, from a set in which its parameters have their values. What
    /// returns is kept.
    pub fn function(
        &mut self,
        program: &CsProgram,
        f: u64,
        out: &mut Alarms,
    ) -> Result<Live, NoMemory>
        requires ramp { Keeps U.pre U.post self.old.ramp.now S.list }
        requires formed { IsFormed (csprogram_tree program.now) }
        requires function { f < length (csprogram_tree program.now).functions }
        requires is_for { M.is_for self.old.state (csprogram_tree program.now) }
        requires kept_for { AllFor M.is_for (csprogram_tree program.now) self.old.kept.items }
        ensures ramp { self.new.ramp.now ≡ self.old.ramp.now }
        ensures is_for { OnOk result (M.is_for self.new.state (csprogram_tree program.now)) }
        ensures kept_for { OnOk result (AllFor M.is_for (csprogram_tree program.now) self.new.kept.items) }
        ensures sound { IfOk result (λ live. (function : CsFunctionTree) → slice_get (csprogram_tree program.now).functions f ≡ Some function
            → Sound (HasTyped M.stands (csprogram_tree program.now)) (csprogram_tree program.now) nowhere function.body
            (Some self.old.state) (set_behind live self.new.state) self.new.kept.items out.new) }
        ensures grows { OnOk result (Grows (HasTyped M.stands (csprogram_tree program.now)) (csprogram_tree program.now) self.old.kept.items out.old self.new.kept.items out.new) }
        ensures gains { OnOk result ((function : CsFunctionTree) → slice_get (csprogram_tree program.now).functions f ≡ Some function
            → Gains (csprogram_tree program.now) function.body out.old out.new) }
        ensures unroll { self.new.unroll ≡ self.old.unroll }
        ensures exact { IfOk result (λ live. (function : CsFunctionTree) → slice_get (csprogram_tree program.now).functions f ≡ Some function
            → Exact (HasTyped M.sharp (csprogram_tree program.now)) (beyond self.old.unroll) (csprogram_tree program.now) nowhere function.body
            (Some self.old.state) (set_behind live self.new.state) self.old.kept.items out.old self.new.kept.items out.new) }
    {
        let function = &program.functions.as_slice()[f as usize];
        let live = self.statement(program, &function.body, out)?;
        Ok(live)
    }
}
