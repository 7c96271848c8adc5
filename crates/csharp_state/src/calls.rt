// What a call does before and behind its body.
#![tactic(auto, using(csharp::proofs::CodeTrees::the_code_trees))]

ghost use Rattle.std.specs.Prelude.{◌≡◌, IfOk, OnErr, OnOk, length, map, option_map};
ghost use Rattle.csharp.specs.Trees.{cscall_tree, csexpr_tree};
ghost use Rattle.csharp.specs.Actions as acts;
ghost use Rattle.csharp_state.specs.Answers.{GivesUp, Took};
ghost use Rattle.csharp_state.specs.Passing.{put_all, values_of};
ghost use Rattle.csharp_state.specs.Unheld.{unheld_all, unheld_pass};

use crate::error::Unanswered;
use crate::state::{State, Step};
use block_mem::Value;
use c_syntax::IntType;
use csharp::{CsCall, CsExpr};
use std::alloc::Global;

impl State {
    /// Puts the arguments, all taken from the state of the call, into the temporaries of the
    /// parameters; where they are not as many, there is no such state.
    pub fn pass(
        &mut self,
        alloc: Global,
        args: &[CsExpr],
        params: &[u64],
    ) -> Result<Step, Unanswered>
        ensures took { IfOk result (λ step. Took step self.old self.new (acts.pass (map csexpr_tree args.now) params.now self.old)) }
        ensures memory { OnOk result (self.new.memory ≡ self.old.memory) }
        ensures unheld { GivesUp result (unheld_pass (map csexpr_tree args.now) params.now self.old) }
        ensures unchanged { OnErr result (self.new ≡ self.old) }
    {
        if args.len() != params.len() {
            return Ok(Step::Barred);
        }
        match self.values(alloc, args)? {
            Some(values) => {
                self.put_all(params, values.as_slice());
                Ok(Step::Done)
            }
            None => Ok(Step::Barred),
        }
    }

    // The values of expressions; none where one of them has none.
    fn values(&self, alloc: Global, exprs: &[CsExpr]) -> Result<Option<Vec<Value>>, Unanswered>
        ensures are { IfOk result (λ vs. option_map (λ v. v.items) vs ≡ values_of (map csexpr_tree exprs.now) self.now) }
        ensures unheld { GivesUp result (unheld_all (map csexpr_tree exprs.now) self.now) }
    {
        let mut values = Vec::new(alloc);
        for expr in exprs {
            match self.value(expr)? {
                Some(v) => values.push(v)?,
                None => return Ok(None),
            }
        }
        Ok(Some(values))
    }

    fn put_all(&mut self, temps: &[u64], values: &[Value])
        requires { length temps.now ≡ length values.now }
        ensures { self.new ≡ put_all temps.now values.now self.old }
    {
        for (place, temp) in temps.iter().enumerate() {
            self.put(*temp, values[place]);
        }
    }

    /// What a call leaves in its temporaries: the value that the function gave, or none, and whether
    /// there was one.
    pub fn give(&mut self, call: &CsCall, given: Option<Value>)
        ensures given { self.new ≡ acts.given_to (cscall_tree call.now) given self.old }
        ensures memory { self.new.memory ≡ self.old.memory }
    {
        match given {
            Some(v) => {
                self.put_into(call.value, v);
                self.put_into(call.flag, Value::Int(IntType::Int, 1));
            }
            None => self.put_into(call.flag, Value::Int(IntType::Int, 0)),
        }
    }
}
