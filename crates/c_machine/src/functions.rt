// The functions of a program, for calls.
#![tactic(auto, using(c_syntax::proofs::Trees::the_trees, c_machine_trees::proofs::SharedTrees::the_shared_trees))]

ghost use Rattle.std.specs.Prelude.{◌≡◌, IfOk, IsSome, Some, map, slice_get};
ghost use Rattle.c_machine.specs.Functions.{CalleeTree, bodied, callee_of, callee_tree, callees_of};
ghost use Rattle.c_syntax.specs.Program.{tfunction_tree};

use c_machine_trees::{SharedStmt, shared_stmt};
use c_syntax::{Numbers, TFunction, TFunctions};
use std::alloc::{AllocError as NoMemory, Global};
use std::rc::Rc;

/// What a call needs of a function.
#[derive(Drop)]
pub(crate) struct Callee {
    pub(crate) params: Rc<Numbers>,
    pub(crate) body: Rc<SharedStmt>,
}

/// The functions of a program by their numbers; none where a function has no body.
#[derive(Drop)]
pub(crate) struct Functions {
    items: Vec<Option<Callee>>,
}

impl Functions {
    /// Shares the bodies of the functions.
    pub(crate) fn of(alloc: Global, functions: &TFunctions) -> Result<Functions, NoMemory>
        ensures { IfOk result (λ table. callees_of table ≡ map bodied (map tfunction_tree functions.now)) }
    {
        let mut items = Vec::new(alloc);
        for function in functions.as_slice() {
            items.push(share_callee(alloc, function)?)?;
        }
        Ok(Functions { items })
    }

    /// The function of this number, which has a body.
    pub(crate) fn callee(&self, function: u64) -> &Callee
        requires { (c : CalleeTree) × (slice_get (callees_of self.now) function ≡ Some (Some c)) }
        ensures { slice_get (callees_of self.now) function ≡ Some (Some (callee_tree result.now)) }
    {
        match self.items.as_slice().get(function as usize) {
            Some(Some(callee)) => callee,
            _ => unreachable!(),
        }
    }
}

// What calls need of a function, if it has a body.
fn share_callee(alloc: Global, function: &TFunction) -> Result<Option<Callee>, NoMemory>
    ensures { IfOk result (λ callee. callee_of callee ≡ bodied (tfunction_tree function.now)) }
{
    match &function.body {
        None => Ok(None),
        Some(body) => {
            let params = Rc::new(alloc, function.params.copy()?)?;
            let body = shared_stmt(alloc, body)?;
            Ok(Some(Callee { params, body }))
        }
    }
}
