// What fills an object.
#![tactic(auto, using(c_syntax::proofs::Trees::the_trees, c_machine_trees::proofs::SharedTrees::the_shared_trees))]

ghost use Rattle.std.specs.Prelude.{◌≡◌, List, [], IfOk, map};
ghost use Rattle.c_objects.specs.Kept.{AllFit};
ghost use Rattle.c_objects.specs.Writing.{named_by};
ghost use Rattle.c_machine_trees.specs.Statements.{init_tree, inits_from, inits_tree};
ghost use Rattle.c_steps.specs.Work as steps;
ghost use Rattle.c_layout.specs.Checks.{scalar_bytes};
ghost use Rattle.c_syntax.specs.Types.{ObjectTree, ctype_tree};

use crate::accesses::scalar_there;
use crate::row::Row;
use crate::stack::{take_struct, take_value};
use crate::values::Values;
use block_mem::Scalar;
use c_machine_trees::{SharedInit, SharedInits};
use c_machine_work::Held;
use c_objects::NamedBytes;
use c_syntax::{CType, Extent};
use std::alloc::{AllocError as NoMemory, Global};

impl Values {
    ghost use Rattle.c_machine_values.specs.Contents.{stack_of};
    ghost use Rattle.c_machine_values.specs.Needs.{IsReady};
    ghost use Rattle.c_machine_values.specs.Rows.{Does};

    /// The scalar on top is put into an object at an offset, const or not.
    pub(crate) fn fill(&mut self, object: u64, offset: u64, ty: Option<Scalar>) -> Row
        requires { IsReady (steps.Fill object offset ty) (stack_of self.old) self.old.memory }
        ensures { (objects : List ObjectTree)
            → Does objects (steps.Fill object offset ty) (stack_of self.old) self.old.memory (stack_of self.new) self.new.memory result }
    {
        let v = take_value(&mut self.stack);
        let place = self.memory.address(object, offset);
        self.memory.initialise(scalar_there(ty), place, v);
        Row::Went
    }

    /// The struct on top is copied into an object at an offset. Its source alone is checked.
    pub(crate) fn fill_copy(
        &mut self,
        object: u64,
        offset: u64,
        extent: Extent,
    ) -> Result<Row, NoMemory>
        requires { IsReady (steps.FillCopy object offset extent) (stack_of self.old) self.old.memory }
        ensures { IfOk result (λ row. (objects : List ObjectTree) → AllFit objects self.old.memory
            → Does objects (steps.FillCopy object offset extent) (stack_of self.old) self.old.memory (stack_of self.new) self.new.memory row) }
    {
        let (named, source) = take_struct(&mut self.stack);
        if let Err(wrong) = self.memory.check_read(source, extent.size, extent.align) {
            self.stack.put(Held::Struct(named, source))?;
            return Ok(Row::Wrong(named, wrong.kind));
        }
        let target = self.memory.address(object, offset);
        self.memory.copy(target, source, extent.size);
        Ok(Row::Went)
    }

    /// What no item of an object's initialiser names becomes 0.
    pub(crate) fn fill_rest(
        &mut self,
        alloc: Global,
        object: u64,
        inits: &SharedInits,
    ) -> Result<Row, NoMemory>
        requires { IsReady (steps.Rest object (inits_tree inits.now)) (stack_of self.old) self.old.memory }
        ensures { IfOk result (λ row. (objects : List ObjectTree)
            → Does objects (steps.Rest object (inits_tree inits.now)) (stack_of self.old) self.old.memory (stack_of self.new) self.new.memory row) }
    {
        let named = named_bytes(alloc, inits.as_slice())?;
        self.memory.fill_rest(object, &named);
        Ok(Row::Went)
    }
}

// What the items of an initialiser name.
fn named_bytes(alloc: Global, inits: &[SharedInit]) -> Result<Vec<NamedBytes>, NoMemory>
    ensures { IfOk result (λ named. named.items ≡ map named_by (inits_from inits.now)) }
{
    let mut named = Vec::new(alloc);
    for init in inits {
        named.push(bytes_of(init))?;
    }
    Ok(named)
}

fn bytes_of(init: &SharedInit) -> NamedBytes
    ensures { result ≡ named_by (init_tree init.now) }
{
    match init {
        SharedInit::Store { offset, ty, .. } => NamedBytes {
            first: *offset,
            count: size_of(ty),
        },
        SharedInit::Copy { offset, extent, .. } => NamedBytes {
            first: *offset,
            count: extent.size,
        },
    }
}

// The bytes of a scalar.
fn size_of(ty: &CType) -> u64
    ensures { result ≡ scalar_bytes (ctype_tree ty.now) }
{
    match ty {
        CType::Int(t) => u64::from(t.bytes()),
        CType::Pointer(_) => 8,
        CType::Void | CType::Array(_, _) | CType::Struct(_) | CType::Function(_) => 0,
    }
}
