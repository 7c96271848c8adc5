// What a set of states knows.

ghost use Rattle.std.specs.Prelude.{◌≡◌, ℤ, List, IfOk, OnOk};
ghost use Rattle.machine_nums.specs.Machines.{is_void, state_of};

use block_mem::Scalar;
use machine_nums::Machine;
use mem_cell_grid::{Grid, Pointers};
use num_api::NumDomain;
use std::alloc::{AllocError as NoMemory, Global};
use std::marker::Model;
use std::rc::Rc;

/// The types of temporaries, by their numbers. A copy takes no memory.
#[derive(Drop)]
pub struct Types {
    types: Rc<Vec<Scalar>>,
}

impl Model for Types {
    ghost use Rattle.std.specs.Prelude.{List};
    ghost use Rattle.block_mem.specs.declared.types.Scalar.{Scalar};

    ghost Value = { List Scalar };

    ghost view = { λ t. t.types.value.items };
}

impl Types {
    /// These types.
    pub fn of(alloc: Global, types: &[Scalar]) -> Result<Types, NoMemory>
        ensures { IfOk result (λ t. t ≡ types.now) }
    {
        let types = Vec::from_slice(alloc, types)?;
        Ok(Types {
            types: Rc::new(alloc, types)?,
        })
    }

    /// The same types.
    pub fn share(&self) -> Result<Types, NoMemory>
        ensures { IfOk result (λ t. t ≡ self.now) }
    {
        Ok(Types {
            types: self.types.clone()?,
        })
    }

    /// The types, in their order.
    pub fn as_slice(&self) -> &[Scalar]
        ensures { result.now ≡ self.now }
    {
        self.types.as_slice()
    }
}

/// What a set knows: the numbers of temporaries and cells, what temporaries may point to, and what bytes of objects are.
#[derive(Drop)]
pub struct Known<D> {
    pub alloc: Global,
    pub types: Types,
    pub nums: Machine<D>,
    pub pointers: Pointers,
    pub grid: Grid,
}
