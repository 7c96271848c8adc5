// The types of the temporaries.

ghost use Rattle.std.specs.Prelude.{◌≡◌, IfOk};

use block_mem::Scalar;
use std::alloc::{AllocError as NoMemory, Global};
use std::marker::Model;

/// The types of temporaries, by their numbers.
#[derive(Drop)]
pub struct Types {
    items: Vec<Scalar>,
}

impl Model for Types {
    ghost use Rattle.std.specs.Prelude.{List};
    ghost use Rattle.block_mem.specs.declared.types.Scalar.{Scalar};

    ghost Value = { List Scalar };

    ghost view = { λ l. l.items.items };
}

impl Types {
    /// These types.
    pub fn of(alloc: Global, types: &[Scalar]) -> Result<Types, NoMemory>
        ensures { IfOk result (λ made. made ≡ types.now) }
    {
        let mut items = Vec::new(alloc);
        for ty in types {
            items.push(*ty)?;
        }
        Ok(Types { items })
    }

    /// The same types once more.
    pub fn copy(&self) -> Result<Types, NoMemory>
        ensures { IfOk result (λ types. types ≡ self.now) }
    {
        let items = self.items.clone()?;
        Ok(Types { items })
    }
}
