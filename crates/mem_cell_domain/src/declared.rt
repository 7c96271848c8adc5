// The objects of a program, as they are declared, shared by all sets for it.
ghost use Rattle.std.specs.Prelude.{◌≡◌, map, IfOk};
ghost use Rattle.c_syntax.specs.Types.{object_tree};

use c_syntax::{Object, Objects};
use std::alloc::{AllocError as NoMemory, Global};
use std::marker::Model;
use std::rc::Rc;

/// The objects, by their numbers.
#[derive(Drop)]
pub struct Declared {
    objects: Rc<Objects>,
}

impl Model for Declared {
    ghost use Rattle.std.specs.Prelude.{List};
    ghost use Rattle.c_syntax.specs.declared.types.Object.{Object};
    ghost use Rattle.c_syntax.specs.contracts.types.CType as ctype;
    ghost use Rattle.std.specs.Coded.{codes};

    ghost Value = { List Object };

    ghost coded = { Prim.hlevel (codes, ctype.the_row.coded) };

    ghost view = { λ d. d.objects.value };
}

impl Declared {
    /// Objects like these.
    pub fn of(alloc: Global, objects: &Objects) -> Result<Declared, NoMemory>
        ensures { IfOk result (λ d. map object_tree d ≡ map object_tree objects.now) }
    {
        let objects = objects.copy()?;
        Ok(Declared {
            objects: Rc::new(alloc, objects)?,
        })
    }

    /// The same once more.
    pub fn share(&self) -> Result<Declared, NoMemory>
        ensures { IfOk result (λ d. d ≡ self.now) }
    {
        Ok(Declared {
            objects: self.objects.clone()?,
        })
    }

    /// The objects, in their order.
    pub fn as_slice(&self) -> &[Object]
        ensures { result.now ≡ self.now }
    {
        self.objects.as_slice()
    }
}
