// The row of an item.

ghost use Rattle.std.specs.Prelude.{◌≡◌, IfOk, map};
ghost use Rattle.c_objects.specs.Kept.{AllFit, AreSmall};
ghost use Rattle.c_syntax.specs.Types.{object_tree};
ghost use Rattle.c_machine_work.specs.Views.{item_of};

use crate::row::Row;
use crate::values::Values;
use c_machine_work::Item;
use c_syntax::Object;
use std::alloc::{AllocError as NoMemory, Global};

impl Values {
    ghost use Rattle.c_machine_values.specs.Contents.{stack_of};
    ghost use Rattle.c_machine_values.specs.Items.{IsValueItem};
    ghost use Rattle.c_machine_values.specs.Needs.{IsReady};
    ghost use Rattle.c_machine_values.specs.Rows.{Does};

    /// The row of an item that changes stack and memory alone.
    pub fn row(&mut self, alloc: Global, objects: &[Object], item: &Item) -> Result<Row, NoMemory>
        requires needs { IsReady (item_of item.now) (stack_of self.old) self.old.memory }
        requires kind { IsValueItem (item_of item.now) }
        requires fits { AllFit (map object_tree objects.now) self.old.memory }
        requires small { AreSmall (map object_tree objects.now) }
        ensures { IfOk result (λ row. Does (map object_tree objects.now) (item_of item.now) (stack_of self.old) self.old.memory
            (stack_of self.new) self.new.memory row) }
    {
        match item {
            Item::LoadAt(pos, ty) => self.load(*pos, *ty),
            Item::StoreAt(pos, ty) => self.store(*pos, *ty),
            Item::Named(pos) => self.name(*pos),
            Item::CopyAt(pos, extent) => self.copy(*pos, *extent),
            Item::Modify { pos, place, ty, op } => self.modify(objects, *pos, *place, *ty, *op),
            Item::StepAt {
                pos,
                place,
                ty,
                time,
                way,
                stride,
            } => self.step(objects, *pos, *place, *ty, *time, *way, *stride),
            Item::Un(pos, op, ty) => self.unary(*pos, *op, *ty),
            Item::Bin(pos, op) => self.binary(objects, *pos, *op),
            Item::Conv(ty) => self.convert(*ty),
            Item::Move(pos, offset) => self.member(objects, *pos, *offset),
            Item::Truth(pos, ty) => self.truth(*pos, *ty),
            Item::Sure(pos, ty) => self.assert(*pos, *ty),
            Item::Drop => Ok(self.discard()),
            Item::Reach(pos, end) => self.end(*pos, *end),
            Item::Fill(object, offset, ty) => Ok(self.fill(*object, *offset, *ty)),
            Item::FillCopy(object, offset, extent) => self.fill_copy(*object, *offset, *extent),
            Item::Rest(object, inits) => self.fill_rest(alloc, *object, inits),
            Item::Eval(_) | Item::Addr(_) => unreachable!(),
            Item::AndThen(_, _, _) | Item::OrElse(_, _, _) => unreachable!(),
            Item::Pick(_, _, _, _) | Item::Choose(_, _, _, _) | Item::Keep(_, _) => unreachable!(),
            Item::Enter(_, _, _) | Item::Leave => unreachable!(),
            Item::Do(_) | Item::Close(_, _) | Item::Begin(_, _) => unreachable!(),
            Item::Turn(_, _) | Item::Again(_, _) | Item::Select(_, _) => unreachable!(),
            Item::SwitchEnd | Item::Finish => unreachable!(),
        }
    }
}
