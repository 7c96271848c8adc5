// Jumps.

ghost use Rattle.std.specs.Prelude.{◌≡◌, ◌∷◌, [], true};
ghost use Rattle.c_steps_laws.specs.Needs.{CanBreak, CanContinue, CanGoTo, EndsThere};
ghost use Rattle.c_machine.specs.Landing.{closed};
ghost use Rattle.c_machine_work.specs.Views.{item_of};
ghost use Rattle.c_machine_work.specs.Works.{work_of};

use crate::marks::{has, put_behind};
use crate::run::Run;
use c_machine_work::{Item, Mark};
use c_objects::ObjectMemory;
use std::alloc::AllocError as NoMemory;

/// A jump, by the item up to which it drops work: the nearest loop or switch, the nearest loop, the
/// call, or the block that has the label. None leads out of a function.
#[derive(Clone, Copy)]
pub(crate) enum Way {
    Break,
    Continue,
    Return,
    Goto(u64),
}

impl Way {
    ghost use Rattle.c_machine.specs.Landing.{ends_at};

    /// Whether the jump drops work up to this item.
    pub(crate) fn ends(self, item: &Item) -> bool
        ensures { result ≡ ends_at self (item_of item.now) }
    {
        match item {
            Item::Reach(_, _) => true,
            Item::Again(_, _) => match self {
                Way::Break | Way::Continue => true,
                Way::Return | Way::Goto(_) => false,
            },
            Item::SwitchEnd => match self {
                Way::Break => true,
                Way::Continue | Way::Return | Way::Goto(_) => false,
            },
            Item::Close(_, items) => match self {
                Way::Goto(label) => has(Mark::Label(label), items),
                Way::Break | Way::Continue | Way::Return => false,
            },
            _ => false,
        }
    }
}

impl Run {
    ghost use Rattle.c_machine.specs.Landing.{ends_at, memory_at, rest_at};

    /// Drops work up to the item where the jump lands, and takes that off too. The objects end of the
    /// blocks whose ends are dropped.
    pub(crate) fn drop_to(&mut self, way: Way) -> Item
        requires lands { rest_at way (work_of self.old.work) ≡ [] → ⊥ }
        requires there { EndsThere self.old.values.memory (work_of self.old.work) }
        ensures work { rest_at way (work_of self.old.work) ≡ item_of result ∷ work_of self.new.work }
        ensures ends { ends_at way (item_of result) ≡ true }
        ensures memory { self.new.values.memory ≡ memory_at way (work_of self.old.work) self.old.values.memory }
        ensures stack { self.new.values.stack ≡ self.old.values.stack }
        ensures inputs { (self.new.inputs ≡ self.old.inputs) × (self.new.read ≡ self.old.read) }
    {
        while let Some(item) = self.work.take() {
            if way.ends(&item) {
                return item;
            }
            close(&mut self.values.memory, item);
        }
        unreachable!()
    }
}

// Ends the objects of a block, where the item is the end of one.
fn close(memory: &mut ObjectMemory, item: Item)
    requires { EndsThere memory.old (item_of item ∷ []) }
    ensures { memory.new ≡ closed memory.old (item_of item) }
{
    if let Item::Close(objects, _) = item {
        memory.shut_all(objects.as_slice());
    }
}

impl Run {
    ghost use Rattle.c_machine.specs.States.{run_state};
    ghost use Rattle.std.specs.Prelude.{OnOk};
    ghost use Rattle.c_steps.specs.Jumps.{broken, continued, jumped};
    ghost use Rattle.c_steps.specs.States.{Goes};

    /// `break`: the nearest loop or switch is over.
    pub(crate) fn break_out(&mut self)
        requires lands { CanBreak (work_of self.old.work) }
        requires there { EndsThere self.old.values.memory (work_of self.old.work) }
        ensures { broken (run_state self.old).work (run_state self.old).stack (run_state self.old).memory (run_state self.old).inputs
            ≡ Goes (run_state self.new) }
    {
        self.drop_to(Way::Break);
    }

    /// `continue`: the body of the nearest loop is over.
    pub(crate) fn go_on(&mut self) -> Result<(), NoMemory>
        requires lands { CanContinue (work_of self.old.work) }
        requires there { EndsThere self.old.values.memory (work_of self.old.work) }
        ensures { OnOk result (continued (run_state self.old).work (run_state self.old).stack (run_state self.old).memory (run_state self.old).inputs
            ≡ Goes (run_state self.new)) }
    {
        let end = self.drop_to(Way::Continue);
        self.work.put(end)
    }

    /// `goto`: the items behind the label are next, in the nearest block that has it.
    pub(crate) fn go_to(&mut self, label: u64) -> Result<(), NoMemory>
        requires lands { CanGoTo label (work_of self.old.work) }
        requires there { EndsThere self.old.values.memory (work_of self.old.work) }
        ensures { OnOk result (jumped label (run_state self.old).work (run_state self.old).stack (run_state self.old).memory (run_state self.old).inputs
            ≡ Goes (run_state self.new)) }
    {
        match self.drop_to(Way::Goto(label)) {
            Item::Close(objects, items) => {
                let again = items.clone()?;
                self.work.put(Item::Close(objects, again))?;
                put_behind(&mut self.work, Mark::Label(label), &items)
            }
            _ => unreachable!(),
        }
    }
}
