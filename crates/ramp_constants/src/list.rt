// Steps in rising order.
#![tactic(auto)]

ghost use Rattle.std.specs.Prelude.{◌≡◌, ◌↔◌, ℤ, IfOk, Contains, length};
ghost use Rattle.num_api.specs.Steps.{IsRising, least};

use std::alloc::AllocError as NoMemory;
use std::marker::Model;

/// Steps in rising order.
#[derive(Drop)]
pub struct StepList {
    items: Vec<i128>,
}

impl Model for StepList {
    ghost use Rattle.std.specs.Prelude.{List, ℤ};

    ghost Value = { List ℤ };

    ghost view = { λ l. l.items.items };
}

impl StepList {
    /// These numbers in rising order, each once.
    pub fn of_numbers(mut numbers: Vec<i128>) -> Result<StepList, NoMemory>
        ensures rising { IfOk result IsRising }
        ensures same { IfOk result (λ l. (n : ℤ) → Contains l n ↔ Contains numbers.items n) }
    {
        numbers.sort()?;
        numbers.dedup();
        Ok(StepList { items: numbers })
    }

    /// How many there are.
    pub fn count(&self) -> u64
        ensures { result ≡ length self.now }
    {
        self.items.len() as u64
    }

    /// The least of them that is not below `n`, or `None` where there is none.
    pub fn least(&self, n: i128) -> Option<i128>
        requires { IsRising self.now }
        ensures { result ≡ least self.now n }
    {
        let first = self.items.partition_point(|step| *step < n);
        self.items.get(first).copied()
    }
}
