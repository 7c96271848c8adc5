// A result that has passed its check just now.

ghost use Rattle.std.specs.Prelude.{◌≡◌, false, IfOk, IsTrue, None, Some};
ghost use Rattle.csharp.specs.States.{State};
ghost use Rattle.csharp.specs.Trees.{csexpr_tree};
ghost use Rattle.mem_intervals.specs.Passed.{IsPassed, is_remembered, passed_range, joined_passed, kept_for};

use csharp::{CsExpr, copy_expr, same_expr};
use mem_temps::holds_all;
use num_api::Range;
use std::alloc::{AllocError as NoMemory, Global};
use std::marker::Model;

/// An expression, with a range of its value.
#[derive(Drop)]
pub struct Item {
    pub expr: CsExpr,
    pub range: Range,
}

/// The expression whose check has passed just now, if there is one.
#[derive(Drop)]
pub struct Passed {
    item: Option<Item>,
}

impl Model for Passed {
    ghost use Rattle.std.specs.Prelude.{Option, option_map};
    ghost use Rattle.std.specs.Coded.{codes};
    ghost use Rattle.mem_intervals.specs.Codes.{expr_code};
    ghost use Rattle.mem_intervals.specs.Passed.{Remembered, remembered};

    ghost Value = { Option Remembered };

    ghost coded = { Prim.hlevel (codes, expr_code) };

    ghost view = { λ p. option_map remembered p.item };
}

impl Passed {
    /// None has passed.
    pub fn none() -> Passed
        ensures { result ≡ None }
    {
        Passed { item: None }
    }

    /// This one has, with values in this range.
    pub fn of(alloc: Global, e: &CsExpr, range: Range) -> Result<Passed, NoMemory>
        ensures { IfOk result (λ p. p ≡ Some (record { expr = csexpr_tree e.now; range = range })) }
    {
        let expr = copy_expr(alloc, e)?;
        Ok(Passed {
            item: Some(Item { expr, range }),
        })
    }

    /// The same once more.
    pub fn copy(&self, alloc: Global) -> Result<Passed, NoMemory>
        ensures { IfOk result (λ p. p ≡ self.now) }
    {
        match &self.item {
            Some(item) => Passed::of(alloc, &item.expr, item.range),
            None => Ok(Passed::none()),
        }
    }

    /// The range of an expression that has passed.
    pub fn range_of(&self, e: &CsExpr) -> Option<Range>
        ensures { result ≡ passed_range self.now (csexpr_tree e.now) }
    {
        match &self.item {
            Some(item) => {
                if same_expr(&item.expr, e) {
                    Some(item.range)
                } else {
                    None
                }
            }
            None => None,
        }
    }

    /// What has passed on both sides, with the values of both.
    pub fn joined(&self, alloc: Global, other: &Passed) -> Result<Passed, NoMemory>
        ensures { IfOk result (λ p. p ≡ joined_passed self.now other.now) }
    {
        let item = match &self.item {
            Some(item) => item,
            None => return Ok(Passed::none()),
        };
        match other.range_of(&item.expr) {
            Some(range) => Passed::of(alloc, &item.expr, item.range.hull(range)),
            None => Ok(Passed::none()),
        }
    }

    /// Whether it is known that what has passed has on the other side too, with no other values.
    pub fn covers(&self, other: &Passed) -> bool
        ensures yes { IsTrue result → (s : State) → IsPassed other.now s → IsPassed self.now s }
        ensures no { result ≡ false → IsTrue (is_remembered self.now) }
    {
        let item = match &self.item {
            Some(item) => item,
            None => return true,
        };
        match other.range_of(&item.expr) {
            Some(range) => holds_all(item.range, range),
            None => false,
        }
    }

    /// Keeps what has passed where no object begins or ends.
    pub fn keep_for(&mut self, names: &[u64])
        ensures { self.new ≡ kept_for names.now self.old }
    {
        if !names.is_empty() {
            self.item = None;
        }
    }
}
