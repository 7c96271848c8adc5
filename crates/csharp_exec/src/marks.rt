// What is looked for among items.
#![tactic(auto, using(csharp::proofs::CodeTrees::the_code_trees))]

ghost use Rattle.std.specs.Prelude.{◌≡◌, option_map};
ghost use Rattle.csharp.specs.Trees.{csstmt_tree, csstmts_from};
ghost use Rattle.csharp.specs.Meaning as meaning;
ghost use Rattle.csharp_exec.specs.Told.{mark_of};

use block_mem::Value;
use csharp::CsStmt;

/// What is looked for among items.
#[derive(Clone, Copy, PartialEq, Eq)]
pub enum Mark {
    Label(u64),
    Case(i128),
    Default,
}

/// Whether an item is what is looked for.
pub fn is_mark(mark: Mark, item: &CsStmt) -> bool
    ensures { result ≡ meaning.is_mark (mark_of mark) (csstmt_tree item.now) }
{
    match mark {
        Mark::Label(label) => is_label(label, item),
        Mark::Case(value) => is_case(value, item),
        Mark::Default => is_default(item),
    }
}

fn is_label(label: u64, item: &CsStmt) -> bool
    ensures { result ≡ meaning.is_mark (meaning.AtLabel label) (csstmt_tree item.now) }
{
    match item {
        CsStmt::Label { label: own, .. } => label == *own,
        _ => false,
    }
}

fn is_case(value: i128, item: &CsStmt) -> bool
    ensures { result ≡ meaning.is_mark (meaning.AtCase value) (csstmt_tree item.now) }
{
    match item {
        CsStmt::Case { value: own } => value == *own,
        _ => false,
    }
}

fn is_default(item: &CsStmt) -> bool
    ensures { result ≡ meaning.is_mark meaning.AtDefault (csstmt_tree item.now) }
{
    match item {
        CsStmt::Default => true,
        _ => false,
    }
}

/// Whether one of the items is what is looked for.
pub fn has(mark: Mark, items: &[CsStmt]) -> bool
    ensures { result ≡ meaning.has (mark_of mark) (csstmts_from items.now) }
{
    for item in items {
        if is_mark(mark, item) {
            return true;
        }
    }
    false
}

/// Where a switch goes on.
pub fn chosen(v: Value, items: &[CsStmt]) -> Option<Mark>
    ensures { option_map mark_of result ≡ meaning.chosen v (csstmts_from items.now) }
{
    match v {
        Value::Int(_, n) => if has(Mark::Case(n), items) {
            Some(Mark::Case(n))
        } else if has(Mark::Default, items) {
            Some(Mark::Default)
        } else {
            None
        },
        Value::Ptr(_) | Value::Null => None,
    }
}
