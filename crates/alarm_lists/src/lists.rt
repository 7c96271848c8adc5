// Lists in order.
#![tactic(auto)]

ghost use Rattle.std.specs.Prelude.{◌≡◌, true, false, [], ◌∷◌, All, Contains, IfOk, OnOk};
ghost use Rattle.std.specs.declared.cmp.Ordering.TheVariants as orders;
ghost use Rattle.c_syntax.specs.Admission.{IsProper};
ghost use Rattle.c_syntax.specs.declared.alarm.Alarm.{Alarm as AlarmValue};
ghost use Rattle.mem_shown.specs.Hulls.{AreOfOneForm};
ghost use Rattle.alarm_lists.specs.Lists.{AreAlike, HaveOneForm, IsAdded, IsInOrderOf, IsMadeOne, order_of};
ghost use Rattle.alarm_lists.specs.Lists as lists;

use crate::merging::merge_alarms;
use crate::order::alarm_order;
use c_syntax::{Alarm, Alarms, Shown};
use std::alloc::{AllocError as NoMemory, Global};
use std::cmp::Ordering;

/// The alarms in order, those of one chain, place and kind made one.
pub fn in_order(alloc: Global, alarms: Vec<Alarm>) -> Result<Alarms, NoMemory>
    requires form { HaveOneForm alarms.items }
    requires proper { All (λ x. IsProper x.shown) alarms.items }
    ensures order { IfOk result (IsInOrderOf alarms.items) }
    ensures none { IfOk result (λ sorted. alarms.items ≡ [] → sorted ≡ []) }
    ensures one { IfOk result (λ sorted. (x : AlarmValue) → alarms.items ≡ x ∷ [] → sorted ≡ x ∷ []) }
{
    let sorted = made_one(alloc, alarms)?;
    Ok(Alarms::from_vec(sorted))
}

/// The alarms sorted, neighbours of one chain, place and kind made one where they show operands of one form.
pub fn made_one(alloc: Global, alarms: Vec<Alarm>) -> Result<Vec<Alarm>, NoMemory>
    requires proper { All (λ x. IsProper x.shown) alarms.items }
    ensures made { IfOk result (λ sorted. IsMadeOne alarms.items sorted.items) }
    ensures none { IfOk result (λ sorted. alarms.items ≡ [] → sorted.items ≡ []) }
    ensures one { IfOk result (λ sorted. (x : AlarmValue) → alarms.items ≡ x ∷ [] → sorted.items ≡ x ∷ []) }
{
    let mut rest = alarms;
    rest.sort_by(|a, b| alarm_order(b, a))?;
    let mut done = Vec::new(alloc);
    while let Some(alarm) = rest.pop() {
        add_alarm(alloc, alarm, &mut done)?;
    }
    Ok(done)
}

// Puts an alarm behind the others, or makes it one with the last of them where they may be one.
fn add_alarm(alloc: Global, alarm: Alarm, done: &mut Vec<Alarm>) -> Result<(), NoMemory>
    requires proper { All (λ x. IsProper x.shown) done.old.items }
    requires alarm { IsProper alarm.shown }
    ensures { OnOk result (IsAdded done.old.items alarm done.new.items) }
{
    let Some(last) = done.pop() else {
        done.push(alarm)?;
        return Ok(());
    };
    if may_be_one(&last, &alarm) {
        let both = merge_alarms(alloc, last, alarm)?;
        done.push(both)?;
    } else {
        done.push(last)?;
        done.push(alarm)?;
    }
    Ok(())
}

// Whether alarms are of one chain, place and kind, and show operands of one form.
fn may_be_one(a: &Alarm, b: &Alarm) -> bool
    ensures alike { result ≡ true → AreAlike a.now b.now × AreOfOneForm a.now.shown b.now.shown }
    ensures apart { result ≡ false → order_of a.now b.now ≡ orders.Equal → AreOfOneForm a.now.shown b.now.shown → ⊥ }
{
    match alarm_order(a, b) {
        Ordering::Equal => form_number(&a.shown) == form_number(&b.shown),
        Ordering::Less | Ordering::Greater => false,
    }
}

// A number for each form of what is shown.
fn form_number(shown: &Shown) -> u8
    ensures { result ≡ lists.form_number shown.now }
{
    match shown {
        Shown::Number { .. } => 0,
        Shown::One(_) => 1,
        Shown::Pair(..) => 2,
        Shown::Marks { .. } => 3,
        Shown::Ends { .. } => 4,
    }
}
