// What it means that functions have an order.
#![tactic(auto)]

ghost use Rattle.c_rules_calls.specs.Graph.{OrdersExcludeClosedLists};

/// Where functions have an order in which each stands after those that it calls, no calls lead from a function back to
/// itself.
pub fn orders_exclude_closed_lists()
    ensures { OrdersExcludeClosedLists }
{}
