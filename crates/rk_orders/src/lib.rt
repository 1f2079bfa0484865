//! The waves of a plan may be run in any order.
#![tactic(auto)]

ghost use Rattle.rk_orders.specs.Orders.{GoInAnyOrder};

/// A law that needs no run: the steps of each wave of a plan may be taken in any order that keeps each command's own, one wave
/// after another. Each call has the answer that it had in the run, and the output, the error text and the snapshot are the run's.
pub fn in_any_order()
    ensures { GoInAnyOrder }
{}
