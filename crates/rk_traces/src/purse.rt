// Paying what the budget meets.
ghost use Rattle.std.specs.Prelude.{◌≡◌, ◌+◌, ◌≤◌};
ghost use Rattle.rk_traces.specs.Purse.{left};

use rk_base::Budget;

/// Pays what the budget meets, and gives what was paid.
pub fn pay(budget: &mut Budget, cost: u64) -> u64
    requires met { cost ≤ left budget.old }
    requires within { budget.old.used ≤ budget.old.limit }
    ensures cost { result ≡ cost }
    ensures limit { budget.new.limit ≡ budget.old.limit }
    ensures used { budget.new.used ≡ budget.old.used + cost }
    ensures within { budget.new.used ≤ budget.new.limit }
{
    let _met = budget.pay(cost);
    cost
}
