// The budget of a run.
ghost use Rattle.std.specs.Prelude.{◌≡◌, ◌↔◌, ◌+◌, ◌-◌, ◌≤◌, IsTrue, IfSome, IsNone, true, false};

use std::marker::Model;

/// A limit on turns, and the turns that were paid. The total never passes the limit.
#[derive(Debug, Drop)]
pub struct Budget {
    limit: u64,
    used: u64,
}

impl Model for Budget {
    ghost use Rattle.std.specs.Prelude.{◌<◌, ◌≤◌};
    ghost use Rattle.rk_base.specs.Paid.{Paid};

    ghost Value = { Paid };

    ghost view = { λ b. record { limit = b.limit; used = b.used } };

    ghost invariant = { λ b. (0 < b.limit) × (b.used ≤ b.limit) };
}

impl Budget {
    /// A budget of so many turns, of which none was paid; `None` exactly for 0.
    pub fn new(n: u64) -> Option<Budget>
        ensures none { IsNone result ↔ (n ≡ 0) }
        ensures some { IfSome result (λ b. (b.limit ≡ n) × (b.used ≡ 0)) }
    {
        if n == 0 {
            None
        } else {
            Some(Budget { limit: n, used: 0 })
        }
    }

    /// Pays so many turns, where the total stays within the limit; else nothing changes.
    pub fn pay(&mut self, cost: u64) -> bool
        ensures paid { IsTrue result ↔ (self.old.used + cost ≤ self.old.limit) }
        ensures added { result ≡ true → self.new ≡ record self.old { used = self.old.used + cost } }
        ensures refused { result ≡ false → self.new ≡ self.old }
    {
        if cost <= self.limit - self.used {
            self.used += cost;
            true
        } else {
            false
        }
    }

    /// The turns that were paid.
    pub fn used(&self) -> u64
        ensures used { result ≡ self.now.used }
        ensures within { result ≤ self.now.limit }
    {
        self.used
    }

    /// The turns that are left.
    pub fn left(&self) -> u64
        ensures left { result ≡ self.now.limit - self.now.used }
        ensures within { self.now.used ≤ self.now.limit }
    {
        self.limit - self.used
    }
}
