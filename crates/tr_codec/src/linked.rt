// Nodes in use, told by numbers.
ghost use Rattle.std.specs.Prelude.{◌≡◌, ◌↔◌, ◌++◌, ◌∷◌, ◌<◌, ◌≤◌, ℕ, List, [], length, IsTrue, IfSome, IfNone};
ghost use Rattle.tr_nodes.specs.Tails.{AreLinked, Uses};
ghost use Rattle.tr_codec.specs.Rows.{InUse};

use tr_record::StepPool;

// Whether each node between two numbers stands right behind that of its rest.
fn are_linked(pool: &StepPool, used: usize, head: usize) -> bool
    requires order { used < head }
    requires within { head ≤ length pool.now.nodes }
    ensures { IsTrue result ↔ AreLinked pool.now.nodes used head }
{
    'nodes: for k in used + 1..head {
        if pool.next(k + 1) != k {
            return false;
        }
    }
    true
}

// How many nodes are in use after steps of this number, where so many were. Each node is looked at once, in all.
fn used_after(pool: &StepPool, used: usize, head: usize) -> Option<usize>
    requires { head ≤ length pool.now.nodes }
    ensures some { IfSome result (λ now. Uses pool.now.nodes used head now) }
    ensures none { IfNone result ((now : ℕ) → Uses pool.now.nodes used head now → ⊥) }
{
    if head <= used {
        Some(used)
    } else if are_linked(pool, used, head) {
        Some(head)
    } else {
        None
    }
}

/// So many nodes are in use after one number more, unless others were skipped.
pub(crate) fn in_use_after(pool: &StepPool, in_use: Option<usize>, head: usize) -> Option<usize>
    requires { head ≤ length pool.now.nodes }
    ensures { (heads : List ℕ) → InUse pool.now.nodes heads in_use → InUse pool.now.nodes (heads ++ head ∷ []) result }
{
    match in_use {
        None => None,
        Some(used) => used_after(pool, used, head),
    }
}
