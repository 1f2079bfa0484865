// What a launched command's descriptors stand for.
ghost use Rattle.std.specs.Prelude.{◌≡◌, ◌↔◌, IsTrue, IfOk, Some, None, true, if◌then◌else◌};
ghost use Rattle.rk_calls.specs.RefMaps.{is_refmap, rise_from, number_of};

use rk_base::{NoMemory, Shared};
use std::alloc::Global;
use std::marker::Model;

/// Pairs of a descriptor of the launched command, 0 to 9, and the launcher's number that it stands for; each
/// descriptor once, ascending. A copy shares them.
#[derive(Debug, Drop, Clone)]
pub struct RefMap {
    pairs: Shared<Vec<(u8, u64)>>,
}

impl Model for RefMap {
    ghost use Rattle.std.specs.Prelude.{◌≡◌, List, ℕ, true};
    ghost use Rattle.rk_calls.specs.RefMaps.{is_refmap};

    ghost Value = { List (ℕ × ℕ) };

    ghost view = { λ m. m.pairs.items };

    ghost invariant = { λ m. is_refmap m.pairs.items ≡ true };
}

fn rises_from(first: u8, pairs: &[(u8, u64)]) -> bool
    ensures { result ≡ rise_from first pairs.now }
{
    let mut last = first;
    'pairs: for (d, _) in pairs {
        if !(last < *d && *d < 10) {
            return false;
        }
        last = *d;
    }
    true
}

#[tactic(auto, unfolding(crate::specs::RefMaps::is_refmap))]
fn is_refmap(pairs: &[(u8, u64)]) -> bool
    ensures { result ≡ is_refmap pairs.now }
{
    match pairs {
        [] => true,
        [(d, _), rest @ ..] => *d < 10 && rises_from(*d, rest),
    }
}

impl RefMap {
    /// The map of these pairs; `None` exactly where a descriptor isn't 0 to 9, or they don't ascend strictly.
    pub fn from_vec(alloc: Global, pairs: Vec<(u8, u64)>) -> Result<Option<RefMap>, NoMemory>
        ensures { IfOk result (λ m. m ≡ (if is_refmap pairs.items then Some pairs.items else None)) }
    {
        if is_refmap(&pairs) {
            let pairs = Shared::new(alloc, pairs)?;
            Ok(Some(RefMap { pairs }))
        } else {
            Ok(None)
        }
    }

    /// The pairs of a descriptor and a local number, ascending by descriptor.
    pub fn as_slice(&self) -> &[(u8, u64)]
        ensures value { result.now ≡ self.now }
        ensures refmap { is_refmap self.now ≡ true }
    {
        self.pairs.get().as_slice()
    }

    /// The number that a descriptor stands for.
    pub fn number_of(&self, descriptor: u8) -> Option<u64>
        ensures { result ≡ number_of descriptor self.now }
    {
        'pairs: for (d, number) in self.pairs.get().as_slice() {
            if *d == descriptor {
                return Some(*number);
            }
        }
        None
    }

    /// Whether both are the same pairs.
    pub fn same(&self, other: &RefMap) -> bool
        ensures { IsTrue result ↔ (self.now ≡ other.now) }
    {
        self.pairs.get().as_slice() == other.pairs.get().as_slice()
    }

    /// A copy, which shares the pairs.
    pub fn copy(&self) -> Result<RefMap, NoMemory>
        ensures { IfOk result (λ m. m ≡ self.now) }
    {
        let pairs = self.pairs.copy()?;
        Ok(RefMap { pairs })
    }
}
