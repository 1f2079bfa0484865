// Lists of names.
ghost use Rattle.std.specs.Prelude.{◌≡◌, ◌↔◌, ◌&&◌, IsTrue, IfOk, Some, None, true, length, if◌then◌else◌};
ghost use Rattle.std.specs.List.{list_all};
ghost use Rattle.std.specs.Ordering.{is_lt};
ghost use Rattle.rk_base.specs.Text.{text_cmp};
ghost use Rattle.rk_base.specs.Canonical.{is_name};
ghost use Rattle.rk_base.specs.Names.{ascend_from, are_names};

use crate::{Name, NoMemory, Shared};
use std::alloc::Global;
use std::cmp::Ordering;
use std::marker::Model;

/// Names, strictly ascending by their bytes. A copy shares them.
#[derive(Debug, Drop, Clone)]
pub struct NameList {
    names: Shared<Vec<Name>>,
}

impl Model for NameList {
    ghost use Rattle.std.specs.Prelude.{◌≡◌, List, ℕ, true};
    ghost use Rattle.rk_base.specs.Names.{are_names};

    ghost Value = { List (List ℕ) };

    ghost view = { λ n. n.names.items };

    ghost invariant = { λ n. are_names n.names.items ≡ true };
}

fn is_below(a: &[u8], b: &[u8]) -> bool
    ensures { result ≡ is_lt (text_cmp a.now b.now) }
{
    matches!(a.cmp(b), Ordering::Less)
}

// Names by their type; whether they ascend from a text on.
fn ascends_from(first: &[u8], names: &[Name]) -> bool
    ensures { result ≡ (list_all is_name names.now && ascend_from first.now names.now) }
{
    let mut last = first;
    'names: for name in names {
        let name = name.as_slice();
        if !is_below(last, name) {
            return false;
        }
        last = name;
    }
    true
}

#[tactic(auto, unfolding(crate::specs::Names::are_names))]
fn are_names(names: &[Name]) -> bool
    ensures { result ≡ are_names names.now }
{
    match names {
        [] => true,
        [first, rest @ ..] => ascends_from(first.as_slice(), rest),
    }
}

impl NameList {
    /// The list of these names; `None` exactly where they don't ascend strictly.
    pub fn from_vec(alloc: Global, names: Vec<Name>) -> Result<Option<NameList>, NoMemory>
        ensures { IfOk result (λ n. n ≡ (if are_names names.items then Some names.items else None)) }
    {
        if are_names(&names) {
            let names = Shared::new(alloc, names)?;
            Ok(Some(NameList { names }))
        } else {
            Ok(None)
        }
    }

    /// The names, in their order.
    pub fn as_slice(&self) -> &[Name]
        ensures value { result.now ≡ self.now }
        ensures names { are_names self.now ≡ true }
    {
        self.names.get().as_slice()
    }

    /// How many names there are.
    pub fn len(&self) -> usize
        ensures { result ≡ length self.now }
    {
        self.names.get().len()
    }

    /// Whether there are none.
    pub fn is_empty(&self) -> bool
        ensures { IsTrue result ↔ (length self.now ≡ 0) }
    {
        self.names.get().is_empty()
    }

    /// Whether both are the same names.
    pub fn same(&self, other: &NameList) -> bool
        ensures { IsTrue result ↔ (self.now ≡ other.now) }
    {
        self.names.get().as_slice() == other.names.get().as_slice()
    }

    /// A copy, which shares the names.
    pub fn copy(&self) -> Result<NameList, NoMemory>
        ensures { IfOk result (λ n. n ≡ self.now) }
    {
        let names = self.names.copy()?;
        Ok(NameList { names })
    }
}
