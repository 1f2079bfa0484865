// A byte that each match holds.
ghost use Rattle.std.specs.Prelude.{◌≡◌, IfSome};
ghost use Rattle.ut_bre.specs.Expressions.{expression};
ghost use Rattle.ut_bre.specs.Needing.{later, needed_item, needed, IsHeld, IsNeeded};
ghost use Rattle.ut_bre.specs.Trees.{tree_of, trees_of};

use crate::bre::Bre;
use crate::run::byte_of;
use crate::tree::Item;

fn later(found: Option<u8>, more: Option<u8>) -> Option<u8>
    ensures { result ≡ later found more }
{
    match more {
        None => found,
        Some(b) => Some(b),
    }
}

// The last plain byte that an item needs.
#[cycle(needed)]
fn needed_item(item: &Item) -> Option<u8>
    ensures { result ≡ needed_item (tree_of item.now) }
{
    match item {
        Item::One(times, one) => byte_of(times.least, one),
        Item::Group(times, _, body) => {
            if times.least == 0 {
                None
            } else {
                needed(body.as_slice())
            }
        }
    }
}

// Depth: 64 levels of groups.
#[cycle(needed)]
fn needed(items: &[Item]) -> Option<u8>
    ensures { result ≡ needed (trees_of items.now) }
{
    let mut found = None;
    'items: for item in items {
        found = later(found, needed_item(item));
    }
    found
}

impl Bre {
    /// A byte that each match holds, where one is told: nothing is found in a line without it. It is the last plain one
    /// that the items can't do without.
    pub fn needed(&self) -> Option<u8>
        ensures value { result ≡ needed (expression self.now).items }
        ensures held { IfSome result (IsHeld (expression self.now)) }
        ensures needed { IfSome result (IsNeeded (expression self.now)) }
    {
        needed(self.items.as_slice())
    }
}
