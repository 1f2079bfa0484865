// Lists that grow at their fronts.
ghost use Rattle.std.specs.Prelude.{◌≡◌, ◌∷◌, ◌++◌, ◌↔◌, [], reverse, IfOk, OnOk, IsTrue, MatchOption};
ghost use Rattle.sh_nodes.specs.Rows.{listed};

use rk_base::NoMemory;
use std::alloc::Global;
use std::marker::Model;
use std::mem;

// The items of a row, those of two or more from the last on.
#[derive(Drop)]
enum Items<T> {
    Empty,
    One(T),
    Many(Vec<T>),
}

/// A list; one of a single item takes no memory.
#[derive(Drop)]
pub struct Row<T> {
    alloc: Global,
    items: Items<T>,
}

impl<T> Model for Row<T> {
    ghost use Rattle.std.specs.Prelude.{List};
    ghost use Rattle.sh_nodes.specs.Rows.{listed};

    ghost Value = { List T };

    ghost view = { λ row. listed row.items };
}

impl<T> Row<T> {
    /// No items.
    pub fn new(alloc: Global) -> Row<T>
        ensures { result ≡ [] }
    {
        Row {
            alloc,
            items: Items::Empty,
        }
    }

    /// Whether there are none.
    pub fn is_empty(&self) -> bool
        ensures { IsTrue result ↔ (self.now ≡ []) }
    {
        match &self.items {
            Items::Empty => true,
            Items::One(_) => false,
            Items::Many(items) => items.is_empty(),
        }
    }
}

// One item, in no more room than it takes.
fn alone<T: Drop>(alloc: Global, item: T) -> Result<Vec<T>, NoMemory>
    ensures { IfOk result (λ items. items.items ≡ item ∷ []) }
{
    let mut items = Vec::new(alloc);
    items.reserve_exact(1)?;
    items.push(item)?;
    Ok(items)
}

// Two items, of which the first was put last.
fn two<T: Drop>(alloc: Global, second: T, first: T) -> Result<Items<T>, NoMemory>
    ensures { IfOk result (λ items. listed items ≡ first ∷ second ∷ []) }
{
    let mut items = Vec::new(alloc);
    items.push(second)?;
    items.push(first)?;
    Ok(Items::Many(items))
}

impl<T: Drop> Row<T> {
    /// Puts an item in front.
    pub fn add(&mut self, item: T) -> Result<(), NoMemory>
        ensures { OnOk result (self.new ≡ item ∷ self.old) }
    {
        if let Items::Many(items) = &mut self.items {
            items.push(item)?;
            return Ok(());
        }
        self.items = match mem::replace(&mut self.items, Items::Empty) {
            Items::Empty => Items::One(item),
            Items::One(second) => two(self.alloc, second, item)?,
            Items::Many(_) => unreachable!(),
        };
        Ok(())
    }

    // Puts items in front, given from the last on.
    fn add_many(&mut self, mut front: Vec<T>) -> Result<(), NoMemory>
        ensures { OnOk result (self.new ≡ reverse front.items ++ self.old) }
    {
        self.items = match mem::replace(&mut self.items, Items::Empty) {
            Items::Empty => Items::Many(front),
            Items::One(last) => {
                front.insert(0, last)?;
                Items::Many(front)
            }
            Items::Many(mut items) => {
                items.append(&mut front)?;
                Items::Many(items)
            }
        };
        Ok(())
    }

    /// Puts a list in front.
    pub fn add_all(&mut self, front: Row<T>) -> Result<(), NoMemory>
        ensures { OnOk result (self.new ≡ front ++ self.old) }
    {
        match front.items {
            Items::Empty => Ok(()),
            Items::One(item) => self.add(item),
            Items::Many(items) => self.add_many(items),
        }
    }

    /// Takes the first item.
    pub fn take_first(&mut self) -> Option<T>
        ensures { MatchOption result (self.old ≡ []) (λ x. self.old ≡ x ∷ self.new) }
    {
        if let Items::Many(items) = &mut self.items {
            return items.pop();
        }
        match mem::replace(&mut self.items, Items::Empty) {
            Items::Empty => None,
            Items::One(item) => Some(item),
            Items::Many(_) => unreachable!(),
        }
    }

    /// The items, from the first to the last, in no more room than they take.
    pub fn into_items(self) -> Result<Vec<T>, NoMemory>
        ensures { IfOk result (λ items. items.items ≡ self) }
    {
        let Row { alloc, items } = self;
        match items {
            Items::Empty => Ok(Vec::new(alloc)),
            Items::One(item) => alone(alloc, item),
            Items::Many(mut items) => {
                items.reverse();
                items.shrink_to_fit();
                Ok(items)
            }
        }
    }
}
