// Contents, each with a number.
ghost use Rattle.std.specs.Prelude.{◌≡◌, ◌↔◌, [], IfOk, IsTrue, OnOk, OnErr, Some, slice_get, option_copied};
ghost use Rattle.std.specs.List.{IsDistinct};
ghost use Rattle.rk_base.specs.Text.{Text, same_text};
ghost use Rattle.rk_content.specs.Contents.{Keeps, with_text};

use indexmap::IndexSet;
use rk_base::{Bytes, NoMemory};
use std::alloc::Global;
use std::marker::Model;

/// The number of a content among those of the `Contents` that gave it, from 0 on, in the order in which they came.
#[derive(Clone, Copy, PartialEq, Eq, Debug)]
pub struct ContentId {
    number: usize,
}

impl Model for ContentId {
    ghost use Rattle.std.specs.Prelude.{ℕ};

    ghost Value = { ℕ };

    ghost view = { λ id. id.number };

    ghost inverse = { λ n. record { number = n } };
}

impl ContentId {
    /// The number itself.
    pub fn number(self) -> usize
        ensures { result ≡ self }
    {
        self.number
    }
}

/// Contents, in the order in which they came. Each stands once.
#[derive(Debug, Drop)]
pub struct Contents {
    texts: IndexSet<Bytes>,
}

impl Model for Contents {
    ghost use Rattle.std.specs.Prelude.{List};
    ghost use Rattle.std.specs.List.{IsDistinct};
    ghost use Rattle.rk_base.specs.Text.{Text, same_text};

    ghost Value = { List Text };

    ghost view = { λ c. c.texts.keys };

    ghost invariant = { λ c. IsDistinct same_text c.texts.keys };
}

impl Contents {
    /// No contents.
    pub fn new(alloc: Global) -> Contents
        ensures { result ≡ [] }
    {
        Contents {
            texts: IndexSet::new(alloc),
        }
    }

    /// The number of a content, which is added behind the others where it is new. Its bytes are shared, not copied, and hashed
    /// once. It fails for want of memory alone.
    pub fn put(&mut self, bytes: &Bytes) -> Result<ContentId, NoMemory>
        ensures number { IfOk result (λ id. slice_get self.new id ≡ Some bytes.now) }
        ensures all { OnOk result (self.new ≡ with_text self.old bytes.now) }
        ensures err { OnErr result (self.new ≡ self.old) }
        // Numbers that were given before keep their bytes.
        ensures kept { Keeps self.old self.new }
    {
        let copy = bytes.copy()?;
        let (number, _) = self.texts.insert_full(copy)?;
        Ok(ContentId { number })
    }

    /// The bytes of a number; `None` exactly where it is none of these.
    pub fn get(&self, id: ContentId) -> Option<&Bytes>
        ensures { option_copied result ≡ slice_get self.now id }
    {
        self.texts.get_index(id.number)
    }

    /// Whether two of them are the same, by their numbers alone.
    pub fn is_same(&self, a: ContentId, b: ContentId) -> bool
        ensures { (text other : Text) → slice_get self.now a ≡ Some text → slice_get self.now b ≡ Some other → (IsTrue result ↔ (text ≡ other)) }
    {
        let _ = &self.texts;
        a.number == b.number
    }

    /// All of them, in the order of their numbers. No two are the same.
    pub fn as_slice(&self) -> &[Bytes]
        ensures value { result.now ≡ self.now }
        ensures apart { IsDistinct same_text self.now }
    {
        self.texts.as_slice()
    }
}
