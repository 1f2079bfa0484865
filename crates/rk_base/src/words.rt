// Lists of words and of variables.
ghost use Rattle.std.specs.Prelude.{◌≡◌, ◌↔◌, ◌++◌, ◌∷◌, [], IsTrue, IfOk, OnOk, OnErr, List, ℕ, length, nat_eq};
ghost use Rattle.std.specs.Hash as fed;
ghost use Rattle.std.specs.Cmp.{partial_equiv_from_equiv, nat_eq_equiv, unsigned_Decides};
ghost use Rattle.std.specs.Cmp.Lexicographic.{pointwise, lists_equiv};

use crate::{Bytes, NoMemory};
use std::alloc::Global;
use std::hash::{Hash, Hasher};
use std::marker::Model;

/// Words, each a byte string.
#[derive(Debug, Drop, Clone)]
pub struct WordList {
    words: Vec<Bytes>,
}

impl Model for WordList {
    ghost use Rattle.std.specs.Prelude.{List, ℕ};

    ghost Value = { List (List ℕ) };

    ghost view = { λ w. w.words.items };
}

impl WordList {
    /// These words, in their order.
    pub fn new(words: Vec<Bytes>) -> WordList
        ensures { result ≡ words.items }
    {
        WordList { words }
    }

    /// The words, in their order.
    pub fn as_slice(&self) -> &[Bytes]
        ensures { result.now ≡ self.now }
    {
        self.words.as_slice()
    }

    /// How many words there are.
    pub fn len(&self) -> usize
        ensures { result ≡ length self.now }
    {
        self.words.len()
    }

    /// One word more, at the end.
    pub fn push(&mut self, word: Bytes) -> Result<(), NoMemory>
        ensures ok { OnOk result (self.new ≡ self.old ++ word ∷ []) }
        ensures err { OnErr result (self.new ≡ self.old) }
    {
        self.words.push(word)?;
        Ok(())
    }

    /// Whether both are the same words.
    pub fn same(&self, other: &WordList) -> bool
        ensures { IsTrue result ↔ (self.now ≡ other.now) }
    {
        self.words.as_slice() == other.words.as_slice()
    }

    /// A copy of the words, which shares their bytes.
    pub fn copy(&self) -> Result<WordList, NoMemory>
        ensures { IfOk result (λ w. w ≡ self.now) }
    {
        let copy = self.clone()?;
        Ok(copy)
    }
}

impl PartialEq for WordList {
    ghost eq = { pointwise (pointwise nat_eq) };

    ghost laws = { partial_equiv_from_equiv (lists_equiv (lists_equiv nat_eq_equiv)) };

    fn eq(&self, other: &WordList) -> bool {
        self.as_slice() == other.as_slice()
    }
}

impl Eq for WordList {
    ghost laws = { lists_equiv (lists_equiv nat_eq_equiv) };
}

impl Hash for WordList {
    ghost hash_input = { fed.slice (fed.slice fed.u8) };

    ghost respects_eq = { (fed.items_Alike (fed.items_Alike (fed.same_Alike fed.u8 unsigned_Decides))).fed };

    fn hash<H: Hasher>(&self, state: &mut H) {
        self.as_slice().hash(state);
    }
}
