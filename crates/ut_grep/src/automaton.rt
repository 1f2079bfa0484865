// Texts, of which any is sought in a line by one pass over it.
ghost use Rattle.std.specs.Prelude.{◌≡◌, IfOk, Bool, true, false};
ghost use Rattle.rk_base.specs.Text.{Text};
ghost use Rattle.ut_grep.specs.Standing.{stands_any};
ghost use Rattle.ut_grep.specs.Tries.{texts_of, IsWhole};

use crate::trie::Trie;
use rk_base::{Bytes, NoMemory, sort_texts};
use std::alloc::Global;

/// An automaton (Aho and Corasick) of texts: each of its states is a front of a text, and while a line is read, its state is
/// the longest end of what was read that is one.
#[derive(Drop)]
pub struct Automaton {
    pub(crate) trie: Trie,
    ghost whole: { IsWhole trie },
}

impl Automaton {
    /// The automaton of these texts.
    pub(crate) fn new(alloc: Global, mut texts: Vec<Bytes>) -> Result<Automaton, NoMemory>
        ensures { IfOk result (λ a. (whole : Bool) (line : Text) → stands_any whole (texts_of a.trie) line ≡ stands_any whole texts.items line) }
    {
        sort_texts(&mut texts)?;
        let trie = Trie::new(alloc, texts)?;
        Ok(Automaton { trie })
    }

    /// Whether a text stands in a line.
    pub(crate) fn occurs(&self, line: &[u8]) -> bool
        ensures { result ≡ stands_any false (texts_of self.now.trie) line.now }
    {
        let mut at = 0usize;
        if self.trie.states[at].holds {
            return true;
        }
        for b in line {
            at = self.trie.step(at, *b);
            if self.trie.states[at].holds {
                return true;
            }
        }
        false
    }

    /// Whether a line is one of the texts.
    pub(crate) fn is_text(&self, line: &[u8]) -> bool
        ensures { result ≡ stands_any true (texts_of self.now.trie) line.now }
    {
        let mut at = 0usize;
        for b in line {
            match self.trie.next(at, *b) {
                Some(next) => at = next,
                None => return false,
            }
        }
        self.trie.states[at].is_text
    }

    /// Whether a text stands in a line, or is the whole of it.
    pub(crate) fn stands(&self, whole: bool, line: &[u8]) -> bool
        ensures { result ≡ stands_any whole (texts_of self.now.trie) line.now }
    {
        if whole {
            self.is_text(line)
        } else {
            self.occurs(line)
        }
    }
}
