// The positional parameters.
ghost use Rattle.std.specs.Prelude.{◌≡◌, ◌≤◌, drop, length, IfOk};
ghost use Rattle.sh_vars.specs.Positional.{words_of};

use rk_base::{Bytes, NoMemory, WordList};
use std::alloc::Global;
use std::marker::Model;
use std::rc::Rc;

/// The words from which positional parameters are taken: a shell's own, or shared with the shells that it was copied from.
#[derive(Drop)]
enum Words {
    Own(WordList),
    Shared(Rc<WordList>),
}

/// The positional parameters (XCU 2.5.1): words, of which the first may be gone.
#[derive(Drop)]
pub(crate) struct Positional {
    words: Words,
    gone: usize,
}

impl Model for Positional {
    ghost use Rattle.std.specs.Prelude.{◌≤◌, List, ℕ, drop, length};
    ghost use Rattle.sh_vars.specs.Positional.{words_of};

    ghost Value = { List (List ℕ) };

    ghost view = { λ p. drop p.gone (words_of p.words) };

    ghost invariant = { λ p. p.gone ≤ length (words_of p.words) };
}

/// Positional parameters that copies of a shell share.
#[derive(Drop)]
pub(crate) struct Shared {
    words: Rc<WordList>,
    gone: usize,
}

impl Model for Shared {
    ghost use Rattle.std.specs.Prelude.{◌≤◌, List, ℕ, drop, length};

    ghost Value = { List (List ℕ) };

    ghost view = { λ p. drop p.gone p.words.value };

    ghost invariant = { λ p. p.gone ≤ length p.words.value };
}

impl Words {
    fn as_slice(&self) -> &[Bytes]
        ensures { result.now ≡ words_of self.now }
    {
        match self {
            Words::Own(words) => words.as_slice(),
            Words::Shared(words) => words.as_slice(),
        }
    }
}

impl Positional {
    pub(crate) fn new(words: WordList) -> Positional
        ensures { result ≡ words }
    {
        Positional {
            words: Words::Own(words),
            gone: 0,
        }
    }

    /// The parameters, `$1` first.
    pub(crate) fn as_slice(&self) -> &[Bytes]
        ensures { result.now ≡ self.now }
    {
        self.words.as_slice().split_at(self.gone).1
    }

    /// The first n parameters go; none is moved.
    pub(crate) fn shift(&mut self, n: usize)
        requires { n ≤ length self.old }
        ensures { self.new ≡ drop n self.old }
    {
        let left = self.as_slice().len() - n;
        self.gone = self.words.as_slice().len() - left;
    }

    /// The parameters as words.
    pub(crate) fn copy(&self, alloc: Global) -> Result<WordList, NoMemory>
        ensures { IfOk result (λ copy. copy ≡ self.now) }
    {
        copies(alloc, self.as_slice())
    }

    /// The parameters, for copies to share. Words that none shares yet are copied, once.
    pub(crate) fn shared(&self, alloc: Global) -> Result<Shared, NoMemory>
        ensures { IfOk result (λ shared. shared ≡ self.now) }
    {
        match &self.words {
            Words::Own(_) => {
                let words = self.copy(alloc)?;
                let words = Rc::new(alloc, words)?;
                Ok(Shared { words, gone: 0 })
            }
            Words::Shared(words) => {
                let words = words.clone()?;
                Ok(Shared {
                    words,
                    gone: self.gone,
                })
            }
        }
    }

    /// These parameters, which are shared.
    pub(crate) fn sharing(shared: Shared) -> Positional
        ensures { result ≡ shared }
    {
        Positional {
            words: Words::Shared(shared.words),
            gone: shared.gone,
        }
    }
}

fn copies(alloc: Global, words: &[Bytes]) -> Result<WordList, NoMemory>
    ensures { IfOk result (λ copies. copies ≡ words.now) }
{
    let mut copies = WordList::new(Vec::new(alloc));
    'words: for word in words {
        let word = word.copy()?;
        copies.push(word)?;
    }
    Ok(copies)
}
