// What commands have none of, and the word that is nothing.
ghost use Rattle.std.specs.Prelude.{◌≡◌, IfOk};
ghost use Rattle.sh_ast.specs.Commands as c;
ghost use Rattle.sh_nodes.specs.Nodes.{empty_word};

use crate::lists::words_of;
use crate::row::Row;
use crate::words::word_of;
use rk_base::NoMemory;
use sh_ast::{Assignments, Redirects, Word, Words};
use std::alloc::Global;
use std::marker::Model;
use std::rc::Rc;

/// Lists of no items, shared by all commands of a text that have no assignments, no words or no redirections; and the word
/// of no parts.
#[derive(Drop)]
pub struct Empties {
    assignments: Rc<Assignments>,
    words: Rc<Words>,
    redirects: Rc<Redirects>,
    word: Rc<Word>,
}

impl Model for Empties {
    ghost use Rattle.std.specs.Prelude.{◌≡◌};
    ghost use Rattle.sh_ast.specs.Commands as c;
    ghost use Rattle.sh_nodes.specs.Nodes.{empty_word};

    ghost Value = { Unit {0} };

    ghost view = { λ e. tt };

    ghost invariant = { λ e. (c.assignments e.assignments.value ≡ c.no_assignments) × ((c.words e.words.value ≡ c.no_words) × ((c.redirects e.redirects.value ≡ c.no_redirects) × (c.word e.word.value ≡ empty_word))) };
}

impl Empties {
    /// The lists and the word; want of memory is for them.
    pub fn new(alloc: Global) -> Result<Empties, NoMemory> {
        let assignments = Assignments {
            items: Vec::new(alloc),
        };
        let redirects = Redirects {
            items: Vec::new(alloc),
        };
        let assignments = Rc::new(alloc, assignments)?;
        let words = words_of(alloc, Row::new(alloc))?;
        let redirects = Rc::new(alloc, redirects)?;
        let word = word_of(alloc, Row::new(alloc), Vec::new(alloc))?;
        Ok(Empties {
            assignments,
            words,
            redirects,
            word,
        })
    }

    /// No assignments.
    pub fn assignments(&self) -> Result<Rc<Assignments>, NoMemory>
        ensures { IfOk result (λ r. c.assignments r.value ≡ c.no_assignments) }
    {
        let none = self.assignments.clone()?;
        Ok(none)
    }

    /// No words.
    pub fn words(&self) -> Result<Rc<Words>, NoMemory>
        ensures { IfOk result (λ r. c.words r.value ≡ c.no_words) }
    {
        let none = self.words.clone()?;
        Ok(none)
    }

    /// The word that is nothing.
    pub fn word(&self) -> Result<Rc<Word>, NoMemory>
        ensures { IfOk result (λ r. c.word r.value ≡ empty_word) }
    {
        let none = self.word.clone()?;
        Ok(none)
    }

    /// No redirections.
    pub fn redirects(&self) -> Result<Rc<Redirects>, NoMemory>
        ensures { IfOk result (λ r. c.redirects r.value ≡ c.no_redirects) }
    {
        let none = self.redirects.clone()?;
        Ok(none)
    }
}
