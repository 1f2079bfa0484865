// What nodes share.
ghost use Rattle.std.specs.Prelude.{◌≡◌, ◌∷◌, IfOk, map};
ghost use Rattle.sh_ast.specs.Words as w;
ghost use Rattle.sh_ast.specs.Commands as c;
ghost use Rattle.sh_nodes.specs.Nodes.{word_alone, word_told, words_seen};

use crate::empties::Empties;
use crate::row::Row;
use crate::simple::{of_one_word, redirects_of, simple_of};
use crate::singles::Singles;
use crate::texts::Texts;
use crate::words::NewWord;
use rk_base::{Bytes, NoMemory};
use sh_ast::{Assignment, Parameter, Part, Redirect, Redirects, SimpleCommand, Word};
use std::alloc::Global;
use std::marker::Model;
use std::rc::Rc;

/// What the nodes of a script share: what commands have none of, and words of one part and texts that came lately.
#[derive(Drop)]
pub struct Shared {
    empties: Empties,
    singles: Singles,
    texts: Texts,
}

impl Model for Shared {
    ghost Value = { Unit {0} };

    ghost view = { λ s. tt };
}

impl Shared {
    /// Nothing came yet.
    pub fn new(alloc: Global) -> Result<Shared, NoMemory> {
        let empties = Empties::new(alloc)?;
        let singles = Singles::new(alloc)?;
        Ok(Shared {
            empties,
            singles,
            texts: Texts::new(alloc),
        })
    }

    /// A variable's name, or what stands for itself, shared where it came lately.
    pub fn text(&mut self, alloc: Global, text: Bytes) -> Result<Bytes, NoMemory>
        ensures { IfOk result (λ b. b ≡ text) }
    {
        self.texts.shared(alloc, text)
    }

    // A parameter, its name shared.
    fn parameter(&mut self, alloc: Global, parameter: Parameter) -> Result<Parameter, NoMemory>
        ensures { IfOk result (λ p. p ≡ parameter) }
    {
        match parameter {
            Parameter::Variable(name) => {
                let name = self.text(alloc, name)?;
                Ok(Parameter::Variable(name))
            }
            other => Ok(other),
        }
    }

    /// A part, the name of its parameter shared where it came lately.
    pub fn part(&mut self, alloc: Global, part: Part) -> Result<Part, NoMemory>
        ensures { IfOk result (λ p. w.part p ≡ w.part part) }
    {
        match part {
            Part::Value(quoting, parameter) => {
                let parameter = self.parameter(alloc, parameter)?;
                Ok(Part::Value(quoting, parameter))
            }
            Part::Length(quoting, parameter) => {
                let parameter = self.parameter(alloc, parameter)?;
                Ok(Part::Length(quoting, parameter))
            }
            Part::Substitute(quoting, parameter, condition, substitute, word) => {
                let parameter = self.parameter(alloc, parameter)?;
                Ok(Part::Substitute(quoting, parameter, condition, substitute, word))
            }
            Part::Remove(quoting, parameter, removal, pattern) => {
                let parameter = self.parameter(alloc, parameter)?;
                Ok(Part::Remove(quoting, parameter, removal, pattern))
            }
            other => Ok(other),
        }
    }

    /// The redirections of a command.
    pub fn redirects(
        &self,
        alloc: Global,
        redirects: Row<Redirect>,
    ) -> Result<Rc<Redirects>, NoMemory>
        ensures { IfOk result (λ r. c.redirects r.value ≡ c.redirects_of (map c.redirect redirects)) }
    {
        redirects_of(alloc, &self.empties, redirects)
    }

    /// A simple command, out of what it is made of.
    pub fn simple(
        &self,
        alloc: Global,
        assignments: Row<Assignment>,
        words: Row<Rc<Word>>,
        redirects: Row<Redirect>,
    ) -> Result<Rc<SimpleCommand>, NoMemory>
        ensures { IfOk result (λ r. c.simple_command r.value ≡ c.simply (c.assignments_of (map c.assignment assignments)) (c.words_of (words_seen words)) (c.redirects_of (map c.redirect redirects))) }
    {
        simple_of(alloc, &self.empties, assignments, words, redirects)
    }

    /// A word; one of one part with a text is shared where it came lately.
    pub fn word(&mut self, alloc: Global, word: NewWord) -> Result<Rc<Word>, NoMemory>
        ensures { IfOk result (λ r. c.word r.value ≡ word_told word) }
    {
        match word {
            NewWord::Nothing => self.empties.word(),
            NewWord::Single(single) => self.singles.word(alloc, single),
            NewWord::Made(word) => Ok(word),
        }
    }

    // The simple command that is a word alone.
    fn alone(&mut self, alloc: Global, word: NewWord) -> Result<Rc<SimpleCommand>, NoMemory>
        ensures { IfOk result (λ r. c.simple_command r.value ≡ word_alone (word_told word)) }
    {
        match word {
            NewWord::Nothing => of_one_word(alloc, &self.empties, self.empties.word()?),
            NewWord::Single(single) => self.singles.command(alloc, &self.empties, single),
            NewWord::Made(word) => of_one_word(alloc, &self.empties, word),
        }
    }

    /// A simple command, out of its first word and of what else it is made of; one that is a part with a text alone is shared
    /// where it came lately.
    pub fn named(
        &mut self,
        alloc: Global,
        name: NewWord,
        assignments: Row<Assignment>,
        mut words: Row<Rc<Word>>,
        redirects: Row<Redirect>,
    ) -> Result<Rc<SimpleCommand>, NoMemory>
        ensures { IfOk result (λ r. c.simple_command r.value ≡ c.simply (c.assignments_of (map c.assignment assignments)) (c.words_of (word_told name ∷ words_seen words)) (c.redirects_of (map c.redirect redirects))) }
    {
        if assignments.is_empty() && words.is_empty() && redirects.is_empty() {
            let command = self.alone(alloc, name)?;
            return Ok(command);
        }
        let name = self.word(alloc, name)?;
        words.add(name)?;
        let command = self.simple(alloc, assignments, words, redirects)?;
        Ok(command)
    }
}
