// Simple commands (XCU 2.9.1).
ghost use Rattle.std.specs.Prelude.{◌≡◌, IfOk, map};
ghost use Rattle.sh_ast.specs.Commands as c;
ghost use Rattle.sh_nodes.specs.Nodes.{word_alone, words_seen};

use crate::empties::Empties;
use crate::lists::words_of;
use crate::row::Row;
use rk_base::NoMemory;
use sh_ast::{Assignment, Assignments, Redirect, Redirects, SimpleCommand, Word, Words};
use std::alloc::Global;
use std::rc::Rc;

/// The redirections of a command.
pub fn redirects_of(
    alloc: Global,
    empties: &Empties,
    redirects: Row<Redirect>,
) -> Result<Rc<Redirects>, NoMemory>
    ensures { IfOk result (λ r. c.redirects r.value ≡ c.redirects_of (map c.redirect redirects)) }
{
    if redirects.is_empty() {
        return empties.redirects();
    }
    let items = redirects.into_items()?;
    let redirects = Rc::new(alloc, Redirects { items })?;
    Ok(redirects)
}

// The assignments of a command.
fn assignments_of(
    alloc: Global,
    empties: &Empties,
    assignments: Row<Assignment>,
) -> Result<Rc<Assignments>, NoMemory>
    ensures { IfOk result (λ r. c.assignments r.value ≡ c.assignments_of (map c.assignment assignments)) }
{
    if assignments.is_empty() {
        return empties.assignments();
    }
    let items = assignments.into_items()?;
    let assignments = Rc::new(alloc, Assignments { items })?;
    Ok(assignments)
}

// The words of a command.
fn arguments_of(
    alloc: Global,
    empties: &Empties,
    words: Row<Rc<Word>>,
) -> Result<Rc<Words>, NoMemory>
    ensures { IfOk result (λ r. c.words r.value ≡ c.words_of (words_seen words)) }
{
    if words.is_empty() {
        return empties.words();
    }
    words_of(alloc, words)
}

/// A simple command, out of what it is made of.
pub fn simple_of(
    alloc: Global,
    empties: &Empties,
    assignments: Row<Assignment>,
    words: Row<Rc<Word>>,
    redirects: Row<Redirect>,
) -> Result<Rc<SimpleCommand>, NoMemory>
    ensures { IfOk result (λ r. c.simple_command r.value ≡ c.simply (c.assignments_of (map c.assignment assignments)) (c.words_of (words_seen words)) (c.redirects_of (map c.redirect redirects))) }
{
    let assignments = assignments_of(alloc, empties, assignments)?;
    let words = arguments_of(alloc, empties, words)?;
    let redirects = redirects_of(alloc, empties, redirects)?;
    let command = SimpleCommand {
        assignments,
        words,
        redirects,
    };
    let command = Rc::new(alloc, command)?;
    Ok(command)
}

/// The simple command that is a word alone.
pub fn of_one_word(
    alloc: Global,
    empties: &Empties,
    word: Rc<Word>,
) -> Result<Rc<SimpleCommand>, NoMemory>
    ensures { IfOk result (λ r. c.simple_command r.value ≡ word_alone (c.word word.value)) }
{
    let mut words = Row::new(alloc);
    words.add(word)?;
    let command = simple_of(alloc, empties, Row::new(alloc), words, Row::new(alloc))?;
    Ok(command)
}
