// Values, taken for what they hold. One that holds something else counts as empty; `drop` lets it go, so that what this takes
// is proved once and not in each function.
ghost use Rattle.std.specs.Prelude.{◌≡◌, IfOk, map};
ghost use Rattle.sh_ast.specs.Words as w;
ghost use Rattle.sh_ast.specs.Commands as c;
ghost use Rattle.sh_script.specs.Values as v;
ghost use Rattle.sh_nodes.specs.Nodes.{word_told};
ghost use Rattle.sh_tree.specs.Seen.{seen};

use crate::value::Value;
use rk_base::{Bytes, NoMemory};
use sh_ast::{
    Assignment, Branch, CaseItem, Command, CommandList, Compound, Connector, Part, Redirect, Word,
};
use sh_nodes::{NewWord, Row, commands_of, new_word};
use std::alloc::Global;
use std::rc::Rc;

/// The text that a value holds.
#[tactic(auto, unfolding(crate::specs::Seen::seen))]
pub fn text_in(alloc: Global, value: Value) -> Result<Bytes, NoMemory>
    ensures { IfOk result (λ t. t ≡ v.text_in (seen value)) }
{
    match value {
        Value::Text(text) => Ok(text),
        other => {
            drop(other);
            Bytes::new(alloc, Vec::new(alloc))
        }
    }
}

/// The parts that a value holds.
#[tactic(auto, unfolding(crate::specs::Seen::seen))]
pub fn parts_in(alloc: Global, value: Value) -> Row<Part>
    ensures { map w.part result ≡ v.parts_in (seen value) }
{
    match value {
        Value::Parts(parts) => parts,
        other => {
            drop(other);
            Row::new(alloc)
        }
    }
}

/// The word that a value holds.
#[tactic(auto, unfolding(crate::specs::Seen::seen))]
pub fn word_in(alloc: Global, value: Value) -> Result<NewWord, NoMemory>
    ensures { IfOk result (λ x. word_told x ≡ v.word_in (seen value)) }
{
    match value {
        Value::Word(word) => Ok(word),
        other => {
            drop(other);
            new_word(alloc, Row::new(alloc), Vec::new(alloc))
        }
    }
}

/// The words that a value holds.
#[tactic(auto, unfolding(crate::specs::Seen::seen))]
pub fn words_in(alloc: Global, value: Value) -> Row<Rc<Word>>
    ensures { map (λ r. c.word r.value) result ≡ v.words_in (seen value) }
{
    match value {
        Value::Words(words) => words,
        other => {
            drop(other);
            Row::new(alloc)
        }
    }
}

/// The redirections that a value holds.
#[tactic(auto, unfolding(crate::specs::Seen::seen))]
pub fn redirects_in(alloc: Global, value: Value) -> Row<Redirect>
    ensures { map c.redirect result ≡ v.redirects_in (seen value) }
{
    match value {
        Value::Redirects(redirects) => redirects,
        other => {
            drop(other);
            Row::new(alloc)
        }
    }
}

/// The assignments, words and redirections that a value holds.
#[tactic(auto, unfolding(crate::specs::Seen::seen))]
pub fn simple_in(alloc: Global, value: Value) -> (Row<Assignment>, Row<Rc<Word>>, Row<Redirect>)
    ensures assignments { map c.assignment result.0 ≡ v.assignments_in (seen value) }
    ensures words { map (λ r. c.word r.value) result.1 ≡ v.arguments_in (seen value) }
    ensures redirects { map c.redirect result.2 ≡ v.redirections_in (seen value) }
{
    match value {
        Value::Simple(assignments, words, redirects) => (assignments, words, redirects),
        other => {
            drop(other);
            (Row::new(alloc), Row::new(alloc), Row::new(alloc))
        }
    }
}

/// The commands that a value holds.
#[tactic(auto, unfolding(crate::specs::Seen::seen))]
pub fn commands_in(alloc: Global, value: Value) -> Row<Command>
    ensures { map c.command result ≡ v.commands_in (seen value) }
{
    match value {
        Value::Commands(commands) => commands,
        other => {
            drop(other);
            Row::new(alloc)
        }
    }
}

/// The pipelines that a value holds, with what connects them.
#[tactic(auto, unfolding(crate::specs::Seen::seen))]
pub fn joined_in(alloc: Global, value: Value) -> (Row<Connector>, Row<Command>)
    ensures connectors { result.0 ≡ v.connectors_in (seen value) }
    ensures pipelines { map c.command result.1 ≡ v.pipelines_in (seen value) }
{
    match value {
        Value::Joined(connectors, pipelines) => (connectors, pipelines),
        other => {
            drop(other);
            (Row::new(alloc), Row::new(alloc))
        }
    }
}

/// The commands that a value holds, as a list.
pub fn list_in(alloc: Global, value: Value) -> Result<Rc<CommandList>, NoMemory>
    ensures { IfOk result (λ r. c.commands r.value ≡ c.commands_of (v.commands_in (seen value))) }
{
    commands_of(alloc, commands_in(alloc, value))
}

/// The compound command that a value holds; else an empty group.
#[tactic(auto, unfolding(crate::specs::Seen::seen))]
pub fn compound_in(alloc: Global, value: Value) -> Result<Compound, NoMemory>
    ensures { IfOk result (λ x. c.compound x ≡ v.compound_in (seen value)) }
{
    match value {
        Value::Compound(compound) => Ok(compound),
        other => {
            drop(other);
            let list = commands_of(alloc, Row::new(alloc))?;
            Ok(Compound::Group(list))
        }
    }
}

/// The branches that a value holds, and the commands behind `else`.
#[tactic(auto, unfolding(crate::specs::Seen::seen))]
pub fn branches_in(alloc: Global, value: Value) -> (Row<Branch>, Row<Command>)
    ensures branches { map c.branch result.0 ≡ v.branches_in (seen value) }
    ensures otherwise { map c.command result.1 ≡ v.otherwise_in (seen value) }
{
    match value {
        Value::Branches(branches, otherwise) => (branches, otherwise),
        other => {
            drop(other);
            (Row::new(alloc), Row::new(alloc))
        }
    }
}

/// The items of a `case` that a value holds.
#[tactic(auto, unfolding(crate::specs::Seen::seen))]
pub fn items_in(alloc: Global, value: Value) -> Row<CaseItem>
    ensures { map c.case_item result ≡ v.items_in (seen value) }
{
    match value {
        Value::Items(items) => items,
        other => {
            drop(other);
            Row::new(alloc)
        }
    }
}
