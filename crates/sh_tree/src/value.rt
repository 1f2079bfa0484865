// What the parts of the syntax come to.
use rk_base::Bytes;
use sh_ast::{Assignment, Branch, CaseItem, Command, Compound, Connector, Part, Redirect, Word};
use sh_nodes::{NewWord, Row};
use std::rc::Rc;

/// What a token or a part of the syntax comes to.
#[derive(Drop)]
pub enum Value {
    Nothing,
    /// A token's text.
    Text(Bytes),
    /// Parts of a word.
    Parts(Row<Part>),
    Word(NewWord),
    Words(Row<Rc<Word>>),
    Redirects(Row<Redirect>),
    /// Of a simple command: assignments, words and redirections.
    Simple(Row<Assignment>, Row<Rc<Word>>, Row<Redirect>),
    Commands(Row<Command>),
    /// What follows a pipeline: operators, and the pipelines behind them.
    Joined(Row<Connector>, Row<Command>),
    Compound(Compound),
    /// Of an `if`: branches, and what stands behind `else`.
    Branches(Row<Branch>, Row<Command>),
    Items(Row<CaseItem>),
}
