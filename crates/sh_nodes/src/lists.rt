// Lists of nodes, each by its items.
ghost use Rattle.std.specs.Prelude.{◌≡◌, IfOk, map};
ghost use Rattle.sh_ast.specs.Words as w;
ghost use Rattle.sh_ast.specs.Commands as c;
ghost use Rattle.sh_nodes.specs.Nodes.{words_seen};

use crate::row::Row;
use rk_base::NoMemory;
use sh_ast::{
    Branch, Branches, CaseItem, CaseItems, Command, CommandList, Connector, Connectors, Part,
    Parts, Word, Words,
};
use std::alloc::Global;
use std::rc::Rc;

/// The parts of a word.
pub fn parts_of(alloc: Global, parts: Row<Part>) -> Result<Rc<Parts>, NoMemory>
    ensures { IfOk result (λ r. w.parts r.value ≡ w.parts_of (map w.part parts)) }
{
    let items = parts.into_items()?;
    let parts = Rc::new(alloc, Parts { items })?;
    Ok(parts)
}

/// Words, one after another.
pub fn words_of(alloc: Global, words: Row<Rc<Word>>) -> Result<Rc<Words>, NoMemory>
    ensures { IfOk result (λ r. c.words r.value ≡ c.words_of (words_seen words)) }
{
    let items = words.into_items()?;
    let words = Rc::new(alloc, Words { items })?;
    Ok(words)
}

/// Commands, one after another.
pub fn commands_of(alloc: Global, commands: Row<Command>) -> Result<Rc<CommandList>, NoMemory>
    ensures { IfOk result (λ r. c.commands r.value ≡ c.commands_of (map c.command commands)) }
{
    let items = commands.into_items()?;
    let list = Rc::new(alloc, CommandList { items })?;
    Ok(list)
}

/// The operators of an AND-OR list.
pub fn connectors_of(alloc: Global, connectors: Row<Connector>) -> Result<Rc<Connectors>, NoMemory>
    ensures { IfOk result (λ r. r.value.items.items ≡ connectors) }
{
    let items = connectors.into_items()?;
    let connectors = Rc::new(alloc, Connectors { items })?;
    Ok(connectors)
}

/// The branches of an `if`.
pub fn branches_of(alloc: Global, branches: Row<Branch>) -> Result<Rc<Branches>, NoMemory>
    ensures { IfOk result (λ r. c.branches r.value ≡ c.branches_of (map c.branch branches)) }
{
    let items = branches.into_items()?;
    let branches = Rc::new(alloc, Branches { items })?;
    Ok(branches)
}

/// The items of a `case`.
pub fn case_items_of(alloc: Global, items: Row<CaseItem>) -> Result<Rc<CaseItems>, NoMemory>
    ensures { IfOk result (λ r. c.case_items r.value ≡ c.case_items_of (map c.case_item items)) }
{
    let items = items.into_items()?;
    let items = Rc::new(alloc, CaseItems { items })?;
    Ok(items)
}
