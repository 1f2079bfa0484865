// Items of lists, by their places.
ghost use Rattle.std.specs.Prelude.{◌≡◌, option_map, slice_get};
ghost use Rattle.sh_ast.specs.Words.{part, parts};
ghost use Rattle.sh_ast.specs.Commands as tree;
ghost use Rattle.sh_ast.specs.Lists as lists;

use crate::command::{
    Assignment, Assignments, Branch, Branches, CaseItem, CaseItems, Command, CommandList, Redirect,
    Redirects, Word, Words,
};
use crate::word::{Part, Parts};
use std::rc::Rc;

// What stands at a place of a slice.
fn item_at<T>(items: &[T], at: usize) -> Option<&T>
    ensures { option_map (λ x. x.now) result ≡ slice_get items.now at }
{
    items.get(at)
}

impl CommandList {
    /// The command at a place, from 0.
    pub fn get(&self, at: usize) -> Option<&Command>
        ensures { option_map (λ x. tree.command x.now) result ≡ lists.command_at (tree.commands self.now) at }
    {
        item_at(self.items.as_slice(), at)
    }
}

impl Branches {
    /// The branch at a place, from 0.
    pub fn get(&self, at: usize) -> Option<&Branch>
        ensures { option_map (λ x. tree.branch x.now) result ≡ lists.branch_at (tree.branches self.now) at }
    {
        item_at(self.items.as_slice(), at)
    }
}

impl CaseItems {
    /// The item at a place, from 0.
    pub fn get(&self, at: usize) -> Option<&CaseItem>
        ensures { option_map (λ x. tree.case_item x.now) result ≡ lists.case_item_at (tree.case_items self.now) at }
    {
        item_at(self.items.as_slice(), at)
    }
}

impl Assignments {
    /// The assignment at a place, from 0.
    pub fn get(&self, at: usize) -> Option<&Assignment>
        ensures { option_map (λ x. tree.assignment x.now) result ≡ lists.assignment_at (tree.assignments self.now) at }
    {
        item_at(self.items.as_slice(), at)
    }
}

impl Redirects {
    /// The redirection at a place, from 0.
    pub fn get(&self, at: usize) -> Option<&Redirect>
        ensures { option_map (λ x. tree.redirect x.now) result ≡ lists.redirect_at (tree.redirects self.now) at }
    {
        item_at(self.items.as_slice(), at)
    }
}

impl Words {
    /// The word at a place, from 0.
    pub fn get(&self, at: usize) -> Option<&Rc<Word>>
        ensures { option_map (λ x. tree.word x.now.value) result ≡ lists.word_at (tree.words self.now) at }
    {
        item_at(self.items.as_slice(), at)
    }
}

impl Word {
    /// The body of the command substitution of a number, from 0.
    pub fn body(&self, number: usize) -> Option<&Rc<CommandList>>
        ensures { option_map (λ x. tree.commands x.now.value) result ≡ lists.body_at (tree.word self.now) number }
    {
        item_at(self.bodies.as_slice(), number)
    }
}

impl Parts {
    /// The part at a place, from 0.
    pub fn get(&self, at: usize) -> Option<&Part>
        ensures { option_map (λ x. part x.now) result ≡ lists.part_at (parts self.now) at }
    {
        item_at(self.items.as_slice(), at)
    }
}
