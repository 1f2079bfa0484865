// Variables as a search tree that copies share.
ghost use Rattle.std.specs.Prelude.{◌≡◌, ◌∷◌, [], ◌++◌, IfOk, OnOk, not, option_copied, option_map, drop};
ghost use Rattle.std.specs.FinMap.{find, put, is_sorted};
ghost use Rattle.std.specs.List.{filter_map};
ghost use Rattle.rk_base.specs.Text.{text_cmp};
ghost use Rattle.sh_vars.specs.Held.{exported_var};
ghost use Rattle.sh_vars.specs.Tree.{IsInOrder, Replaces, without_row, first_row};
ghost use Rattle.sh_vars.specs.TreeRows.{row_of, rows_of};

use crate::Variable;
use crate::turns::{balanced, fork};
use rk_base::{Bytes, NoMemory, Var};
use std::alloc::Global;
use std::cmp::Ordering;
use std::marker::Model;
use std::rc::Rc;

/// Variables in the order of their names, as an AVL tree. What changes a tree makes the nodes on the way from its root anew,
/// and shares all others; only a variable that is set again where no tree shares its node is changed in place. So a copy is a
/// pointer's, whatever it holds.
#[cycle(tree)]
#[derive(Drop)]
pub(crate) struct Tree {
    pub(crate) root: Link,
}

#[cycle(tree)]
#[derive(Drop)]
pub(crate) enum Link {
    Leaf,
    To(Rc<Node>),
}

#[cycle(tree)]
#[derive(Drop)]
pub(crate) struct Node {
    pub(crate) left: Tree,
    pub(crate) name: Bytes,
    pub(crate) variable: Variable,
    pub(crate) right: Tree,
    pub(crate) height: u8,
}

impl Model for Tree {
    ghost use Rattle.std.specs.Prelude.{List, length};
    ghost use Rattle.rk_base.specs.Text.{Text};
    ghost use Rattle.sh_vars.specs.declared.variable.Variable.{Variable};

    ghost Value = { List (Text × Variable) };

    ghost use Rattle.sh_vars.specs.TreeRows.{rows};
    ghost use Rattle.sh_vars.specs.Tree.{IsInOrder};

    ghost view = { λ t. rows t.root };

    ghost invariant = { λ t. IsInOrder (rows t.root) };

    ghost size = { length };

    ghost use Rattle.sh_vars.specs.TreeFalls.{depth_le-length-rows};

    ghost size_decreases = { λ t h. depth_le-length-rows t.root };
}

impl Tree {
    pub(crate) fn new() -> Tree
        ensures { result ≡ [] }
    {
        Tree { root: Link::Leaf }
    }

    pub(crate) fn height(&self) -> u8 {
        match &self.root {
            Link::Leaf => 0,
            Link::To(node) => node.height,
        }
    }

    /// The tree, shared.
    pub(crate) fn copy(&self) -> Result<Tree, NoMemory>
        ensures { IfOk result (λ t. t ≡ self.now) }
    {
        match &self.root {
            Link::Leaf => Ok(Tree::new()),
            Link::To(node) => {
                let node = node.clone()?;
                Ok(Tree {
                    root: Link::To(node),
                })
            }
        }
    }

    /// The variable of a name.
    // Depth: the height of the tree, at most one and a half times the logarithm of its rows.
    pub(crate) fn get(&self, name: &[u8]) -> Option<&Variable>
        ensures { option_copied result ≡ find text_cmp name.now self.now }
    {
        match &self.root {
            Link::Leaf => None,
            Link::To(node) => match node.side_of(name) {
                Ordering::Less => node.left.get(name),
                Ordering::Equal => Some(&node.variable),
                Ordering::Greater => node.right.get(name),
            },
        }
    }

    // The node of the first row.
    // Depth: the height of the tree.
    fn first(&self) -> Option<&Node>
        ensures { option_map row_of (option_copied result) ≡ first_row self.now }
    {
        match &self.root {
            Link::Leaf => None,
            Link::To(node) => match node.left.first() {
                None => Some(node),
                found => found,
            },
        }
    }

    // All but the first row.
    // Depth: the height of the tree.
    fn but_first(&self, alloc: Global) -> Result<Tree, NoMemory>
        ensures { IfOk result (λ t. t ≡ drop 1 self.now) }
    {
        match &self.root {
            Link::Leaf => Ok(Tree::new()),
            Link::To(node) => match node.left.first() {
                None => node.right.copy(),
                Some(_) => {
                    let left = node.left.but_first(alloc)?;
                    node.with_left(alloc, left)
                }
            },
        }
    }

    /// A name has this variable, in the place of what it had.
    // Depth: the height of the tree.
    pub(crate) fn put(
        &self,
        alloc: Global,
        name: &[u8],
        variable: Variable,
    ) -> Result<Tree, NoMemory>
        ensures { IfOk result (λ t. t ≡ put text_cmp name.now variable self.now) }
    {
        match &self.root {
            Link::Leaf => {
                let name = Bytes::from_slice(alloc, name)?;
                fork(alloc, Tree::new(), name, variable, Tree::new())
            }
            Link::To(node) => match node.side_of(name) {
                Ordering::Less => {
                    let left = node.left.put(alloc, name, variable)?;
                    node.with_left(alloc, left)
                }
                Ordering::Equal => node.with_variable(alloc, variable),
                Ordering::Greater => {
                    let right = node.right.put(alloc, name, variable)?;
                    node.with_right(alloc, right)
                }
            },
        }
    }

    /// A name that has a variable has this one, in place, where no copy shares the way to it; else the variable comes back,
    /// and all is as it was.
    // Depth: the height of the tree.
    pub(crate) fn replace(&mut self, name: &[u8], variable: Variable) -> Option<Variable>
        ensures { Replaces name.now variable self.old result self.new }
    {
        match &mut self.root {
            Link::Leaf => Some(variable),
            Link::To(node) => match Rc::get_mut(node) {
                None => Some(variable),
                Some(node) => match node.side_of(name) {
                    Ordering::Less => node.left.replace(name, variable),
                    Ordering::Equal => {
                        node.variable = variable;
                        None
                    }
                    Ordering::Greater => node.right.replace(name, variable),
                },
            },
        }
    }

    /// A name has no variable.
    // Depth: the height of the tree.
    pub(crate) fn without(&self, alloc: Global, name: &[u8]) -> Result<Tree, NoMemory>
        ensures { IfOk result (λ t. t ≡ without_row name.now self.now) }
    {
        match &self.root {
            Link::Leaf => Ok(Tree::new()),
            Link::To(node) => match node.side_of(name) {
                Ordering::Less => {
                    let left = node.left.without(alloc, name)?;
                    node.with_left(alloc, left)
                }
                Ordering::Equal => joined(alloc, &node.left, &node.right),
                Ordering::Greater => {
                    let right = node.right.without(alloc, name)?;
                    node.with_right(alloc, right)
                }
            },
        }
    }

    /// Puts those that are exported and set behind these.
    // Depth: the height of the tree.
    pub(crate) fn list_exported(&self, alloc: Global, vars: &mut Vec<Var>) -> Result<(), NoMemory>
        ensures listed { OnOk result (vars.new.items ≡ vars.old.items ++ filter_map exported_var self.now) }
        ensures in_order { IsInOrder self.now }
    {
        match &self.root {
            Link::Leaf => Ok(()),
            Link::To(node) => {
                node.left.list_exported(alloc, vars)?;
                node.list_own(alloc, vars)?;
                node.right.list_exported(alloc, vars)
            }
        }
    }
}

impl Node {
    // On which side of this node's row a name stands.
    fn side_of(&self, name: &[u8]) -> Ordering
        ensures { result ≡ text_cmp name.now self.now.name }
    {
        name.cmp(self.name.as_slice())
    }

    // Puts this node's variable behind these, where it is exported and set.
    fn list_own(&self, alloc: Global, vars: &mut Vec<Var>) -> Result<(), NoMemory>
        ensures { OnOk result (vars.new.items ≡ vars.old.items ++ filter_map exported_var (row_of self.now ∷ [])) }
    {
        match self.variable.exported_as(alloc, self.name.as_slice())? {
            None => Ok(()),
            Some(var) => {
                vars.push(var)?;
                Ok(())
            }
        }
    }

    // This node's row with another variable, between its trees.
    fn with_variable(&self, alloc: Global, variable: Variable) -> Result<Tree, NoMemory>
        requires { IsInOrder (rows_of self.now) }
        ensures { IfOk result (λ t. t ≡ self.now.left ++ (self.now.name, variable) ∷ self.now.right) }
    {
        let left = self.left.copy()?;
        let name = self.name.copy()?;
        let right = self.right.copy()?;
        fork(alloc, left, name, variable, right)
    }

    // This node's row and right tree, with another left one.
    fn with_left(&self, alloc: Global, left: Tree) -> Result<Tree, NoMemory>
        requires { IsInOrder (left ++ row_of self.now ∷ self.now.right) }
        ensures { IfOk result (λ t. t ≡ left ++ row_of self.now ∷ self.now.right) }
    {
        let right = self.right.copy()?;
        self.between(alloc, left, right)
    }

    // This node's left tree and row, with another right tree.
    fn with_right(&self, alloc: Global, right: Tree) -> Result<Tree, NoMemory>
        requires { IsInOrder (self.now.left ++ row_of self.now ∷ right) }
        ensures { IfOk result (λ t. t ≡ self.now.left ++ row_of self.now ∷ right) }
    {
        let left = self.left.copy()?;
        self.between(alloc, left, right)
    }

    // This node's row between two trees, whose heights differ by two at most.
    fn between(&self, alloc: Global, left: Tree, right: Tree) -> Result<Tree, NoMemory>
        requires { IsInOrder (left ++ row_of self.now ∷ right) }
        ensures { IfOk result (λ t. t ≡ left ++ row_of self.now ∷ right) }
    {
        let name = self.name.copy()?;
        let variable = self.variable.clone()?;
        balanced(alloc, left, name, variable, right)
    }

    // This node's row between two trees, as they are.
    pub(crate) fn fork(&self, alloc: Global, left: Tree, right: Tree) -> Result<Tree, NoMemory>
        requires { IsInOrder (left ++ row_of self.now ∷ right) }
        ensures { IfOk result (λ t. t ≡ left ++ row_of self.now ∷ right) }
    {
        let name = self.name.copy()?;
        let variable = self.variable.clone()?;
        fork(alloc, left, name, variable, right)
    }
}

// The rows of two trees whose heights differ by one at most.
fn joined(alloc: Global, left: &Tree, right: &Tree) -> Result<Tree, NoMemory>
    requires { IsInOrder (left.now ++ right.now) }
    ensures { IfOk result (λ t. t ≡ left.now ++ right.now) }
{
    match right.first() {
        None => left.copy(),
        Some(least) => {
            let left = left.copy()?;
            let right = right.but_first(alloc)?;
            least.between(alloc, left, right)
        }
    }
}
