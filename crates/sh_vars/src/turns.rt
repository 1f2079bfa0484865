// Nodes that are made, with their trees in balance.
ghost use Rattle.std.specs.Prelude.{◌≡◌, ◌∷◌, ◌++◌, IfOk};
ghost use Rattle.sh_vars.specs.Tree.{IsInOrder};
ghost use Rattle.sh_vars.specs.TreeRows.{rows_of};

use crate::Variable;
use crate::tree::{Link, Node, Tree};
use rk_base::{Bytes, NoMemory};
use std::alloc::Global;
use std::rc::Rc;

// A row between two trees, as they are.
pub(crate) fn fork(
    alloc: Global,
    left: Tree,
    name: Bytes,
    variable: Variable,
    right: Tree,
) -> Result<Tree, NoMemory>
    requires { IsInOrder (left ++ (name, variable) ∷ right) }
    ensures { IfOk result (λ t. t ≡ left ++ (name, variable) ∷ right) }
{
    let height = left.height().max(right.height()).saturating_add(1);
    let node = Rc::new(
        alloc,
        Node {
            left,
            name,
            variable,
            right,
            height,
        },
    )?;
    Ok(Tree {
        root: Link::To(node),
    })
}

// A row between two trees whose heights differ by two at most, turned where they do.
pub(crate) fn balanced(
    alloc: Global,
    left: Tree,
    name: Bytes,
    variable: Variable,
    right: Tree,
) -> Result<Tree, NoMemory>
    requires { IsInOrder (left ++ (name, variable) ∷ right) }
    ensures { IfOk result (λ t. t ≡ left ++ (name, variable) ∷ right) }
{
    let (l, r) = (left.height(), right.height());
    if l > r.saturating_add(1) {
        lean_right(alloc, &left, name, variable, right)
    } else if r > l.saturating_add(1) {
        lean_left(alloc, left, name, variable, &right)
    } else {
        fork(alloc, left, name, variable, right)
    }
}

// The left side is the higher one.
fn lean_right(
    alloc: Global,
    left: &Tree,
    name: Bytes,
    variable: Variable,
    right: Tree,
) -> Result<Tree, NoMemory>
    requires { IsInOrder (left.now ++ (name, variable) ∷ right) }
    ensures { IfOk result (λ t. t ≡ left.now ++ (name, variable) ∷ right) }
{
    match &left.root {
        Link::Leaf => fork(alloc, Tree::new(), name, variable, right),
        Link::To(top) => turned_right(alloc, top, name, variable, right),
    }
}

// The root of the left side becomes the root, or that of its right side where that one is the higher.
fn turned_right(
    alloc: Global,
    top: &Node,
    name: Bytes,
    variable: Variable,
    right: Tree,
) -> Result<Tree, NoMemory>
    requires { IsInOrder (rows_of top.now ++ (name, variable) ∷ right) }
    ensures { IfOk result (λ t. t ≡ rows_of top.now ++ (name, variable) ∷ right) }
{
    if top.left.height() < top.right.height() {
        if let Link::To(middle) = &top.right.root {
            return turn_right_twice(alloc, top, middle, name, variable, right);
        }
    }
    turn_right(alloc, top, name, variable, right)
}

// The root of the left side becomes the root.
fn turn_right(
    alloc: Global,
    top: &Node,
    name: Bytes,
    variable: Variable,
    right: Tree,
) -> Result<Tree, NoMemory>
    requires { IsInOrder (rows_of top.now ++ (name, variable) ∷ right) }
    ensures { IfOk result (λ t. t ≡ rows_of top.now ++ (name, variable) ∷ right) }
{
    let middle = top.right.copy()?;
    let right = fork(alloc, middle, name, variable, right)?;
    let left = top.left.copy()?;
    top.fork(alloc, left, right)
}

// The root of the left side's right side becomes the root.
fn turn_right_twice(
    alloc: Global,
    top: &Node,
    middle: &Node,
    name: Bytes,
    variable: Variable,
    right: Tree,
) -> Result<Tree, NoMemory>
    requires in_order { IsInOrder (rows_of top.now ++ (name, variable) ∷ right) }
    requires middle { top.now.right ≡ rows_of middle.now }
    ensures { IfOk result (λ t. t ≡ rows_of top.now ++ (name, variable) ∷ right) }
{
    let left = top.left.copy()?;
    let inner = middle.left.copy()?;
    let left = top.fork(alloc, left, inner)?;
    let inner = middle.right.copy()?;
    let right = fork(alloc, inner, name, variable, right)?;
    middle.fork(alloc, left, right)
}

// The right side is the higher one.
fn lean_left(
    alloc: Global,
    left: Tree,
    name: Bytes,
    variable: Variable,
    right: &Tree,
) -> Result<Tree, NoMemory>
    requires { IsInOrder (left ++ (name, variable) ∷ right.now) }
    ensures { IfOk result (λ t. t ≡ left ++ (name, variable) ∷ right.now) }
{
    match &right.root {
        Link::Leaf => fork(alloc, left, name, variable, Tree::new()),
        Link::To(top) => turned_left(alloc, left, name, variable, top),
    }
}

// The root of the right side becomes the root, or that of its left side where that one is the higher.
fn turned_left(
    alloc: Global,
    left: Tree,
    name: Bytes,
    variable: Variable,
    top: &Node,
) -> Result<Tree, NoMemory>
    requires { IsInOrder (left ++ (name, variable) ∷ rows_of top.now) }
    ensures { IfOk result (λ t. t ≡ left ++ (name, variable) ∷ rows_of top.now) }
{
    if top.right.height() < top.left.height() {
        if let Link::To(middle) = &top.left.root {
            return turn_left_twice(alloc, left, name, variable, middle, top);
        }
    }
    turn_left(alloc, left, name, variable, top)
}

// The root of the right side becomes the root.
fn turn_left(
    alloc: Global,
    left: Tree,
    name: Bytes,
    variable: Variable,
    top: &Node,
) -> Result<Tree, NoMemory>
    requires { IsInOrder (left ++ (name, variable) ∷ rows_of top.now) }
    ensures { IfOk result (λ t. t ≡ left ++ (name, variable) ∷ rows_of top.now) }
{
    let middle = top.left.copy()?;
    let left = fork(alloc, left, name, variable, middle)?;
    let right = top.right.copy()?;
    top.fork(alloc, left, right)
}

// The root of the right side's left side becomes the root.
fn turn_left_twice(
    alloc: Global,
    left: Tree,
    name: Bytes,
    variable: Variable,
    middle: &Node,
    top: &Node,
) -> Result<Tree, NoMemory>
    requires in_order { IsInOrder (left ++ (name, variable) ∷ rows_of top.now) }
    requires middle { top.now.left ≡ rows_of middle.now }
    ensures { IfOk result (λ t. t ≡ left ++ (name, variable) ∷ rows_of top.now) }
{
    let inner = middle.left.copy()?;
    let left = fork(alloc, left, name, variable, inner)?;
    let inner = middle.right.copy()?;
    let right = top.right.copy()?;
    let right = top.fork(alloc, inner, right)?;
    middle.fork(alloc, left, right)
}
