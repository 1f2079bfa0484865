// One component.
ghost use Rattle.std.specs.Prelude.{◌≡◌, List, ℕ, not, true, false, Some};
ghost use Rattle.rk_base.specs.Canonical.{is_empty, is_name};
ghost use Rattle.rk_tree.specs.Entries.{is_dir};
ghost use Rattle.rk_tree.specs.Hierarchy as hierarchy;
ghost use Rattle.rk_walk.specs.Course.{step_means, step_sees};
ghost use Rattle.rk_walk.specs.Walk.{Spot, as_spot, at_child, at_part};
ghost use Rattle.rk_walk.specs.Way.{ends_seeing};
ghost use Rattle.rk_walk.specs.declared.place.Here.{Here as Standing};
ghost use Rattle.rk_walk.specs.declared.place.Place.TheVariants.{Found};
ghost use Rattle.rk_walk.specs.declared.seen.Seen.{Seen};
ghost use Rattle.rk_walk.specs.declared.step.WalkStep.TheVariants.{Ends};

use crate::{Here, Label, Place};
use rk_base::{Errno, FileType, is_name};
use rk_tree::{NodeId, Tree, has_x};
use std::marker::Model;

// A link's text.
#[derive(Drop)]
pub(crate) struct LinkText<'a> {
    text: &'a [u8],
}

impl<'a> Model for LinkText<'a> {
    ghost use Rattle.std.specs.Prelude.{List, ℕ};

    ghost Value = { List ℕ };

    ghost view = { λ t. t.text.now };
}

impl<'a> LinkText<'a> {
    fn new(text: &'a [u8]) -> LinkText<'a>
        ensures { result ≡ text.now }
    {
        LinkText { text }
    }

    pub(crate) fn bytes(&self) -> &'a [u8]
        ensures { result.now ≡ self.now }
    {
        self.text
    }
}

// What a component does.
#[derive(Drop)]
pub(crate) enum WalkStep<'a> {
    On(Here<'a>),
    Follow(LinkText<'a>),
    Ends(Place<'a>),
    Fails(Errno),
}

// What a name in a directory does.
fn at_name<'a>(
    tree: &'a Tree,
    follow: bool,
    at: NodeId,
    name: &'a [u8],
    slash: bool,
    last: bool,
) -> WalkStep<'a>
    requires dir { is_dir (hierarchy.node tree.now at) ≡ true }
    requires name { is_name name.now ≡ true }
    ensures leads { (again : List ℕ → List ℕ → Spot) (on : Standing → Spot) (after : List ℕ) → not (is_empty after) ≡ slash
        → at_child as_spot tree.now follow again on at (record { name = name.now; after = after }) last (hierarchy.child tree.now at name.now)
        ≡ step_means again on after result }
    ensures sees { (again : List ℕ → List ℕ → List Seen) (on : Standing → List Seen) (after : List ℕ) → not (is_empty after) ≡ slash
        → at_child ends_seeing tree.now follow again on at (record { name = name.now; after = after }) last (hierarchy.child tree.now at name.now)
        ≡ step_sees again on after result }
{
    let Some(n) = tree.child(at, name) else {
        return if last {
            WalkStep::Ends(Place::Absent {
                dir: at,
                name: Label::new(name),
                slash,
            })
        } else {
            WalkStep::Fails(Errno::NoEntry)
        };
    };
    match tree.kind(n) {
        FileType::Dir => WalkStep::On(Here {
            node: n,
            up: Some((at, Label::new(name))),
            slash,
        }),
        FileType::File => {
            if slash {
                WalkStep::Fails(Errno::NotDir)
            } else {
                found(n, at, name)
            }
        }
        FileType::Link => {
            if slash || follow {
                WalkStep::Follow(LinkText::new(tree.link_text(n)))
            } else {
                found(n, at, name)
            }
        }
    }
}

fn found<'a>(node: NodeId, at: NodeId, name: &'a [u8]) -> WalkStep<'a>
    requires { is_name name.now ≡ true }
    ensures { result ≡ Ends (Found (record { node = node; up = Some (at, name.now); slash = false })) }
{
    WalkStep::Ends(Place::Found(Here {
        node,
        up: Some((at, Label::new(name))),
        slash: false,
    }))
}

// What a component does in a directory.
pub(crate) fn component<'a>(
    tree: &'a Tree,
    follow: bool,
    at: NodeId,
    name: &'a [u8],
    slash: bool,
    last: bool,
) -> WalkStep<'a>
    ensures leads { (again : List ℕ → List ℕ → Spot) (on : Standing → Spot) (after : List ℕ) → not (is_empty after) ≡ slash
        → at_part as_spot tree.now follow again on at (record { name = name.now; after = after }) last ≡ step_means again on after result }
    ensures sees { (again : List ℕ → List ℕ → List Seen) (on : Standing → List Seen) (after : List ℕ) → not (is_empty after) ≡ slash
        → at_part ends_seeing tree.now follow again on at (record { name = name.now; after = after }) last ≡ step_sees again on after result }
{
    if !tree.is_dir(at) {
        return WalkStep::Fails(Errno::NotDir);
    }
    if !has_x(tree.mode(at)) {
        return WalkStep::Fails(Errno::Denied);
    }
    if name == b".".as_slice() {
        return WalkStep::On(Here {
            node: at,
            up: None,
            slash,
        });
    }
    if name == b"..".as_slice() {
        return match tree.parent(at) {
            None => WalkStep::Fails(Errno::NoEntry),
            Some(up) => WalkStep::On(Here {
                node: up,
                up: None,
                slash,
            }),
        };
    }
    if !is_name(name) {
        return WalkStep::Fails(Errno::Invalid);
    }
    if at.is_root() && name == b".rkr".as_slice() {
        return WalkStep::Fails(Errno::Denied);
    }
    at_name(tree, follow, at, name, slash, last)
}
