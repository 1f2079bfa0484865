// The walk along a path.
ghost use Rattle.std.specs.Prelude.{IfOk, OnOk, ◌≡◌, ◌<◌, [], ◌∷◌, Ok, Err, MatchBool, MatchOption, not, ◌||◌, ◌&&◌, ◌^◌, ◌++◌, ◌-◌, length};
ghost use Rattle.std.specs.List.{list_all};
ghost use Rattle.rk_base.specs.Canonical.{has_nul, is_empty};
ghost use Rattle.rk_tree.specs.Hierarchy.{top};
ghost use Rattle.rk_tree.specs.Whole.{IsWhole};
ghost use Rattle.rk_walk.specs.Course.{only_slashes, IsFirst, Advances, Course, IsCourse, looks_ahead, marked};
ghost use Rattle.rk_walk.specs.Places.{IsPlaceOf};
ghost use Rattle.rk_walk.specs.Walk.{as_spot, leads, resolve, start};
ghost use Rattle.rk_walk.specs.Way.{leads_seeing, way};
ghost use Rattle.rk_walk.specs.declared.place.Place.TheVariants.{Found};
ghost use Rattle.rk_base.specs.declared.errno.Errno.TheVariants.{Loops};

use crate::marks::{Marks, only_slashes};
use crate::seen::look;
use crate::step::{WalkStep, component};
use crate::text::first_part;
use crate::{Here, Label, Place, Seen};
use rk_base::{Errno, NoMemory, has_nul};
use rk_tree::{NodeId, Tree};
use std::alloc::Global;
use std::marker::Model;

// Where the walk stands: here, with this text ahead, then the marks.
#[derive(Drop)]
pub(crate) struct Walker<'a> {
    here: Here<'a>,
    ahead: &'a [u8],
    marks: Marks<'a>,
    links: usize,
}

// A text that begins with a slash starts at the root.
fn start<'a>(at: NodeId, text: &[u8]) -> Here<'a>
    ensures { result ≡ start at text.now }
{
    let node = match text {
        [first, ..] => { if *first == b'/' { NodeId::root() } else { at } }
        [] => at,
    };
    Here {
        node,
        up: None,
        slash: true,
    }
}

impl<'a> Model for Walker<'a> {
    ghost Value = { Course };

    ghost view = { λ w. record { here = w.here; ahead = w.ahead.now; marks = w.marks; links = w.links } };
}

impl<'a> Walker<'a> {
    // The walk along a path from the root.
    pub(crate) fn new(root: NodeId, path: &'a [u8]) -> Walker<'a>
        ensures { result ≡ record { here = start root path.now; ahead = path.now; marks = []; links = 32 } }
    {
        Walker {
            here: start(root, path),
            ahead: path,
            marks: Marks::new(),
            links: 32,
        }
    }

    fn found(&self) -> Result<Place<'a>, Errno>
        ensures { result ≡ Ok (Found self.now.here) }
    {
        let up = match &self.here.up {
            None => None,
            Some((dir, name)) => Some((*dir, Label::new(name.bytes()))),
        };
        Ok(Place::Found(Here {
            node: self.here.node,
            up,
            slash: self.here.slash,
        }))
    }

    // The text is used up.
    fn pops(&mut self) -> bool
        ensures { MatchBool result ((self.new ≡ record self.old { ahead = self.new.ahead; marks = self.new.marks }) × (self.old.marks ≡ self.new.marks ++ self.new.ahead ∷ [])) ((self.new ≡ self.old) × (self.old.marks ≡ [])) }
    {
        match self.marks.pop() {
            None => false,
            Some(text) => {
                self.ahead = text;
                true
            }
        }
    }

    fn goes_on(&mut self, next: Here<'a>, rest: &'a [u8])
        ensures { self.new ≡ record self.old { here = next.entry; ahead = rest.now } }
    {
        self.here = next;
        self.ahead = rest;
    }

    // A link's text stands in place of the component.
    fn follows(&mut self, text: &'a [u8], rest: &'a [u8])
        requires room { length self.old.marks < 32 }
        requires links { 0 < self.old.links }
        ensures { self.new ≡ record { here = start self.old.here.node text.now; ahead = text.now; marks = marked self.old.marks rest.now; links = self.old.links - 1 } }
    {
        if !rest.is_empty() {
            self.marks.push(rest);
        }
        self.links -= 1;
        self.ahead = text;
        self.here = start(self.here.node, text);
    }

    fn node(&self) -> NodeId
        ensures { result ≡ self.entry.now.here.node }
    {
        self.here.node
    }

    fn ahead(&self) -> &'a [u8]
        ensures { result.now ≡ self.entry.now.ahead }
    {
        self.ahead
    }

    // Whether a slash stands after a component.
    fn ends(&self, rest: &[u8]) -> bool
        ensures { result ≡ (not (is_empty rest.now) || not (is_empty self.entry.now.marks)) }
    {
        !rest.is_empty() || !self.marks.is_empty()
    }

    // Whether no component stands after this one.
    fn is_last(&self, rest: &[u8]) -> bool
        ensures { result ≡ (only_slashes rest.now && list_all only_slashes self.entry.now.marks) }
    {
        only_slashes(rest) && self.marks.only_slashes()
    }

    // What stands here, at a component.
    fn meets(
        &mut self,
        tree: &'a Tree,
        follow: bool,
        name: &'a [u8],
        rest: &'a [u8],
    ) -> Option<Result<Place<'a>, Errno>>
        requires kept { IsCourse self.old }
        requires first { IsFirst self.old.ahead name.now rest.now }
        ensures { Advances tree.now follow self.old self.new result }
    {
        let slash = self.ends(rest);
        let last = self.is_last(rest);
        match component(tree, follow, self.node(), name, slash, last) {
            WalkStep::On(next) => {
                self.goes_on(next, rest);
                None
            }
            WalkStep::Follow(text) => self.links_to(text.bytes(), rest),
            WalkStep::Ends(place) => Some(Ok(place)),
            WalkStep::Fails(e) => Some(Err(e)),
        }
    }

    fn links_to(&mut self, text: &'a [u8], rest: &'a [u8]) -> Option<Result<Place<'a>, Errno>>
        requires kept { IsCourse self.old }
        ensures { MatchOption result ((0 < self.old.links) × (length text.now < 2 ^ 64) × (self.new ≡ record { here = start self.old.here.node text.now; ahead = text.now; marks = marked self.old.marks rest.now; links = self.old.links - 1 })) (λ spot. (self.old.links ≡ 0) × (spot ≡ Err Loops)) }
    {
        if self.links == 0 {
            return Some(Err(Errno::Loops));
        }
        self.follows(text, rest);
        None
    }

    // What the next component looks at is noted.
    fn looks(&self, tree: &Tree, seen: &mut Vec<Seen>) -> Result<(), NoMemory>
        ensures { OnOk result (seen.new.items ≡ seen.old.items ++ looks_ahead tree.now self.entry.now) }
    {
        match first_part(self.ahead()) {
            None => Ok(()),
            Some((name, _)) => {
                look(tree, self.node(), name, seen)?;
                Ok(())
            }
        }
    }

    // A step of the walk.
    fn advance(&mut self, tree: &'a Tree, follow: bool) -> Option<Result<Place<'a>, Errno>>
        requires { IsCourse self.old }
        ensures { Advances tree.now follow self.old self.new result }
    {
        match first_part(self.ahead()) {
            None => {
                if self.pops() {
                    None
                } else {
                    Some(self.found())
                }
            }
            Some((name, rest)) => self.meets(tree, follow, name, rest),
        }
    }
}

/// Where a path leads, or what stands in its way, and what is looked at until it ends.
#[derive(Debug, Drop)]
pub struct Way<'a> {
    pub seen: Vec<Seen>,
    pub place: Result<Place<'a>, Errno>,
}

impl<'a> Way<'a> {
    // Nothing is looked at.
    fn refused(alloc: Global, e: Errno) -> Way<'a>
        ensures seen { result.seen.items ≡ [] }
        ensures place { result.place ≡ Err e }
    {
        Way {
            seen: Vec::new(alloc),
            place: Err(e),
        }
    }
}

pub(crate) fn leads<'a>(tree: &'a Tree, path: &'a [u8], follow: bool) -> Result<Place<'a>, Errno>
    ensures place { result ≡ leads as_spot 32 tree.now follow top path.now [] }
    ensures whole { IsWhole tree.now }
{
    let mut walker = Walker::new(tree.root(), path);
    loop {
        if let Some(end) = walker.advance(tree, follow) {
            return end;
        }
    }
}

// The same, with what is looked at.
fn leads_seeing<'a>(
    alloc: Global,
    tree: &'a Tree,
    path: &'a [u8],
    follow: bool,
) -> Result<Way<'a>, NoMemory>
    ensures seen { IfOk result (λ w. w.seen.items ≡ leads_seeing 32 tree.now follow top path.now []) }
    ensures place { IfOk result (λ w. w.place ≡ leads as_spot 32 tree.now follow top path.now []) }
    ensures whole { IsWhole tree.now }
{
    let mut seen = Vec::new(alloc);
    let mut walker = Walker::new(tree.root(), path);
    'walk: loop {
        walker.looks(tree, &mut seen)?;
        if let Some(place) = walker.advance(tree, follow) {
            return Ok(Way { seen, place });
        }
    }
}

/// Where a path leads, with its last link followed or not.
pub fn resolve<'a>(tree: &'a Tree, path: &'a [u8], follow: bool) -> Result<Place<'a>, Errno>
    ensures place { result ≡ resolve tree.now path.now follow }
    ensures stands { IfOk result (IsPlaceOf tree.now) }
{
    match path {
        [] => Err(Errno::NoEntry),
        [first, ..] => {
            if *first != b'/' || has_nul(path) {
                Err(Errno::Invalid)
            } else {
                leads(tree, path, follow)
            }
        }
    }
}

/// Where a path leads, and what is looked at on the way, in the order of its components. It fails for want of memory alone.
pub fn resolve_seeing<'a>(
    alloc: Global,
    tree: &'a Tree,
    path: &'a [u8],
    follow: bool,
) -> Result<Way<'a>, NoMemory>
    ensures seen { IfOk result (λ w. w.seen.items ≡ way tree.now path.now follow) }
    ensures place { IfOk result (λ w. w.place ≡ resolve tree.now path.now follow) }
    ensures stands { IfOk result (λ w. IfOk w.place (IsPlaceOf tree.now)) }
{
    match path {
        [] => Ok(Way::refused(alloc, Errno::NoEntry)),
        [first, ..] => {
            if *first != b'/' || has_nul(path) {
                Ok(Way::refused(alloc, Errno::Invalid))
            } else {
                let way = leads_seeing(alloc, tree, path, follow)?;
                Ok(way)
            }
        }
    }
}
