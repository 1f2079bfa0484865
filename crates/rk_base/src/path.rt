// Paths.
ghost use Rattle.std.specs.Prelude.{◌≡◌, ◌+◌, ◌++◌, ◌∷◌, [], ◌↔◌, IsTrue, ℕ, List, IfOk, drop, nat_eq, None, Some, refl, true, false, if◌then◌else◌};
ghost use Rattle.std.specs.Ordering.{nat_cmp};
ghost use Rattle.std.specs.Hash as fed;
ghost use Rattle.std.specs.Cmp.{po, partial_equiv_from_equiv, nat_eq_equiv, unsigned_ties, unsigned_Decides};
ghost use Rattle.std.specs.Cmp.Lexicographic.{slice_cmp, pointwise, lists_equiv, lists_ties, nat_list_cmp_total};
ghost use Rattle.rk_base.specs.Text.{begins_with, depth, root, join, moved, parent, stem, name_of, last_of, is_in, is_within, or_root, is_root};
ghost use Rattle.rk_base.specs.Canonical.{is_canonical, is_name};
ghost use Rattle.rk_base.specs.Faults.{Reads};
ghost use Rattle.rk_base.specs.declared.path.PathFault.TheVariants as fault;

use crate::text::{is_canonical, last_component};
use crate::{Bytes, Name, NoMemory};
use std::alloc::Global;
use std::cmp::Ordering;
use std::hash::{Hash, Hasher};
use std::marker::Model;

/// Why bytes are no name, or a text is no path.
#[derive(Clone, Copy, Debug, PartialEq, Eq)]
pub enum PathFault {
    Invalid,
    NoMemory,
}

impl From<NoMemory> for PathFault {
    ghost from_gives = { λ _ e. e ≡ fault.NoMemory };

    fn from(_: NoMemory) -> PathFault {
        PathFault::NoMemory
    }
}

/// A path: `/`, or names each after one slash. Paths are ordered by the bytes of their texts.
#[derive(Debug, Drop, Clone)]
pub struct Path {
    text: Bytes,
}

impl Model for Path {
    ghost use Rattle.std.specs.Prelude.{◌≡◌, List, ℕ, true};
    ghost use Rattle.rk_base.specs.Canonical.{is_canonical};

    ghost Value = { List ℕ };

    ghost view = { λ p. p.text };

    ghost invariant = { λ p. is_canonical p.text ≡ true };
}

fn or_root(text: &[u8]) -> &[u8]
    ensures { result.now ≡ or_root text.now }
{
    match text {
        [] => b"/",
        text => text,
    }
}

// A path as what a name is put after.
fn stem(dir: &[u8]) -> &[u8]
    ensures { result.now ≡ stem dir.now }
{
    if dir == b"/".as_slice() { b"" } else { dir }
}

#[tactic(auto, unfolding(crate::specs::Text::join))]
fn join(alloc: Global, dir: &[u8], name: &[u8]) -> Result<Bytes, NoMemory>
    ensures { IfOk result (λ b. b ≡ join dir.now name.now) }
{
    let mut text = Vec::from_slice(alloc, stem(dir))?;
    text.push(b'/')?;
    text.extend_from_slice(name)?;
    let text = Bytes::new(alloc, text)?;
    Ok(text)
}

impl Path {
    /// The path of this canonical text; `Invalid` exactly where it is none.
    pub fn parse(alloc: Global, text: &[u8]) -> Result<Path, PathFault>
        ensures { Reads (is_canonical text.now) text.now result }
    {
        if !is_canonical(text) {
            return Err(PathFault::Invalid);
        }
        let text = Bytes::from_slice(alloc, text)?;
        Ok(Path { text })
    }

    /// The path that a text is, which shares its bytes; `None` exactly where it is not canonical.
    pub fn from_text(text: &Bytes) -> Result<Option<Path>, NoMemory>
        ensures { IfOk result (λ p. p ≡ (if is_canonical text.now then Some text.now else None)) }
    {
        if !is_canonical(text.as_slice()) {
            return Ok(None);
        }
        let text = text.copy()?;
        Ok(Some(Path { text }))
    }

    /// The root, `/`.
    pub fn root(alloc: Global) -> Result<Path, NoMemory>
        ensures { IfOk result (λ p. p ≡ root) }
    {
        let text = Bytes::from_slice(alloc, b"/")?;
        Ok(Path { text })
    }

    /// The path of a name in this directory.
    pub fn join(&self, alloc: Global, name: &Name) -> Result<Path, NoMemory>
        ensures path { IfOk result (λ p. p ≡ join self.now name.now) }
        ensures dir { is_canonical self.now ≡ true }
        ensures name { is_name name.now ≡ true }
        ensures deeper { depth (join self.now name.now) ≡ depth self.now + 1 }
    {
        let text = join(alloc, self.text.as_slice(), name.as_slice())?;
        Ok(Path { text })
    }

    /// The canonical text, which can be shared.
    pub fn bytes(&self) -> &Bytes
        ensures value { result.now ≡ self.now }
        ensures canonical { is_canonical self.now ≡ true }
    {
        &self.text
    }

    /// The canonical text.
    pub fn text(&self) -> &[u8]
        ensures value { result.now ≡ self.now }
        ensures canonical { is_canonical self.now ≡ true }
    {
        self.text.as_slice()
    }

    /// The directory that it stands in; the root's is the root.
    pub fn parent(&self) -> Result<Path, NoMemory>
        ensures { IfOk result (λ p. p ≡ parent self.now) }
    {
        let text = Bytes::from_slice(self.text.allocator(), self.parent_text())?;
        Ok(Path { text })
    }

    /// The text of the directory that it stands in; the root's is the root.
    #[tactic(auto, using(crate::proofs::PathLemmas::parent_by, crate::proofs::PathLemmas::parent_alone))]
    pub fn parent_text(&self) -> &[u8]
        ensures { result.now ≡ parent self.now }
    {
        match last_component(self.text()) {
            Some((front, _)) => or_root(front),
            None => b"/",
        }
    }

    /// Its last name; nothing for the root.
    #[tactic(auto, using(crate::proofs::PathLemmas::name_by, crate::proofs::PathLemmas::name_alone))]
    pub fn name(&self) -> &[u8]
        ensures { result.now ≡ name_of self.now }
    {
        let text = self.text();
        match last_component(text) {
            Some((_, name)) => name,
            None => text,
        }
    }

    /// Its last name; `None` exactly for the root.
    pub fn last(&self) -> Result<Option<Name>, NoMemory>
        ensures { IfOk result (λ name. name ≡ last_of self.now) }
    {
        if self.is_root() {
            return Ok(None);
        }
        let name = Bytes::from_slice(self.text.allocator(), self.name())?;
        Ok(Some(Name::of(name)))
    }

    /// How many names it has.
    #[tactic(auto, unfolding(crate::specs::Text::depth))]
    pub fn depth(&self) -> usize
        ensures { result ≡ depth self.now }
    {
        if self.is_root() {
            0
        } else {
            self.text().iter().filter(|b| **b == b'/').count()
        }
    }

    /// Whether it stands in this directory.
    #[tactic(auto, unfolding(crate::specs::Text::is_in))]
    pub fn is_in(&self, dir: &Path) -> bool
        ensures { result ≡ is_in dir.now self.now }
    {
        !self.is_root() && self.parent_text() == dir.text()
    }

    /// Whether it is `/`.
    pub fn is_root(&self) -> bool
        ensures { result ≡ is_root self.now }
    {
        self.text() == b"/".as_slice()
    }

    /// Whether both are one path.
    pub fn same(&self, other: &Path) -> bool
        ensures { IsTrue result ↔ (self.now ≡ other.now) }
    {
        self.text.same(&other.text)
    }

    /// A copy of the path.
    pub fn copy(&self) -> Result<Path, NoMemory>
        ensures copy { IfOk result (λ p. p ≡ self.now) }
        ensures canonical { is_canonical self.now ≡ true }
    {
        let text = self.text.copy()?;
        Ok(Path { text })
    }
}

impl PartialEq for Path {
    ghost eq = { pointwise nat_eq };

    ghost laws = { partial_equiv_from_equiv (lists_equiv nat_eq_equiv) };

    fn eq(&self, other: &Path) -> bool {
        self.text() == other.text()
    }
}

impl Eq for Path {
    ghost laws = { lists_equiv nat_eq_equiv };
}

impl PartialOrd for Path {
    ghost partial_cmp = { λ x y. Some (slice_cmp nat_cmp x y) };

    ghost laws = { po nat_list_cmp_total (lists_ties nat_cmp unsigned_ties) };

    fn partial_cmp(&self, other: &Path) -> Option<Ordering> {
        Some(self.cmp(other))
    }
}

impl Ord for Path {
    ghost cmp = { slice_cmp nat_cmp };

    ghost total = { nat_list_cmp_total };

    ghost matches_partial_cmp = { λ x y. refl };

    ghost matches_eq = { lists_ties nat_cmp unsigned_ties };

    fn cmp(&self, other: &Path) -> Ordering {
        self.text().cmp(other.text())
    }
}

impl Hash for Path {
    ghost hash_input = { fed.slice fed.u8 };

    ghost respects_eq = { (fed.items_Alike (fed.same_Alike fed.u8 unsigned_Decides)).fed };

    fn hash<H: Hasher>(&self, state: &mut H) {
        self.text().hash(state);
    }
}
