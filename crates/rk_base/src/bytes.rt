// Byte strings, which contracts see as lists of numbers.
ghost use Rattle.std.specs.Prelude.{◌≡◌, ◌↔◌, IsTrue, ℕ, List, length, IfOk, OnOk, nat_eq, Some, refl};
ghost use Rattle.std.specs.Ordering.{nat_cmp};
ghost use Rattle.rk_base.specs.Text.{written};
ghost use Rattle.std.specs.Hash as fed;
ghost use Rattle.std.specs.Cmp.{po, partial_equiv_from_equiv, nat_eq_equiv, unsigned_ties, unsigned_Decides};
ghost use Rattle.std.specs.Cmp.Lexicographic.{slice_cmp, pointwise, lists_equiv, lists_ties, nat_list_cmp_total};

use crate::NoMemory;
use crate::writing::write_over;
use std::alloc::Global;
use std::cmp::Ordering;
use std::hash::{Hash, Hasher};
use std::marker::Model;
use std::rc::Rc;

/// A byte string. A copy shares its text, so it takes no memory for it. Byte strings are ordered by their bytes.
#[derive(Debug, Drop, Clone)]
pub struct Bytes {
    bytes: Rc<Vec<u8>>,
}

impl Model for Bytes {
    ghost Value = { List ℕ };

    ghost view = { λ b. b.bytes.value.items };
}

impl Bytes {
    /// A byte string of these bytes; want of memory is for the count of its owners.
    pub fn new(alloc: Global, bytes: Vec<u8>) -> Result<Bytes, NoMemory>
        ensures { IfOk result (λ b. b ≡ bytes.items) }
    {
        let bytes = Rc::new(alloc, bytes)?;
        Ok(Bytes { bytes })
    }

    /// A copy of these bytes.
    pub fn from_slice(alloc: Global, bytes: &[u8]) -> Result<Bytes, NoMemory>
        ensures { IfOk result (λ b. b ≡ bytes.now) }
    {
        let bytes = Vec::from_slice(alloc, bytes)?;
        Bytes::new(alloc, bytes)
    }

    /// Its bytes.
    pub fn as_slice(&self) -> &[u8]
        ensures { result.now ≡ self.now }
    {
        self.bytes.as_slice()
    }

    /// Where its memory comes from.
    pub(crate) fn allocator(&self) -> Global {
        *self.bytes.allocator()
    }

    /// How many bytes there are.
    pub fn len(&self) -> usize
        ensures { result ≡ length self.now }
    {
        self.bytes.len()
    }

    /// Whether it has no bytes.
    pub fn is_empty(&self) -> bool
        ensures { IsTrue result ↔ (length self.now ≡ 0) }
    {
        self.bytes.is_empty()
    }

    /// Whether both are the same bytes.
    pub fn same(&self, other: &Bytes) -> bool
        ensures { IsTrue result ↔ (self.now ≡ other.now) }
    {
        self.bytes.as_slice() == other.bytes.as_slice()
    }

    /// Writes bytes over its own from a place on, and zero bytes into a gap before it: in place, unless other byte
    /// strings share the text. After want of memory it may be anything.
    pub fn write_at(&mut self, at: usize, bytes: &[u8]) -> Result<(), NoMemory>
        ensures { OnOk result (self.new ≡ written self.old at bytes.now) }
    {
        let text = Rc::make_mut(&mut self.bytes)?;
        write_over(text, at, bytes)?;
        Ok(())
    }

    /// A copy of the bytes, which shares them.
    pub fn copy(&self) -> Result<Bytes, NoMemory>
        ensures { IfOk result (λ b. b ≡ self.now) }
    {
        let copy = self.clone()?;
        Ok(copy)
    }
}

impl PartialEq for Bytes {
    ghost eq = { pointwise nat_eq };

    ghost laws = { partial_equiv_from_equiv (lists_equiv nat_eq_equiv) };

    fn eq(&self, other: &Bytes) -> bool {
        self.as_slice() == other.as_slice()
    }
}

impl Eq for Bytes {
    ghost laws = { lists_equiv nat_eq_equiv };
}

impl PartialOrd for Bytes {
    ghost partial_cmp = { λ x y. Some (slice_cmp nat_cmp x y) };

    ghost laws = { po nat_list_cmp_total (lists_ties nat_cmp unsigned_ties) };

    fn partial_cmp(&self, other: &Bytes) -> Option<Ordering> {
        Some(self.cmp(other))
    }
}

impl Ord for Bytes {
    ghost cmp = { slice_cmp nat_cmp };

    ghost total = { nat_list_cmp_total };

    ghost matches_partial_cmp = { λ x y. refl };

    ghost matches_eq = { lists_ties nat_cmp unsigned_ties };

    fn cmp(&self, other: &Bytes) -> Ordering {
        self.as_slice().cmp(other.as_slice())
    }
}

impl Hash for Bytes {
    ghost hash_input = { fed.slice fed.u8 };

    ghost respects_eq = { (fed.items_Alike (fed.same_Alike fed.u8 unsigned_Decides)).fed };

    fn hash<H: Hasher>(&self, state: &mut H) {
        self.as_slice().hash(state);
    }
}
