// Sets of places: a bit each, in words of 64.
ghost use Rattle.std.specs.Prelude.{◌≡◌, ◌↔◌, ◌⊎◌, ◌+◌, ◌-◌, ◌*◌, ◌^◌, ℕ, ◌≤◌, ◌<◌, ◌/◌, max, bit_or, bit_and, bit_xor, length, vec_len, IsTrue, IfOk, OnOk, slice_index};
ghost use Rattle.ut_places.specs.Places.{word_at, Has, IsNext, IsLast};

use rk_base::NoMemory;
use std::alloc::Global;

/// A set of places.
#[derive(Drop)]
pub struct Places {
    /// How many words lie before its own: none of their places is in the set.
    before: usize,
    /// A bit for each place of its own words, the lowest of a word for the first of its 64.
    words: Vec<u64>,
}

// So many words at the least, with none in those that are new.
fn lengthen(words: &mut Vec<u64>, count: usize) -> Result<(), NoMemory>
    ensures same { OnOk result ((k : ℕ) → slice_index words.new.items k ≡ slice_index words.old.items k) }
    ensures count { OnOk result (count ≤ vec_len words.new) }
{
    if words.len() < count {
        words.resize(count, 0)?;
    }
    Ok(())
}

// So many words with none, and these behind them.
fn behind(alloc: Global, count: usize, words: &[u64]) -> Result<Vec<u64>, NoMemory>
    ensures none { IfOk result (λ r. (k : ℕ) → k < count → slice_index r.items k ≡ 0) }
    ensures same { IfOk result (λ r. (k : ℕ) → slice_index r.items (count + k) ≡ slice_index words.now k) }
{
    let mut all = Vec::new(alloc);
    all.resize(count, 0)?;
    all.extend_from_slice(words)?;
    Ok(all)
}

// The places of both, where the words of the second begin behind so many of the first.
fn unite(words: &mut Vec<u64>, from: usize, more: &[u64])
    requires { from + length more.now ≤ vec_len words.old }
    ensures same { (k : ℕ) → k < from → slice_index words.new.items k ≡ slice_index words.old.items k }
    ensures both { (k : ℕ) → slice_index words.new.items (from + k) ≡ bit_or (slice_index words.old.items (from + k)) (slice_index more.now k) }
{
    'words: for k in 0..more.len() {
        words[from + k] |= more[k];
    }
}

impl Places {
    /// The allocator of its memory.
    pub fn allocator(&self) -> Global {
        *self.words.allocator()
    }

    /// No place.
    pub fn new(alloc: Global) -> Places
        ensures { (j : ℕ) → Has result j → ⊥ }
    {
        Places {
            before: 0,
            words: Vec::new(alloc),
        }
    }

    /// One place.
    pub fn of(alloc: Global, place: usize) -> Result<Places, NoMemory>
        ensures { IfOk result (λ r. (j : ℕ) → Has r j ↔ (j ≡ place)) }
    {
        let mut set = Places::new(alloc);
        set.insert(place)?;
        Ok(set)
    }

    /// The places from one on and before another one.
    pub fn between(alloc: Global, from: usize, end: usize) -> Result<Places, NoMemory>
        requires { from ≤ end }
        ensures { IfOk result (λ r. (j : ℕ) → Has r j ↔ ((from ≤ j) × (j < end))) }
    {
        let mut set = Places::new(alloc);
        'places: for place in from..end {
            set.insert(place)?;
        }
        Ok(set)
    }

    // One of its own words.
    fn own(&self, k: usize) -> u64
        ensures { result ≡ slice_index self.now.words.items k }
    {
        if k < self.words.len() {
            self.words[k]
        } else {
            0
        }
    }

    fn word(&self, k: usize) -> u64
        ensures { result ≡ word_at self.now k }
    {
        if k < self.before {
            return 0;
        }
        self.own(k - self.before)
    }

    // The word that lies so far behind some that are passed over.
    fn word_behind(&self, before: usize, k: usize) -> u64
        ensures { result ≡ word_at self.now (before + k) }
    {
        if before < self.before {
            let gap = self.before - before;
            return if k < gap { 0 } else { self.own(k - gap) };
        }
        match (before - self.before).checked_add(k) {
            None => 0,
            Some(own) => self.own(own),
        }
    }

    /// Whether it has a place.
    pub fn has(&self, place: usize) -> bool
        ensures { IsTrue result ↔ Has self.now place }
    {
        (self.word(place / 64) >> (place % 64)) & 1 == 1
    }

    // Words of its own from one on, of which so many lie before it.
    fn begin(&mut self, before: usize) -> Result<(), NoMemory>
        ensures same { OnOk result ((k : ℕ) → word_at self.new k ≡ word_at self.old k) }
        ensures before { OnOk result (self.new.before ≤ before) }
    {
        if self.words.is_empty() {
            self.before = before;
        } else if before < self.before {
            let count = self.before - before;
            self.words = behind(self.allocator(), count, self.words.as_slice())?;
            self.before = before;
        }
        Ok(())
    }

    /// Takes a place in.
    pub fn insert(&mut self, place: usize) -> Result<(), NoMemory>
        ensures { OnOk result ((j : ℕ) → Has self.new j ↔ (Has self.old j ⊎ (j ≡ place))) }
    {
        self.begin(place / 64)?;
        let k = place / 64 - self.before;
        lengthen(&mut self.words, k + 1)?;
        self.words[k] |= 1 << (place % 64);
        Ok(())
    }

    /// Takes the places of another set in.
    pub fn add(&mut self, other: &Places) -> Result<(), NoMemory>
        ensures { OnOk result ((j : ℕ) → Has self.new j ↔ (Has self.old j ⊎ Has other.now j)) }
    {
        if other.words.is_empty() {
            return Ok(());
        }
        self.begin(other.before)?;
        let from = other.before - self.before;
        let Some(count) = from.checked_add(other.words.len()) else {
            return Err(NoMemory);
        };
        lengthen(&mut self.words, count)?;
        unite(&mut self.words, from, other.words.as_slice());
        Ok(())
    }

    /// Leaves the places of another set out.
    pub fn remove(&mut self, other: &Places)
        ensures { (j : ℕ) → Has self.new j ↔ (Has self.old j × (Has other.now j → ⊥)) }
    {
        'words: for k in 0..self.words.len() {
            self.words[k] ^= self.words[k] & other.word_behind(self.before, k);
        }
    }

    /// Another set of the same places.
    pub fn copy(&self) -> Result<Places, NoMemory>
        ensures { IfOk result (λ r. (j : ℕ) → Has r j ↔ Has self.now j) }
    {
        let words = Vec::from_slice(self.allocator(), self.words.as_slice())?;
        Ok(Places {
            before: self.before,
            words,
        })
    }

    // Whether each of its words has no place.
    pub(crate) fn is_empty(&self) -> bool
        ensures { IsTrue result → (j : ℕ) → Has self.now j → ⊥ }
    {
        'words: for word in &self.words {
            if *word != 0 {
                return false;
            }
        }
        true
    }

    // A place before which there is none.
    fn low(&self) -> usize
        ensures { (j : ℕ) → Has self.now j → result ≤ j }
    {
        self.before.saturating_mul(64)
    }

    // A place from which on there is none.
    fn high(&self) -> usize
        ensures { (j : ℕ) → j < 2 ^ 64 - 1 → Has self.now j → j < result }
    {
        self.before
            .saturating_add(self.words.len())
            .saturating_mul(64)
    }

    // Whether a word begins at a place, and has none.
    fn is_gap(&self, place: usize) -> bool
        ensures { IsTrue result → (j : ℕ) → place ≤ j → j < place + 64 → Has self.now j → ⊥ }
    {
        place % 64 == 0 && self.word(place / 64) == 0
    }

    /// The first place from one on and before another one.
    pub fn next(&self, from: usize, end: usize) -> Option<usize>
        ensures { IsNext self.now from end result }
    {
        let mut at = from.max(self.low());
        let stop = end.min(self.high());
        'places: while at < stop {
            if stop - at > 64 && self.is_gap(at) {
                at += 64;
            } else if self.has(at) {
                return Some(at);
            } else {
                at += 1;
            }
        }
        None
    }

    /// The last place before an end.
    pub fn last(&self, end: usize) -> Option<usize>
        ensures { IsLast self.now end result }
    {
        let low = self.low();
        let mut at = end.min(self.high());
        'places: while at > low {
            if at >= 64 && self.is_gap(at - 64) {
                at -= 64;
            } else {
                at -= 1;
                if self.has(at) {
                    return Some(at);
                }
            }
        }
        None
    }
}
