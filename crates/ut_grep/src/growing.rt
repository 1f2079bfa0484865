// How the states of texts are made: the next ones of each, one state after another.
ghost use Rattle.std.specs.Prelude.{◌≡◌, ℕ, ◌+◌, ◌<◌, ◌≤◌, ◌++◌, ◌∷◌, [], drop, length, OnOk, IfOk, Some, slice_get, IsTrue, ◌↔◌};
ghost use Rattle.ut_grep.specs.Growing.{IsRun, IsNewState, IsAdded, IsExpanded};
ghost use Rattle.ut_grep.specs.Ordered.{AreOrdered};
ghost use Rattle.ut_grep.specs.Reading.{longest, is_any};
ghost use Rattle.ut_grep.specs.Tries.{texts_of, count, text_at, front_at, start_at, IsGroup, IsTrie, IsWhole};

use crate::occurs::is_same;
use crate::trie::{State, Trie};
use rk_base::{Bytes, NoMemory};
use std::alloc::Global;

// A number of texts, bytes or states; where it needs more than 4 bytes, there is no memory for what it counts.
fn number(n: usize) -> Result<u32, NoMemory>
    ensures { IfOk result (λ m. m ≡ n) }
{
    if n > u32::MAX as usize {
        return Err(NoMemory);
    }
    Ok(n as u32)
}

// Whether one of the texts has no bytes.
fn has_empty(texts: &[Bytes]) -> bool
    ensures { result ≡ is_any texts.now [] }
{
    texts.iter().any(|text| is_same(&[], text.as_slice()))
}

impl Trie {
    // The byte that stands at a place of a text.
    fn byte(&self, text: usize, place: usize) -> Option<u8>
        requires { text < length (texts_of self.now) }
        ensures { result ≡ slice_get (text_at self.now text) place }
    {
        self.texts[text].as_slice().get(place).copied()
    }

    // Whether this byte stands there.
    fn has_byte(&self, text: usize, place: usize, b: u8) -> bool
        requires { text < length (texts_of self.now) }
        ensures { IsTrue result ↔ (slice_get (text_at self.now text) place ≡ Some b) }
    {
        match self.byte(text, place) {
            None => false,
            Some(other) => other == b,
        }
    }

    // The first text behind this one and below `high` that has another byte at a place.
    fn run_end(&self, low: usize, high: usize, place: usize, b: u8) -> usize
        requires low { low < high }
        requires high { high ≤ length (texts_of self.now) }
        ensures { IsRun self.now place b low high result }
    {
        for text in low + 1..high {
            if !self.has_byte(text, place, b) {
                return text;
            }
        }
        high
    }

    // The link of what stands for one byte more than a state.
    fn link(&self, at: usize, b: u8) -> usize
        requires trie { IsTrie self.now }
        requires at { at + 1 ≡ length self.now.starts.items }
        requires state { at < count self.now }
        ensures within { result < count self.now }
        ensures front { front_at self.now result ≡ longest (texts_of self.now) (drop 1 (front_at self.now at ++ b ∷ [])) }
    {
        if at == 0 {
            0
        } else {
            self.step(self.states[at].link as usize, b)
        }
    }

    // The state that stands for one byte more than another one, with these texts.
    fn new_state(&self, at: usize, b: u8, low: usize, high: usize) -> Result<State, NoMemory>
        requires trie { IsTrie self.now }
        requires at { at + 1 ≡ length self.now.starts.items }
        requires state { at < count self.now }
        requires low { low < high }
        requires group { IsGroup (texts_of self.now) (front_at self.now at ++ b ∷ []) low high }
        ensures { IfOk result (λ s. IsNewState self.now at b s) }
    {
        let link = self.link(at, b);
        let length = self.states[at].length as usize + 1;
        let is_text = self.texts[low].len() == length;
        Ok(State {
            low: number(low)?,
            high: number(high)?,
            length: number(length)?,
            link: number(link)?,
            is_text,
            holds: is_text || self.states[link].holds,
        })
    }

    // Adds a state.
    fn add(&mut self, at: usize, b: u8, state: State) -> Result<(), NoMemory>
        requires trie { IsTrie self.old }
        requires at { at < count self.old }
        requires state { IsNewState self.old at b state }
        ensures { OnOk result (IsAdded self.old self.new at b) }
    {
        self.states.push(state)?;
        self.bytes.push(b)?;
        Ok(())
    }

    // Adds the next states of one.
    fn expand(&mut self, at: usize) -> Result<(), NoMemory>
        requires trie { IsTrie self.old }
        requires at { at + 1 ≡ length self.old.starts.items }
        requires state { at < count self.old }
        requires start { start_at self.old at ≡ count self.old }
        ensures { OnOk result (IsExpanded self.old self.new at) }
    {
        let place = self.states[at].length as usize;
        let high = self.states[at].high as usize;
        let mut low = self.states[at].low as usize;
        'runs: while low < high {
            match self.byte(low, place) {
                None => low += 1,
                Some(b) => {
                    let end = self.run_end(low, high, place, b);
                    let state = self.new_state(at, b, low, end)?;
                    self.add(at, b, state)?;
                    low = end;
                }
            }
        }
        self.starts.push(number(self.states.len())?)?;
        Ok(())
    }

    // The state of no bytes, before which stand no others.
    fn root(alloc: Global, texts: Vec<Bytes>) -> Result<Trie, NoMemory>
        requires { AreOrdered texts.items }
        ensures trie { IfOk result IsTrie }
        ensures texts { IfOk result (λ t. texts_of t ≡ texts.items) }
        ensures starts { IfOk result (λ t. length t.starts.items ≡ 1) }
        ensures last { IfOk result (λ t. start_at t 0 ≡ count t) }
    {
        let is_text = has_empty(texts.as_slice());
        let state = State {
            low: 0,
            high: number(texts.len())?,
            length: 0,
            link: 0,
            is_text,
            holds: is_text,
        };
        let states = vec![in alloc; state]?;
        let bytes = vec![in alloc; 0u8]?;
        let starts = vec![in alloc; 1u32]?;
        Ok(Trie {
            texts,
            states,
            bytes,
            starts,
        })
    }

    /// The states of texts in their order.
    pub(crate) fn new(alloc: Global, texts: Vec<Bytes>) -> Result<Trie, NoMemory>
        requires { AreOrdered texts.items }
        ensures whole { IfOk result IsWhole }
        ensures texts { IfOk result (λ t. texts_of t ≡ texts.items) }
    {
        let mut trie = Trie::root(alloc, texts)?;
        for number in 0..u32::MAX {
            let at = number as usize;
            if at == trie.states.len() {
                return Ok(trie);
            }
            trie.expand(at)?;
        }
        Err(NoMemory)
    }
}
