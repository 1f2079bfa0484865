// The states of an automaton: fronts of its texts, and what comes after each.
ghost use Rattle.std.specs.Prelude.{◌≡◌, ◌+◌, ◌<◌, ◌++◌, ◌∷◌, [], length, true, false, MatchOption};
ghost use Rattle.ut_grep.specs.Reading.{begins_any, longest};
ghost use Rattle.ut_grep.specs.Tries.{texts_of, count, front_at, IsTrie, IsNext};

use memchr::memchr;
use rk_base::Bytes;

/// A state, which stands for the first `length` bytes of a text. These begin the texts from `low` on and below `high`.
#[derive(Clone, Copy, Drop)]
pub struct State {
    pub(crate) low: u32,
    pub(crate) high: u32,
    pub(crate) length: u32,
    /// The state of the longest other front that ends this one.
    pub(crate) link: u32,
    /// It is one of the texts.
    pub(crate) is_text: bool,
    /// It ends with one of the texts.
    pub(crate) holds: bool,
}

/// Texts in the order of their bytes, and a state for each of their fronts, shorter ones before longer ones.
#[derive(Drop)]
pub struct Trie {
    pub(crate) texts: Vec<Bytes>,
    pub(crate) states: Vec<State>,
    /// The last byte of each state.
    pub(crate) bytes: Vec<u8>,
    /// Where those begin that are one byte longer than each state; they end where the next ones begin.
    pub(crate) starts: Vec<u32>,
}

impl Trie {
    /// The state that stands for one byte more than another one.
    pub(crate) fn next(&self, at: usize, b: u8) -> Option<usize>
        requires trie { IsTrie self.now }
        requires at { at + 1 < length self.now.starts.items }
        ensures { MatchOption result (begins_any (texts_of self.now) (front_at self.now at ++ b ∷ []) ≡ false) (λ c. IsNext self.now at b c) }
    {
        let start = self.starts[at] as usize;
        let end = self.starts[at + 1] as usize;
        match memchr(b, &self.bytes[start..end]) {
            None => None,
            Some(found) => Some(start + found),
        }
    }

    /// The state of the longest end of what a state stands for, and one byte more.
    pub(crate) fn step(&self, from: usize, b: u8) -> usize
        requires trie { IsTrie self.now }
        requires from { from + 1 < length self.now.starts.items }
        ensures within { result < count self.now }
        ensures front { front_at self.now result ≡ longest (texts_of self.now) (front_at self.now from ++ b ∷ []) }
    {
        let mut at = from;
        'links: loop {
            match self.next(at, b) {
                Some(next) => return next,
                None => {
                    if at == 0 {
                        return 0;
                    }
                    at = self.states[at].link as usize;
                }
            }
        }
    }
}
