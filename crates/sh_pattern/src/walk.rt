// How a pattern goes along a text.
ghost use Rattle.std.specs.Prelude.{◌≡◌, ◌∷◌, [], ℕ, true, false, IsTrue, IfSome, IfNone, ◌↔◌, ◌<◌, ◌≤◌, ◌-◌, drop, length};
ghost use Rattle.sh_pattern.specs.Parts.{Star, parts};
ghost use Rattle.sh_pattern.specs.Matching.{MatchesParts, MatchesEnd, TellsBest};
ghost use Rattle.sh_pattern.specs.Walking.{is_stop, Along, Advances, WalksTo, FindsTo, TellsEnd, Between, TellsLeast, Settles};

use crate::front::front;
use crate::part::{Part, Pattern};

/// Why a pattern goes no further along a text: it is at its end, it went past a star, or a part fails.
#[derive(Clone, Copy, Debug)]
pub(crate) enum SegmentEnd {
    End,
    Star,
    Fails,
}

// Two places: from the first the text is matched, from the second on it is not.
#[derive(Clone, Copy, Debug)]
struct Span {
    low: usize,
    high: usize,
}

impl SegmentEnd {
    // Whether all parts went by.
    fn is_stop(self) -> bool
        ensures { result ≡ is_stop self }
    {
        match self {
            SegmentEnd::End => true,
            SegmentEnd::Star => true,
            SegmentEnd::Fails => false,
        }
    }
}

/// What is left of a pattern, and of a text.
#[derive(Debug, Drop)]
pub(crate) struct Place<'p, 't> {
    pattern: Pattern<'p>,
    text: &'t [u8],
}

impl<'p, 't> Place<'p, 't> {
    pub(crate) fn new(pattern: &'p [u8], text: &'t [u8]) -> Place<'p, 't>
        ensures pattern { parts result.pattern ≡ parts pattern.now }
        ensures text { result.text.now ≡ text.now }
    {
        Place {
            pattern: Pattern::new(pattern),
            text,
        }
    }

    pub(crate) fn copy(&self) -> Place<'p, 't>
        ensures pattern { result.pattern ≡ self.entry.now.pattern }
        ensures text { result.text.now ≡ self.entry.now.text.now }
    {
        Place {
            pattern: self.pattern.copy(),
            text: self.text,
        }
    }

    // The next part; it is told why, where it doesn't go by.
    fn advance(&mut self) -> Option<SegmentEnd>
        ensures { Advances (parts self.old.pattern) self.old.text.now result (parts self.new.pattern) self.new.text.now }
    {
        match front(self.text) {
            None => match self.pattern.first(0) {
                None => Some(SegmentEnd::End),
                Some((Part::Star, rest)) => {
                    self.pattern = rest;
                    Some(SegmentEnd::Star)
                }
                Some((Part::One(_), _)) => Some(SegmentEnd::Fails),
            },
            Some((b, after)) => match self.pattern.first(b) {
                None => Some(SegmentEnd::End),
                Some((Part::Star, rest)) => {
                    self.pattern = rest;
                    Some(SegmentEnd::Star)
                }
                Some((Part::One(false), _)) => Some(SegmentEnd::Fails),
                Some((Part::One(true), rest)) => {
                    self.pattern = rest;
                    self.text = after;
                    None
                }
            },
        }
    }

    // All parts up to the next star, or to the end.
    fn segment(&mut self) -> SegmentEnd
        ensures { WalksTo (parts self.old.pattern) self.old.text.now result (parts self.new.pattern) self.new.text.now }
    {
        'parts: loop {
            if let Some(stop) = self.advance() {
                return stop;
            }
        }
    }

    // All parts up to the next star, or to the end, from the first place of the text where they go by.
    fn earliest(&mut self) -> SegmentEnd
        ensures { FindsTo (parts self.old.pattern) self.old.text.now result (parts self.new.pattern) self.new.text.now }
    {
        'places: loop {
            let mut here = self.copy();
            let stop = here.segment();
            if stop.is_stop() {
                self.pattern = here.pattern;
                self.text = here.text;
                return stop;
            }
            match front(self.text) {
                None => return SegmentEnd::Fails,
                Some((_, after)) => self.text = after,
            }
        }
    }

    // How many bytes are left after the last place from which all parts go by.
    fn latest(&self) -> Option<usize>
        requires { (m : ℕ) × Along m (parts self.now.pattern) [] }
        ensures { TellsEnd true (Star ∷ parts self.entry.now.pattern) self.entry.now.text.now result }
    {
        let mut n = self.text.len();
        'places: loop {
            let mut here = Place {
                pattern: self.pattern.copy(),
                text: self.text.split_at(n).1,
            };
            let stop = here.segment();
            if stop.is_stop() {
                return Some(here.text.len());
            }
            if n == 0 {
                return None;
            }
            n -= 1;
        }
    }

    // The best end, where a star stands before the pattern.
    fn end_after_star(&self, longest: bool) -> Option<usize>
        ensures { TellsEnd longest (Star ∷ parts self.entry.now.pattern) self.entry.now.text.now result }
    {
        let mut place = self.copy();
        'stars: loop {
            let mut here = place.copy();
            match here.earliest() {
                SegmentEnd::Fails => return None,
                SegmentEnd::End => {
                    return if longest {
                        place.latest()
                    } else {
                        Some(here.text.len())
                    };
                }
                SegmentEnd::Star => place = here,
            }
        }
    }

    /// How many bytes are left at the best end; `None` where there is none.
    pub(crate) fn end(&self, longest: bool) -> Option<usize>
        ensures { TellsEnd longest (parts self.entry.now.pattern) self.entry.now.text.now result }
    {
        let mut here = self.copy();
        match here.segment() {
            SegmentEnd::Fails => None,
            SegmentEnd::End => Some(here.text.len()),
            SegmentEnd::Star => here.end_after_star(longest),
        }
    }

    // Whether the text is matched, where a star stands before the pattern.
    fn is_matched_after_star(&self) -> bool
        ensures { IsTrue result ↔ MatchesParts (Star ∷ parts self.entry.now.pattern) self.entry.now.text.now }
    {
        match self.end_after_star(true) {
            None => false,
            Some(left) => left == 0,
        }
    }

    // Whether the text from this place on is matched, where a star stands before the pattern.
    fn is_matched_from(&self, n: usize) -> bool
        requires { n ≤ length self.now.text.now }
        ensures { IsTrue result ↔ MatchesParts (Star ∷ parts self.entry.now.pattern) (drop n self.entry.now.text.now) }
    {
        let here = Place {
            pattern: self.pattern.copy(),
            text: self.text.split_at(n).1,
        };
        here.is_matched_after_star()
    }

    fn halve(&self, span: Span) -> Span
        requires between { Between (Star ∷ parts self.now.pattern) self.now.text.now span.low span.high }
        requires wide { 1 < span.high - span.low }
        ensures between { Between (Star ∷ parts self.entry.now.pattern) self.entry.now.text.now result.low result.high }
        ensures narrower { result.high - result.low < span.high - span.low }
    {
        let middle = span.low + (span.high - span.low) / 2;
        if self.is_matched_from(middle) {
            Span {
                low: middle,
                high: span.high,
            }
        } else {
            Span {
                low: span.low,
                high: middle,
            }
        }
    }

    // The fewest bytes at the end that are matched, where a star stands before the pattern; more are matched then.
    fn least_after_star(&self) -> Option<usize>
        ensures { TellsLeast (Star ∷ parts self.entry.now.pattern) self.entry.now.text.now result }
    {
        if !self.is_matched_from(0) {
            return None;
        }
        let mut span = Span {
            low: 0,
            high: self.text.len() + 1,
        };
        'halves: while span.high - span.low > 1 {
            span = self.halve(span);
        }
        Some(self.text.len() - span.low)
    }

    // What is left of the pattern after its first star.
    fn after_star(&self) -> Option<Place<'p, 't>>
        ensures star { IfSome result (λ r. (m : ℕ) × Along m (parts self.entry.now.pattern) (Star ∷ parts r.pattern)) }
        ensures text { IfSome result (λ r. r.text.now ≡ self.entry.now.text.now) }
        ensures none { IfNone result ((m : ℕ) × Along m (parts self.entry.now.pattern) []) }
    {
        let mut pattern = self.pattern.copy();
        'parts: loop {
            match pattern.first(0) {
                None => return None,
                Some((Part::One(_), rest)) => pattern = rest,
                Some((Part::Star, rest)) => {
                    return Some(Place {
                        pattern: rest,
                        text: self.text,
                    });
                }
            }
        }
    }

    /// What settles an end of the text once the pattern has come to its first star: the fewest bytes that are to be
    /// left then; `None` where it is never matched.
    pub(crate) fn settle(&self) -> Option<usize>
        ensures { Settles (parts self.entry.now.pattern) self.entry.now.text.now result }
    {
        match self.after_star() {
            None => None,
            Some(rest) => rest.least_after_star(),
        }
    }

    /// Whether the text from this place on is matched.
    pub(crate) fn is_matched_at(&self, n: usize, least: Option<usize>) -> bool
        requires within { n ≤ length self.now.text.now }
        requires settles { Settles (parts self.now.pattern) self.now.text.now least }
        ensures { IsTrue result ↔ MatchesParts (parts self.entry.now.pattern) (drop n self.entry.now.text.now) }
    {
        let mut here = Place {
            pattern: self.pattern.copy(),
            text: self.text.split_at(n).1,
        };
        match here.segment() {
            SegmentEnd::Fails => false,
            SegmentEnd::End => here.text.is_empty(),
            SegmentEnd::Star => match least {
                None => false,
                Some(least) => least <= here.text.len(),
            },
        }
    }

    // The length of the longest end of the text that is matched.
    fn longest_suffix(&self) -> Option<usize>
        ensures { TellsBest true (length self.entry.now.text.now) (MatchesEnd (parts self.entry.now.pattern) self.entry.now.text.now) result }
    {
        let least = self.settle();
        let mut n = 0;
        'places: loop {
            if self.is_matched_at(n, least) {
                return Some(self.text.len() - n);
            }
            if n == self.text.len() {
                return None;
            }
            n += 1;
        }
    }

    fn shortest_suffix(&self) -> Option<usize>
        ensures { TellsBest false (length self.entry.now.text.now) (MatchesEnd (parts self.entry.now.pattern) self.entry.now.text.now) result }
    {
        let least = self.settle();
        let mut n = self.text.len();
        'places: loop {
            if self.is_matched_at(n, least) {
                return Some(self.text.len() - n);
            }
            if n == 0 {
                return None;
            }
            n -= 1;
        }
    }

    /// The length of the longest or the shortest end of the text that is matched.
    pub(crate) fn suffix(&self, longest: bool) -> Option<usize>
        ensures { TellsBest longest (length self.entry.now.text.now) (MatchesEnd (parts self.entry.now.pattern) self.entry.now.text.now) result }
    {
        if longest {
            self.longest_suffix()
        } else {
            self.shortest_suffix()
        }
    }
}
