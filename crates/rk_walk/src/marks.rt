// The texts that are left when the present one is used up.
ghost use Rattle.std.specs.Prelude.{◌≡◌, ◌<◌, ◌≤◌, ◌+◌, ◌++◌, ◌∷◌, [], length, MatchOption, map};
ghost use Rattle.std.specs.List.{list_all};
ghost use Rattle.rk_base.specs.Canonical.{is_empty};
ghost use Rattle.rk_walk.specs.Course.{only_slashes};

use std::marker::Model;

#[derive(Drop)]
pub(crate) struct Marks<'a> {
    rests: [&'a [u8]; 32],
    count: usize,
}

impl<'a> Model for Marks<'a> {
    ghost use Rattle.std.specs.Prelude.{List, ℕ, ◌≤◌, take, map};

    ghost Value = { List (List ℕ) };

    ghost view = { λ m. map (λ r. r.now) (take m.count m.rests) };

    ghost invariant = { λ m. m.count ≤ 32 };
}

impl<'a> Marks<'a> {
    pub(crate) fn new() -> Marks<'a>
        ensures { result ≡ [] }
    {
        let none: &'a [u8] = b"";
        Marks {
            rests: [none; 32],
            count: 0,
        }
    }

    pub(crate) fn push(&mut self, rest: &'a [u8])
        requires { length self.old < 32 }
        ensures { self.new ≡ self.old ++ rest.now ∷ [] }
    {
        self.rests[self.count] = rest;
        self.count += 1;
    }

    pub(crate) fn pop(&mut self) -> Option<&'a [u8]>
        ensures { MatchOption result ((self.old ≡ []) × (self.new ≡ self.old)) (λ r. self.old ≡ self.new ++ r.now ∷ []) }
    {
        if self.count == 0 {
            return None;
        }
        self.count -= 1;
        Some(self.rests[self.count])
    }

    pub(crate) fn is_empty(&self) -> bool
        ensures { result ≡ is_empty self.now }
    {
        self.count == 0
    }

    // Whether nothing but slashes is left.
    pub(crate) fn only_slashes(&self) -> bool
        ensures { result ≡ list_all only_slashes self.now }
    {
        all_slashes(&self.rests[..self.count])
    }
}

pub(crate) fn only_slashes(text: &[u8]) -> bool
    ensures { result ≡ only_slashes text.now }
{
    text.iter().all(|b| *b == b'/')
}

fn all_slashes(texts: &[&[u8]]) -> bool
    ensures { result ≡ list_all only_slashes (map (λ r. r.now) texts.now) }
{
    for text in texts {
        if !only_slashes(text) {
            return false;
        }
    }
    true
}
