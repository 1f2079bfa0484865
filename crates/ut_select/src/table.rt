// Tables with an entry for each byte.
ghost use Rattle.std.specs.Prelude.{◌≡◌, ◌==◌, slice_index, drop, IfOk};
ghost use Rattle.ut_select.specs.Tables.{IsTable, flag};
ghost use Rattle.ut_select.specs.Trs.{next_of, image};

use crate::sets::is_member;
use rk_base::NoMemory;
use std::alloc::Global;
use std::marker::Model;

/// An entry for each byte.
#[derive(Drop)]
pub(crate) struct Table {
    entries: Vec<u8>,
}

impl Model for Table {
    ghost use Rattle.std.specs.Prelude.{◌≡◌, List, ℕ, length};

    ghost Value = { List ℕ };

    ghost view = { λ t. t.entries.items };

    ghost invariant = { λ t. length t.entries.items ≡ 256 };
}

fn next_of(last: u8, to: &[u8]) -> u8
    ensures { result ≡ next_of last to.now }
{
    match to {
        [] => last,
        [b, ..] => *b,
    }
}

fn without_first(text: &[u8]) -> &[u8]
    ensures { result.now ≡ drop 1 text.now }
{
    match text {
        [] => &[],
        [_, rest @ ..] => rest,
    }
}

// What a byte becomes.
fn image(from: &[u8], to: &[u8], c: u8) -> u8
    ensures { result ≡ image from.now to.now c }
{
    let mut found = c;
    let mut last = 0;
    let mut left = to;
    for a in from {
        last = next_of(last, left);
        left = without_first(left);
        if *a == c {
            found = last;
        }
    }
    found
}

fn flag(set: &[u8], c: u8) -> u8
    ensures { result ≡ flag set.now c }
{
    if is_member(set, c) { 1 } else { 0 }
}

impl Table {
    /// What each byte becomes.
    #[tactic(auto, using(crate::proofs::SetLemmas::table_length))]
    pub(crate) fn of_images(alloc: Global, from: &[u8], to: &[u8]) -> Result<Table, NoMemory>
        ensures { IfOk result (λ table. IsTable (image from.now to.now) table) }
    {
        let mut entries = Vec::new(alloc);
        for i in 0..256u16 {
            entries.push(image(from, to, i as u8))?;
        }
        Ok(Table { entries })
    }

    /// 1 for each byte of a set, and 0 for each other.
    #[tactic(auto, using(crate::proofs::SetLemmas::table_length))]
    pub(crate) fn of_set(alloc: Global, set: &[u8]) -> Result<Table, NoMemory>
        ensures { IfOk result (λ table. IsTable (flag set.now) table) }
    {
        let mut entries = Vec::new(alloc);
        for i in 0..256u16 {
            entries.push(flag(set, i as u8))?;
        }
        Ok(Table { entries })
    }

    pub(crate) fn at(&self, c: u8) -> u8
        ensures { result ≡ slice_index self.now c }
    {
        self.entries[c as usize]
    }

    /// Whether the entry of a byte is 1.
    pub(crate) fn has(&self, c: u8) -> bool
        ensures { result ≡ (slice_index self.now c == 1) }
    {
        self.at(c) == 1
    }
}
