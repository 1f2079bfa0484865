// The numbers of records by key.
ghost use Rattle.std.specs.Prelude.{◌≡◌, ◌++◌, ◌∷◌, [], length, IfOk, OnOk, OnErr, slice_get};
ghost use Rattle.tr_record.specs.Places.{places_at, Adds, Stays};

use indexmap::IndexMap;
use rk_base::NoMemory;
use rk_calls::Key;
use std::alloc::Global;
use std::marker::Model;

// One number, which most keys have, by itself; else all of them.
#[derive(Debug, Drop)]
enum Numbers {
    One([usize; 1]),
    All(Vec<usize>),
}

/// The numbers of a key's records, ascending. One alone takes no memory but its own.
#[derive(Debug, Drop)]
pub(crate) struct PlaceList {
    numbers: Numbers,
}

impl Model for PlaceList {
    ghost use Rattle.std.specs.Prelude.{List, ℕ};
    ghost use Rattle.tr_record.specs.PlaceLists.{numbers_in};

    ghost Value = { List ℕ };

    ghost view = { λ p. numbers_in p.numbers };
}

impl PlaceList {
    // One number.
    fn of(place: usize) -> PlaceList
        ensures { result ≡ place ∷ [] }
    {
        PlaceList {
            numbers: Numbers::One([place]),
        }
    }

    pub(crate) fn as_slice(&self) -> &[usize]
        ensures { result.now ≡ self.now }
    {
        match &self.numbers {
            Numbers::One(one) => one,
            Numbers::All(all) => all.as_slice(),
        }
    }

    // One number more, at the end. It tells how many there were.
    fn push(&mut self, alloc: Global, place: usize) -> Result<usize, NoMemory>
        ensures before { IfOk result (λ n. n ≡ length self.old) }
        ensures ok { OnOk result (self.new ≡ self.old ++ place ∷ []) }
        ensures err { OnErr result (self.new ≡ self.old) }
    {
        let before = self.as_slice().len();
        if let Numbers::All(all) = &mut self.numbers {
            all.push(place)?;
            return Ok(before);
        }
        let mut all = Vec::from_slice(alloc, self.as_slice())?;
        all.push(place)?;
        self.numbers = Numbers::All(all);
        Ok(before)
    }
}

/// The numbers under a key.
pub(crate) fn places<'a>(index: &'a IndexMap<Key, PlaceList>, key: &Key) -> &'a [usize]
    ensures { result.now ≡ places_at index.now.entries key.now }
{
    match index.get(key) {
        Some(places) => places.as_slice(),
        None => &[],
    }
}

/// One more number under a key. It tells how many there were.
pub(crate) fn note(
    alloc: Global,
    index: &mut IndexMap<Key, PlaceList>,
    key: &Key,
    place: usize,
) -> Result<usize, NoMemory>
    ensures before { IfOk result (λ n. n ≡ length (places_at index.old.entries key.now)) }
    ensures ok { OnOk result (Adds index.old.entries index.new.entries key.now place) }
    ensures err { OnErr result (Stays index.old.entries index.new.entries) }
{
    match index.get_mut(key) {
        Some(places) => places.push(alloc, place),
        None => {
            let copy = key.copy()?;
            let places = PlaceList::of(place);
            index.insert(copy, places)?;
            Ok(0)
        }
    }
}

/// The number of the record with so many earlier ones of its key.
pub(crate) fn nth(places: &[usize], ordinal: u64) -> Option<usize>
    ensures { result ≡ slice_get places.now ordinal }
{
    places.get(ordinal as usize).copied()
}
