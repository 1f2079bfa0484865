// The records of the keys of commands, in groups of those that go on alike.
ghost use Rattle.std.specs.Prelude.{◌≡◌, ◌≢◌, ◌<◌, [], length, Some, IfOk, IfSome, IfNone, IsTrue, OnOk, ◌↔◌, if◌then◌else◌};
ghost use Rattle.std.specs.Map.{lookup};
ghost use Rattle.rk_calls.specs.Keys.{KeyValue, same_key};
ghost use Rattle.tr_record.specs.Contents.{AreContents};
ghost use Rattle.tr_record.specs.Places.{places_of};
ghost use Rattle.tr_record.specs.Rec.{rec_at};
ghost use Rattle.tr_matching.specs.Groups.{Grows, IsKnown, first_of, group_at, numbers_of};
ghost use Rattle.tr_matching.specs.Once.{IsOnce};
ghost use Rattle.tr_matching.specs.Places.{IsBegun};
ghost use Rattle.tr_matching.specs.Steps.{answer_at};
ghost use Rattle.rk_replay.specs.Seats.{AreTalks, IsFirstSeat, IsSeat, Leads};

use indexmap::IndexMap;
use rk_base::NoMemory;
use rk_calls::{Answer, Key};
use std::alloc::Global;
use tr_matching::{
    Cause, Earlier, Group, Member, Place, Taken, distinct_talks, first_group, first_place, take,
};

/// Where a replayed command is among the kept records of its key.
#[derive(Clone, Copy, Debug)]
pub struct Seat {
    /// The number of the first record that is left.
    pub rec: usize,
    /// The place of those that are left.
    pub place: Place,
}

/// Where an answer leads a replayed command.
#[derive(Debug, Drop)]
pub enum Lead {
    /// On with the records that were answered so.
    On(Seat),
    /// To a machine, for this cause: none was.
    GivenUp(Cause),
}

/// The kept records of the keys that were launched, in groups of those that have their first steps in common.
#[derive(Debug, Drop)]
pub struct Talks {
    pub(crate) groups: Vec<Group>,
    /// The group that has the records of a key, of which those that did the same count once.
    pub(crate) firsts: IndexMap<Key, usize>,
}

// The first record of a group.
fn first(groups: &Vec<Group>, g: usize) -> usize
    requires here { g < length groups.now.items }
    requires some { (group_at g groups.now.items).members ≢ [] }
    ensures { result ≡ first_of (group_at g groups.now.items) }
{
    groups[g].members.first()
}

// The group that is known of a key.
fn known(firsts: &IndexMap<Key, usize>, key: &Key) -> Option<usize>
    ensures { result ≡ lookup (same_key key.now) firsts.now.entries }
{
    firsts.get(key).copied()
}

// The group of a key is this one.
fn note(firsts: &mut IndexMap<Key, usize>, key: Key, g: usize) -> Result<(), NoMemory>
    ensures { OnOk result ((q : KeyValue) → lookup (same_key q) firsts.new.entries
        ≡ (if same_key key q then Some g else lookup (same_key q) firsts.old.entries)) }
{
    firsts.insert(key, g)?;
    Ok(())
}

impl Talks {
    /// No key was launched.
    pub(crate) fn new(alloc: Global) -> Talks
        ensures groups { result.groups.items ≡ [] }
        ensures firsts { result.firsts.entries ≡ [] }
    {
        Talks {
            groups: Vec::new(alloc),
            firsts: IndexMap::new(alloc),
        }
    }

    /// The records of a group.
    pub(crate) fn members(&self, g: usize) -> &[Member]
        requires { g < length self.now.groups.items }
        ensures { result.now ≡ (group_at g self.now.groups.items).members }
    {
        let group = &self.groups[g];
        group.members.as_slice()
    }

    // The records of a key, each talk once, are one group more; `None` where there are none.
    fn begin(&mut self, earlier: &Earlier, key: &Key) -> Result<Option<usize>, NoMemory>
        requires talks { AreTalks earlier.now self.old }
        requires contents { AreContents earlier.now.contents earlier.now.records }
        ensures talks { OnOk result (AreTalks earlier.now self.new) }
        ensures grows { OnOk result (Grows self.old.groups.items self.new.groups.items) }
        ensures begun { IfOk result (λ it. IfSome it (IsBegun earlier.now self.new.groups.items)) }
        ensures are { IfOk result (λ it. IfSome it (λ g. IsOnce earlier.now.records [] (places_of key.now earlier.now.records)
            (numbers_of (group_at g self.new.groups.items)))) }
        ensures none { IfOk result (λ it. IfNone it (places_of key.now earlier.now.records ≡ [])) }
    {
        let alloc = *self.groups.allocator();
        let numbers = earlier.numbers(alloc, key)?;
        if numbers.len() == 0 {
            return Ok(None);
        }
        let key = key.copy()?;
        let numbers = distinct_talks(alloc, earlier, numbers.as_slice())?;
        let g = first_group(alloc, earlier, &mut self.groups, numbers.as_slice())?;
        note(&mut self.firsts, key, g)?;
        Ok(Some(g))
    }

    // The group that has the records of a key, each talk once; `None` where there are none.
    fn group(&mut self, earlier: &Earlier, key: &Key) -> Result<Option<usize>, NoMemory>
        requires talks { AreTalks earlier.now self.old }
        requires contents { AreContents earlier.now.contents earlier.now.records }
        ensures talks { OnOk result (AreTalks earlier.now self.new) }
        ensures grows { OnOk result (Grows self.old.groups.items self.new.groups.items) }
        ensures begun { IfOk result (λ it. IfSome it (IsBegun earlier.now self.new.groups.items)) }
        ensures are { IfOk result (λ it. IfSome it (λ g. IsOnce earlier.now.records [] (places_of key.now earlier.now.records)
            (numbers_of (group_at g self.new.groups.items)))) }
        ensures none { IfOk result (λ it. IfNone it (places_of key.now earlier.now.records ≡ [])) }
    {
        match known(&self.firsts, key) {
            Some(g) => Ok(Some(g)),
            None => {
                let group = self.begin(earlier, key)?;
                Ok(group)
            }
        }
    }

    /// Where a command of this key begins; `None` exactly where the key has no kept record.
    pub(crate) fn launch(&mut self, earlier: &Earlier, key: &Key) -> Result<Option<Seat>, NoMemory>
        requires talks { AreTalks earlier.now self.old }
        requires contents { AreContents earlier.now.contents earlier.now.records }
        ensures talks { OnOk result (AreTalks earlier.now self.new) }
        ensures grows { OnOk result (Grows self.old.groups.items self.new.groups.items) }
        ensures seat { IfOk result (λ it. IfSome it (IsSeat earlier.now self.new.groups.items)) }
        ensures first { IfOk result (λ it. IfSome it (IsFirstSeat earlier.now.records key.now)) }
        ensures none { IfOk result (λ it. IfNone it (places_of key.now earlier.now.records ≡ [])) }
    {
        match self.group(earlier, key)? {
            None => Ok(None),
            Some(g) => {
                let rec = first(&self.groups, g);
                let place = first_place(&self.groups, g);
                Ok(Some(Seat { rec, place }))
            }
        }
    }

    /// Where an answer leads a command whose next is known. Whether its first record was answered so may be told already.
    pub(crate) fn take(
        &mut self,
        earlier: &Earlier,
        seat: Seat,
        answer: &Answer,
        alike: Option<bool>,
    ) -> Result<Lead, NoMemory>
        requires talks { AreTalks earlier.now self.old }
        requires seat { IsSeat earlier.now self.old.groups.items seat }
        requires known { IsKnown seat.place.at (group_at seat.place.group self.old.groups.items) }
        requires asks { seat.place.at < length (rec_at seat.rec earlier.now.records).steps }
        requires alike { IfSome alike (λ b. IsTrue b ↔ (answer_at earlier.now.records seat.place.at seat.rec ≡ answer.now)) }
        ensures talks { OnOk result (AreTalks earlier.now self.new) }
        ensures grows { OnOk result (Grows self.old.groups.items self.new.groups.items) }
        ensures leads { IfOk result (Leads earlier.now self.new.groups.items seat answer.now) }
    {
        let alloc = *self.groups.allocator();
        match take(alloc, earlier, &mut self.groups, seat.place, answer, alike)? {
            Taken::On(place) => {
                let rec = first(&self.groups, place.group);
                Ok(Lead::On(Seat { rec, place }))
            }
            Taken::GivenUp(cause) => Ok(Lead::GivenUp(cause)),
        }
    }
}
