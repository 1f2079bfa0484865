// The records of a key as they are first grouped.
ghost use Rattle.std.specs.Prelude.{◌≡◌, ◌≢◌, ◌<◌, [], length, IfOk};
ghost use Rattle.std.specs.List.{AllByRecursion as Each};
ghost use Rattle.tr_record.specs.Contents.{AreContents};
ghost use Rattle.tr_matching.specs.Groups.{AreGroups, AreMembers, Grows, group_at, numbers_in, numbers_of};
ghost use Rattle.tr_matching.specs.Places.{IsBegun};

use crate::group::Group;
use crate::groups::group_of;
use crate::member::MemberList;
use crate::part_index::PartIndex;
use crate::{Earlier, Member, Place};
use rk_base::NoMemory;
use std::alloc::Global;

// These records, each with all of its steps as its rest.
fn members_of(alloc: Global, earlier: &Earlier, numbers: &[usize]) -> Result<MemberList, NoMemory>
    requires contents { AreContents earlier.now.contents earlier.now.records }
    requires in_old { Each (λ i. i < length earlier.now.records) numbers.now }
    ensures numbers { IfOk result (λ m. numbers_in m ≡ numbers.now) }
    ensures members { IfOk result (AreMembers earlier.now 0) }
{
    let mut members = MemberList::new(alloc);
    'numbers: for k in 0..numbers.len() {
        let number = numbers[k];
        let rest = earlier.head(number);
        members.push(Member { number, rest })?;
    }
    Ok(members)
}

/// The records of a key, whose numbers these are, are one group more that is yet to be looked at. Its number is told.
#[tactic(auto, using(crate::proofs::ReadLemmas::grows_same))]
pub fn first_group(
    alloc: Global,
    earlier: &Earlier,
    groups: &mut Vec<Group>,
    numbers: &[usize],
) -> Result<usize, NoMemory>
    requires groups { AreGroups earlier.now groups.old.items }
    requires contents { AreContents earlier.now.contents earlier.now.records }
    requires some { numbers.now ≢ [] }
    requires in_old { Each (λ i. i < length earlier.now.records) numbers.now }
    ensures groups { AreGroups earlier.now groups.new.items }
    ensures grows { Grows groups.old.items groups.new.items }
    ensures begun { IfOk result (IsBegun earlier.now groups.new.items) }
    ensures all { IfOk result (λ g. numbers_of (group_at g groups.new.items) ≡ numbers.now) }
{
    let members = members_of(alloc, earlier, numbers)?;
    let start = earlier.head(members.first());
    let parts = PartIndex::new(alloc);
    let g = groups.len();
    groups.push(Group {
        members,
        alike: 0,
        agreed: false,
        start,
        from: 0,
        parted: false,
        parts,
    })?;
    Ok(g)
}

/// The place at which a group begins that begins behind no step.
pub fn first_place(groups: &Vec<Group>, g: usize) -> Place
    requires { g < length groups.now.items }
    ensures { result ≡ record { group = g; at = 0; rest = (group_at g groups.now.items).start } }
{
    let rest = group_of(groups, g).start;
    Place {
        group: g,
        at: 0,
        rest,
    }
}
