// Steps among groups of records.
ghost use Rattle.std.specs.Prelude.{◌≡◌, ◌+◌, ◌++◌, ◌<◌, ◌≤◌, true, false, [], length, filter, slice_set};
ghost use Rattle.std.specs.Prelude.{IfOk, IfSome, IfNone, OnOk, OnErr, IsTrue, IsFalse};
ghost use Rattle.std.specs.List.{AllByRecursion as Each};
ghost use Rattle.tr_matching.specs.Groups.{AreGroups, GoesOn, Grows, IsKnown, IsSplit, group_at, numbers_of};
ghost use Rattle.tr_matching.specs.Left.{is_answered};
ghost use Rattle.tr_matching.specs.Matching.{AreTorn};
ghost use Rattle.tr_matching.specs.Parted.{with_parts};
ghost use Rattle.tr_matching.specs.Places.{IsAt};

use crate::answer_key::AnswerKey;
use crate::group::{Group, look};
use crate::parting::{Parting, part};
use crate::{Earlier, Place};
use rk_base::NoMemory;
use rk_calls::Answer;
use std::alloc::Global;

/// The group of a number.
pub(crate) fn group_of(groups: &Vec<Group>, g: usize) -> &Group
    requires { g < length groups.now.items }
    ensures { result.now ≡ group_at g groups.now.items }
{
    &groups[g]
}

// Whether what a group's records have next behind so many steps is known to be one.
fn is_known(group: &Group, at: usize) -> bool
    requires { at ≤ group.now.alike }
    ensures known { IsTrue result → IsKnown at group.now }
    ensures unknown { IsFalse result → (at ≡ group.now.alike) × (group.now.agreed ≡ false) }
{
    if at < group.alike {
        return true;
    }
    group.agreed
}

// A group is looked at behind the steps that it has in common.
fn look_at(earlier: &Earlier, groups: &mut Vec<Group>, g: usize, at: usize) -> bool
    requires groups { AreGroups earlier.now groups.old.items }
    requires here { g < length groups.old.items }
    requires behind { at ≡ (group_at g groups.old.items).alike }
    requires unknown { (group_at g groups.old.items).agreed ≡ false }
    ensures groups { AreGroups earlier.now groups.new.items }
    ensures grows { Grows groups.old.items groups.new.items }
    ensures known { IsTrue result → IsKnown at (group_at g groups.new.items) }
    ensures torn { IsFalse result → AreTorn earlier.now.records at (numbers_of (group_at g groups.old.items)) }
{
    look(earlier, &mut groups[g])
}

/// Whether what a group's records have next behind so many steps is one. It is looked at where it isn't known yet.
#[tactic(auto, using(crate::proofs::ReadLemmas::grows_same))]
pub(crate) fn know(earlier: &Earlier, groups: &mut Vec<Group>, g: usize, at: usize) -> bool
    requires groups { AreGroups earlier.now groups.old.items }
    requires here { g < length groups.old.items }
    requires within { at ≤ (group_at g groups.old.items).alike }
    ensures groups { AreGroups earlier.now groups.new.items }
    ensures grows { Grows groups.old.items groups.new.items }
    ensures known { IsTrue result → IsKnown at (group_at g groups.new.items) }
    ensures torn { IsFalse result → AreTorn earlier.now.records at (numbers_of (group_at g groups.old.items)) }
{
    if is_known(group_of(groups, g), at) {
        return true;
    }
    look_at(earlier, groups, g, at)
}

// The parts of a group stand behind the other groups.
fn set_parts(groups: &mut Vec<Group>, g: usize, parting: Parting) -> Result<(), NoMemory>
    requires { g < length groups.old.items }
    ensures ok { OnOk result (groups.new.items
        ≡ slice_set (groups.old.items ++ parting.groups.items) g (with_parts (group_at g groups.old.items) (length groups.old.items) parting)) }
    ensures err { OnErr result (groups.new.items ≡ groups.old.items) }
{
    let Parting {
        index,
        groups: mut parts,
    } = parting;
    let from = groups.len();
    groups.append(&mut parts)?;
    let group = &mut groups[g];
    group.from = from;
    group.parted = true;
    group.parts = index;
    Ok(())
}

/// A group is parted by answers behind its common steps, if it wasn't before.
#[tactic(auto, using(crate::proofs::ReadLemmas::grows_same))]
pub(crate) fn split(
    alloc: Global,
    earlier: &Earlier,
    groups: &mut Vec<Group>,
    g: usize,
) -> Result<(), NoMemory>
    requires groups { AreGroups earlier.now groups.old.items }
    requires here { g < length groups.old.items }
    requires go_on { Each (GoesOn earlier.now (group_at g groups.old.items).alike) (group_at g groups.old.items).members }
    requires agreed { (group_at g groups.old.items).agreed ≡ true }
    ensures groups { AreGroups earlier.now groups.new.items }
    ensures grows { Grows groups.old.items groups.new.items }
    ensures still { (group_at g groups.new.items).alike ≡ (group_at g groups.old.items).alike }
    ensures split { OnOk result (IsSplit earlier.now groups.new.items (group_at g groups.new.items)) }
{
    let group = group_of(groups, g);
    if group.parted {
        return Ok(());
    }
    let parting = part(alloc, earlier, group.members.as_slice(), group.alike)?;
    set_parts(groups, g, parting)?;
    Ok(())
}

/// The place of those records of a group that was parted which have this answer; `None` exactly where none has it.
pub(crate) fn lead(
    earlier: &Earlier,
    groups: &Vec<Group>,
    g: usize,
    next: usize,
    answer: &Answer,
) -> Result<Option<Place>, NoMemory>
    requires groups { AreGroups earlier.now groups.now.items }
    requires here { g < length groups.now.items }
    requires split { IsSplit earlier.now groups.now.items (group_at g groups.now.items) }
    requires next { next ≡ (group_at g groups.now.items).alike + 1 }
    ensures at { IfOk result (λ it. IfSome it (λ place. IsAt earlier.now groups.now.items place × (place.at ≡ next))) }
    ensures some { IfOk result (λ it. IfSome it (λ place. numbers_of (group_at place.group groups.now.items)
        ≡ filter (is_answered earlier.now.records (group_at g groups.now.items).alike answer.now) (numbers_of (group_at g groups.now.items)))) }
    ensures none { IfOk result (λ it. IfNone it
        (filter (is_answered earlier.now.records (group_at g groups.now.items).alike answer.now) (numbers_of (group_at g groups.now.items)) ≡ [])) }
{
    // A list's length says that there is a number for each of its groups.
    let _many = groups.len();
    let key = AnswerKey::of(answer)?;
    let group = group_of(groups, g);
    let Some(c) = group.parts.find(&key) else {
        return Ok(None);
    };
    let group = group.from + c;
    let rest = group_of(groups, group).start;
    Ok(Some(Place {
        group,
        at: next,
        rest,
    }))
}
