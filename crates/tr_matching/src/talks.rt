// What the records at a place have next, and where an answer leads.
ghost use Rattle.std.specs.Prelude.{◌≡◌, ◌↔◌, ◌⊎◌, ◌+◌, ◌<◌, ◌^◌, true, length, IfOk, IfSome, IfNone, IsTrue};
ghost use Rattle.tr_record.specs.Rec.{rec_at};
ghost use Rattle.tr_matching.specs.declared.cause.Cause.TheVariants.{Differs};
ghost use Rattle.tr_matching.specs.declared.place.Taken.TheVariants.{GivenUp, On};
ghost use Rattle.tr_matching.specs.Earlier.{IsRest};
ghost use Rattle.tr_matching.specs.Groups.{AreGroups, Grows, IsKnown, first_of, group_at, numbers_of};
ghost use Rattle.tr_matching.specs.Places.{IsAt, IsNext, IsTorn, TakesOn};
ghost use Rattle.tr_matching.specs.Steps.{answer_at, step_at};

use crate::group::Group;
use crate::groups::{group_of, know, lead, split};
use crate::next::next_of;
use crate::{Cause, Earlier, Next, Place, Taken};
use rk_base::NoMemory;
use rk_calls::{Answer, same_answer};
use std::alloc::Global;
use tr_record::Step;

/// What the records that are left at a place have next. One of them is looked at, and all of them once a step.
pub fn next_from(earlier: &Earlier, groups: &mut Vec<Group>, place: Place) -> Result<Next, NoMemory>
    requires groups { AreGroups earlier.now groups.old.items }
    requires at { IsAt earlier.now groups.old.items place }
    ensures groups { AreGroups earlier.now groups.new.items }
    ensures grows { Grows groups.old.items groups.new.items }
    ensures next { IfOk result (IsNext earlier.now.records place.at (numbers_of (group_at place.group groups.old.items))) }
    ensures known { IfOk result (λ n. IsTorn n ⊎ IsKnown place.at (group_at place.group groups.new.items)) }
{
    if !know(earlier, groups, place.group, place.at) {
        return Ok(Next::Torn);
    }
    let first = group_of(groups, place.group).members.first();
    let next = next_of(earlier, first, place.at, place.rest)?;
    Ok(next)
}

// The step that the first of the records at a place has next.
fn first_step<'a>(earlier: &Earlier<'a>, groups: &Vec<Group>, place: Place) -> &'a Step
    requires groups { AreGroups earlier.now groups.now.items }
    requires at { IsAt earlier.now groups.now.items place }
    requires asks { place.at < length (rec_at (first_of (group_at place.group groups.now.items)) earlier.now.records).steps }
    ensures step { result.now ≡ step_at place.at (rec_at (first_of (group_at place.group groups.now.items)) earlier.now.records).steps }
    ensures small { place.at + 1 < 2 ^ 64 }
{
    let first = group_of(groups, place.group).members.first();
    earlier.asked(first, place.at, place.rest)
}

// The number of its rest behind that step.
fn first_rest(earlier: &Earlier, groups: &Vec<Group>, place: Place) -> usize
    requires groups { AreGroups earlier.now groups.now.items }
    requires at { IsAt earlier.now groups.now.items place }
    requires asks { place.at < length (rec_at (first_of (group_at place.group groups.now.items)) earlier.now.records).steps }
    ensures { IsRest earlier.now (first_of (group_at place.group groups.now.items)) (place.at + 1) result }
{
    let first = group_of(groups, place.group).members.first();
    earlier.behind(first, place.at, place.rest)
}

// No record was answered so: the step of this number, what the first of them has, and what was seen.
fn given_up(number: usize, step: &Step, answer: &Answer) -> Result<Taken, NoMemory>
    ensures { IfOk result (λ t. t ≡ GivenUp (Differs number step.now.answer answer.now)) }
{
    let cause = Cause::differs(number as u64, &step.answer, answer)?;
    Ok(Taken::GivenUp(cause))
}

// Whether a step is answered as recorded, which may be told already.
fn is_recorded(recorded: &Answer, answer: &Answer, alike: Option<bool>) -> bool
    requires { IfSome alike (λ b. IsTrue b ↔ (recorded.now ≡ answer.now)) }
    ensures { IsTrue result ↔ (recorded.now ≡ answer.now) }
{
    match alike {
        Some(alike) => alike,
        None => same_answer(recorded, answer),
    }
}

/// Where an answer to a step that all records at a place have in common leads: on, or nowhere. One of them is looked at; whether it
/// was answered so may be told already.
pub(crate) fn take_common(
    earlier: &Earlier,
    groups: &Vec<Group>,
    place: Place,
    answer: &Answer,
    alike: Option<bool>,
) -> Result<Taken, NoMemory>
    requires groups { AreGroups earlier.now groups.now.items }
    requires at { IsAt earlier.now groups.now.items place }
    requires common { place.at < (group_at place.group groups.now.items).alike }
    requires asks { place.at < length (rec_at (first_of (group_at place.group groups.now.items)) earlier.now.records).steps }
    requires alike { IfSome alike (λ b. IsTrue b ↔ (answer_at earlier.now.records place.at (first_of (group_at place.group groups.now.items)) ≡ answer.now)) }
    ensures { IfOk result (TakesOn earlier.now place.at (numbers_of (group_at place.group groups.now.items)) answer.now groups.now.items) }
{
    let step = first_step(earlier, groups, place);
    let next = place.at + 1;
    if is_recorded(&step.answer, answer, alike) {
        let rest = first_rest(earlier, groups, place);
        return Ok(Taken::On(Place {
            group: place.group,
            at: next,
            rest,
        }));
    }
    let taken = given_up(next, step, answer)?;
    Ok(taken)
}

// Where it leads that this is the place of those that were answered so, or that none was.
fn taken_by(on: Option<Place>, next: usize, step: &Step, answer: &Answer) -> Result<Taken, NoMemory>
    ensures on { IfOk result (λ t. IfSome on (λ place. t ≡ On place)) }
    ensures off { IfOk result (λ t. IfNone on (t ≡ GivenUp (Differs next step.now.answer answer.now))) }
{
    match on {
        Some(place) => Ok(Taken::On(place)),
        None => {
            let taken = given_up(next, step, answer)?;
            Ok(taken)
        }
    }
}

/// Where an answer behind the steps that a group has in common leads: to the part of those that were answered so, which is found by
/// hash, or nowhere.
pub(crate) fn take_part(
    alloc: Global,
    earlier: &Earlier,
    groups: &mut Vec<Group>,
    place: Place,
    answer: &Answer,
) -> Result<Taken, NoMemory>
    requires groups { AreGroups earlier.now groups.old.items }
    requires at { IsAt earlier.now groups.old.items place }
    requires behind { place.at ≡ (group_at place.group groups.old.items).alike }
    requires agreed { (group_at place.group groups.old.items).agreed ≡ true }
    requires asks { place.at < length (rec_at (first_of (group_at place.group groups.old.items)) earlier.now.records).steps }
    ensures groups { AreGroups earlier.now groups.new.items }
    ensures grows { Grows groups.old.items groups.new.items }
    ensures taken { IfOk result (TakesOn earlier.now place.at (numbers_of (group_at place.group groups.old.items)) answer.now groups.new.items) }
{
    let step = first_step(earlier, groups, place);
    let next = place.at + 1;
    split(alloc, earlier, groups, place.group)?;
    let on = lead(earlier, groups, place.group, next, answer)?;
    let taken = taken_by(on, next, step, answer)?;
    Ok(taken)
}

/// Where an answer to what is next at a place leads: to the place of those records that were answered so; where none was, it is told
/// why they are given up. Whether the first of them was answered so may be told already.
#[tactic(auto, using(crate::proofs::ReadLemmas::grows_same))]
pub fn take(
    alloc: Global,
    earlier: &Earlier,
    groups: &mut Vec<Group>,
    place: Place,
    answer: &Answer,
    alike: Option<bool>,
) -> Result<Taken, NoMemory>
    requires groups { AreGroups earlier.now groups.old.items }
    requires at { IsAt earlier.now groups.old.items place }
    requires known { IsKnown place.at (group_at place.group groups.old.items) }
    requires asks { place.at < length (rec_at (first_of (group_at place.group groups.old.items)) earlier.now.records).steps }
    requires alike { IfSome alike (λ b. IsTrue b ↔ (answer_at earlier.now.records place.at (first_of (group_at place.group groups.old.items)) ≡ answer.now)) }
    ensures groups { AreGroups earlier.now groups.new.items }
    ensures grows { Grows groups.old.items groups.new.items }
    ensures taken { IfOk result (TakesOn earlier.now place.at (numbers_of (group_at place.group groups.old.items)) answer.now groups.new.items) }
{
    if place.at < group_of(groups, place.group).alike {
        let taken = take_common(earlier, groups, place, answer, alike)?;
        return Ok(taken);
    }
    let taken = take_part(alloc, earlier, groups, place, answer)?;
    Ok(taken)
}
