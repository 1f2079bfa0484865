// What records have in common behind the same steps.
ghost use Rattle.std.specs.Prelude.{◌≡◌, ◌≢◌, ◌↔◌, ◌+◌, [], IfSome, IsTrue, IsFalse};
ghost use Rattle.rk_calls.specs.declared.drive.Spoke.TheVariants.{Call as Calls, Exit as Exits};
ghost use Rattle.tr_record.specs.Rec.{rec_at};
ghost use Rattle.tr_matching.specs.Groups.{AreMembers, HasStep, HaveAlike, IsMember, numbers_in};
ghost use Rattle.tr_matching.specs.Left.{next_at};
ghost use Rattle.tr_matching.specs.Matching.{AreTorn, HaveOne, IsDear, head_of};

use crate::{Earlier, Member};
use rk_calls::{same_answer, same_call};
use tr_record::Step;

// Whether both are one step.
fn same_step(a: &Step, b: &Step) -> bool
    ensures { IsTrue result ↔ (a.now ≡ b.now) }
{
    a.cost == b.cost && same_call(&a.call, &b.call) && same_answer(&a.answer, &b.answer)
}

// Whether a record has the step that the first one has. Where both rests have one number all that follows is in common.
fn has_step(earlier: &Earlier, member: Member, at: usize, first: Member, step: &Step) -> bool
    requires member { IsMember earlier.now at member }
    requires first { IsMember earlier.now at first }
    requires step { HasStep earlier.now.records at step.now first.number }
    ensures { IsTrue result → HasStep earlier.now.records at step.now member.number }
{
    if member.rest == first.rest {
        return true;
    }
    match earlier.step(member.number, at, member.rest) {
        Some((other, _)) => same_step(other, step),
        None => false,
    }
}

/// Whether all records have one step more in common; then how many steps these are.
pub(crate) fn have_alike(earlier: &Earlier, members: &[Member], at: usize) -> Option<usize>
    requires some { members.now ≢ [] }
    requires members { AreMembers earlier.now at members.now }
    ensures { IfSome result (λ n. (n ≡ at + 1) × HaveAlike earlier.now.records at (numbers_in members.now)) }
{
    let first = members[0];
    let Some((step, _)) = earlier.step(first.number, at, first.rest) else {
        return None;
    };
    'members: for k in 0..members.len() {
        if !has_step(earlier, members[k], at, first, step) {
            return None;
        }
    }
    Some(at + 1)
}

// Whether a record asks just this next.
#[tactic(auto, using(crate::proofs::NextLemmas::next_step, crate::proofs::NextLemmas::next_end))]
fn asks(earlier: &Earlier, member: Member, at: usize, step: &Step) -> bool
    requires { IsMember earlier.now at member }
    ensures { IsTrue result ↔ (next_at at (rec_at member.number earlier.now.records) ≡ Calls step.now.call step.now.cost) }
{
    match earlier.step(member.number, at, member.rest) {
        Some((other, _)) => other.cost == step.cost && same_call(&other.call, &step.call),
        None => false,
    }
}

// Whether a record exits next, with this status at this cost.
#[tactic(auto, using(crate::proofs::NextLemmas::next_step, crate::proofs::NextLemmas::next_end))]
fn exits(earlier: &Earlier, member: Member, at: usize, exit: u8, cost: u64) -> bool
    requires { IsMember earlier.now at member }
    ensures { IsTrue result ↔ (next_at at (rec_at member.number earlier.now.records) ≡ Exits exit cost) }
{
    match earlier.step(member.number, at, member.rest) {
        Some(_) => false,
        None => {
            let last = earlier.at(member.number);
            last.exit == exit && last.exit_cost == cost
        }
    }
}

// Whether two records have the same next.
#[tactic(auto, using(crate::proofs::NextLemmas::next_step, crate::proofs::NextLemmas::next_end))]
fn is_alike(earlier: &Earlier, member: Member, first: Member, at: usize) -> bool
    requires member { IsMember earlier.now at member }
    requires first { IsMember earlier.now at first }
    ensures { IsTrue result ↔ (next_at at (rec_at member.number earlier.now.records) ≡ next_at at (rec_at first.number earlier.now.records)) }
{
    match earlier.step(first.number, at, first.rest) {
        Some((step, _)) => asks(earlier, member, at, step),
        None => {
            let last = earlier.at(first.number);
            exits(earlier, member, at, last.exit, last.exit_cost)
        }
    }
}

// Whether what a record has next costs something.
#[tactic(auto, using(crate::proofs::NextLemmas::next_step, crate::proofs::NextLemmas::next_end))]
fn is_dear(earlier: &Earlier, member: Member, at: usize) -> bool
    requires { IsMember earlier.now at member }
    ensures { IsTrue result ↔ IsDear (next_at at (rec_at member.number earlier.now.records)) }
{
    match earlier.step(member.number, at, member.rest) {
        Some((step, _)) => step.cost != 0,
        None => true,
    }
}

/// Whether all records have one next that costs something.
pub(crate) fn have_one(earlier: &Earlier, members: &[Member], at: usize) -> bool
    requires some { members.now ≢ [] }
    requires members { AreMembers earlier.now at members.now }
    ensures one { IsTrue result → HaveOne earlier.now.records at (numbers_in members.now)
        (next_at at (rec_at (head_of (numbers_in members.now)) earlier.now.records)) }
    ensures torn { IsFalse result → AreTorn earlier.now.records at (numbers_in members.now) }
{
    let first = members[0];
    if !is_dear(earlier, first, at) {
        return false;
    }
    'members: for k in 0..members.len() {
        if !is_alike(earlier, members[k], first, at) {
            return false;
        }
    }
    true
}
