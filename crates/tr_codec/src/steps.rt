// Steps that are read.
ghost use Rattle.std.specs.Prelude.{◌≡◌, Some, IfSome, IfOk};
ghost use Rattle.tr_record.specs.Contents.{IsContent};
ghost use Rattle.tr_codec.specs.Reading.{IsNumberAt, answer_at, asked_at, step_at};
ghost use Rattle.tr_codec.specs.OldReading as old;
ghost use Rattle.tr_codec.specs.Used.{step_used};
ghost use Rattle.tr_parts.specs.Reads.{Gives};

use crate::answers::answer_of;
use crate::calls::call_of;
use crate::recent::Recent;
use rk_calls::Answer;
use rk_content::Contents;
use std::alloc::Global;
use tr_parts::{PartErr, byte_of, cost_of, number_of};
use tr_record::Step;

// The number that stands there, where bytes enough do.
fn peek(bytes: &[u8]) -> Option<usize>
    ensures { IfSome result (λ n. IsNumberAt bytes.now n) }
{
    match number_of(bytes) {
        Ok((n, _)) => Some(n as usize),
        Err(_) => None,
    }
}

// The number of the content that an answer is which was read here, where it is such a one.
fn told_number(blobs: &Contents, bytes: &[u8], answer: &Answer, rest: &[u8]) -> Option<usize>
    requires { answer_at blobs.now bytes.now ≡ Some (answer.now, rest.now) }
    ensures { IfSome result (λ n. IsContent blobs.now n answer.now) }
{
    match byte_of(bytes) {
        Ok((4, text)) => peek(text),
        _ => None,
    }
}

// A step of this cost, whose call and answer stand there.
fn asked_of<'a>(
    alloc: Global,
    blobs: &Contents,
    used: &mut Option<usize>,
    recent: &mut Recent,
    cost: u64,
    bytes: &'a [u8],
) -> Result<(Step, Option<usize>, &'a [u8]), PartErr>
    ensures gives { Gives (λ x. (x.0, x.2.now)) result (asked_at blobs.now cost bytes.now) }
    ensures told { IfOk result (λ x. IfSome x.1 (λ n. IsContent blobs.now n x.0.answer)) }
    ensures used { IfOk result (λ x. used.new ≡ step_used blobs.now used.old x.0) }
{
    let (call, rest) = call_of(alloc, blobs, used, recent, bytes)?;
    let (answer, end) = answer_of(alloc, blobs, used, rest)?;
    let told = told_number(blobs, rest, &answer, end);
    Ok((Step { cost, call, answer }, told, end))
}

/// A step, and the number of the content that its answer is, where it is one.
#[tactic(auto, unfolding(crate::specs::Reading::step_at))]
pub(crate) fn step_of<'a>(
    alloc: Global,
    blobs: &Contents,
    used: &mut Option<usize>,
    recent: &mut Recent,
    bytes: &'a [u8],
) -> Result<(Step, Option<usize>, &'a [u8]), PartErr>
    ensures gives { Gives (λ x. (x.0, x.2.now)) result (step_at blobs.now bytes.now) }
    ensures told { IfOk result (λ x. IfSome x.1 (λ n. IsContent blobs.now n x.0.answer)) }
    ensures used { IfOk result (λ x. used.new ≡ step_used blobs.now used.old x.0) }
{
    let (cost, rest) = number_of(bytes)?;
    let (step, told, end) = asked_of(alloc, blobs, used, recent, cost, rest)?;
    Ok((step, told, end))
}

/// A step of the first version, whose cost has four bytes.
#[tactic(auto, unfolding(crate::specs::OldReading::step_at))]
pub(crate) fn old_step_of<'a>(
    alloc: Global,
    blobs: &Contents,
    used: &mut Option<usize>,
    recent: &mut Recent,
    bytes: &'a [u8],
) -> Result<(Step, Option<usize>, &'a [u8]), PartErr>
    ensures gives { Gives (λ x. (x.0, x.2.now)) result (old.step_at blobs.now bytes.now) }
    ensures told { IfOk result (λ x. IfSome x.1 (λ n. IsContent blobs.now n x.0.answer)) }
    ensures used { IfOk result (λ x. used.new ≡ step_used blobs.now used.old x.0) }
{
    let (cost, rest) = cost_of(bytes)?;
    let (step, told, end) = asked_of(alloc, blobs, used, recent, u64::from(cost), rest)?;
    Ok((step, told, end))
}
