// Commands that run, and those that wait for one that they launched.
ghost use Rattle.std.specs.Prelude.{◌≡◌, ◌<◌, length, IfOk, IfErr, OnOk, IfSome};
ghost use Rattle.std.specs.Option.{IsSomeAnd};
ghost use Rattle.rk_calls.specs.Given.{Given};
ghost use Rattle.rk_content.specs.Contents.{IsContent, Keeps};
ghost use Rattle.tr_record.specs.Rec.{stepped};
ghost use Rattle.rk_traces.specs.Run.{step};

use rk_base::NoMemory;
use rk_calls::{Answer, Call, Key, RefMap, Refs};
use rk_content::{ContentId, Numbering};
use tr_record::{Step, Table};

/// A command that runs: the number of its record, its descriptors and its machine.
#[derive(Drop)]
pub struct Active<M> {
    pub place: usize,
    pub refs: Refs,
    pub machine: M,
}

/// A command that waits for one that it launched with this key and map, at this cost.
#[derive(Drop)]
pub struct Frame<M> {
    pub waiting: Active<M>,
    pub key: Key,
    pub map: RefMap,
    pub cost: u64,
}

/// Asks the world a call, and records the step; with the number of the content that the answer is, where it has one. Nothing
/// else stops it but want of memory.
pub fn ask<W: Numbering>(
    world: &mut W,
    table: &mut Table,
    place: usize,
    refs: &mut Refs,
    call: Call,
    cost: u64,
) -> Result<(Answer, Option<ContentId>), W::Stop>
    requires { place < length table.old }
    ensures given { IfOk result (λ r. IfSome (W.told world.old) (λ before. IsSomeAnd (W.told world.new) (λ now. record { answer = r.0; refs = refs.new; world = now } ≡ W.given before refs.old call))) }
    ensures number { IfOk result (λ r. IfSome r.1 (λ id. IsContent (W.contents world.new) id r.0)) }
    ensures kept { IfOk result (λ _. Keeps (W.contents world.old) (W.contents world.new)) }
    ensures table { IfOk result (λ r. table.new ≡ stepped place (step cost call r.0) table.old) }
    ensures keeps { W.Keeps world.old world.new }
    ensures stays { OnOk result (W.Stays world.old world.new) }
    ensures fails { IfErr result (W.Fails world.old world.new) }
{
    let (answer, number) = world.answer_id(refs, &call)?;
    let seen = answer.copy()?;
    table.add_step(
        place,
        Step {
            cost,
            call,
            answer: seen,
        },
    )?;
    Ok((answer, number))
}

/// The command that waited, after the launched one has ended with this status.
pub fn join<M: Drop>(table: &mut Table, frame: Frame<M>, status: u8) -> Result<Active<M>, NoMemory>
    requires { frame.waiting.place < length table.old }
    ensures waited { IfOk result (λ a. a ≡ frame.waiting) }
    ensures table { OnOk result (table.new ≡ stepped frame.waiting.place (step frame.cost (Call.Launch frame.key frame.map) (Answer.Joined status)) table.old) }
{
    let Frame {
        waiting,
        key,
        map,
        cost,
    } = frame;
    table.add_step(
        waiting.place,
        Step {
            cost,
            call: Call::Launch(key, map),
            answer: Answer::Joined(status),
        },
    )?;
    Ok(waiting)
}
