// Recorded contents, by the numbers that a world gives.
ghost use Rattle.std.specs.Prelude.{◌≡◌, ◌↔◌, ◌<◌, ℕ, IsTrue, IfOk, IfSome, List, OnOk, Some, slice_get, length};
ghost use Rattle.rk_calls.specs.declared.answer.Answer.{Answer};
ghost use Rattle.rk_content.specs.Contents.{AreKnown, IsContent, Keeps};
ghost use Rattle.tr_record.specs.Contents.{AreContents};
ghost use Rattle.tr_record.specs.Rec.{rec_at};
ghost use Rattle.tr_record.specs.declared.records.Record.{Record};
ghost use Rattle.tr_matching.specs.Earlier.{IsRest};
ghost use Rattle.rk_traces.specs.Spoken.{step_at};
ghost use Rattle.rk_replay.specs.Activities.{IsAlike, IsAtRest, IsWaiting};

use crate::activity::Activity;
use rk_base::{Bytes, NoMemory};
use rk_content::{ContentId, Numbering};
use tr_record::RecordedContents;

// The number that is known of a content.
fn number_at(known: &Vec<Option<ContentId>>, n: usize) -> Option<ContentId>
    ensures { IfSome result (λ id. slice_get known.now.items n ≡ Some (Some id)) }
{
    match known.get(n) {
        None => None,
        Some(number) => *number,
    }
}

// A number is known of a content.
fn note<W: Numbering>(
    world: &W,
    contents: &RecordedContents,
    known: &mut Vec<Option<ContentId>>,
    n: usize,
    text: &Bytes,
    id: ContentId,
) -> Result<(), NoMemory>
    requires known { AreKnown (W.contents world.now) known.old.items contents.now.texts }
    requires number { slice_get (W.contents world.now) id ≡ Some text.now }
    requires text { slice_get contents.now.texts n ≡ Some text.now }
    ensures { OnOk result (AreKnown (W.contents world.now) known.new.items contents.now.texts) }
{
    let Some(len) = n.checked_add(1) else {
        return Ok(());
    };
    if known.len() < len {
        known.resize(len, None)?;
    }
    known[n] = Some(id);
    Ok(())
}

// The number of a recorded content in the world. It is given one once.
fn number_of<W: Numbering>(
    world: &mut W,
    contents: &RecordedContents,
    known: &mut Vec<Option<ContentId>>,
    n: usize,
    text: &Bytes,
) -> Result<ContentId, NoMemory>
    requires known { AreKnown (W.contents world.old) known.old.items contents.now.texts }
    requires text { slice_get contents.now.texts n ≡ Some text.now }
    ensures number { IfOk result (λ id. slice_get (W.contents world.new) id ≡ Some text.now) }
    ensures known { OnOk result (AreKnown (W.contents world.new) known.new.items contents.now.texts) }
    ensures told { W.told world.new ≡ W.told world.old }
    ensures kept { Keeps (W.contents world.old) (W.contents world.new) }
    ensures keeps { W.Keeps world.old world.new }
    ensures stays { W.Stays world.old world.new }
{
    if let Some(id) = number_at(known, n) {
        return Ok(id);
    }
    let id = world.intern(text)?;
    note(world, contents, known, n, text, id)?;
    Ok(id)
}

// Whether what a step is answered with is the recorded content, by the numbers of both.
fn is_alike_at<W: Numbering>(
    world: &mut W,
    contents: &RecordedContents,
    known: &mut Vec<Option<ContentId>>,
    node: usize,
    seen: ContentId,
) -> Result<Option<bool>, NoMemory>
    requires { AreKnown (W.contents world.old) known.old.items contents.now.texts }
    ensures alike { IfOk result (λ it. IfSome it (λ alike. (old : List Record) (rec at : ℕ) (a : Answer) →
        AreContents contents.now old → at < length (rec_at rec old).steps →
        IsRest (record { records = old; contents = contents.now }) rec at node → IsContent (W.contents world.old) seen a →
        IsTrue alike ↔ ((step_at at (rec_at rec old).steps).answer ≡ a))) }
    ensures known { OnOk result (AreKnown (W.contents world.new) known.new.items contents.now.texts) }
    ensures told { W.told world.new ≡ W.told world.old }
    ensures keeps { W.Keeps world.old world.new }
    ensures stays { W.Stays world.old world.new }
{
    match contents.number(node) {
        None => Ok(None),
        Some(n) => match contents.text(n) {
            None => Ok(None),
            Some(text) => {
                let id = number_of(world, contents, known, n, text)?;
                Ok(Some(world.is_same(id, seen)))
            }
        },
    }
}

impl<M: Drop> Activity<M> {
    /// Whether the step that the command waits for is answered as the first record that is left says, told by the numbers of both
    /// contents; `None` where there are not two.
    pub(crate) fn is_alike<W: Numbering>(
        &self,
        world: &mut W,
        contents: &RecordedContents,
        known: &mut Vec<Option<ContentId>>,
        seen: Option<ContentId>,
    ) -> Result<Option<bool>, NoMemory>
        requires { AreKnown (W.contents world.old) known.old.items contents.now.texts }
        ensures alike { IfOk result (λ it. IfSome it (λ alike. (old : List Record) (a : Answer) →
            AreContents contents.now old → IsWaiting old self.now → IsAtRest (record { records = old; contents = contents.now }) self.now →
            IfSome seen (λ id. IsContent (W.contents world.old) id a) → IsAlike old self.now a alike)) }
        ensures known { OnOk result (AreKnown (W.contents world.new) known.new.items contents.now.texts) }
        ensures told { W.told world.new ≡ W.told world.old }
        ensures keeps { W.Keeps world.old world.new }
        ensures stays { W.Stays world.old world.new }
    {
        match seen {
            None => Ok(None),
            Some(seen) => match self {
                Activity::Runs(_) => Ok(None),
                Activity::Replays(seat) => {
                    let alike = is_alike_at(world, contents, known, seat.place.rest, seen)?;
                    Ok(alike)
                }
            },
        }
    }
}
