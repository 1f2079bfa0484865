// The nodes of steps, put each once.
ghost use Rattle.std.specs.Prelude.{◌≡◌, ◌≤◌, List, [], IfOk, OnOk, length, map};
ghost use Rattle.std.specs.List.{AllByRecursion};
ghost use Rattle.tr_nodes.specs.Tails.{Tail, needing, head_in};
ghost use Rattle.tr_record.specs.declared.steps.Step.{Step as OneStep};
ghost use Rattle.tr_codec.specs.Puts.{Puts};
ghost use Rattle.tr_codec.specs.NodesPut.{Holds, IsPut};
ghost use Rattle.tr_codec.specs.Same.{same_step};
ghost use Rattle.tr_codec.specs.Sound.{IsTyped};
ghost use Rattle.tr_codec.specs.Spelling.{step_piece};

use crate::answer_pieces::put_answer;
use crate::call_pieces::put_call;
use crate::node_bytes::NodeBytes;
use crate::writer::Writer;
use indexmap::IndexSet;
use rk_base::NoMemory;
use std::alloc::Global;
use tr_record::{Step, StepList};

/// The nodes that were put so far, each once: its own bytes are its key. The writer has their blobs, and no bytes but those of a
/// node that is being put.
#[derive(Drop)]
pub struct NodeWriter {
    pub writer: Writer,
    pub nodes: IndexSet<NodeBytes>,
}

fn put_step(w: &mut Writer, step: &Step) -> Result<(), NoMemory>
    ensures puts { OnOk result (Puts (step_piece step.now) w.old w.new) }
    ensures typed { OnOk result (IsTyped step.now) }
{
    w.put_number(step.cost)?;
    put_call(w, &step.call)?;
    put_answer(w, &step.answer)?;
    Ok(())
}

// The steps, each lent.
fn lent<'a>(alloc: Global, steps: &'a StepList) -> Result<Vec<&'a Step>, NoMemory>
    ensures { IfOk result (λ v. map (λ b. b.now) v.items ≡ steps.now) }
{
    let mut all = Vec::new(alloc);
    let mut left = steps.walk();
    'steps: while let Some((step, rest)) = left.step() {
        all.push(step)?;
        left = rest;
    }
    Ok(all)
}

impl NodeWriter {
    /// No nodes, and room for so many.
    pub fn with_room(alloc: Global, count: usize) -> Result<NodeWriter, NoMemory>
        ensures { IfOk result (λ nodes. Holds [] nodes) }
    {
        let nodes = IndexSet::with_capacity(alloc, count)?;
        Ok(NodeWriter {
            writer: Writer::new(alloc),
            nodes,
        })
    }

    /// A step in front of those of a number. It tells the number of them all; the node is added where it is new.
    pub fn put_node(&mut self, next: usize, step: &Step) -> Result<usize, NoMemory>
        ensures put { IfOk result (λ number. (tails : List (Tail OneStep)) → Holds tails self.old → next ≤ length tails → IsPut tails next step.now number self.new) }
        ensures typed { OnOk result (IsTyped step.now) }
    {
        self.writer.put_number(next as u64)?;
        put_step(&mut self.writer, step)?;
        let key = self.writer.take()?;
        let (place, _) = self.nodes.insert_full(key)?;
        // The set says that it is smaller than any number.
        let _ = self.nodes.len();
        Ok(place + 1)
    }

    /// The nodes of steps, from the last to the first. It tells their number.
    pub fn put_talk(&mut self, alloc: Global, steps: &StepList) -> Result<usize, NoMemory>
        ensures holds { OnOk result ((tails : List (Tail OneStep)) → Holds tails self.old → Holds (needing same_step tails steps.now) self.new) }
        ensures number { IfOk result (λ head. (tails : List (Tail OneStep)) → Holds tails self.old → head ≡ head_in same_step (needing same_step tails steps.now) steps.now) }
        ensures typed { OnOk result (AllByRecursion IsTyped steps.now) }
    {
        let steps = lent(alloc, steps)?;
        let count = steps.len();
        let mut head = 0;
        'steps: for i in 0..count {
            let step = steps[count - 1 - i];
            head = self.put_node(head, step)?;
        }
        Ok(head)
    }
}
