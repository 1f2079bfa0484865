// Nodes that are read.
ghost use Rattle.std.specs.Prelude.{◌≡◌, ◌-◌, ◌≤◌, List, [], take, not, length, OnOk, IfOk, IfErr};
ghost use Rattle.rk_base.specs.Text.{Text};
ghost use Rattle.tr_parts.specs.Reads.{Gives, Fails};
ghost use Rattle.tr_codec.specs.NodesRead.{AreRead, NodeRead, Adds, Refuses, tails_in};
ghost use Rattle.tr_codec.specs.Reading.{node_at, many_at, counted_at};
ghost use Rattle.tr_codec.specs.Used.{nodes_used};

use crate::node_keys::NodeKeys;
use crate::parts::room_for;
use crate::recent::Recent;
use crate::steps::step_of;
use rk_base::NoMemory;
use rk_content::Contents;
use std::alloc::Global;
use tr_parts::{PartErr, count_of, number_of};
use tr_record::{Step, StepPool};

/// The nodes that were read so far, and the bytes of each, by which equal ones are told.
#[derive(Drop)]
pub struct ReadNodes<'a> {
    pool: StepPool,
    keys: NodeKeys<'a>,
}

// All but what is left of them.
fn front_of<'a>(bytes: &'a [u8], rest: &[u8]) -> &'a [u8]
    requires { length rest.now ≤ length bytes.now }
    ensures { result.now ≡ take (length bytes.now - length rest.now) bytes.now }
{
    let (front, _) = bytes.split_at(bytes.len() - rest.len());
    front
}

// A node has the numbers of its rest and of its cost, and a byte for each of its call and its answer.
const LEAST: usize = 18;

impl<'a> ReadNodes<'a> {
    /// No nodes, and room for so many.
    pub(crate) fn with_room(alloc: Global, count: usize) -> Result<ReadNodes<'a>, NoMemory>
        ensures are { IfOk result (λ nodes. (blobs : List Text) → AreRead blobs nodes) }
        ensures none { IfOk result (λ nodes. tails_in nodes ≡ []) }
    {
        let pool = StepPool::with_room(alloc, count)?;
        let keys = NodeKeys::with_room(alloc, count)?;
        Ok(ReadNodes { pool, keys })
    }

    /// The nodes alone.
    pub fn into_pool(self) -> StepPool
        ensures { result ≡ self.entry.pool }
    {
        let ReadNodes { pool, .. } = self;
        pool
    }

    // A node of these bytes, where it is none of those before.
    fn add(
        &mut self,
        key: &'a [u8],
        next: usize,
        step: Step,
        told: Option<usize>,
    ) -> Result<(), PartErr>
        requires { next ≤ length self.old.pool.nodes }
        ensures ok { OnOk result (Adds self.old self.new key.now next step told) }
        ensures err { IfErr result (λ e. Refuses self.old key.now next step e) }
    {
        if !self.keys.add(key)? {
            return Err(PartErr::Form);
        }
        match self.pool.push(next, step, told)? {
            None => Err(PartErr::Form),
            Some(_) => Ok(()),
        }
    }

    // One node more, of the rest that its number says, where it is none of those before.
    #[tactic(auto, unfolding(crate::specs::Reading::node_at))]
    fn node_of(
        &mut self,
        alloc: Global,
        blobs: &Contents,
        used: &mut Option<usize>,
        recent: &mut Recent,
        bytes: &'a [u8],
    ) -> Result<&'a [u8], PartErr>
        requires { AreRead blobs.now self.old }
        ensures read { IfOk result (λ rest. NodeRead blobs.now self.old self.new bytes.now rest.now used.old used.new) }
        ensures fails { IfErr result (λ e. Fails e (node_at blobs.now (tails_in self.old) bytes.now)) }
    {
        // No two blobs are equal, so that each number tells its text.
        let _ = blobs.as_slice();
        let (next, rest) = number_of(bytes)?;
        let next = next as usize;
        if self.pool.len() < next {
            return Err(PartErr::Form);
        }
        let (step, told, end) = step_of(alloc, blobs, used, recent, rest)?;
        self.add(front_of(bytes, end), next, step, told)?;
        Ok(end)
    }
}

fn so_many_nodes<'a>(
    alloc: Global,
    blobs: &Contents,
    used: &mut Option<usize>,
    recent: &mut Recent,
    count: u64,
    bytes: &'a [u8],
) -> Result<(ReadNodes<'a>, &'a [u8]), PartErr>
    ensures gives { Gives (λ x. (tails_in x.0, x.1.now)) result (many_at (node_at blobs.now) count [] bytes.now) }
    ensures are { IfOk result (λ x. AreRead blobs.now x.0) }
    ensures used { IfOk result (λ x. used.new ≡ nodes_used blobs.now used.old (tails_in x.0)) }
{
    let mut nodes = ReadNodes::with_room(alloc, room_for(count, LEAST, bytes))?;
    let mut rest = bytes;
    'nodes: for _ in 0..count {
        rest = nodes.node_of(alloc, blobs, used, recent, rest)?;
    }
    Ok((nodes, rest))
}

/// The nodes of a table, each once.
pub fn nodes_of<'a>(
    alloc: Global,
    blobs: &Contents,
    used: &mut Option<usize>,
    recent: &mut Recent,
    bytes: &'a [u8],
) -> Result<(ReadNodes<'a>, &'a [u8]), PartErr>
    ensures gives { Gives (λ x. (tails_in x.0, x.1.now)) result (counted_at (node_at blobs.now) bytes.now) }
    ensures are { IfOk result (λ x. AreRead blobs.now x.0) }
    ensures used { IfOk result (λ x. used.new ≡ nodes_used blobs.now used.old (tails_in x.0)) }
{
    let (count, rest) = count_of(bytes)?;
    let (nodes, rest) = so_many_nodes(alloc, blobs, used, recent, count, rest)?;
    Ok((nodes, rest))
}
