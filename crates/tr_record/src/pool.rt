// Nodes of steps.
ghost use Rattle.std.specs.Prelude.{◌≡◌, ◌+◌, ◌∷◌, ◌<◌, ◌≤◌, ◌^◌, [], IfOk, IfSome, IfNone, OnErr, length};
ghost use Rattle.tr_record.specs.Costs.{steps_cost};
ghost use Rattle.tr_record.specs.Pool.{no_nodes, with_node, steps_under, next_of, content_of, AreSteps, IsUnder};

use crate::Step;
use rk_base::NoMemory;
use std::alloc::Global;
use std::marker::Model;

/// A step, the number of its rest, and the number of the content that its answer is, where it has one; and how many steps
/// begin here, and what they cost, in turns.
#[derive(Debug, Drop)]
pub(crate) struct StepNode {
    next: usize,
    step: Step,
    content: Option<usize>,
    count: usize,
    paid: u64,
}

/// Nodes of steps. A node's number is one more than its place; the number of its rest is 0 where nothing follows, else that
/// of an earlier node. So a number stands for steps, and records that end alike have nodes together.
#[derive(Debug, Drop)]
pub struct StepPool {
    nodes: Vec<StepNode>,
}

impl Model for StepPool {
    ghost use Rattle.std.specs.Prelude.{map};
    ghost use Rattle.tr_record.specs.Pool.{Pool, node_of, content_at, AreNoted};

    ghost Value = { Pool };

    ghost view = { λ p. record { nodes = map node_of p.nodes.items; contents = map content_at p.nodes.items } };

    ghost invariant = { λ p. AreNoted p.nodes.items };
}

impl StepPool {
    /// No nodes.
    pub fn new(alloc: Global) -> StepPool
        ensures { result ≡ no_nodes }
    {
        StepPool {
            nodes: Vec::new(alloc),
        }
    }

    /// No nodes, and room for so many.
    pub fn with_room(alloc: Global, count: usize) -> Result<StepPool, NoMemory>
        ensures { IfOk result (λ pool. pool ≡ no_nodes) }
    {
        let nodes = Vec::with_capacity(alloc, count)?;
        Ok(StepPool { nodes })
    }

    /// How many nodes there are.
    pub fn len(&self) -> usize
        ensures { result ≡ length self.now.nodes }
    {
        self.nodes.len()
    }

    /// The allocator of the nodes.
    pub(crate) fn allocator(&self) -> Global {
        *self.nodes.allocator()
    }

    // The node of a number; none exactly of 0.
    fn node(&self, number: usize) -> Option<&StepNode>
        requires { number ≤ length self.now.nodes }
        ensures some { IfSome result (λ it. IsUnder self.now number it.now) }
        ensures none { IfNone result (number ≡ 0) }
        ensures steps { AreSteps self.now.nodes }
        ensures many { length self.now.nodes < 2 ^ 63 }
    {
        let nodes = &self.nodes;
        if number == 0 {
            return None;
        }
        Some(&nodes[number - 1])
    }

    /// A step in front of those of a number. It tells the number of them all; `None` exactly where they would cost 2^64 turns
    /// or more, and then nothing changes.
    pub fn push(
        &mut self,
        next: usize,
        step: Step,
        content: Option<usize>,
    ) -> Result<Option<usize>, NoMemory>
        requires { next ≤ length self.old.nodes }
        ensures nodes { IfOk result (λ it. IfSome it (λ _. self.new ≡ with_node self.old next step content)) }
        ensures number { IfOk result (λ it. IfSome it (λ number. number ≡ length self.old.nodes + 1)) }
        ensures steps { IfOk result (λ it. IfSome it (λ number. steps_under self.new.nodes number ≡ step ∷ steps_under self.old.nodes next)) }
        ensures fits { IfOk result (λ it. IfSome it (λ _. step.cost + steps_cost (steps_under self.old.nodes next) < 2 ^ 64)) }
        ensures none { IfOk result (λ it. IfNone it (2 ^ 64 ≤ step.cost + steps_cost (steps_under self.old.nodes next))) }
        ensures kept { IfOk result (λ it. IfNone it (self.new ≡ self.old)) }
        ensures err { OnErr result (self.new ≡ self.old) }
    {
        let Some(paid) = step.cost.checked_add(self.paid(next)) else {
            return Ok(None);
        };
        let count = self.count(next) + 1;
        self.nodes.push(StepNode {
            next,
            step,
            content,
            count,
            paid,
        })?;
        Ok(Some(self.nodes.len()))
    }

    /// What the steps of a number cost together, in turns. It takes no time that grows with them.
    pub fn paid(&self, number: usize) -> u64
        requires { number ≤ length self.now.nodes }
        ensures { result ≡ steps_cost (steps_under self.now.nodes number) }
    {
        match self.node(number) {
            None => 0,
            Some(node) => node.paid,
        }
    }

    /// How many steps a number has. It takes no time that grows with them.
    pub fn count(&self, number: usize) -> usize
        requires { number ≤ length self.now.nodes }
        ensures value { result ≡ length (steps_under self.now.nodes number) }
        ensures few { result ≤ number }
        ensures small { result < 2 ^ 63 }
    {
        match self.node(number) {
            None => 0,
            Some(node) => node.count,
        }
    }

    /// The first step of a number; `None` exactly where there are none.
    pub fn step(&self, number: usize) -> Option<&Step>
        requires { number ≤ length self.now.nodes }
        ensures some { IfSome result (λ step. steps_under self.now.nodes number ≡ step.now ∷ steps_under self.now.nodes (next_of self.now.nodes number)) }
        ensures none { IfNone result (steps_under self.now.nodes number ≡ []) }
    {
        let node = self.node(number)?;
        Some(&node.step)
    }

    /// The number of what follows the first step of a number; 0 of none.
    pub fn next(&self, number: usize) -> usize
        requires { number ≤ length self.now.nodes }
        ensures value { result ≡ next_of self.now.nodes number }
        ensures within { result ≤ length self.now.nodes }
        ensures steps { AreSteps self.now.nodes }
    {
        match self.node(number) {
            None => 0,
            Some(node) => node.next,
        }
    }

    /// The number of the content that the answer to the first step of a number is, where it has one.
    pub fn content(&self, number: usize) -> Option<usize>
        ensures value { result ≡ content_of self.now.contents number }
        ensures steps { AreSteps self.now.nodes }
    {
        if number > self.nodes.len() {
            return None;
        }
        let node = self.node(number)?;
        node.content
    }
}
