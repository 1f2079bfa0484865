// The contents that recorded answers are, and the nodes of recorded steps, by numbers.
ghost use Rattle.std.specs.Prelude.{◌≡◌, ◌∷◌, ◌≤◌, ℕ, [], Some, map, IfOk, IfSome, IfNone, length, option_copied, slice_get};
ghost use Rattle.tr_record.specs.Contents.{no_contents};
ghost use Rattle.tr_record.specs.Pool.{steps_under, next_of, content_of, AreSteps};

use crate::pool::StepPool;
use crate::{KnownHeads, Step};
use rk_base::{Bytes, NoMemory};
use std::alloc::Global;
use std::marker::Model;
use std::rc::Rc;

/// The contents that the answers of a table's records are, each once; the nodes of its records' steps, each with the number of
/// the content that its answer is, where it has one; and for each record the number of its steps.
#[derive(Debug, Drop)]
pub struct RecordedContents {
    texts: Vec<Bytes>,
    pool: Rc<StepPool>,
    heads: Vec<usize>,
}

impl Model for RecordedContents {
    ghost use Rattle.tr_record.specs.Contents.{Recorded};

    ghost Value = { Recorded };

    ghost view = { λ r. record { texts = r.texts.items; nodes = r.pool.value.nodes; contents = r.pool.value.contents; heads = r.heads.items } };
}

impl RecordedContents {
    /// These contents, nodes and numbers.
    pub fn new(pool: Rc<StepPool>, texts: Vec<Bytes>, heads: Vec<usize>) -> RecordedContents
        ensures { result ≡ record { texts = texts.items; nodes = pool.value.nodes; contents = pool.value.contents; heads = heads.items } }
    {
        RecordedContents { texts, pool, heads }
    }

    /// No contents.
    pub fn none(alloc: Global) -> Result<RecordedContents, NoMemory>
        ensures { IfOk result (λ it. it ≡ no_contents) }
    {
        let pool = Rc::new(alloc, StepPool::new(alloc))?;
        Ok(RecordedContents {
            texts: Vec::new(alloc),
            pool,
            heads: Vec::new(alloc),
        })
    }

    /// The numbers of the records' steps, as what is known of them.
    pub fn known(&self, alloc: Global) -> Result<KnownHeads, NoMemory>
        ensures { IfOk result (λ it. it ≡ record { nodes = self.now.nodes; heads = map (λ (head : ℕ). Some head) self.now.heads }) }
    {
        KnownHeads::all(alloc, &self.pool, self.heads.as_slice())
    }

    /// The content of a number; `None` exactly where it is none of these.
    pub fn text(&self, number: usize) -> Option<&Bytes>
        ensures { option_copied result ≡ slice_get self.now.texts number }
    {
        self.texts.get(number)
    }

    /// The number of a record's steps; `None` exactly where there is no such record.
    pub fn head(&self, rec: usize) -> Option<usize>
        ensures { result ≡ slice_get self.now.heads rec }
    {
        self.heads.get(rec).copied()
    }

    /// The first step of a number; `None` exactly where there are none.
    pub fn step(&self, number: usize) -> Option<&Step>
        requires { number ≤ length self.now.nodes }
        ensures some { IfSome result (λ step. steps_under self.now.nodes number ≡ step.now ∷ steps_under self.now.nodes (next_of self.now.nodes number)) }
        ensures none { IfNone result (steps_under self.now.nodes number ≡ []) }
    {
        self.pool.step(number)
    }

    /// The number of what follows the first step of a number; 0 of none.
    pub fn next(&self, number: usize) -> usize
        requires { number ≤ length self.now.nodes }
        ensures value { result ≡ next_of self.now.nodes number }
        ensures within { result ≤ length self.now.nodes }
    {
        self.pool.next(number)
    }

    /// The number of the content that the answer to the first step of a number is, where it has one.
    pub fn number(&self, number: usize) -> Option<usize>
        ensures value { result ≡ content_of self.now.contents number }
        ensures steps { AreSteps self.now.nodes }
    {
        self.pool.content(number)
    }
}
