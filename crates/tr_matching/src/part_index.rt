// The parts of a group, by the answers that lead to them.
ghost use Rattle.std.specs.Prelude.{◌≡◌, [], Some, OnOk, if◌then◌else◌};
ghost use Rattle.rk_calls.specs.declared.answer.Answer.{Answer as AnswerValue};
ghost use Rattle.tr_matching.specs.Answers.{same_answer};
ghost use Rattle.tr_matching.specs.Index.{part_of};

use crate::answer_key::AnswerKey;
use indexmap::IndexMap;
use rk_base::NoMemory;
use std::alloc::Global;
use std::marker::Model;

/// The number of a part for each answer that leads to one, found by hash.
#[derive(Debug, Drop)]
pub struct PartIndex {
    parts: IndexMap<AnswerKey, usize>,
}

impl Model for PartIndex {
    ghost use Rattle.std.specs.Prelude.{List, ℕ};
    ghost use Rattle.rk_calls.specs.declared.answer.Answer.{Answer};

    ghost Value = { List (Answer × ℕ) };

    ghost view = { λ p. p.parts.entries };
}

impl PartIndex {
    /// No parts.
    pub(crate) fn new(alloc: Global) -> PartIndex
        ensures { result ≡ [] }
    {
        PartIndex {
            parts: IndexMap::new(alloc),
        }
    }

    /// The number of the part that stands under an answer.
    pub(crate) fn find(&self, answer: &AnswerKey) -> Option<usize>
        ensures { result ≡ part_of self.now answer.now }
    {
        self.parts.get(answer).copied()
    }

    /// This part stands under an answer from now on.
    pub(crate) fn insert(&mut self, answer: AnswerKey, part: usize) -> Result<(), NoMemory>
        ensures { OnOk result ((a : AnswerValue) → part_of self.new a ≡ (if same_answer answer a then Some part else part_of self.old a)) }
    {
        self.parts.insert(answer, part)?;
        Ok(())
    }
}
