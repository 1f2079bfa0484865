// Answers, to be found by hash.
ghost use Rattle.std.specs.Prelude.{◌≡◌, IfOk, fold};
ghost use Rattle.std.specs.Cmp.{partial_equiv_from_equiv};
ghost use Rattle.std.specs.Hash as fed;
ghost use Rattle.std.specs.List.{flat_map};
ghost use Rattle.tr_matching.specs.Answers.{same_answer};
ghost use Rattle.tr_matching.specs.AnswerLaws.{answers_equiv, hashed, hashed-alike};

use rk_base::{NameList, NoMemory};
use rk_calls::{Answer, same_answer};
use std::hash::{Hash, Hasher};
use std::marker::Model;

/// A copy of an answer, which shares its bytes, by which something is found.
#[derive(Debug, Drop)]
pub(crate) struct AnswerKey {
    answer: Answer,
}

impl Model for AnswerKey {
    ghost use Rattle.rk_calls.specs.declared.answer.Answer.{Answer};

    ghost Value = { Answer };

    ghost view = { λ k. k.answer };
}

impl AnswerKey {
    /// This answer.
    pub(crate) fn of(answer: &Answer) -> Result<AnswerKey, NoMemory>
        ensures { IfOk result (λ k. k ≡ answer.now) }
    {
        let answer = answer.copy()?;
        Ok(AnswerKey { answer })
    }
}

impl PartialEq for AnswerKey {
    ghost eq = { same_answer };

    ghost laws = { partial_equiv_from_equiv answers_equiv };

    fn eq(&self, other: &AnswerKey) -> bool {
        same_answer(&self.answer, &other.answer)
    }
}

impl Eq for AnswerKey {
    ghost laws = { answers_equiv };
}

// The bytes of names, one after another.
fn hash_names<H: Hasher>(names: &NameList, state: &mut H)
    ensures { state.new ≡ fold H.write state.old (flat_map (fed.slice fed.u8) names.now) }
{
    let names = names.as_slice();
    'names: for name in names {
        name.as_slice().hash(state);
    }
}

impl Hash for AnswerKey {
    ghost hash_input = { hashed };

    ghost respects_eq = { hashed-alike };

    fn hash<H: Hasher>(&self, state: &mut H) {
        match &self.answer {
            Answer::Content(bytes) => bytes.hash(state),
            Answer::Text(bytes) => bytes.hash(state),
            Answer::Place(path) => path.hash(state),
            Answer::Names(names) => hash_names(names, state),
            Answer::Stat {
                kind: _,
                mode,
                empty: _,
            } => mode.hash(state),
            Answer::Joined(status) => status.hash(state),
            Answer::Go => {}
            Answer::Done => {}
            Answer::Opened => {}
            Answer::Piped => {}
            Answer::Same(_) => {}
            Answer::No(_) => {}
        }
    }
}
