// Whether each call and each answer is the same as its copy, and as no other.
use crate::{answer_shown, call_shown};
use rk_base::NoMemory;
use rk_calls::{Answer, Call, same_answer, same_call};
use std::alloc::Global;

// So many calls and answers are kept.
const MOST: usize = 200;

/// The first calls and answers, each with its words.
#[derive(Drop)]
pub struct Seen {
    alloc: Global,
    calls: Vec<(String, Call)>,
    answers: Vec<(String, Answer)>,
}

impl Seen {
    /// Nothing is kept yet.
    pub fn new(alloc: Global) -> Seen {
        Seen {
            alloc,
            calls: Vec::new(alloc),
            answers: Vec::new(alloc),
        }
    }

    /// Whether a call is its own copy, and another than each call before of other words.
    pub fn call(&mut self, call: &Call) -> Result<bool, NoMemory> {
        let words = call_shown(self.alloc, call)?;
        let copy = call.copy()?;
        let mut apart = same_call(&copy, call);
        'calls: for (other, it) in &self.calls {
            if same_call(&copy, it) != (other.as_str() == words.as_str()) {
                apart = false;
            }
        }
        if self.calls.len() < MOST {
            self.calls.push((words, copy))?;
        }
        Ok(apart)
    }

    /// Whether an answer is its own copy, and another than each answer before of other words.
    pub fn answer(&mut self, answer: &Answer) -> Result<bool, NoMemory> {
        let words = answer_shown(self.alloc, answer)?;
        let copy = answer.copy()?;
        let mut apart = same_answer(&copy, answer);
        'answers: for (other, it) in &self.answers {
            if same_answer(&copy, it) != (other.as_str() == words.as_str()) {
                apart = false;
            }
        }
        if self.answers.len() < MOST {
            self.answers.push((words, copy))?;
        }
        Ok(apart)
    }
}
