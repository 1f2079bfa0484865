// Utilities that only complain.
ghost use Rattle.std.specs.Prelude.{◌≡◌, ◌++◌, IfOk, codes};
ghost use Rattle.ut_args.specs.Usage.{complains, misuses, misuses_option, complaint_talk};
ghost use Rattle.rk_calls.specs.Lines.{error_line};

use rk_base::{Bytes, NoMemory};
use rk_calls::{Answer, Call, Machine, Turn, error_line, turns};
use std::alloc::Global;

/// A text that is written to 2, and the status that the utility exits with afterwards.
#[derive(Drop)]
pub struct Complaint {
    text: Option<Bytes>,
    status: u8,
}

fn usage_line(alloc: Global, name: &[u8]) -> Result<Bytes, NoMemory>
    ensures { IfOk result (λ line. line ≡ name.now ++ codes ": usage\n") }
{
    let mut line = Vec::from_slice(alloc, name)?;
    line.extend_from_slice(b": usage\n")?;
    Bytes::new(alloc, line)
}

impl Complaint {
    /// That of an operand: `NAME: OPERAND: word`.
    pub fn of_operand(
        alloc: Global,
        name: &[u8],
        operand: &[u8],
        word: &[u8],
        status: u8,
    ) -> Result<Complaint, NoMemory>
        ensures { IfOk result (λ c. complaint_talk c Answer.Go ≡ complains (error_line name.now operand.now word.now) status) }
    {
        let line = error_line(alloc, name, operand, word)?;
        Ok(Complaint {
            text: Some(line),
            status,
        })
    }

    /// That of an option, as `-X`: `NAME: -X: usage`.
    pub fn of_option(
        alloc: Global,
        name: &[u8],
        option: &[u8],
        status: u8,
    ) -> Result<Complaint, NoMemory>
        ensures { IfOk result (λ c. complaint_talk c Answer.Go ≡ misuses_option name.now option.now status) }
    {
        Complaint::of_operand(alloc, name, option, b"usage", status)
    }

    /// That of operands, of which one is missing, out of form or too many: `NAME: usage`.
    pub fn of_operands(alloc: Global, name: &[u8], status: u8) -> Result<Complaint, NoMemory>
        ensures { IfOk result (λ c. complaint_talk c Answer.Go ≡ misuses name.now status) }
    {
        let line = usage_line(alloc, name)?;
        Ok(Complaint {
            text: Some(line),
            status,
        })
    }
}

impl Machine for Complaint {
    ghost use Rattle.ut_args.specs.Usage.{complaint_talk};

    ghost talk = { complaint_talk };

    fn resume(&mut self, _answer: Answer) -> Result<Turn, NoMemory> {
        match self.text.take() {
            Some(text) => {
                let cost = 1 + turns(text.as_slice());
                Ok(Turn::Ask(Call::Write(2, text), cost))
            }
            None => Ok(Turn::Exit(self.status, 0)),
        }
    }
}
