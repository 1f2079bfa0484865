// The machine of builtins.
ghost use Rattle.std.specs.Prelude.{◌≡◌, ◌∷◌, ℕ, IfOk};
ghost use Rattle.rk_calls.specs.Costly.{IsCostly};
ghost use Rattle.sh_vars.specs.declared.env.Env.{Env};
ghost use Rattle.sh_builtin.specs.Builtins.{is_unknown, named_does, does};
ghost use Rattle.sh_builtin.specs.Action.{Slots, Ended, after};
ghost use Rattle.rk_calls.specs.declared.answer.Answer.TheVariants as answers;
ghost use Rattle.rk_base.specs.declared.errno.Errno.TheVariants.{BadRef};
ghost use Rattle.sh_builtin.specs.Refused.{HasBegun, HasBegunAt, IsFewer, refusals, refusals_at, refusals_of};
ghost use Rattle.sh_builtin.specs.Stages.{stage_does, progress_does, HasOutput, IsDoneBy, IsDoneWhere, builtin_does};

use crate::cd::{cd, walked};
use crate::echo::{echo, pwd};
use crate::name::{Name, name_of};
use crate::options::operands_of;
use crate::printf::{printf, tell_bad, write_made};
use crate::read::{line_read, read};
use crate::stage::{Move, Progress, Stage};
use crate::telling::{complain, over, written};
use crate::test::{bracket, judged, test};
use rk_base::{Bytes, NoMemory, WordList};
use rk_calls::{Answer, Turn};
use sh_vars::Env;
use std::alloc::Global;
use std::mem;

/// A builtin that runs. It is resumed first with `Go`, after `Ask` with the call's answer, after `More` with `Go`, and
/// after `Exit` not again; after want of memory it is given up.
#[derive(Drop)]
pub struct Builtin {
    alloc: Global,
    progress: Progress,
}

// A word that names no builtin.
fn unknown(alloc: Global, word: &[u8]) -> Result<Move, NoMemory>
    ensures does { IfOk result (λ move. (env : Env) → IsDoneBy (is_unknown word.now) env move env) }
    ensures costly { IfOk result (λ move. IsCostly move.turn) }
{
    complain(alloc, Name::Unknown, word, b"not found", 127)
}

#[tactic(auto, using(crate::proofs::Anywhere::done_anywhere))]
fn begin_named(
    alloc: Global,
    name: Name,
    word: &[u8],
    operands: &[Bytes],
    has_output: bool,
    env: &mut Env,
) -> Result<Move, NoMemory>
    ensures does { IfOk result (λ move. IsDoneWhere has_output (named_does name word.now operands.now) env.old move env.new) }
    ensures costly { IfOk result (λ move. IsCostly move.turn) }
{
    match name {
        Name::Cd => cd(alloc, operands_of(operands), env),
        Name::Read => read(alloc, operands, env),
        Name::Echo => echo(alloc, operands),
        Name::Printf => printf(alloc, operands, has_output),
        Name::Pwd => pwd(alloc, operands_of(operands), env),
        Name::Test => test(alloc, operands, env),
        Name::Bracket => bracket(alloc, operands, env),
        Name::True => Ok(over(0)),
        Name::False => Ok(over(1)),
        Name::Unknown => unknown(alloc, word),
    }
}

fn begin(alloc: Global, words: &[Bytes], has_output: bool, env: &mut Env) -> Result<Move, NoMemory>
    ensures does { IfOk result (λ move. IsDoneWhere has_output (does words.now) env.old move env.new) }
    ensures costly { IfOk result (λ move. IsCostly move.turn) }
{
    match words {
        [] => Ok(over(0)),
        [word, operands @ ..] => {
            begin_named(
                alloc,
                name_of(word.as_slice()),
                word.as_slice(),
                operands,
                has_output,
                env,
            )
        }
    }
}

#[tactic(auto, using(crate::proofs::Anywhere::done_anywhere))]
fn go_on(
    alloc: Global,
    stage: Stage,
    has_output: bool,
    env: &mut Env,
    answer: Answer,
) -> Result<Move, NoMemory>
    ensures does { IfOk result (λ move. IsDoneWhere has_output (stage_does stage answer) env.old move env.new) }
    ensures costly { IfOk result (λ move. IsCostly move.turn) }
    ensures refused { IfOk result (λ move. answer ≡ answers.No BadRef → IsFewer (refusals stage) move.turn (refusals move.stage)) }
{
    match stage {
        Stage::Writing(name, status) => written(alloc, name, status, answer),
        Stage::Walking(operand) => walked(alloc, operand, answer, env),
        Stage::Reading(raw, names, marks) => line_read(alloc, raw, names, marks, answer, env),
        Stage::Printing(bad, at, pieces, operands, status) => {
            tell_bad(alloc, bad, at, pieces, operands, status, has_output)
        }
        Stage::Paid(pieces, operands, status) => write_made(alloc, pieces, operands, status),
        Stage::Judging(primary, negated) => Ok(judged(primary, negated, answer)),
        Stage::Over(status) => Ok(over(status)),
    }
}

fn next_move(
    alloc: Global,
    progress: Progress,
    has_output: bool,
    env: &mut Env,
    answer: Answer,
) -> Result<Move, NoMemory>
    ensures does { IfOk result (λ move. IsDoneWhere has_output (progress_does progress answer) env.old move env.new) }
    ensures costly { IfOk result (λ move. IsCostly move.turn) }
    ensures refused { IfOk result (λ move. answer ≡ answers.No BadRef → HasBegunAt progress → IsFewer (refusals_at progress) move.turn (refusals move.stage)) }
{
    match progress {
        Progress::Begins(words) => begin(alloc, words.as_slice(), has_output, env),
        Progress::Stands(stage) => go_on(alloc, stage, has_output, env, answer),
    }
}

impl Builtin {
    /// The builtin with these words, its name first, before its first turn. A word that names no builtin is told as
    /// unknown.
    pub fn start(alloc: Global, words: &WordList) -> Result<Builtin, NoMemory>
        ensures { IfOk result (λ b. builtin_does b Answer.Go ≡ does words.now) }
    {
        let words = words.copy()?;
        Ok(Builtin {
            alloc,
            progress: Progress::Begins(words),
        })
    }

    /// Its next turn. A call names a descriptor as the shell does: its owner asks it of the local number that the map has
    /// for that, and where the map has none it asks and pays nothing and answers `BadRef`, which leaves fewer such calls to
    /// come. The owner counts the local numbers that an answer gives before it hands it on.
    pub fn resume(
        &mut self,
        has_output: bool,
        env: &mut Env,
        answer: Answer,
    ) -> Result<Turn, NoMemory>
        ensures costly { IfOk result IsCostly }
        ensures begun { IfOk result (λ t. HasBegun self.new) }
        ensures refused { IfOk result (λ t. answer ≡ answers.No BadRef → HasBegun self.old → IsFewer (refusals_of self.old) t (refusals_of self.new)) }
        ensures does { IfOk result (λ t. (slots : Slots) (k : Ended) (p : ℕ) → HasOutput slots has_output → builtin_does self.old answer slots k env.old p ≡ after slots t (λ a. builtin_does self.new a slots k) k env.new p) }
    {
        let progress = mem::replace(&mut self.progress, Progress::Stands(Stage::Over(0)));
        let Move { turn, stage } = next_move(self.alloc, progress, has_output, env, answer)?;
        self.progress = Progress::Stands(stage);
        Ok(turn)
    }
}
