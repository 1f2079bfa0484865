// Where the expansion of a word begins, and a `for` with its fields.
ghost use Rattle.std.specs.Prelude.{◌≤◌, ◌+◌, IfOk};
ghost use Rattle.sh_ast.specs.Commands as tree;
ghost use Rattle.sh_means.specs.Compound.{for_fields};
ghost use Rattle.sh_means.specs.Eval.{word_in};
ghost use Rattle.sh_means.specs.Flows.{Next};
ghost use Rattle.sh_means.specs.Run.{run};
ghost use Rattle.sh_means.specs.Stack.{Expands, Goes, aimed, whole};
ghost use Rattle.sh_means.specs.State.{Shell};
ghost use Rattle.sh_means.specs.Views.{shell_of};
ghost use Rattle.sh_means.specs.Weights.{weigh, weigh_aim, weigh_word};
ghost use Rattle.sh_means.specs.Words.{expand_word};

use crate::control::{Aim, CompoundStep, Control, Each, PendingWord, WordStep};
use crate::flow::{Flow, Place};
use crate::state::State;
use rk_base::{Bytes, NoMemory, WordList};
use sh_ast::{CommandList, Word};
use sh_expand::{Expander, Mode};
use std::alloc::Global;
use std::rc::Rc;

/// A word whose expansion begins.
pub fn pending(
    alloc: Global,
    word: Rc<Word>,
    mode: Mode,
    place: Place,
    aim: Aim,
) -> Result<Box<PendingWord>, NoMemory>
    ensures talk { IfOk result (λ w. (k : Next) (e : Shell) → Expands (expand_word mode (word_in run (tree.word word.value)) place (aimed aim place k) k e) k e w.value) }
    ensures weight { IfOk result (λ w. weigh_word w.value ≤ weigh_aim aim + 5) }
{
    let expander = Expander::start(alloc, &word, mode)?;
    let wording = Box::new(
        alloc,
        PendingWord {
            expander,
            word,
            place,
            aim,
        },
    )?;
    Ok(wording)
}

/// Expansion of a word begins.
pub fn begin(
    alloc: Global,
    word: Rc<Word>,
    mode: Mode,
    place: Place,
    aim: Aim,
) -> Result<Control, NoMemory>
    ensures talk { IfOk result (λ c. (k : Next) (e : Shell) → Goes (expand_word mode (word_in run (tree.word word.value)) place (aimed aim place k) k e) k e c) }
    ensures weight { IfOk result (λ c. weigh c ≤ weigh_aim aim + 5) }
{
    let wording = pending(alloc, word, mode, place, aim)?;
    Ok(Control::WordStep(WordStep::Expand(wording)))
}

/// A `for` over these fields; without one the status is 0.
pub fn over_fields(
    place: Place,
    name: Bytes,
    fields: WordList,
    body: Rc<CommandList>,
    state: &mut State,
) -> Control
    ensures talk { (k : Next) → Goes (for_fields name fields (whole body.value) place k (shell_of state.old)) k (shell_of state.new) result }
    ensures weight { weigh result ≤ 1 }
{
    if fields.len() == 0 {
        state.env.status = 0;
        return Control::Leave(Flow::Normal);
    }
    Control::CompoundStep(CompoundStep::Each(
        place,
        Each {
            name,
            fields,
            at: 0,
            body,
        },
    ))
}
