// An expander's turns, and the bodies of its substitutions (XCU 2.6.3).
ghost use Rattle.std.specs.Prelude.{◌≡◌, ◌≤◌, ◌+◌, IfOk};
ghost use Rattle.sh_ast.specs.Commands as tree;
ghost use Rattle.sh_means.specs.Eval.{word_in};
ghost use Rattle.sh_means.specs.Flows.{Next};
ghost use Rattle.sh_means.specs.Run.{run};
ghost use Rattle.sh_means.specs.Stack.{Steps, Goes, context, wording, whole};
ghost use Rattle.sh_means.specs.State.{Shell, with_env};
ghost use Rattle.sh_means.specs.Trees.{IsBody};
ghost use Rattle.sh_means.specs.Views.{shell_of};
ghost use Rattle.sh_means.specs.Weights.{Lowers, weigh, weigh_all, weigh_word};
ghost use Rattle.sh_means.specs.Words.{body_at, in_subshell};
ghost use Rattle.rk_calls.specs.declared.answer.Answer.TheVariants as answers;

use crate::control::{Acted, Control, PendingWord, Undo, Wait, WordStep};
use crate::interpreter::Interpreter;
use crate::stack::put_undo;
use crate::steps::free;
use rk_base::NoMemory;
use rk_calls::{Answer, Turn};
use sh_ast::{CommandList, Word};
use sh_expand::{ExpandFault, Expanding};
use std::alloc::Global;
use std::rc::Rc;

// The body of a substitution.
fn body_of(alloc: Global, word: &Word, number: u64) -> Result<Rc<CommandList>, NoMemory>
    ensures { IfOk result (λ b. IsBody (word_in run (tree.word word.now)).bodies number (whole b.value)) }
{
    match word.body(number as usize) {
        Some(body) => {
            let body = body.clone()?;
            Ok(body)
        }
        None => {
            let none = CommandList {
                items: Vec::new(alloc),
            };
            let body = Rc::new(alloc, none)?;
            Ok(body)
        }
    }
}

// A substitution's body begins in a subshell, with 1 on the pipe that was made last.
fn enter_body(
    w: Box<PendingWord>,
    number: u64,
    shell: &mut Interpreter,
) -> Result<Control, NoMemory>
    ensures talk { IfOk result (Goes (in_subshell (body_at (word_in run (tree.word w.value.word.value)).bodies number) w.value.place (shell_of shell.old.state) shell.old.state.env (λ env. wording w.value (context shell.old.stack.items) answers.Go (with_env env (shell_of shell.old.state)))) (context shell.new.stack.items) (shell_of shell.new.state)) }
    ensures weight { IfOk result (λ c. weigh c + weigh_all shell.new.stack.items ≤ weigh_word w.value + 2 + weigh_all shell.old.stack.items) }
{
    let body = body_of(shell.alloc, &w.word, number)?;
    let saved = shell.state.save(shell.alloc)?;
    let place = w.place;
    put_undo(&mut shell.stack, Undo::Substitution(w, saved))?;
    let write_end = shell.state.env.next.saturating_sub(1);
    shell.state.set_descriptor(1, Some(write_end))?;
    Ok(Control::Whole(place, body))
}

/// An expander's next turn, with the answer that was heard.
pub fn act_expand(
    w: Box<PendingWord>,
    answer: Answer,
    shell: &mut Interpreter,
) -> Result<Acted, NoMemory>
    ensures talk { IfOk result (Steps (wording w.value (context shell.old.stack.items) answer (shell_of shell.old.state)) (context shell.new.stack.items) (shell_of shell.new.state)) }
    ensures costly { IfOk result (Lowers (weigh_word w.value) shell.old.stack.items shell.new.stack.items) }
{
    let mut w = w;
    let wants = w.expander.resume(&mut shell.state.env, answer)?;
    match wants {
        Expanding::Ask(call, cost) => Ok(Acted {
            turn: Turn::Ask(call, cost),
            control: Control::WordStep(WordStep::Expand(w)),
        }),
        Expanding::More(cost) => Ok(Acted {
            turn: Turn::More(cost),
            control: Control::WordStep(WordStep::Expand(w)),
        }),
        Expanding::Body(number) => {
            let control = enter_body(w, number, shell)?;
            Ok(free(control))
        }
        Expanding::Done(expanded, cost) => Ok(Acted {
            turn: Turn::More(cost),
            control: Control::WordStep(WordStep::Deliver(w, expanded)),
        }),
        Expanding::Fault(fault, cost) => {
            let ExpandFault { parameter, message } = fault;
            Ok(Acted {
                turn: Turn::More(cost),
                control: Control::Waits(Wait::Fails(parameter, message)),
            })
        }
    }
}
