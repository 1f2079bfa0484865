// Compound commands, once their redirections were made.
ghost use Rattle.std.specs.Prelude.{◌≡◌, ◌≤◌, ◌<◌, ◌+◌, ◌*◌, ℕ, IfOk, OnOk, drop, not, Some};
ghost use Rattle.rk_base.specs.Text.{Text};
ghost use Rattle.sh_ast.specs.Commands as tree;
ghost use Rattle.sh_vars.specs.Held.{assigned, is_readonly};
ghost use Rattle.sh_vars.specs.Numbers.{number_after};
ghost use Rattle.sh_means.specs.Flows.{Next, deeper};
ghost use Rattle.sh_means.specs.Compound.{for_each, for_fields, for_means, if_means, case_means, subshell_means, stages_mean, with_input};
ghost use Rattle.sh_means.specs.Eval.{compound_in, for_in, items_in, word_in, is_until};
ghost use Rattle.sh_means.specs.Run.{run};
ghost use Rattle.sh_means.specs.Simple.{Round};
ghost use Rattle.sh_means.specs.Stack.{Steps, Goes, context, branches_from, commands_from, first_of, whole, casing, looping, each_body, giving};
ghost use Rattle.sh_means.specs.State.{Shell, with_slot, past_stage};
ghost use Rattle.sh_means.specs.Views.{shell_of};
ghost use Rattle.sh_means.specs.Weights.{Lowers, Pays, Sinks, branches_left, items_left, weigh, weigh_all, weigh_case, weigh_compound, weigh_for};
ghost use Rattle.sh_means.specs.Trees.{for_words_of, given_if};

use rk_base::{Bytes, NoMemory, WordList};
use rk_calls::{Call, Turn};
use sh_ast::{CaseItems, CommandList, Compound, LoopKind, Word, Words};
use sh_expand::Mode;
use sh_means::control::{
    Acted, Aim, CompoundStep, Continuation, Control, Each, Frame, Loop, PendingCase, PendingFields,
    PendingIf, PendingStage, Then, Undo, Wait, WordStep,
};
use sh_means::expansion::{begin, over_fields};
use sh_means::flow::{Flow, Place};
use sh_means::interpreter::Interpreter;
use sh_means::items::item_at;
use sh_means::stack::{put_continuation, put_undo};
use sh_means::state::State;
use sh_means::steps::{end, free, paid, refuse};
use sh_vars::{VarErr, number_after};
use std::alloc::Global;
use std::rc::Rc;

// A subshell, after which `set -e` looks at its status.
fn act_subshell(
    place: Place,
    list: &Rc<CommandList>,
    shell: &mut Interpreter,
) -> Result<Control, NoMemory>
    ensures talk { IfOk result (Goes (subshell_means (whole list.now.value) place (shell_of shell.old.state) (context shell.old.stack.items)) (context shell.new.stack.items) (shell_of shell.new.state)) }
    ensures weight { IfOk result (λ c. weigh c + weigh_all shell.new.stack.items ≤ 3 + weigh_all shell.old.stack.items) }
{
    let list = list.clone()?;
    let saved = shell.state.save(shell.alloc)?;
    put_continuation(&mut shell.stack, Continuation::Watch(place))?;
    put_undo(&mut shell.stack, Undo::Subshell(saved))?;
    Ok(Control::Whole(place, list))
}

// The words of a `for`, or the positional parameters.
fn act_for(
    alloc: Global,
    place: Place,
    name: &Bytes,
    words: &Option<Rc<Words>>,
    body: &Rc<CommandList>,
    state: &mut State,
) -> Result<Control, NoMemory>
    ensures talk { IfOk result (λ c. (k : Next) → Goes (for_means name.now (for_in run (for_words_of words.now)) (whole body.now.value) place (shell_of state.old) k) k (shell_of state.new) c) }
    ensures weight { IfOk result (λ c. weigh c ≤ weigh_for (for_words_of words.now)) }
{
    let name = name.copy()?;
    let body = body.clone()?;
    match words {
        None => {
            let fields = state.env.vars.copy_positional()?;
            Ok(over_fields(place, name, fields, body, state))
        }
        Some(words) => {
            let words = words.clone()?;
            let fields = WordList::new(Vec::new(alloc));
            Ok(Control::WordStep(WordStep::Words(
                place,
                PendingFields {
                    words,
                    at: 0,
                    fields,
                    then: Then::For(name, body),
                },
            )))
        }
    }
}

fn act_case(
    alloc: Global,
    place: Place,
    word: &Rc<Word>,
    items: &Rc<CaseItems>,
) -> Result<Control, NoMemory>
    ensures talk { IfOk result (λ c. (k : Next) (e : Shell) → Goes (case_means (word_in run (tree.word word.now.value)) (items_in run (tree.case_items items.now.value)) place e k) k e c) }
    ensures weight { IfOk result (λ c. weigh c ≤ items_left items.now.value 0 0 + 8) }
{
    let word = word.clone()?;
    let items = items.clone()?;
    let control = begin(alloc, word, Mode::Value, place, Aim::Subject(items))?;
    Ok(control)
}

fn act_loop(
    place: Place,
    kind: LoopKind,
    condition: &Rc<CommandList>,
    body: &Rc<CommandList>,
) -> Result<Control, NoMemory>
    ensures talk { IfOk result (λ c. (k : Next) (e : Shell) → Goes (run (Round 0 (is_until kind) (tree.commands condition.now.value) (tree.commands body.now.value)) place e k) k e c) }
    ensures weight { IfOk result (λ c. weigh c ≡ 0) }
{
    let condition = condition.clone()?;
    let body = body.clone()?;
    Ok(Control::CompoundStep(CompoundStep::Round(
        place,
        0,
        Loop {
            kind,
            condition,
            body,
        },
    )))
}

/// A compound command.
pub fn act_compound(
    place: Place,
    body: &Compound,
    shell: &mut Interpreter,
) -> Result<Control, NoMemory>
    ensures talk { IfOk result (Goes (compound_in run (tree.compound body.now) place (shell_of shell.old.state) (context shell.old.stack.items)) (context shell.new.stack.items) (shell_of shell.new.state)) }
    ensures weight { IfOk result (λ c. weigh c + weigh_all shell.new.stack.items < weigh_compound body.now + weigh_all shell.old.stack.items) }
{
    match body {
        Compound::Group(list) => {
            let list = list.clone()?;
            Ok(Control::Whole(place, list))
        }
        Compound::Subshell(list) => {
            let control = act_subshell(place, list, shell)?;
            Ok(control)
        }
        Compound::For(name, words, body) => {
            let control = act_for(shell.alloc, place, name, words, body, &mut shell.state)?;
            Ok(control)
        }
        Compound::Case(word, items) => {
            let control = act_case(shell.alloc, place, word, items)?;
            Ok(control)
        }
        Compound::If(branches, otherwise) => {
            let branches = branches.clone()?;
            let otherwise = otherwise.clone()?;
            let left = PendingIf {
                branches,
                at: 0,
                otherwise,
            };
            Ok(Control::CompoundStep(CompoundStep::If(place, left)))
        }
        Compound::Loop(kind, condition, body) => {
            let control = act_loop(place, *kind, condition, body)?;
            Ok(control)
        }
    }
}

/// The branches of an `if` from a place on.
pub fn act_if(place: Place, left: PendingIf, stack: &mut Vec<Frame>) -> Result<Control, NoMemory>
    ensures talk { IfOk result (λ c. (e : Shell) → Goes (if_means (branches_from left.branches.value left.at) (whole left.otherwise.value) place e (context stack.old.items)) (context stack.new.items) e c) }
    ensures weight { IfOk result (λ c. weigh c + weigh_all stack.new.items ≤ 3 * branches_left left.branches.value left.at + 1 + weigh_all stack.old.items) }
{
    let PendingIf {
        branches,
        at,
        otherwise,
    } = left;
    let rest = branches.clone()?;
    match branches.get(at) {
        Some(branch) => {
            let condition = branch.condition.clone()?;
            let body = branch.body.clone()?;
            let next = at + 1;
            let behind = PendingIf {
                branches: rest,
                at: next,
                otherwise,
            };
            put_continuation(stack, Continuation::Choose(place, body, behind))?;
            let inside = Place {
                ignores: true,
                ..place
            };
            Ok(Control::Whole(inside, condition))
        }
        None => Ok(Control::Whole(place, otherwise)),
    }
}

/// A place inside one loop more. They are counted as far as `break` and `continue` count.
pub fn deeper(place: Place) -> Place
    ensures { result ≡ deeper place }
{
    Place {
        loops: place.loops.saturating_add(1),
        ..place
    }
}

/// A round of a loop begins with its condition.
pub fn act_round(
    place: Place,
    last: u8,
    left: Loop,
    stack: &mut Vec<Frame>,
) -> Result<Acted, NoMemory>
    ensures talk { IfOk result (λ t. (e : Shell) → Steps (run (Round last (looping left) (tree.commands left.condition.value) (tree.commands left.body.value)) place e (context stack.old.items)) (context stack.new.items) e t) }
    ensures costly { IfOk result Pays }
{
    let condition = left.condition.clone()?;
    let below = deeper(place);
    put_continuation(stack, Continuation::Condition(place, last, left))?;
    let inside = Place {
        ignores: true,
        ..below
    };
    Ok(paid(Control::Whole(inside, condition)))
}

// The variable of a `for` takes a field. False where it is readonly.
fn give(state: &mut State, name: &[u8], value: &[u8]) -> Result<bool, NoMemory>
    ensures answer { IfOk result (λ done. done ≡ not (is_readonly state.old.env.vars name.now)) }
    ensures state { IfOk result (λ done. shell_of state.new ≡ given_if done name.now value.now (shell_of state.old)) }
{
    match state.env.vars.set(name, value) {
        Ok(()) => Ok(true),
        Err(VarErr::Readonly) => Ok(false),
        Err(VarErr::NoMemory) => Err(NoMemory),
    }
}

/// A `for` goes on with its next field, which it pays for.
pub fn act_each(place: Place, each: Each) -> Acted
    ensures talk { (k : Next) (e : Shell) → Steps (for_each each.name (drop each.at each.fields) (whole each.body.value) place k e) k e result }
    ensures costly { Sinks 1 result }
{
    if each.at < each.fields.len() {
        paid(Control::CompoundStep(CompoundStep::Gives(place, each)))
    } else {
        free(Control::Leave(Flow::Normal))
    }
}

// The body of a `for`, above a frame for the fields from the next one on.
fn enter_body(
    place: Place,
    each: Each,
    next: usize,
    stack: &mut Vec<Frame>,
) -> Result<Control, NoMemory>
    requires { next ≡ each.at + 1 }
    ensures talk { IfOk result (λ c. (e : Shell) → Goes (each_body each place (context stack.old.items) e) (context stack.new.items) e c) }
    ensures weight { IfOk result (λ c. weigh c + weigh_all stack.new.items ≤ 3 + weigh_all stack.old.items) }
{
    let body = each.body.clone()?;
    let below = deeper(place);
    let mut each = each;
    each.at = next;
    put_continuation(stack, Continuation::Each(place, each))?;
    Ok(Control::Whole(below, body))
}

/// The variable of a `for` takes its next field, and the body is evaluated.
pub fn act_gives(place: Place, each: Each, shell: &mut Interpreter) -> Result<Acted, NoMemory>
    ensures talk { IfOk result (Steps (giving each place (context shell.old.stack.items) (shell_of shell.old.state)) (context shell.new.stack.items) (shell_of shell.new.state)) }
    ensures costly { IfOk result (Lowers 4 shell.old.stack.items shell.new.stack.items) }
{
    let fields = each.fields.as_slice();
    match item_at(fields, each.at) {
        None => Ok(free(Control::Leave(Flow::Normal))),
        Some((field, next)) => {
            let name = each.name.as_slice();
            let value = field.as_slice();
            let done = give(&mut shell.state, name, value)?;
            if done {
                let control = enter_body(place, each, next, &mut shell.stack)?;
                return Ok(free(control));
            }
            let acted = refuse(
                shell.alloc,
                name,
                b"readonly",
                Flow::Exits,
                1,
                &mut shell.state,
            )?;
            Ok(acted)
        }
    }
}

/// The next of the patterns of an item, or of the items.
pub fn act_case_at(
    alloc: Global,
    place: Place,
    left: PendingCase,
    state: &mut State,
) -> Result<Acted, NoMemory>
    ensures talk { IfOk result (λ t. (k : Next) → Steps (casing left left.pattern place k (shell_of state.old)) k (shell_of state.new) t) }
    ensures costly { IfOk result (Sinks (weigh_case left)) }
{
    let items = left.items.clone()?;
    match items.get(left.at) {
        None => Ok(end(Flow::Normal, 0, state)),
        Some(item) => match item.patterns.get(left.pattern) {
            None => {
                let mut left = left;
                left.at += 1;
                left.pattern = 0;
                Ok(free(Control::CompoundStep(CompoundStep::Case(place, left))))
            }
            Some(word) => {
                let word = word.clone()?;
                let mut left = left;
                left.pattern += 1;
                let control = begin(alloc, word, Mode::Pattern, place, Aim::Pattern(left))?;
                Ok(free(control))
            }
        },
    }
}

/// The next of the stages of a pipeline. Each but the last is asked a pipe.
pub fn act_stages(
    place: Place,
    list: Rc<CommandList>,
    at: usize,
    input: Option<u64>,
    shell: &mut Interpreter,
) -> Result<Acted, NoMemory>
    ensures talk { IfOk result (Steps (stages_mean input (commands_from list.value at) place (context shell.old.stack.items) (shell_of shell.old.state)) (context shell.new.stack.items) (shell_of shell.new.state)) }
    ensures costly { IfOk result (Lowers 3 shell.old.stack.items shell.new.stack.items) }
{
    match list.get(at) {
        None => Ok(free(Control::Leave(Flow::Normal))),
        Some(_) => {
            let next = at + 1;
            match list.get(next) {
                Some(_) => {
                    let stage = PendingStage {
                        list,
                        at,
                        next,
                        input,
                        read_end: shell.state.env.next,
                    };
                    Ok(Acted {
                        turn: Turn::Ask(Call::Pipe, 1),
                        control: Control::Waits(Wait::Stage(place, stage)),
                    })
                }
                None => {
                    let saved = shell.state.save(shell.alloc)?;
                    put_undo(&mut shell.stack, Undo::Subshell(saved))?;
                    read_from(input, &mut shell.state)?;
                    Ok(free(Control::One(place, list, at)))
                }
            }
        }
    }
}

// A stage reads from this number.
fn read_from(input: Option<u64>, state: &mut State) -> Result<(), NoMemory>
    ensures { OnOk result (shell_of state.new ≡ with_input input (shell_of state.old)) }
{
    match input {
        None => Ok(()),
        Some(n) => state.set_descriptor(0, Some(n)),
    }
}

/// A stage begins, once the pipe between it and the next one was made.
pub fn act_stage(
    place: Place,
    stage: PendingStage,
    shell: &mut Interpreter,
) -> Result<Control, NoMemory>
    ensures talk { IfOk result (Goes (first_of (commands_from stage.list.value stage.at) place (with_slot 1 (Some (number_after stage.read_end)) (with_input stage.input (shell_of shell.old.state))) (λ f e. stages_mean (Some stage.read_end) (commands_from stage.list.value stage.next) place (context shell.old.stack.items) (past_stage (shell_of shell.old.state) e))) (context shell.new.stack.items) (shell_of shell.new.state)) }
    ensures weight { IfOk result (λ c. weigh c + weigh_all shell.new.stack.items ≤ 5 + weigh_all shell.old.stack.items) }
{
    let PendingStage {
        list,
        at,
        next,
        input,
        read_end,
    } = stage;
    let saved = shell.state.save(shell.alloc)?;
    let rest = list.clone()?;
    let write_end = number_after(read_end);
    let status = shell.state.env.status;
    put_continuation(
        &mut shell.stack,
        Continuation::Stage(place, rest, next, read_end, status, saved),
    )?;
    read_from(input, &mut shell.state)?;
    shell.state.set_descriptor(1, Some(write_end))?;
    Ok(Control::One(place, list, at))
}
