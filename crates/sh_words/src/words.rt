// Expansion of words, and what it is for.
ghost use Rattle.std.specs.Prelude.{◌≡◌, ◌≤◌, ℕ, ◌+◌, ◌++◌, ◌∷◌, [], IfOk, OnOk, not};
ghost use Rattle.rk_calls.specs.Talk.{pay};
ghost use Rattle.rk_calls.specs.Turns.{turns};
ghost use Rattle.sh_vars.specs.Held.{is_readonly};
ghost use Rattle.sh_expand.specs.declared.mode.Expanded.TheVariants.{Value};
ghost use Rattle.sh_means.specs.declared.control.Aim.TheVariants as aims;
ghost use Rattle.sh_means.specs.declared.control.Then.TheVariants as thens;
ghost use Rattle.sh_means.specs.Flows.{Next};
ghost use Rattle.sh_means.specs.Stack.{Steps, Goes, aimed, context, fielding, making, then_means};
ghost use Rattle.sh_means.specs.declared.flow.Place.{Place as Places};
ghost use Rattle.sh_means.specs.State.{Shell};
ghost use Rattle.sh_means.specs.Trees.{set_if};
ghost use Rattle.sh_means.specs.Views.{shell_of};
ghost use Rattle.sh_means.specs.Weights.{Lowers, Sinks, items_left, weigh, weigh_aim, weigh_assignments, weigh_case, weigh_command, weigh_fields, weigh_redirects, weigh_then};
ghost use Rattle.sh_means.specs.Words.{fields_of, value_of};

use crate::kinds::kind_of;
use crate::literal::field;
use crate::making::{next_redirect, redirect};
use rk_base::{Bytes, NoMemory, WordList};
use rk_calls::{Answer, Turn, turns};
use sh_ast::{CaseItems, SimpleCommand};
use sh_expand::{Expanded, Mode};
use sh_means::control::{
    Acted, Aim, CompoundStep, Control, Made, PendingCase, PendingFields, PendingRedirects,
    PendingValue, PendingWord, Then, WordStep,
};
use sh_means::expanding::act_expand;
use sh_means::expansion::{over_fields, pending};
use sh_means::flow::{Flow, Place};
use sh_means::interpreter::Interpreter;
use sh_means::resolved_command::ResolvedCommand;
use sh_means::state::State;
use sh_means::steps::{free, refuse};
use sh_pattern::matches;
use sh_vars::{VarErr, Vars};
use std::alloc::Global;
use std::rc::Rc;

// The redirections of a simple command, whose words gave these fields, are made first.
fn made_first(
    command: Rc<SimpleCommand>,
    fields: WordList,
    shell: &Interpreter,
) -> Result<PendingRedirects, NoMemory>
    ensures talk { IfOk result (λ m. (place : Places) (k : Next) (p : ℕ) → then_means (thens.Simple command) place k fields (shell_of shell.now.state) p ≡ making m place k (shell_of shell.now.state) p) }
    ensures weight { IfOk result (λ m. weigh_redirects m ≡ weigh_command command.value) }
{
    let kind = kind_of(shell.alloc, &fields, &shell.state.functions)?;
    let redirects = command.redirects.clone()?;
    let assignments = command.assignments.clone()?;
    let before = shell.state.descriptors.clone()?;
    let resolved = ResolvedCommand { kind, fields };
    let boxed = Box::new(shell.alloc, resolved)?;
    Ok(PendingRedirects {
        redirects,
        at: 0,
        before,
        made: Made::Simple(assignments, boxed),
    })
}

// What is done once words have given their fields.
fn then(
    place: Place,
    then: Then,
    fields: WordList,
    shell: &mut Interpreter,
) -> Result<Acted, NoMemory>
    ensures talk { IfOk result (Steps (then_means then place (context shell.old.stack.items) fields (shell_of shell.old.state)) (context shell.new.stack.items) (shell_of shell.new.state)) }
    ensures costly { IfOk result (Lowers (weigh_then then) shell.old.stack.items shell.new.stack.items) }
{
    match then {
        Then::Simple(command) => {
            let left = made_first(command, fields, shell)?;
            next_redirect(place, left, shell)
        }
        Then::For(name, body) => Ok(free(over_fields(place, name, fields, body, &mut shell.state))),
    }
}

// A word that is one field of this text is one field more.
fn push_field(place: Place, left: PendingFields, text: &Bytes) -> Result<Acted, NoMemory>
    ensures talk { IfOk result (λ t. (k : Next) (e : Shell) → Steps (pay (turns text.now) (fielding (record left { fields = left.fields ++ text.now ∷ [] }) place k e)) k e t) }
    ensures costly { IfOk result (Sinks (weigh_fields left + 1)) }
{
    let mut left = left;
    let cost = turns(text.as_slice());
    left.fields.push(text.copy()?)?;
    Ok(Acted {
        turn: Turn::More(cost),
        control: Control::WordStep(WordStep::Words(place, left)),
    })
}

/// The next of the words. Where it is one field whatever the state is, no expansion begins.
pub fn next_word(
    place: Place,
    left: PendingFields,
    shell: &mut Interpreter,
) -> Result<Acted, NoMemory>
    ensures talk { IfOk result (Steps (fielding left place (context shell.old.stack.items) (shell_of shell.old.state)) (context shell.new.stack.items) (shell_of shell.new.state)) }
    ensures costly { IfOk result (Lowers (weigh_fields left) shell.old.stack.items shell.new.stack.items) }
{
    let words = left.words.clone()?;
    match words.get(left.at) {
        Some(word) => {
            let mut left = left;
            left.at += 1;
            if let Some(text) = field(word) {
                return push_field(place, left, text);
            }
            let word = word.clone()?;
            let aim = Aim::Fields(left);
            let wording = pending(shell.alloc, word, Mode::Fields, place, aim)?;
            act_expand(wording, Answer::Go, shell)
        }
        None => {
            let PendingFields {
                words: _,
                at: _,
                fields,
                then: aim,
            } = left;
            then(place, aim, fields, shell)
        }
    }
}

// The fields that a word gave.
fn fields_of(alloc: Global, expanded: Expanded) -> Result<WordList, NoMemory>
    ensures { IfOk result (λ ws. ws ≡ fields_of expanded) }
{
    match expanded {
        Expanded::Fields(fields) => Ok(fields),
        Expanded::Value(value) => {
            let mut words = Vec::new(alloc);
            words.push(value)?;
            Ok(WordList::new(words))
        }
    }
}

// The value that a word gave.
fn value_of(alloc: Global, expanded: Expanded) -> Result<Bytes, NoMemory>
    ensures { IfOk result (λ v. v ≡ value_of expanded) }
{
    match expanded {
        Expanded::Fields(_) => Bytes::from_slice(alloc, b""),
        Expanded::Value(value) => Ok(value),
    }
}

// Words more, at the end.
fn push_all(fields: &mut WordList, more: &[Bytes]) -> Result<(), NoMemory>
    ensures { OnOk result (fields.new ≡ fields.old ++ more.now) }
{
    'more: for word in more {
        let word = word.copy()?;
        fields.push(word)?;
    }
    Ok(())
}

// One of several words gave these fields.
fn take_fields(
    alloc: Global,
    left: PendingFields,
    expanded: Expanded,
) -> Result<PendingFields, NoMemory>
    ensures talk { IfOk result (λ more. (place : Places) (k : Next) (e : Shell) (p : ℕ) → aimed (aims.Fields left) place k expanded e p ≡ fielding more place k e p) }
    ensures weight { IfOk result (λ more. weigh_fields more ≡ weigh_fields left) }
{
    let more = fields_of(alloc, expanded)?;
    let PendingFields {
        words,
        at,
        fields,
        then,
    } = left;
    let mut fields = fields;
    push_all(&mut fields, more.as_slice())?;
    Ok(PendingFields {
        words,
        at,
        fields,
        then,
    })
}

fn set(vars: &mut Vars, exported: bool, name: &[u8], value: &[u8]) -> Result<bool, NoMemory>
    ensures answer { IfOk result (λ done. done ≡ not (is_readonly vars.old name.now)) }
    ensures vars { IfOk result (λ done. vars.new ≡ set_if done exported name.now value.now vars.old) }
{
    match vars.set(name, value) {
        Ok(()) => {
            if exported {
                vars.export(name)?;
            }
            Ok(true)
        }
        Err(VarErr::Readonly) => Ok(false),
        Err(VarErr::NoMemory) => Err(NoMemory),
    }
}

// The value of an assignment was expanded.
fn assign(
    alloc: Global,
    place: Place,
    left: PendingValue,
    value: &Bytes,
    state: &mut State,
) -> Result<Acted, NoMemory>
    ensures talk { IfOk result (λ t. (k : Next) → Steps (aimed (aims.Value left) place k (Value value.now) (shell_of state.old)) k (shell_of state.new) t) }
    ensures costly { IfOk result (Sinks (weigh_assignments left.left + 1)) }
{
    let PendingValue { left, name } = left;
    if !set(
        &mut state.env.vars,
        left.exported,
        name.as_slice(),
        value.as_slice(),
    )? {
        let acted = refuse(alloc, name.as_slice(), b"readonly", Flow::Exits, 1, state)?;
        return Ok(acted);
    }
    Ok(free(Control::WordStep(WordStep::Assign(place, left))))
}

// The word of a `case` was expanded.
fn look(place: Place, items: Rc<CaseItems>, value: Bytes) -> Control
    ensures talk { (k : Next) (e : Shell) → Goes (aimed (aims.Subject items) place k (Value value) e) k e result }
    ensures weight { weigh result ≡ items_left items.value 0 0 + 2 }
{
    Control::CompoundStep(CompoundStep::Case(
        place,
        PendingCase {
            items,
            at: 0,
            pattern: 0,
            value,
        },
    ))
}

// A pattern was expanded, behind which the next one is at the place of the `case`.
fn match_pattern(place: Place, casing: PendingCase, pattern: &Bytes) -> Result<Control, NoMemory>
    ensures talk { IfOk result (λ c. (k : Next) (e : Shell) → Goes (aimed (aims.Pattern casing) place k (Value pattern.now) e) k e c) }
    ensures weight { IfOk result (λ c. weigh c ≤ weigh_case casing) }
{
    if matches(pattern.as_slice(), casing.value.as_slice()) {
        let items = casing.items.clone()?;
        match items.get(casing.at) {
            Some(item) => {
                let body = item.body.clone()?;
                return Ok(Control::Whole(place, body));
            }
            None => return Ok(Control::Leave(Flow::Normal)),
        }
    }
    Ok(Control::CompoundStep(CompoundStep::Case(place, casing)))
}

// What a word gave is used for its aim.
fn deliver_to(
    place: Place,
    aim: Aim,
    expanded: Expanded,
    shell: &mut Interpreter,
) -> Result<Acted, NoMemory>
    ensures talk { IfOk result (Steps (aimed aim place (context shell.old.stack.items) expanded (shell_of shell.old.state)) (context shell.new.stack.items) (shell_of shell.new.state)) }
    ensures costly { IfOk result (Lowers (weigh_aim aim) shell.old.stack.items shell.new.stack.items) }
{
    match aim {
        Aim::Fields(left) => {
            let left = take_fields(shell.alloc, left, expanded)?;
            next_word(place, left, shell)
        }
        Aim::Operand(operand) => {
            let text = value_of(shell.alloc, expanded)?;
            let control = redirect(shell.alloc, place, operand, text)?;
            Ok(free(control))
        }
        Aim::Value(left) => {
            let value = value_of(shell.alloc, expanded)?;
            let acted = assign(shell.alloc, place, left, &value, &mut shell.state)?;
            Ok(acted)
        }
        Aim::Subject(items) => {
            let value = value_of(shell.alloc, expanded)?;
            Ok(free(look(place, items, value)))
        }
        Aim::Pattern(casing) => {
            let pattern = value_of(shell.alloc, expanded)?;
            let control = match_pattern(place, casing, &pattern)?;
            Ok(free(control))
        }
    }
}

/// What a word gave is used as it was meant.
pub fn deliver(
    wording: Box<PendingWord>,
    expanded: Expanded,
    shell: &mut Interpreter,
) -> Result<Acted, NoMemory>
    ensures talk { IfOk result (Steps (aimed wording.value.aim wording.value.place (context shell.old.stack.items) expanded (shell_of shell.old.state)) (context shell.new.stack.items) (shell_of shell.new.state)) }
    ensures costly { IfOk result (Lowers (weigh_aim wording.value.aim) shell.old.stack.items shell.new.stack.items) }
{
    let expanded_word = Box::into_inner(wording);
    let PendingWord {
        expander: _,
        word: _,
        place,
        aim,
    } = expanded_word;
    let acted = deliver_to(place, aim, expanded, shell)?;
    Ok(acted)
}
