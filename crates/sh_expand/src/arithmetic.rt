// Arithmetic expansion.
ghost use Rattle.std.specs.Prelude.{◌≡◌, ◌≤◌, ◌++◌, length, drop, ℕ, IfOk, OnOk};
ghost use Rattle.std.specs.Fmt.{signed_decimal};
ghost use Rattle.std.specs.List.{prefix_len};
ghost use Rattle.sh_split.specs.Marked.{given};
ghost use Rattle.sh_expand.specs.Acting.{left_on};
ghost use Rattle.sh_expand.specs.Arithmetic as lem;
ghost use Rattle.sh_expand.specs.Expands.{Ended, Failed, computed};

use rk_base::{Bytes, NoMemory};
use sh_arith::{ArithErr, Names, SetErr, value};
use sh_split::{Mark, put_given};
use sh_vars::{Env, VarErr, Vars};
use std::alloc::Global;
use std::marker::Model;
use std::mem;

// The variables of a shell, as an expression reads and assigns them.
#[derive(Drop)]
struct Variables {
    alloc: Global,
    vars: Vars,
}

impl Model for Variables {
    ghost use Rattle.sh_vars.specs.Held.{Held, held_code};
    ghost use Rattle.sh_vars.specs.contracts.variable.Variable as it;

    ghost Value = { Held };

    ghost coded = { held_code it.the_row.coded };

    ghost view = { λ v. v.vars };
}

fn decimal_of(alloc: Global, number: i64) -> Result<Bytes, NoMemory>
    ensures { IfOk result (λ text. text ≡ signed_decimal number) }
{
    let text = format!(in alloc; "{number}")?;
    Bytes::from_slice(alloc, text.as_bytes())
}

impl Names for Variables {
    ghost known = { lem.variables_in };

    fn get(&self, name: &[u8]) -> Option<&[u8]> {
        self.vars.get(name)
    }

    fn set(&mut self, name: &[u8], value: i64) -> Result<(), SetErr> {
        if self.vars.is_readonly(name) {
            return Err(SetErr::Readonly);
        }
        let Ok(text) = decimal_of(self.alloc, value) else {
            return Err(SetErr::NoMemory);
        };
        match self.vars.set(name, text.as_slice()) {
            Ok(()) => Ok(()),
            Err(VarErr::Readonly) => unreachable!(),
            Err(VarErr::NoMemory) => Err(SetErr::NoMemory),
        }
    }
}

fn is_blank(b: u8) -> bool
    ensures { result ≡ lem.is_blank b }
{
    b == b' ' || b == b'\t'
}

// How many blanks stand first.
fn first_blanks(text: &[u8]) -> usize
    ensures value { result ≡ prefix_len lem.is_blank text.now }
    ensures within { result ≤ length text.now }
{
    let mut n = 0;
    'bytes: for b in text {
        if !is_blank(*b) {
            return n;
        }
        n += 1;
    }
    n
}

fn without_first_blanks(text: &[u8]) -> &[u8]
    ensures { result.now ≡ lem.without_first_blanks text.now }
{
    text.split_at(first_blanks(text)).1
}

fn without_last_blanks(text: &[u8]) -> &[u8]
    ensures { result.now ≡ lem.without_last_blanks text.now }
{
    let mut left = text;
    'blanks: while let Some((last, front)) = left.split_last() {
        if !is_blank(*last) {
            return left;
        }
        left = front;
    }
    left
}

// An expression without the blanks at its ends, and what is told of it.
fn of_expression(alloc: Global, text: &[u8], words: &[u8]) -> Result<(Bytes, Bytes), NoMemory>
    ensures { IfOk result (λ t. t ≡ (lem.trimmed text.now, words.now)) }
{
    let trimmed = without_last_blanks(without_first_blanks(text));
    let expression = Bytes::from_slice(alloc, trimmed)?;
    let words = Bytes::from_slice(alloc, words)?;
    Ok((expression, words))
}

// A name, and what is told of it.
fn of_name(alloc: Global, name: Bytes, words: &[u8]) -> Result<(Bytes, Bytes), NoMemory>
    ensures { IfOk result (λ t. t ≡ (name, words.now)) }
{
    let words = Bytes::from_slice(alloc, words)?;
    Ok((name, words))
}

// What is told of a fault.
fn told(alloc: Global, text: &[u8], fault: ArithErr) -> Result<(Bytes, Bytes), NoMemory>
    ensures is { IfOk result (λ t. t ≡ (lem.told_of text.now fault, lem.words_of fault)) }
    ensures told { IfOk result (λ _. lem.IsTold fault) }
{
    match fault {
        ArithErr::Syntax(_) => of_expression(alloc, text, b"not an expression"),
        ArithErr::Overflow => of_expression(alloc, text, b"overflow"),
        ArithErr::ZeroDivisor => of_expression(alloc, text, b"zero divisor"),
        ArithErr::Name(name) => of_name(alloc, name, b"not a number"),
        ArithErr::Unset(name) => of_name(alloc, name, b"not set"),
        ArithErr::Readonly(name) => of_name(alloc, name, b"readonly"),
        ArithErr::NoMemory => Err(NoMemory),
    }
}

fn put_number(quoted: bool, number: i64, marks: &mut Vec<Mark>) -> Result<(), NoMemory>
    ensures { OnOk result (marks.new.items ≡ marks.old.items ++ given quoted (signed_decimal number)) }
{
    let alloc = *marks.allocator();
    let text = decimal_of(alloc, number)?;
    put_given(quoted, text.as_slice(), marks)
}

/// The value of the expression that a text is, after these marks; a fault, where it has none.
pub(crate) fn compute(
    alloc: Global,
    quoted: bool,
    text: &[u8],
    marks: &mut Vec<Mark>,
    env: &mut Env,
) -> Result<Option<(Bytes, Bytes)>, NoMemory>
    ensures { IfOk result (λ r. (k : Ended) (fail : Failed) (p : ℕ) → computed quoted text.now marks.old.items k fail env.old p ≡ left_on r marks.new.items k fail env.new p) }
{
    let vars = mem::replace(&mut env.vars, Vars::new(alloc));
    let mut variables = Variables { alloc, vars };
    let worth = value(alloc, text, env.nounset, &mut variables);
    let Variables { alloc: _, vars } = variables;
    env.vars = vars;
    match worth {
        Ok(number) => {
            put_number(quoted, number, marks)?;
            Ok(None)
        }
        Err(fault) => {
            let fault = told(alloc, text, fault)?;
            Ok(Some(fault))
        }
    }
}
