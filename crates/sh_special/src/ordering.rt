// What the words of a special builtin order.
ghost use Rattle.std.specs.Prelude.{◌≡◌, IfOk, option_copied};
ghost use Rattle.sh_special.specs.declared.name.Name.TheVariants as builtin;
ghost use Rattle.sh_operands.specs.Words.{first_that};
ghost use Rattle.sh_special.specs.Orders.{from_one, status_in, no_second, breaks, continues, exits, returns, shifts, declares_none, declares, unsets, dots, execs, orders, order_in, order_of};

use crate::declaration::{declarations, declares_none};
use crate::name::{Name, name_of};
use crate::options::sets;
use crate::order::Order;
use crate::texts::{misuse, no_use};
use rk_base::{Bytes, NoMemory, WordList};
use sh_operands::{copies, count_of, first_misnamed, joined};
use std::alloc::Global;

fn from_one(number: Option<u64>) -> Option<u64>
    ensures { result ≡ from_one number }
{
    match number {
        None => None,
        Some(n) => { if n == 0 { None } else { Some(n) } }
    }
}

fn status_in(number: Option<u64>) -> Option<u8>
    ensures { result ≡ status_in number }
{
    match number {
        None => None,
        Some(n) => { if n <= 255 { Some(n as u8) } else { None } }
    }
}

// The operand behind the first, where there is one, or else the order.
fn no_second(alloc: Global, name: &[u8], words: &[Bytes], order: Order) -> Result<Order, NoMemory>
    ensures { IfOk result (λ o. o ≡ no_second name.now words.now order) }
{
    match words {
        [] => Ok(order),
        [next, ..] => misuse(alloc, name, next.as_slice()),
    }
}

fn breaks(alloc: Global, words: &[Bytes]) -> Result<Order, NoMemory>
    ensures { IfOk result (λ o. o ≡ breaks words.now) }
{
    match words {
        [] => Ok(Order::Break(1)),
        [word, words @ ..] => match from_one(count_of(word.as_slice())) {
            None => misuse(alloc, b"break", word.as_slice()),
            Some(n) => no_second(alloc, b"break", words, Order::Break(n)),
        },
    }
}

fn continues(alloc: Global, words: &[Bytes]) -> Result<Order, NoMemory>
    ensures { IfOk result (λ o. o ≡ continues words.now) }
{
    match words {
        [] => Ok(Order::Continue(1)),
        [word, words @ ..] => match from_one(count_of(word.as_slice())) {
            None => misuse(alloc, b"continue", word.as_slice()),
            Some(n) => no_second(alloc, b"continue", words, Order::Continue(n)),
        },
    }
}

fn exits(alloc: Global, words: &[Bytes]) -> Result<Order, NoMemory>
    ensures { IfOk result (λ o. o ≡ exits words.now) }
{
    match words {
        [] => Ok(Order::Exit(None)),
        [word, words @ ..] => match status_in(count_of(word.as_slice())) {
            None => misuse(alloc, b"exit", word.as_slice()),
            Some(n) => no_second(alloc, b"exit", words, Order::Exit(Some(n))),
        },
    }
}

fn returns(alloc: Global, words: &[Bytes]) -> Result<Order, NoMemory>
    ensures { IfOk result (λ o. o ≡ returns words.now) }
{
    match words {
        [] => Ok(Order::Return(None)),
        [word, words @ ..] => match status_in(count_of(word.as_slice())) {
            None => misuse(alloc, b"return", word.as_slice()),
            Some(n) => no_second(alloc, b"return", words, Order::Return(Some(n))),
        },
    }
}

fn shifts(alloc: Global, words: &[Bytes]) -> Result<Order, NoMemory>
    ensures { IfOk result (λ o. o ≡ shifts words.now) }
{
    match words {
        [] => Ok(Order::Shift(1)),
        [word, words @ ..] => match count_of(word.as_slice()) {
            None => misuse(alloc, b"shift", word.as_slice()),
            Some(n) => no_second(alloc, b"shift", words, Order::Shift(n)),
        },
    }
}

fn first_undeclared(words: &[Bytes]) -> Option<&Bytes>
    ensures { option_copied result ≡ first_that declares_none words.now }
{
    'words: for word in words {
        if declares_none(word.as_slice()) {
            return Some(word);
        }
    }
    None
}

fn declares(alloc: Global, name: &[u8], readonly: bool, words: &[Bytes]) -> Result<Order, NoMemory>
    ensures { IfOk result (λ o. o ≡ declares name.now readonly words.now) }
{
    match words {
        [] => no_use(alloc, name),
        [_, ..] => match first_undeclared(words) {
            Some(word) => misuse(alloc, name, word.as_slice()),
            None => {
                let declarations = declarations(alloc, words)?;
                Ok(Order::Declare(readonly, declarations))
            }
        },
    }
}

fn unsets(alloc: Global, words: &[Bytes]) -> Result<Order, NoMemory>
    ensures { IfOk result (λ o. o ≡ unsets words.now) }
{
    match first_misnamed(words) {
        Some(word) => misuse(alloc, b"unset", word.as_slice()),
        None => {
            let words = copies(alloc, words)?;
            Ok(Order::Unset(words))
        }
    }
}

fn dots(alloc: Global, words: &[Bytes]) -> Result<Order, NoMemory>
    ensures { IfOk result (λ o. o ≡ dots words.now) }
{
    match words {
        [] => no_use(alloc, b"."),
        [file] => {
            let file = file.copy()?;
            Ok(Order::Dot(file))
        }
        [_, _, ..] => no_use(alloc, b"."),
    }
}

fn evals(alloc: Global, words: &[Bytes]) -> Result<Order, NoMemory>
    ensures { IfOk result (λ o. o ≡ orders builtin.Eval words.now) }
{
    let text = joined(alloc, words)?;
    let text = Bytes::new(alloc, text)?;
    Ok(Order::Eval(text))
}

fn execs(alloc: Global, words: &[Bytes]) -> Result<Order, NoMemory>
    ensures { IfOk result (λ o. o ≡ execs words.now) }
{
    match words {
        [] => Ok(Order::Keep),
        [_, ..] => {
            let words = copies(alloc, words)?;
            Ok(Order::Exec(words))
        }
    }
}

fn orders(alloc: Global, name: Name, words: &[Bytes]) -> Result<Order, NoMemory>
    ensures { IfOk result (λ o. o ≡ orders name words.now) }
{
    match name {
        Name::Colon => Ok(Order::Pass),
        Name::Dot => dots(alloc, words),
        Name::Break => breaks(alloc, words),
        Name::Continue => continues(alloc, words),
        Name::Eval => evals(alloc, words),
        Name::Exec => execs(alloc, words),
        Name::Exit => exits(alloc, words),
        Name::Export => declares(alloc, b"export", false, words),
        Name::Readonly => declares(alloc, b"readonly", true, words),
        Name::Return => returns(alloc, words),
        Name::Set => sets(alloc, words),
        Name::Shift => shifts(alloc, words),
        Name::Unset => unsets(alloc, words),
    }
}

fn order_in(alloc: Global, name: Option<Name>, words: &[Bytes]) -> Result<Option<Order>, NoMemory>
    ensures { IfOk result (λ o. o ≡ order_in name words.now) }
{
    match name {
        None => Ok(None),
        Some(name) => {
            let order = orders(alloc, name, words)?;
            Ok(Some(order))
        }
    }
}

/// What the fields of a command order, where the first is the name of a special builtin; `None` exactly where it isn't.
pub fn order_of(alloc: Global, fields: &WordList) -> Result<Option<Order>, NoMemory>
    ensures { IfOk result (λ o. o ≡ order_of fields.now) }
{
    match fields.as_slice() {
        [] => Ok(None),
        [name, words @ ..] => order_in(alloc, name_of(name.as_slice()), words),
    }
}
