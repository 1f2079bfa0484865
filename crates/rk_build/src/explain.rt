// The error text, and the lines of what ran and why.
ghost use Rattle.std.specs.Prelude.{◌≡◌, ◌++◌, IfOk, OnOk, length};
ghost use Rattle.std.specs.List.{flat_map};
ghost use Rattle.rk_build.specs.Explained.{explained, explanation, line_of_ran, why_of};

use crate::options::explains;
use crate::work::Finished;
use rk_base::{Bytes, NoMemory};
use rk_replay::{Cause, Ran, RanList};
use rk_request::Request;
use rk_show::{Why, add_launched, add_ran};
use std::alloc::Global;

fn why_of(cause: &Cause) -> Why
    ensures { result ≡ why_of cause.now }
{
    match cause {
        Cause::NoRecord => Why::NoRecord,
        Cause::Differs { step, .. } => Why::Differs { step: *step },
    }
}

fn add_line(text: &mut Vec<u8>, ran: &Ran) -> Result<(), NoMemory>
    ensures { OnOk result (text.new.items ≡ text.old.items ++ line_of_ran ran.now) }
{
    add_ran(text, &ran.key, ran.ordinal, why_of(&ran.cause))
}

fn add_lines(text: &mut Vec<u8>, ran: &[Ran]) -> Result<(), NoMemory>
    ensures { OnOk result (text.new.items ≡ text.old.items ++ flat_map line_of_ran ran.now) }
{
    for it in ran {
        add_line(text, it)?;
    }
    Ok(())
}

// The lines of what ran, and why, after a text.
fn add_explained(text: &mut Vec<u8>, ran: &RanList, launched: u64) -> Result<(), NoMemory>
    ensures { OnOk result (text.new.items ≡ text.old.items ++ explained ran.now launched) }
{
    add_lines(text, ran.as_slice())?;
    add_launched(text, launched, ran.len() as u64)
}

// The lines of what ran, and why, after a text, where they are asked for.
fn add_explanation(
    text: &mut Vec<u8>,
    request: &Request,
    ran: &RanList,
    launched: u64,
) -> Result<(), NoMemory>
    ensures { OnOk result (text.new.items ≡ text.old.items ++ explanation request.now ran.now launched) }
{
    if !explains(request) {
        return Ok(());
    }
    add_explained(text, ran, launched)
}

/// The run's error text and then, where they are asked for, the lines of what ran and why.
pub(crate) fn error_text(
    alloc: Global,
    request: &Request,
    finished: &Finished,
) -> Result<Bytes, NoMemory>
    ensures { IfOk result (λ text. text ≡ finished.now.world.err ++ explanation request.now finished.now.built.ran (length finished.now.built.table)) }
{
    let mut text = Vec::from_slice(alloc, finished.world.err())?;
    let launched = finished.built.table.len() as u64;
    add_explanation(&mut text, request, &finished.built.ran, launched)?;
    Bytes::new(alloc, text)
}
