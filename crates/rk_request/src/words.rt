// The request that words are.
ghost use Rattle.std.specs.Prelude.{◌≡◌, ◌↔◌, ◌≢◌, ◌<◌, [], map, string_bytes, IfErr, IfOk, OnOk, IsTrue, codes, option_and_then, option_map};
ghost use Rattle.clap.specs.Words.{kind_of, fault_of, subcommand_of, subcommand_rows_of, first_of, rows_of, found_of};
ghost use Rattle.rk_request.specs.declared.requests.RequestErr.TheVariants.{Usage};
ghost use Rattle.rk_request.specs.CommandLine.{command_line};
ghost use Rattle.rk_request.specs.Asked.{build_request, gen_request, is_given, request_by, request_of, steps_of, turns, IfBuild};
ghost use Rattle.rk_request.specs.Forms.{ReadsForms};

use crate::command_line::command_line;
use crate::decimal::number;
use crate::requests::{Request, RequestErr};
use clap::error::ErrorKind;
use clap::{ArgMatches, Error};
use std::alloc::Global;

/// The budget of turns where the words name none.
pub const DEFAULT_STEPS: u64 = 1_000_000;

fn text_of<'a>(matches: &ArgMatches<'a>, id: &str) -> Option<&'a str>
    ensures { option_map (λ s. s.now) result ≡ first_of id.now (rows_of (found_of matches.now)) }
{
    matches.get_str(id)
}

fn steps(matches: &ArgMatches<'_>) -> Option<u64>
    ensures { result ≡ steps_of (first_of (codes "steps") (rows_of (found_of matches.now))) }
{
    match text_of(matches, "steps") {
        None => Some(DEFAULT_STEPS),
        Some(text) => number(13, 1, 1_000_000_000_000, text),
    }
}

// Whether a flag was given.
fn is_set(matches: &ArgMatches<'_>, id: &str) -> bool
    ensures { result ≡ is_given id.now (rows_of (found_of matches.now)) }
{
    match text_of(matches, id) {
        None => false,
        Some(text) => text == "true",
    }
}

fn build_request(matches: &ArgMatches<'_>) -> Option<Request>
    ensures { result ≡ build_request (rows_of (found_of matches.now)) }
{
    let steps = steps(matches)?;
    Some(Request::Build {
        steps,
        explain: is_set(matches, "explain"),
        fresh: is_set(matches, "fresh"),
        check: is_set(matches, "check"),
    })
}

fn gen_request(matches: &ArgMatches<'_>) -> Option<Request>
    ensures { result ≡ gen_request (rows_of (found_of matches.now)) }
{
    let text = text_of(matches, "seed")?;
    let seed = number(20, 0, u64::MAX, text)?;
    Some(Request::Gen(seed))
}

fn request_by(name: &str, matches: &ArgMatches<'_>) -> Option<Request>
    ensures { result ≡ request_by name.now (rows_of (found_of matches.now)) }
{
    if name == "build" {
        build_request(matches)
    } else if name == "check" {
        Some(Request::Check)
    } else if name == "trace" {
        Some(Request::Trace {
            json: is_set(matches, "json"),
        })
    } else if name == "forget" {
        Some(Request::Forget)
    } else if name == "gen" {
        gen_request(matches)
    } else {
        None
    }
}

fn is_memory(e: &Error) -> bool
    ensures { IsTrue result ↔ (kind_of e.now ≡ ErrorKind.OutOfMemory) }
{
    e.kind() == ErrorKind::OutOfMemory
}

// What the words name, where the command line takes them.
fn matches_of<'a>(alloc: Global, words: &'a [String]) -> Result<ArgMatches<'a>, RequestErr>
    ensures taken { OnOk result (fault_of command_line (map string_bytes words.now) ≡ []) }
    ensures named { IfOk result
        (λ m. subcommand_rows_of m ≡ subcommand_of command_line (map string_bytes words.now)) }
    ensures usage { IfErr result
        (λ e. e ≡ Usage → fault_of command_line (map string_bytes words.now) ≢ []) }
{
    let command = command_line(alloc)?;
    match command.try_get_matches_from(words) {
        Ok(matches) => Ok(matches),
        Err(e) if is_memory(&e) => Err(RequestErr::NoMemory),
        Err(_) => Err(RequestErr::Usage),
    }
}

fn read_request(matches: &ArgMatches<'_>) -> Option<Request>
    ensures { result ≡ option_and_then (λ p. request_by p.0 p.1) (subcommand_rows_of matches.now) }
{
    match matches.subcommand() {
        None => None,
        Some((name, inner)) => request_by(name, inner),
    }
}

/// The request that the words are, of which the first is the program's name.
///
/// `NoMemory`: there was no memory to read them. Else `Usage` comes exactly where they are none.
#[tactic(auto, unfolding(crate::specs::Asked::request_of))]
pub fn request(alloc: Global, words: &[String]) -> Result<Request, RequestErr>
    ensures asked { IfOk result (λ r. request_of (map string_bytes words.now) ≡ Some r) }
    ensures usage { IfErr result (λ e. e ≡ Usage → request_of (map string_bytes words.now) ≡ None) }
    ensures some { IfOk result (λ r. IfBuild r (0 < turns r)) }
    ensures forms { ReadsForms (map string_bytes words.now) result }
{
    match matches_of(alloc, words) {
        Ok(matches) => read_request(&matches).ok_or(RequestErr::Usage),
        Err(RequestErr::Usage) => Err(RequestErr::Usage),
        Err(RequestErr::NoMemory) => Err(RequestErr::NoMemory),
    }
}
