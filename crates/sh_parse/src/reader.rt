// Texts as scripts, and their faults in words (XCU 2.10).
ghost use Rattle.std.specs.Prelude.{◌≡◌, ◌++◌, ◌+◌, ◌^◌, ◌<◌, ◌≤◌, ◌==◌, if◌then◌else◌, length, take, IfOk, OnOk};
ghost use Rattle.sh_script.specs.Reads.{newlines, line_of, why_words, fault_words};
ghost use Rattle.sh_script.specs.Reads.{reads};
ghost use Rattle.sh_parse.specs.Readings.{reading_of};

use crate::script::{ReadErr, read_script};
use rk_base::{Bytes, NoMemory};
use sh_ast::CommandList;
use sh_lex::{ScriptFault, Why};
use std::alloc::Global;
use std::rc::Rc;

/// What a text reads as: commands, or the words that tell its fault.
#[derive(Drop)]
pub enum Read {
    Script(Rc<CommandList>),
    Fault(Bytes),
}

// One byte more was seen.
fn counted(n: usize, b: u8) -> usize
    requires { n < 2 ^ 63 }
    ensures { result ≡ (if b == 10 then n + 1 else n) }
{
    if b == b'\n' { n + 1 } else { n }
}

// How many newlines there are: no more than bytes.
fn newlines(text: &[u8]) -> usize
    ensures counted { result ≡ newlines text.now }
    ensures within { result ≤ length text.now }
{
    let mut n: usize = 0;
    'text: for b in text {
        n = counted(n, *b);
    }
    n
}

// The bytes before a place.
fn before(text: &[u8], at: usize) -> &[u8]
    ensures { result.now ≡ take at text.now }
{
    if at < text.len() {
        text.split_at(at).0
    } else {
        text
    }
}

// The line that a place is in, from 1.
fn line_of(text: &[u8], at: usize) -> usize
    ensures { result ≡ line_of text.now at }
{
    newlines(before(text, at)) + 1
}

fn push_why(words: &mut Vec<u8>, why: &Why) -> Result<(), NoMemory>
    ensures { OnOk result (words.new.items ≡ words.old.items ++ why_words why.now) }
{
    match why {
        Why::NotInProfile(token) => {
            words.extend_from_slice(token.as_slice())?;
            words.extend_from_slice(b" is not in this profile")?;
        }
        Why::Syntax => words.extend_from_slice(b"syntax error")?,
        Why::Unclosed => words.extend_from_slice(b"unclosed")?,
        Why::Deep => words.extend_from_slice(b"too deep")?,
        Why::Long => words.extend_from_slice(b"too long")?,
    }
    Ok(())
}

// `line N: WHY`
fn words_of(alloc: Global, text: &[u8], fault: &ScriptFault) -> Result<Bytes, NoMemory>
    ensures { IfOk result (λ words. words ≡ fault_words text.now fault.now) }
{
    let line = line_of(text, fault.at);
    let digits = format!(in alloc; "{line}")?;
    let mut words = Vec::from_slice(alloc, b"line ")?;
    words.extend_from_slice(digits.as_bytes())?;
    words.extend_from_slice(b": ")?;
    push_why(&mut words, &fault.why)?;
    Bytes::new(alloc, words)
}

/// The commands of a text, or the words of its fault.
pub fn read_text(alloc: Global, text: &[u8]) -> Result<Read, NoMemory>
    ensures { IfOk result (λ r. reading_of r ≡ reads text.now) }
{
    match read_script(alloc, text) {
        Ok(script) => Ok(Read::Script(script.commands)),
        Err(ReadErr::NoMemory) => Err(NoMemory),
        Err(ReadErr::Fault(fault)) => {
            let words = words_of(alloc, text, &fault)?;
            Ok(Read::Fault(words))
        }
    }
}
