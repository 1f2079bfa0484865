// Steps of the tokens of a text, one after another.
use rk_base::NoMemory;
use rk_steps::{Subject, number, plain, shown, text, word};
use sh_lex::{LexErr, Lexer, ScriptFault, Token, Why};
use std::alloc::Global;

/// The text, and the byte at which its lexer stands.
#[derive(Drop)]
pub(crate) struct Tokens {
    alloc: Global,
    text: Vec<u8>,
    at: usize,
}

fn at_shown(alloc: Global, at: usize) -> Result<String, NoMemory> {
    let text = format!(in alloc; "at {at}")?;
    Ok(text)
}

fn token_shown(alloc: Global, token: &Token) -> Result<String, NoMemory> {
    let bytes = shown(alloc, token.text)?;
    let text = format!(in alloc; "{} {}", token.at, bytes.as_str())?;
    Ok(text)
}

fn why_shown(alloc: Global, why: &Why) -> Result<String, NoMemory> {
    match why {
        Why::Syntax => plain(alloc, "syntax"),
        Why::Unclosed => plain(alloc, "unclosed"),
        Why::Deep => plain(alloc, "deep"),
        Why::Long => plain(alloc, "long"),
        Why::NotInProfile(token) => shown(alloc, token.as_slice()),
    }
}

fn fault_shown(alloc: Global, fault: &ScriptFault) -> Result<String, NoMemory> {
    let why = why_shown(alloc, &fault.why)?;
    let text = format!(in alloc; "fault {} {}", fault.at, why.as_str())?;
    Ok(text)
}

// What a lexer that stands there tells next, and where it stands then.
fn next_of(alloc: Global, text: &[u8], at: usize) -> Result<(usize, String), NoMemory> {
    let mut lexer = Lexer::new(alloc, text);
    if at <= text.len() {
        lexer.set_at(at);
    }
    let told = match lexer.next() {
        Ok(None) => plain(alloc, "none")?,
        Ok(Some(token)) => token_shown(alloc, &token)?,
        Err(LexErr::Fault(fault)) => fault_shown(alloc, &fault)?,
        Err(LexErr::NoMemory) => return Err(NoMemory),
    };
    Ok((lexer.at(), told))
}

impl Tokens {
    pub(crate) fn new(alloc: Global) -> Result<Tokens, NoMemory> {
        Ok(Tokens {
            alloc,
            text: Vec::new(alloc),
            at: 0,
        })
    }

    fn next(&mut self) -> Result<String, NoMemory> {
        let (at, told) = next_of(self.alloc, self.text.as_slice(), self.at)?;
        self.at = at;
        Ok(told)
    }
}

impl Subject for Tokens {
    fn fresh(&mut self) -> Result<(), NoMemory> {
        self.at = 0;
        Ok(())
    }

    fn step(&mut self, words: &[Vec<u8>]) -> Result<String, NoMemory> {
        let alloc = self.alloc;
        match text(words, 0) {
            "text" => {
                self.text = Vec::from_slice(alloc, word(words, 1))?;
                self.at = 0;
                shown(alloc, self.text.as_slice())
            }
            "go" => {
                self.at = number(words, 1) as usize;
                at_shown(alloc, self.at)
            }
            "at" => at_shown(alloc, self.at),
            "next" => self.next(),
            _ => plain(alloc, "unknown step"),
        }
    }
}
