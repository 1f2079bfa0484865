// Options that were given.
ghost use Rattle.std.specs.Prelude.{◌≡◌, ◌∷◌, ◌++◌, ◌==◌, [], OnOk, IfOk, Some, None, option_copied, if◌then◌else◌};
ghost use Rattle.std.specs.List.{list_any};
ghost use Rattle.ut_args.specs.Opts.{has, last_argument, argument_of, arguments_of};

use rk_base::{Bytes, NoMemory, WordList};
use std::alloc::Global;
use std::marker::Model;

/// An option that was given, with its argument where it takes one.
#[derive(Debug, Drop)]
pub struct Given {
    pub letter: u8,
    pub argument: Option<Bytes>,
}

/// Options in the order in which they were given.
#[derive(Debug, Drop)]
pub struct OptList {
    given: Vec<Given>,
}

impl Model for OptList {
    ghost use Rattle.std.specs.Prelude.{List};
    ghost use Rattle.ut_args.specs.declared.opts.Given.{Given};

    ghost Value = { List Given };

    ghost view = { λ l. l.given.items };
}

// The argument where this is the option, or else the one that was found before.
fn newer<'a>(given: &'a Given, letter: u8, found: Option<&'a Bytes>) -> Option<&'a Bytes>
    ensures { option_copied result ≡ (if given.now.letter == letter then given.now.argument else option_copied found.entry) }
{
    if given.letter == letter {
        given.argument.as_ref()
    } else {
        found
    }
}

fn add_argument_of(given: &Given, letter: u8, words: &mut WordList) -> Result<(), NoMemory>
    ensures { OnOk result (words.new ≡ words.old ++ argument_of letter given.now) }
{
    if given.letter != letter {
        return Ok(());
    }
    match &given.argument {
        None => Ok(()),
        Some(argument) => words.push(argument.copy()?),
    }
}

impl OptList {
    /// None yet.
    pub fn new(alloc: Global) -> OptList
        ensures { result ≡ [] }
    {
        OptList {
            given: Vec::new(alloc),
        }
    }

    pub(crate) fn add(&mut self, letter: u8) -> Result<(), NoMemory>
        ensures { OnOk result (self.new ≡ self.old ++ (record { letter = letter; argument = None }) ∷ []) }
    {
        self.given.push(Given {
            letter,
            argument: None,
        })?;
        Ok(())
    }

    pub(crate) fn add_argument(&mut self, letter: u8, text: Bytes) -> Result<(), NoMemory>
        ensures { OnOk result (self.new ≡ self.old ++ (record { letter = letter; argument = Some text }) ∷ []) }
    {
        self.given.push(Given {
            letter,
            argument: Some(text),
        })?;
        Ok(())
    }

    /// The options, in the order in which they were given.
    pub fn as_slice(&self) -> &[Given]
        ensures { result.now ≡ self.now }
    {
        self.given.as_slice()
    }

    /// Whether an option was given.
    pub fn has(&self, letter: u8) -> bool
        ensures { result ≡ has letter self.now }
    {
        self.given.iter().any(|g| g.letter == letter)
    }

    /// The argument that an option has, the last one where it was given several times.
    pub fn argument(&self, letter: u8) -> Option<&Bytes>
        ensures { option_copied result ≡ last_argument letter None self.now }
    {
        let mut found = None;
        for given in self.given.as_slice() {
            found = newer(given, letter, found);
        }
        found
    }

    /// All arguments that an option has, in their order.
    pub fn arguments(&self, alloc: Global, letter: u8) -> Result<WordList, NoMemory>
        ensures { IfOk result (λ words. words ≡ arguments_of letter self.now) }
    {
        let mut words = WordList::new(Vec::new(alloc));
        for given in self.given.as_slice() {
            add_argument_of(given, letter, &mut words)?;
        }
        Ok(words)
    }
}
