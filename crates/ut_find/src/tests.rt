// The tests that words ask for.
ghost use Rattle.std.specs.Prelude.{◌≡◌, ◌≤◌, IfOk, length, Err};
ghost use Rattle.std.specs.List.{position_or_len};
ghost use Rattle.ut_find.specs.Words.{is_dashed, kind_of, judged, tests_of, JudgesTo};

use crate::test::{Test, TestList};
use rk_base::{Bytes, FileType, NoMemory};
use std::alloc::Global;

/// What the next word is.
#[derive(Clone, Copy, Debug, Drop)]
pub(crate) enum Wants {
    /// A test.
    Another,
    /// The pattern of `-name`.
    Pattern,
    /// The letter of `-type`.
    Letter,
}

/// What a word was judged to be.
#[derive(Clone, Copy, Debug, Drop)]
pub(crate) enum Judged {
    Goes(Wants),
    /// It is a test that there isn't.
    BadTest,
    /// It is no letter of a type.
    BadType,
    /// It is no test, and none before it wants it.
    Surplus,
}

/// Why words ask for no tests.
#[derive(Debug, Drop)]
pub(crate) enum Fault {
    /// This test isn't there, or what is to come after it isn't.
    OfTest(Bytes),
    /// A word among the tests is none.
    Surplus,
}

fn is_dashed(word: &[u8]) -> bool
    ensures { result ≡ is_dashed word.now }
{
    match word {
        [] => false,
        [b, ..] => *b == b'-',
    }
}

/// How many words stand before the first that begins with a `-`.
pub(crate) fn paths(words: &[Bytes]) -> usize
    ensures place { result ≡ position_or_len is_dashed words.now }
    ensures within { result ≤ length words.now }
{
    for (i, word) in words.iter().enumerate() {
        if is_dashed(word.as_slice()) {
            return i;
        }
    }
    words.len()
}

fn kind_of(word: &[u8]) -> Option<FileType>
    ensures { result ≡ kind_of word.now }
{
    if word == b"f".as_slice() {
        return Some(FileType::File);
    }
    if word == b"d".as_slice() {
        return Some(FileType::Dir);
    }
    if word == b"l".as_slice() {
        return Some(FileType::Link);
    }
    None
}

fn judge_test(word: &[u8]) -> Judged
    ensures { result ≡ judged word.now }
{
    if word == b"-print".as_slice() {
        return Judged::Goes(Wants::Another);
    }
    if word == b"-name".as_slice() {
        return Judged::Goes(Wants::Pattern);
    }
    if word == b"-type".as_slice() {
        return Judged::Goes(Wants::Letter);
    }
    if is_dashed(word) {
        return Judged::BadTest;
    }
    Judged::Surplus
}

// A word, by what the one before it wants.
fn judge(wants: Wants, word: &Bytes, tests: &mut TestList) -> Result<Judged, NoMemory>
    ensures { IfOk result (λ j. JudgesTo wants tests.old word.now j tests.new) }
{
    match wants {
        Wants::Another => Ok(judge_test(word.as_slice())),
        Wants::Pattern => {
            let pattern = word.copy()?;
            tests.push(Test::Named(pattern))?;
            Ok(Judged::Goes(Wants::Another))
        }
        Wants::Letter => match kind_of(word.as_slice()) {
            None => Ok(Judged::BadType),
            Some(kind) => {
                tests.push(Test::OfKind(kind))?;
                Ok(Judged::Goes(Wants::Another))
            }
        },
    }
}

fn at_fault(alloc: Global, word: &[u8]) -> Result<Result<TestList, Fault>, NoMemory>
    ensures { IfOk result (λ r. r ≡ Err (Fault.OfTest word.now)) }
{
    let word = Bytes::from_slice(alloc, word)?;
    Ok(Err(Fault::OfTest(word)))
}

/// The tests that words ask for, or the first fault.
pub(crate) fn tests_of(alloc: Global, words: &[Bytes]) -> Result<Result<TestList, Fault>, NoMemory>
    ensures { IfOk result (λ r. r ≡ tests_of words.now) }
{
    let mut tests = TestList::new(alloc);
    let mut wants = Wants::Another;
    'words: for word in words {
        match judge(wants, word, &mut tests)? {
            Judged::Goes(next) => wants = next,
            Judged::BadTest => return at_fault(alloc, word.as_slice()),
            Judged::BadType => return at_fault(alloc, b"-type"),
            Judged::Surplus => return Ok(Err(Fault::Surplus)),
        }
    }
    match wants {
        Wants::Another => Ok(Ok(tests)),
        Wants::Pattern => at_fault(alloc, b"-name"),
        Wants::Letter => at_fault(alloc, b"-type"),
    }
}
