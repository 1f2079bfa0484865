// Words without an expansion.
ghost use Rattle.std.specs.Prelude.{◌≡◌, IfSome};
ghost use Rattle.std.specs.List.{list_all};
ghost use Rattle.sh_ast.specs.Commands as tree;
ghost use Rattle.sh_ast.specs.Words.{part, literal};
ghost use Rattle.sh_expand.specs.Fields.{is_plain_byte};
ghost use Rattle.sh_expand.specs.Means.{parts_of};
ghost use Rattle.sh_words.specs.Literal.{IsField, IsLiteral, IsValue, is_one_field};

use rk_base::Bytes;
use sh_ast::{Part, Quoting, Word};

// No byte of a pattern, wherever it stands.
fn is_plain_byte(b: u8) -> bool
    ensures { result ≡ is_plain_byte b }
{
    !(b == b'*' || b == b'?' || b == b'[' || b == b'\\')
}

fn are_plain(text: &[u8]) -> bool
    ensures { result ≡ list_all is_plain_byte text.now }
{
    text.iter().all(|b| is_plain_byte(*b))
}

// Whether a literal is one field as it stands: an empty one is only where it is quoted (XCU 2.6.5 and 2.6.6).
fn is_one_field(quoting: Quoting, text: &[u8]) -> bool
    ensures { result ≡ is_one_field quoting text.now }
{
    match quoting {
        Quoting::Quoted => are_plain(text),
        Quoting::Unquoted => are_plain(text) && !text.is_empty(),
    }
}

fn literal_of(it: &Part) -> Option<(Quoting, &Bytes)>
    ensures { IfSome result (λ x. part it.now ≡ literal x.0 x.1.now) }
{
    match it {
        Part::Literal(quoting, text) => Some((*quoting, text)),
        Part::Value(_, _) => None,
        Part::Length(_, _) => None,
        Part::Substitute(_, _, _, _, _) => None,
        Part::Remove(_, _, _, _) => None,
        Part::Command(_, _) => None,
        Part::Arithmetic(_, _) => None,
    }
}

// The literal that is all of a word, where it is one.
fn only_literal(word: &Word) -> Option<(Quoting, &Bytes)>
    ensures { IfSome result (λ it. IsLiteral it.0 it.1.now (parts_of (tree.word word.now))) }
{
    match word.parts.get(1) {
        Some(_) => None,
        None => match word.parts.get(0) {
            None => None,
            Some(part) => literal_of(part),
        },
    }
}

/// The text of a word that is one field of this text, whatever the state is: one literal, of which no byte may make a
/// pattern. `None` of another word.
pub(crate) fn field(word: &Word) -> Option<&Bytes>
    ensures { IfSome result (λ text. IsField text.now (parts_of (tree.word word.now))) }
{
    match only_literal(word) {
        None => None,
        Some((quoting, text)) => {
            if is_one_field(quoting, text.as_slice()) {
                Some(text)
            } else {
                None
            }
        }
    }
}

/// The text of a word whose value is this text, whatever the state is: one literal. `None` of another word.
pub(crate) fn value(word: &Word) -> Option<&Bytes>
    ensures { IfSome result (λ text. IsValue text.now (parts_of (tree.word word.now))) }
{
    match only_literal(word) {
        None => None,
        Some((_, text)) => Some(text),
    }
}
