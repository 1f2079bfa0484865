// What is tried at a place, by where a token is looked for and by what the place begins with.
ghost use Rattle.std.specs.Prelude.{◌≡◌};
ghost use Rattle.sh_token.specs.Recognizers as lem;

use sh_rules::Mode;
use sh_token::front::{Break, Front, Plain, Quote};
use sh_token::recognizer::Recognizer;

// What quotes or expands in a word (XCU 2.2).
fn unquoted(at: Quote) -> Recognizer
    ensures { result ≡ lem.unquoted at }
{
    match at {
        Quote::Backslash => Recognizer::Escape,
        Quote::Single => Recognizer::Single,
        Quote::Double => Recognizer::QuoteOpen,
        Quote::Backquote => Recognizer::Nothing,
        Quote::Dollar => Recognizer::Expands,
    }
}

// In double quotes (XCU 2.2.3).
fn quoted(at: Quote) -> Recognizer
    ensures { result ≡ lem.quoted at }
{
    match at {
        Quote::Backslash => Recognizer::QuotedBackslash,
        Quote::Single => Recognizer::QuotedText,
        Quote::Double => Recognizer::QuoteClose,
        Quote::Backquote => Recognizer::Nothing,
        Quote::Dollar => Recognizer::ExpandsQuoted,
    }
}

// In the word of a parameter in double quotes.
fn quoted_in_braces(at: Quote) -> Recognizer
    ensures { result ≡ lem.quoted_in_braces at }
{
    match at {
        Quote::Backslash => Recognizer::QuotedBraceBackslash,
        Quote::Single => Recognizer::QuotedBraceText,
        Quote::Double => Recognizer::QuoteOpen,
        Quote::Backquote => Recognizer::Nothing,
        Quote::Dollar => Recognizer::ExpandsQuoted,
    }
}

// In a here-document (XCU 2.7.4).
fn quoted_in_body(at: Quote) -> Recognizer
    ensures { result ≡ lem.quoted_in_body at }
{
    match at {
        Quote::Backslash => Recognizer::BodyBackslash,
        Quote::Single => Recognizer::BodyText,
        Quote::Double => Recognizer::BodyText,
        Quote::Backquote => Recognizer::Nothing,
        Quote::Dollar => Recognizer::ExpandsQuoted,
    }
}

// In an arithmetic expansion (XCU 2.6.4).
fn quoted_in_arithmetic(at: Quote) -> Recognizer
    ensures { result ≡ lem.quoted_in_arithmetic at }
{
    match at {
        Quote::Backslash => Recognizer::ArithmeticBackslash,
        Quote::Single => Recognizer::ArithmeticText,
        Quote::Double => Recognizer::ArithmeticText,
        Quote::Backquote => Recognizer::Nothing,
        Quote::Dollar => Recognizer::ExpandsQuoted,
    }
}

// Among commands (XCU 2.10.1), by what an opening parenthesis is.
fn break_among(paren: Recognizer, at: Break) -> Recognizer
    ensures { result ≡ lem.break_among paren at }
{
    match at {
        Break::Blank => Recognizer::Nothing,
        Break::Newline => Recognizer::Newline,
        Break::Semi => Recognizer::Operator,
        Break::And => Recognizer::Operator,
        Break::Bar => Recognizer::Operator,
        Break::Angle => Recognizer::Redirects,
        Break::OpenParen => paren,
        Break::CloseParen => Recognizer::Operator,
    }
}

// And by what a word and an assignment are.
fn plain_among(word: Recognizer, assignment: Recognizer, at: Plain) -> Recognizer
    ensures { result ≡ lem.plain_among word assignment at }
{
    match at {
        Plain::RightBrace => Recognizer::Closer,
        Plain::CloseBrace => word,
        Plain::Esac => Recognizer::Esac,
        Plain::Closer => Recognizer::Closer,
        Plain::Assignment => assignment,
        Plain::Numbered => Recognizer::Redirects,
        Plain::Text => word,
    }
}

fn among(paren: Recognizer, word: Recognizer, assignment: Recognizer, front: Front) -> Recognizer
    ensures { result ≡ lem.among paren word assignment front }
{
    match front {
        Front::End => Recognizer::AtEnd,
        Front::Nul => Recognizer::Nothing,
        Front::Break(x) => break_among(paren, x),
        Front::Quote(x) => unquoted(x),
        Front::Tilde => Recognizer::Nothing,
        Front::Plain(x) => plain_among(word, assignment, x),
    }
}

// Where an item of a case begins (XCU 2.9.4).
fn break_of_item(at: Break) -> Recognizer
    ensures { result ≡ lem.break_of_item at }
{
    match at {
        Break::Blank => Recognizer::Nothing,
        Break::Newline => Recognizer::Newline,
        Break::Semi => Recognizer::Nothing,
        Break::And => Recognizer::Nothing,
        Break::Bar => Recognizer::Nothing,
        Break::Angle => Recognizer::Nothing,
        Break::OpenParen => Recognizer::PatternOpen,
        Break::CloseParen => Recognizer::Nothing,
    }
}

fn plain_of_item(at: Plain) -> Recognizer
    ensures { result ≡ lem.plain_of_item at }
{
    match at {
        Plain::RightBrace => Recognizer::PatternText,
        Plain::CloseBrace => Recognizer::PatternText,
        Plain::Esac => Recognizer::Esac,
        Plain::Closer => Recognizer::PatternText,
        Plain::Assignment => Recognizer::PatternText,
        Plain::Numbered => Recognizer::PatternText,
        Plain::Text => Recognizer::PatternText,
    }
}

fn of_item(front: Front) -> Recognizer
    ensures { result ≡ lem.of_item front }
{
    match front {
        Front::End => Recognizer::Nothing,
        Front::Nul => Recognizer::Nothing,
        Front::Break(x) => break_of_item(x),
        Front::Quote(x) => unquoted(x),
        Front::Tilde => Recognizer::Nothing,
        Front::Plain(x) => plain_of_item(x),
    }
}

// Behind the word of a case.
fn break_before_in(at: Break) -> Recognizer
    ensures { result ≡ lem.break_before_in at }
{
    match at {
        Break::Blank => Recognizer::Nothing,
        Break::Newline => Recognizer::Newline,
        Break::Semi => Recognizer::Nothing,
        Break::And => Recognizer::Nothing,
        Break::Bar => Recognizer::Nothing,
        Break::Angle => Recognizer::Nothing,
        Break::OpenParen => Recognizer::Nothing,
        Break::CloseParen => Recognizer::Nothing,
    }
}

fn before_in(front: Front) -> Recognizer
    ensures { result ≡ lem.before_in front }
{
    match front {
        Front::End => Recognizer::Nothing,
        Front::Nul => Recognizer::Nothing,
        Front::Break(x) => break_before_in(x),
        Front::Quote(_) => Recognizer::Nothing,
        Front::Tilde => Recognizer::Nothing,
        Front::Plain(_) => Recognizer::CaseIn,
    }
}

// Behind a pattern.
fn break_behind_pattern(at: Break) -> Recognizer
    ensures { result ≡ lem.break_behind_pattern at }
{
    match at {
        Break::Blank => Recognizer::Nothing,
        Break::Newline => Recognizer::Nothing,
        Break::Semi => Recognizer::Nothing,
        Break::And => Recognizer::Nothing,
        Break::Bar => Recognizer::PatternBar,
        Break::Angle => Recognizer::Nothing,
        Break::OpenParen => Recognizer::Nothing,
        Break::CloseParen => Recognizer::PatternClose,
    }
}

// The variable of a for.
fn of_name(front: Front) -> Recognizer
    ensures { result ≡ lem.of_name front }
{
    match front {
        Front::End => Recognizer::Nothing,
        Front::Nul => Recognizer::Nothing,
        Front::Break(_) => Recognizer::Nothing,
        Front::Quote(_) => Recognizer::Nothing,
        Front::Tilde => Recognizer::Nothing,
        Front::Plain(_) => Recognizer::Name,
    }
}

// Within a word, by what a tilde and text are.
fn within_word(tilde: Recognizer, text: Recognizer, front: Front) -> Recognizer
    ensures { result ≡ lem.within_word tilde text front }
{
    match front {
        Front::End => Recognizer::WordEnd,
        Front::Nul => Recognizer::Nothing,
        Front::Break(_) => Recognizer::WordEnd,
        Front::Quote(x) => unquoted(x),
        Front::Tilde => tilde,
        Front::Plain(_) => text,
    }
}

// Within double quotes.
fn within_quotes(front: Front) -> Recognizer
    ensures { result ≡ lem.within_quotes front }
{
    match front {
        Front::End => Recognizer::Nothing,
        Front::Nul => Recognizer::Nothing,
        Front::Break(_) => Recognizer::QuotedText,
        Front::Quote(x) => quoted(x),
        Front::Tilde => Recognizer::QuotedText,
        Front::Plain(_) => Recognizer::QuotedText,
    }
}

// Within the word of a parameter (XCU 2.6.2).
fn closes_braces(text: Recognizer, at: Plain) -> Recognizer
    ensures { result ≡ lem.closes_braces text at }
{
    match at {
        Plain::RightBrace => Recognizer::BraceClose,
        Plain::CloseBrace => Recognizer::BraceClose,
        Plain::Esac => text,
        Plain::Closer => text,
        Plain::Assignment => text,
        Plain::Numbered => text,
        Plain::Text => text,
    }
}

fn within_braces(tilde: Recognizer, text: Recognizer, front: Front) -> Recognizer
    ensures { result ≡ lem.within_braces tilde text front }
{
    match front {
        Front::End => Recognizer::Nothing,
        Front::Nul => Recognizer::Nothing,
        Front::Break(_) => text,
        Front::Quote(x) => unquoted(x),
        Front::Tilde => tilde,
        Front::Plain(x) => closes_braces(text, x),
    }
}

fn within_quoted_braces(front: Front) -> Recognizer
    ensures { result ≡ lem.within_quoted_braces front }
{
    match front {
        Front::End => Recognizer::Nothing,
        Front::Nul => Recognizer::Nothing,
        Front::Break(_) => Recognizer::QuotedBraceText,
        Front::Quote(x) => quoted_in_braces(x),
        Front::Tilde => Recognizer::QuotedBraceText,
        Front::Plain(x) => closes_braces(Recognizer::QuotedBraceText, x),
    }
}

// Within a here-document.
fn within_body(front: Front) -> Recognizer
    ensures { result ≡ lem.within_body front }
{
    match front {
        Front::End => Recognizer::BodyClose,
        Front::Nul => Recognizer::Nothing,
        Front::Break(_) => Recognizer::BodyText,
        Front::Quote(x) => quoted_in_body(x),
        Front::Tilde => Recognizer::BodyText,
        Front::Plain(_) => Recognizer::BodyText,
    }
}

// Within an arithmetic expansion.
fn break_in_arithmetic(at: Break) -> Recognizer
    ensures { result ≡ lem.break_in_arithmetic at }
{
    match at {
        Break::Blank => Recognizer::ArithmeticText,
        Break::Newline => Recognizer::ArithmeticText,
        Break::Semi => Recognizer::ArithmeticText,
        Break::And => Recognizer::ArithmeticText,
        Break::Bar => Recognizer::ArithmeticText,
        Break::Angle => Recognizer::ArithmeticText,
        Break::OpenParen => Recognizer::ParenthesisOpen,
        Break::CloseParen => Recognizer::ParenthesisClose,
    }
}

fn within_arithmetic(front: Front) -> Recognizer
    ensures { result ≡ lem.within_arithmetic front }
{
    match front {
        Front::End => Recognizer::Nothing,
        Front::Nul => Recognizer::Nothing,
        Front::Break(x) => break_in_arithmetic(x),
        Front::Quote(x) => quoted_in_arithmetic(x),
        Front::Tilde => Recognizer::ArithmeticText,
        Front::Plain(_) => Recognizer::ArithmeticText,
    }
}

// Behind a pattern.
fn behind_pattern(front: Front) -> Recognizer
    ensures { result ≡ lem.at_break lem.break_behind_pattern front }
{
    match front {
        Front::End => Recognizer::Nothing,
        Front::Nul => Recognizer::Nothing,
        Front::Break(x) => break_behind_pattern(x),
        Front::Quote(_) => Recognizer::Nothing,
        Front::Tilde => Recognizer::Nothing,
        Front::Plain(_) => Recognizer::Nothing,
    }
}

fn parenthesis(left: Recognizer, right: Recognizer, at: Break) -> Recognizer
    ensures { result ≡ lem.parenthesis left right at }
{
    match at {
        Break::Blank => Recognizer::Nothing,
        Break::Newline => Recognizer::Nothing,
        Break::Semi => Recognizer::Nothing,
        Break::And => Recognizer::Nothing,
        Break::Bar => Recognizer::Nothing,
        Break::Angle => Recognizer::Nothing,
        Break::OpenParen => left,
        Break::CloseParen => right,
    }
}

// The parentheses behind a function's name (XCU 2.9.5).
fn of_parenthesis(left: Recognizer, right: Recognizer, front: Front) -> Recognizer
    ensures { result ≡ lem.at_break (lem.parenthesis left right) front }
{
    match front {
        Front::End => Recognizer::Nothing,
        Front::Nul => Recognizer::Nothing,
        Front::Break(x) => parenthesis(left, right, x),
        Front::Quote(_) => Recognizer::Nothing,
        Front::Tilde => Recognizer::Nothing,
        Front::Plain(_) => Recognizer::Nothing,
    }
}

/// The table: what is tried where a token is looked for in a mode, by what the place begins with.
#[tactic(auto, unfolding(sh_token::specs::Recognizers::recognizer))]
pub(crate) fn tried(mode: Mode, front: Front) -> Recognizer
    ensures { result ≡ lem.recognizer mode front }
{
    match mode {
        Mode::CommandStart => among(
            Recognizer::LeftParen,
            Recognizer::CommandWord,
            Recognizer::Assignment,
            front,
        ),
        Mode::Prefix => among(
            Recognizer::Nothing,
            Recognizer::PrefixWord,
            Recognizer::Assignment,
            front,
        ),
        Mode::Argument => among(
            Recognizer::Nothing,
            Recognizer::ArgumentWord,
            Recognizer::ArgumentWord,
            front,
        ),
        Mode::PatternStart => of_item(front),
        Mode::CaseIn => before_in(front),
        Mode::PatternRest => behind_pattern(front),
        Mode::Bodies => Recognizer::Bodies,
        Mode::BodyText => within_body(front),
        Mode::Value => within_word(Recognizer::Nothing, Recognizer::ValueText, front),
        Mode::InWord => within_word(Recognizer::Text, Recognizer::Text, front),
        Mode::InQuotes => within_quotes(front),
        Mode::BraceStart => within_braces(Recognizer::Nothing, Recognizer::BraceStartText, front),
        Mode::InBraces => within_braces(Recognizer::BraceText, Recognizer::BraceText, front),
        Mode::InQuotedBraces => within_quoted_braces(front),
        Mode::InArithmetic => within_arithmetic(front),
        Mode::ForName => of_name(front),
        Mode::FunctionOpen => of_parenthesis(Recognizer::FunctionOpen, Recognizer::Nothing, front),
        Mode::FunctionClose => of_parenthesis(
            Recognizer::Nothing,
            Recognizer::FunctionClose,
            front,
        ),
        Mode::HereDelimiter => Recognizer::Delimiter,
    }
}
