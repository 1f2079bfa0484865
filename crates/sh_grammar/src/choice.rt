// Which rule a token chooses.
ghost use Rattle.std.specs.Prelude.{◌≡◌, ◌↔◌, IsTrue, option_map, true};
ghost use Rattle.sh_rules.specs.Kinds.{number as number_lem};
ghost use Rattle.sh_rules.specs.Modes.{mode as mode_lem};
ghost use Rattle.sh_rules.specs.Choosing.{choose as choose_lem};
ghost use Rattle.sh_grammar.specs.Named.{part_named, rule_named};
ghost use Rattle.sh_grammar.specs.Modes.{mode_number as mode_number_lem};
ghost use Rattle.sh_grammar.specs.Choices.{is_met as is_met_lem, first_met as first_met_lem, tells};

use crate::part::Part;
use crate::rule::Rule;
use sh_rules::{
    Mode, TokenKind, begins_command, begins_compound, begins_expansion, begins_quoted,
    begins_redirect, begins_stage, begins_word,
};

/// With what a rule begins: a token of a kind, one that begins a part of the syntax, or any.
#[derive(Clone, Copy)]
pub enum Begins {
    Token(TokenKind),
    Command,
    Stage,
    Compound,
    Redirect,
    Word,
    Quoted,
    Expansion,
    Anything,
}

fn number(kind: TokenKind) -> u8
    ensures { result ≡ number_lem kind }
{
    kind as u8
}

/// Whether two kinds are the same.
pub fn same_kind(a: TokenKind, b: TokenKind) -> bool
    ensures { IsTrue result ↔ (a ≡ b) }
{
    number(a) == number(b)
}

fn mode_number(mode: Mode) -> u8
    ensures { result ≡ mode_number_lem mode }
{
    mode as u8
}

/// Whether two modes are the same.
#[tactic(auto, using(crate::proofs::Modes::same_mode_number))]
pub fn same_mode(a: Mode, b: Mode) -> bool
    ensures { IsTrue result ↔ (a ≡ b) }
{
    mode_number(a) == mode_number(b)
}

fn is_met(begins: Begins, kind: TokenKind) -> bool
    ensures { result ≡ is_met_lem begins kind }
{
    match begins {
        Begins::Token(token) => number(token) == number(kind),
        Begins::Command => begins_command(kind),
        Begins::Stage => begins_stage(kind),
        Begins::Compound => begins_compound(kind),
        Begins::Redirect => begins_redirect(kind),
        Begins::Word => begins_word(kind),
        Begins::Quoted => begins_quoted(kind),
        Begins::Expansion => begins_expansion(kind),
        Begins::Anything => true,
    }
}

// The rules of a part, each with what it begins; the one that any token chooses stands last.
fn choices(part: Part) -> &'static [(Begins, Rule)]
    ensures { tells (part_named part) result.now ≡ true }
{
    match part {
        Part::OptList => &[
            (Begins::Token(TokenKind::Newline), Rule::MoreLines),
            (Begins::Command, Rule::Commands),
            (Begins::Anything, Rule::NothingMore),
        ],
        Part::List => &[
            (Begins::Token(TokenKind::Newline), Rule::Lines),
            (Begins::Command, Rule::Listed),
        ],
        Part::ListRest => &[
            (Begins::Token(TokenKind::Semi), Rule::SemiList),
            (Begins::Token(TokenKind::Newline), Rule::LineList),
            (Begins::Anything, Rule::Last),
        ],
        Part::Newline => &[(Begins::Token(TokenKind::Newline), Rule::Line)],
        Part::Bodies => &[
            (Begins::Token(TokenKind::NoBody), Rule::NoBody),
            (Begins::Token(TokenKind::LiteralBody), Rule::LiteralBody),
            (Begins::Token(TokenKind::BodyOpen), Rule::Body),
        ],
        Part::BodyParts => &[
            (Begins::Token(TokenKind::BodyClose), Rule::BodyEnd),
            (Begins::Token(TokenKind::BodyText), Rule::BodyText),
            (Begins::Token(TokenKind::BodyEscape), Rule::BodyEscape),
            (Begins::Token(TokenKind::QuotedBrace), Rule::BodyBraced),
            (Begins::Expansion, Rule::BodyExpansion),
        ],
        Part::AndOr => &[(Begins::Command, Rule::AndOr)],
        Part::AndOrRest => &[
            (Begins::Token(TokenKind::AndIf), Rule::AndThen),
            (Begins::Token(TokenKind::OrIf), Rule::OrElse),
            (Begins::Anything, Rule::Alone),
        ],
        Part::Linebreak => &[
            (Begins::Token(TokenKind::Newline), Rule::Break),
            (Begins::Anything, Rule::NoBreak),
        ],
        Part::Pipeline => &[
            (Begins::Token(TokenKind::Bang), Rule::Negated),
            (Begins::Stage, Rule::Plain),
        ],
        Part::PipeRest => &[
            (Begins::Token(TokenKind::Pipe), Rule::Piped),
            (Begins::Anything, Rule::Unpiped),
        ],
        Part::Command => &[
            (Begins::Token(TokenKind::CommandText), Rule::Named),
            (Begins::Token(TokenKind::FunctionName), Rule::Function),
            (Begins::Token(TokenKind::Assignment), Rule::Assigned),
            (Begins::Compound, Rule::Compound),
            (Begins::Redirect, Rule::Redirected),
            (Begins::Quoted, Rule::QuotedName),
        ],
        Part::Compound => &[
            (Begins::Token(TokenKind::LeftBrace), Rule::Group),
            (Begins::Token(TokenKind::LeftParen), Rule::Subshell),
            (Begins::Token(TokenKind::If), Rule::If),
            (Begins::Token(TokenKind::While), Rule::While),
            (Begins::Token(TokenKind::Until), Rule::Until),
            (Begins::Token(TokenKind::For), Rule::For),
            (Begins::Token(TokenKind::Case), Rule::Case),
        ],
        Part::IfRest => &[
            (Begins::Token(TokenKind::Fi), Rule::Fi),
            (Begins::Token(TokenKind::Else), Rule::Else),
            (Begins::Token(TokenKind::Elif), Rule::Elif),
        ],
        Part::ForIn => &[
            (Begins::Token(TokenKind::Semi), Rule::ForSemi),
            (Begins::Token(TokenKind::Newline), Rule::ForLine),
            (Begins::Token(TokenKind::In), Rule::ForWords),
            (Begins::Anything, Rule::ForParameters),
        ],
        Part::ForInLater => &[
            (Begins::Token(TokenKind::Newline), Rule::LaterLine),
            (Begins::Token(TokenKind::In), Rule::LaterWords),
            (Begins::Anything, Rule::LaterParameters),
        ],
        Part::ForWords => &[
            (Begins::Token(TokenKind::Semi), Rule::WordsSemi),
            (Begins::Token(TokenKind::Newline), Rule::WordsLine),
            (Begins::Word, Rule::WordsMore),
        ],
        Part::CaseIn => &[
            (Begins::Token(TokenKind::CaseIn), Rule::CaseIn),
            (Begins::Token(TokenKind::Newline), Rule::CaseLine),
        ],
        Part::Items => &[
            (Begins::Token(TokenKind::Esac), Rule::Esac),
            (Begins::Token(TokenKind::Newline), Rule::ItemLine),
            (Begins::Token(TokenKind::PatternOpen), Rule::ItemOpen),
            (Begins::Token(TokenKind::PatternText), Rule::ItemText),
            (Begins::Quoted, Rule::ItemQuoted),
        ],
        Part::PatternRest => &[
            (Begins::Token(TokenKind::PatternClose), Rule::PatternEnd),
            (Begins::Token(TokenKind::PatternBar), Rule::PatternMore),
        ],
        Part::ItemEnd => &[
            (Begins::Token(TokenKind::Esac), Rule::ItemEsac),
            (Begins::Token(TokenKind::DoubleSemi), Rule::ItemNext),
        ],
        Part::Redirects => &[
            (Begins::Redirect, Rule::Redirects),
            (Begins::Anything, Rule::NoRedirects),
        ],
        Part::Redirect => &[
            (Begins::Token(TokenKind::Redirect), Rule::ToFile),
            (Begins::Token(TokenKind::Here), Rule::Here),
        ],
        Part::Prefix => &[
            (Begins::Token(TokenKind::Assignment), Rule::MoreAssigned),
            (Begins::Redirect, Rule::MoreRedirected),
            (Begins::Token(TokenKind::PrefixText), Rule::CommandText),
            (Begins::Quoted, Rule::CommandQuoted),
            (Begins::Anything, Rule::NoCommand),
        ],
        Part::Arguments => &[
            (Begins::Redirect, Rule::ArgumentRedirect),
            (Begins::Word, Rule::Argument),
            (Begins::Anything, Rule::NoArguments),
        ],
        Part::Word => &[
            (Begins::Token(TokenKind::WordText), Rule::WordText),
            (Begins::Quoted, Rule::WordQuoted),
        ],
        Part::Value => &[
            (Begins::Token(TokenKind::WordEnd), Rule::NoValue),
            (Begins::Token(TokenKind::ValueText), Rule::ValueText),
            (Begins::Quoted, Rule::ValueQuoted),
        ],
        Part::Parts => &[
            (Begins::Token(TokenKind::WordEnd), Rule::EndOfWord),
            (Begins::Token(TokenKind::Text), Rule::Text),
            (Begins::Quoted, Rule::Quoted),
        ],
        Part::Quoted => &[
            (Begins::Token(TokenKind::Escape), Rule::Escape),
            (Begins::Token(TokenKind::Single), Rule::Single),
            (Begins::Token(TokenKind::QuoteOpen), Rule::Double),
            (Begins::Token(TokenKind::Brace), Rule::Braces),
            (Begins::Expansion, Rule::Expands),
        ],
        Part::Expansion => &[
            (Begins::Token(TokenKind::Parameter), Rule::Parameter),
            (Begins::Token(TokenKind::Braced), Rule::BracedParameter),
            (Begins::Token(TokenKind::Substitution), Rule::Substitution),
            (Begins::Token(TokenKind::Dollar), Rule::Dollar),
            (Begins::Token(TokenKind::PatternBrace), Rule::PatternBraces),
            (Begins::Token(TokenKind::Arithmetic), Rule::Arithmetic),
        ],
        Part::QuotedParts => &[
            (Begins::Token(TokenKind::QuoteClose), Rule::QuoteEnd),
            (Begins::Token(TokenKind::QuotedText), Rule::QuotedText),
            (Begins::Token(TokenKind::QuotedEscape), Rule::QuotedEscape),
            (Begins::Token(TokenKind::QuotedBrace), Rule::QuotedBraces),
            (Begins::Expansion, Rule::QuotedExpansion),
        ],
        Part::BraceStart => &[
            (Begins::Token(TokenKind::BraceClose), Rule::BraceEmpty),
            (
                Begins::Token(TokenKind::BraceStartText),
                Rule::BraceStartText,
            ),
            (Begins::Quoted, Rule::BraceStartQuoted),
        ],
        Part::BraceParts => &[
            (Begins::Token(TokenKind::BraceClose), Rule::BraceEnd),
            (Begins::Token(TokenKind::BraceText), Rule::BraceText),
            (Begins::Quoted, Rule::BraceQuoted),
        ],
        Part::QuotedBraceParts => &[
            (Begins::Token(TokenKind::BraceClose), Rule::QuotedBraceEnd),
            (
                Begins::Token(TokenKind::QuotedBraceText),
                Rule::QuotedBraceText,
            ),
            (
                Begins::Token(TokenKind::QuotedBraceEscape),
                Rule::QuotedBraceEscape,
            ),
            (Begins::Token(TokenKind::QuoteOpen), Rule::InnerQuoted),
            (Begins::Token(TokenKind::QuotedBrace), Rule::InnerBraces),
            (Begins::Expansion, Rule::InnerExpansion),
        ],
        Part::Arithmetic => &[
            (
                Begins::Token(TokenKind::ArithmeticClose),
                Rule::ArithmeticEnd,
            ),
            (
                Begins::Token(TokenKind::ArithmeticText),
                Rule::ArithmeticText,
            ),
            (
                Begins::Token(TokenKind::ArithmeticEscape),
                Rule::ArithmeticEscape,
            ),
            (
                Begins::Token(TokenKind::ParenthesisOpen),
                Rule::ParenthesisOpen,
            ),
            (
                Begins::Token(TokenKind::ParenthesisClose),
                Rule::ParenthesisClose,
            ),
            (
                Begins::Token(TokenKind::QuotedBrace),
                Rule::ArithmeticBraces,
            ),
            (Begins::Expansion, Rule::ArithmeticExpansion),
        ],
    }
}

fn first_met(choices: &[(Begins, Rule)], kind: TokenKind) -> Option<Rule>
    ensures { option_map rule_named result ≡ first_met_lem choices.now kind }
{
    for choice in choices {
        if is_met(choice.0, kind) {
            return Some(choice.1);
        }
    }
    None
}

/// The rule that a token of a kind chooses at a part, where it chooses one.
pub fn choose(part: Part, kind: TokenKind) -> Option<Rule>
    ensures { option_map rule_named result ≡ choose_lem (part_named part) kind }
{
    first_met(choices(part), kind)
}

/// The mode in which a part begins.
pub fn mode(part: Part) -> Mode
    ensures { result ≡ mode_lem (part_named part) }
{
    match part {
        Part::OptList => Mode::CommandStart,
        Part::List => Mode::CommandStart,
        Part::ListRest => Mode::Argument,
        Part::Newline => Mode::CommandStart,
        Part::Bodies => Mode::Bodies,
        Part::BodyParts => Mode::BodyText,
        Part::AndOr => Mode::CommandStart,
        Part::AndOrRest => Mode::Argument,
        Part::Linebreak => Mode::CommandStart,
        Part::Pipeline => Mode::CommandStart,
        Part::PipeRest => Mode::Argument,
        Part::Command => Mode::CommandStart,
        Part::Compound => Mode::CommandStart,
        Part::IfRest => Mode::CommandStart,
        Part::ForIn => Mode::Argument,
        Part::ForInLater => Mode::Argument,
        Part::ForWords => Mode::Argument,
        Part::CaseIn => Mode::CaseIn,
        Part::Items => Mode::PatternStart,
        Part::PatternRest => Mode::PatternRest,
        Part::ItemEnd => Mode::CommandStart,
        Part::Redirects => Mode::Argument,
        Part::Redirect => Mode::Argument,
        Part::Prefix => Mode::Prefix,
        Part::Arguments => Mode::Argument,
        Part::Word => Mode::Argument,
        Part::Value => Mode::Value,
        Part::Parts => Mode::InWord,
        Part::Quoted => Mode::InWord,
        Part::Expansion => Mode::InWord,
        Part::QuotedParts => Mode::InQuotes,
        Part::BraceStart => Mode::BraceStart,
        Part::BraceParts => Mode::InBraces,
        Part::QuotedBraceParts => Mode::InQuotedBraces,
        Part::Arithmetic => Mode::InArithmetic,
    }
}
