// What each rule spells.
ghost use Rattle.std.specs.Prelude.{◌≡◌, map};
ghost use Rattle.sh_rules.specs.Rules.{spelling as spelling_lem};
ghost use Rattle.sh_grammar.specs.Named.{rule_named, symbol_named};

use crate::part::Part;
use crate::rule::Rule;
use sh_rules::TokenKind;

/// In the text of a rule: a token of a kind, or a part of the syntax.
#[derive(Clone, Copy)]
pub enum Symbol {
    Want(TokenKind),
    Do(Part),
}

/// The symbols of a rule, from left to right.
pub fn spelling(rule: Rule) -> &'static [Symbol]
    ensures { map symbol_named result.now ≡ spelling_lem (rule_named rule) }
{
    match rule {
        // opt_list
        Rule::NothingMore => &[],
        Rule::MoreLines => &[Symbol::Do(Part::Newline), Symbol::Do(Part::OptList)],
        Rule::Commands => &[Symbol::Do(Part::AndOr), Symbol::Do(Part::ListRest)],
        // list
        Rule::Lines => &[Symbol::Do(Part::Newline), Symbol::Do(Part::List)],
        Rule::Listed => &[Symbol::Do(Part::AndOr), Symbol::Do(Part::ListRest)],
        // list_rest
        Rule::Last => &[],
        Rule::SemiList => &[Symbol::Want(TokenKind::Semi), Symbol::Do(Part::OptList)],
        Rule::LineList => &[Symbol::Do(Part::Newline), Symbol::Do(Part::OptList)],
        // newline
        Rule::Line => &[Symbol::Want(TokenKind::Newline), Symbol::Do(Part::Bodies)],
        // bodies
        Rule::NoBody => &[Symbol::Want(TokenKind::NoBody)],
        Rule::LiteralBody => &[
            Symbol::Want(TokenKind::LiteralBody),
            Symbol::Do(Part::Bodies),
        ],
        Rule::Body => &[
            Symbol::Want(TokenKind::BodyOpen),
            Symbol::Do(Part::BodyParts),
            Symbol::Do(Part::Bodies),
        ],
        // body_parts
        Rule::BodyEnd => &[Symbol::Want(TokenKind::BodyClose)],
        Rule::BodyText => &[
            Symbol::Want(TokenKind::BodyText),
            Symbol::Do(Part::BodyParts),
        ],
        Rule::BodyEscape => &[
            Symbol::Want(TokenKind::BodyEscape),
            Symbol::Do(Part::BodyParts),
        ],
        Rule::BodyBraced => &[
            Symbol::Want(TokenKind::QuotedBrace),
            Symbol::Do(Part::QuotedBraceParts),
            Symbol::Do(Part::BodyParts),
        ],
        Rule::BodyExpansion => &[Symbol::Do(Part::Expansion), Symbol::Do(Part::BodyParts)],
        // and_or
        Rule::AndOr => &[Symbol::Do(Part::Pipeline), Symbol::Do(Part::AndOrRest)],
        // and_or_rest
        Rule::Alone => &[],
        Rule::AndThen => &[
            Symbol::Want(TokenKind::AndIf),
            Symbol::Do(Part::Linebreak),
            Symbol::Do(Part::Pipeline),
            Symbol::Do(Part::AndOrRest),
        ],
        Rule::OrElse => &[
            Symbol::Want(TokenKind::OrIf),
            Symbol::Do(Part::Linebreak),
            Symbol::Do(Part::Pipeline),
            Symbol::Do(Part::AndOrRest),
        ],
        // linebreak
        Rule::NoBreak => &[],
        Rule::Break => &[Symbol::Do(Part::Newline), Symbol::Do(Part::Linebreak)],
        // pipeline
        Rule::Negated => &[
            Symbol::Want(TokenKind::Bang),
            Symbol::Do(Part::Command),
            Symbol::Do(Part::PipeRest),
        ],
        Rule::Plain => &[Symbol::Do(Part::Command), Symbol::Do(Part::PipeRest)],
        // pipe_rest
        Rule::Unpiped => &[],
        Rule::Piped => &[
            Symbol::Want(TokenKind::Pipe),
            Symbol::Do(Part::Linebreak),
            Symbol::Do(Part::Command),
            Symbol::Do(Part::PipeRest),
        ],
        // command
        Rule::Compound => &[Symbol::Do(Part::Compound), Symbol::Do(Part::Redirects)],
        Rule::Function => &[
            Symbol::Want(TokenKind::FunctionName),
            Symbol::Want(TokenKind::FunctionOpen),
            Symbol::Want(TokenKind::FunctionClose),
            Symbol::Do(Part::Linebreak),
            Symbol::Do(Part::Compound),
            Symbol::Do(Part::Redirects),
        ],
        Rule::Assigned => &[
            Symbol::Want(TokenKind::Assignment),
            Symbol::Do(Part::Value),
            Symbol::Do(Part::Prefix),
        ],
        Rule::Redirected => &[Symbol::Do(Part::Redirect), Symbol::Do(Part::Prefix)],
        Rule::Named => &[
            Symbol::Want(TokenKind::CommandText),
            Symbol::Do(Part::Parts),
            Symbol::Do(Part::Arguments),
        ],
        Rule::QuotedName => &[
            Symbol::Do(Part::Quoted),
            Symbol::Do(Part::Parts),
            Symbol::Do(Part::Arguments),
        ],
        // compound
        Rule::Group => &[
            Symbol::Want(TokenKind::LeftBrace),
            Symbol::Do(Part::List),
            Symbol::Want(TokenKind::RightBrace),
        ],
        Rule::Subshell => &[
            Symbol::Want(TokenKind::LeftParen),
            Symbol::Do(Part::List),
            Symbol::Want(TokenKind::RightParen),
        ],
        Rule::If => &[
            Symbol::Want(TokenKind::If),
            Symbol::Do(Part::List),
            Symbol::Want(TokenKind::Then),
            Symbol::Do(Part::List),
            Symbol::Do(Part::IfRest),
        ],
        Rule::While => &[
            Symbol::Want(TokenKind::While),
            Symbol::Do(Part::List),
            Symbol::Want(TokenKind::Do),
            Symbol::Do(Part::List),
            Symbol::Want(TokenKind::Done),
        ],
        Rule::Until => &[
            Symbol::Want(TokenKind::Until),
            Symbol::Do(Part::List),
            Symbol::Want(TokenKind::Do),
            Symbol::Do(Part::List),
            Symbol::Want(TokenKind::Done),
        ],
        Rule::For => &[
            Symbol::Want(TokenKind::For),
            Symbol::Want(TokenKind::Name),
            Symbol::Do(Part::ForIn),
            Symbol::Want(TokenKind::Do),
            Symbol::Do(Part::List),
            Symbol::Want(TokenKind::Done),
        ],
        Rule::Case => &[
            Symbol::Want(TokenKind::Case),
            Symbol::Do(Part::Word),
            Symbol::Do(Part::CaseIn),
            Symbol::Do(Part::Items),
        ],
        // if_rest
        Rule::Fi => &[Symbol::Want(TokenKind::Fi)],
        Rule::Else => &[
            Symbol::Want(TokenKind::Else),
            Symbol::Do(Part::List),
            Symbol::Want(TokenKind::Fi),
        ],
        Rule::Elif => &[
            Symbol::Want(TokenKind::Elif),
            Symbol::Do(Part::List),
            Symbol::Want(TokenKind::Then),
            Symbol::Do(Part::List),
            Symbol::Do(Part::IfRest),
        ],
        // for_in
        Rule::ForParameters => &[],
        Rule::ForSemi => &[Symbol::Want(TokenKind::Semi), Symbol::Do(Part::Linebreak)],
        Rule::ForLine => &[Symbol::Do(Part::Newline), Symbol::Do(Part::ForInLater)],
        Rule::ForWords => &[Symbol::Want(TokenKind::In), Symbol::Do(Part::ForWords)],
        // for_in_later
        Rule::LaterParameters => &[],
        Rule::LaterLine => &[Symbol::Do(Part::Newline), Symbol::Do(Part::ForInLater)],
        Rule::LaterWords => &[Symbol::Want(TokenKind::In), Symbol::Do(Part::ForWords)],
        // for_words
        Rule::WordsSemi => &[Symbol::Want(TokenKind::Semi), Symbol::Do(Part::Linebreak)],
        Rule::WordsLine => &[Symbol::Do(Part::Newline), Symbol::Do(Part::Linebreak)],
        Rule::WordsMore => &[Symbol::Do(Part::Word), Symbol::Do(Part::ForWords)],
        // case_in
        Rule::CaseIn => &[Symbol::Want(TokenKind::CaseIn)],
        Rule::CaseLine => &[Symbol::Do(Part::Newline), Symbol::Do(Part::CaseIn)],
        // items
        Rule::Esac => &[Symbol::Want(TokenKind::Esac)],
        Rule::ItemLine => &[Symbol::Do(Part::Newline), Symbol::Do(Part::Items)],
        Rule::ItemOpen => &[
            Symbol::Want(TokenKind::PatternOpen),
            Symbol::Do(Part::Word),
            Symbol::Do(Part::PatternRest),
            Symbol::Do(Part::OptList),
            Symbol::Do(Part::ItemEnd),
        ],
        Rule::ItemText => &[
            Symbol::Want(TokenKind::PatternText),
            Symbol::Do(Part::Parts),
            Symbol::Do(Part::PatternRest),
            Symbol::Do(Part::OptList),
            Symbol::Do(Part::ItemEnd),
        ],
        Rule::ItemQuoted => &[
            Symbol::Do(Part::Quoted),
            Symbol::Do(Part::Parts),
            Symbol::Do(Part::PatternRest),
            Symbol::Do(Part::OptList),
            Symbol::Do(Part::ItemEnd),
        ],
        // pattern_rest
        Rule::PatternEnd => &[Symbol::Want(TokenKind::PatternClose)],
        Rule::PatternMore => &[
            Symbol::Want(TokenKind::PatternBar),
            Symbol::Do(Part::Word),
            Symbol::Do(Part::PatternRest),
        ],
        // item_end
        Rule::ItemEsac => &[Symbol::Want(TokenKind::Esac)],
        Rule::ItemNext => &[Symbol::Want(TokenKind::DoubleSemi), Symbol::Do(Part::Items)],
        // redirects
        Rule::NoRedirects => &[],
        Rule::Redirects => &[Symbol::Do(Part::Redirect), Symbol::Do(Part::Redirects)],
        // redirect
        Rule::ToFile => &[Symbol::Want(TokenKind::Redirect), Symbol::Do(Part::Word)],
        Rule::Here => &[
            Symbol::Want(TokenKind::Here),
            Symbol::Want(TokenKind::Delimiter),
        ],
        // prefix
        Rule::NoCommand => &[],
        Rule::MoreAssigned => &[
            Symbol::Want(TokenKind::Assignment),
            Symbol::Do(Part::Value),
            Symbol::Do(Part::Prefix),
        ],
        Rule::MoreRedirected => &[Symbol::Do(Part::Redirect), Symbol::Do(Part::Prefix)],
        Rule::CommandText => &[
            Symbol::Want(TokenKind::PrefixText),
            Symbol::Do(Part::Parts),
            Symbol::Do(Part::Arguments),
        ],
        Rule::CommandQuoted => &[
            Symbol::Do(Part::Quoted),
            Symbol::Do(Part::Parts),
            Symbol::Do(Part::Arguments),
        ],
        // arguments
        Rule::NoArguments => &[],
        Rule::ArgumentRedirect => &[Symbol::Do(Part::Redirect), Symbol::Do(Part::Arguments)],
        Rule::Argument => &[Symbol::Do(Part::Word), Symbol::Do(Part::Arguments)],
        // word
        Rule::WordText => &[Symbol::Want(TokenKind::WordText), Symbol::Do(Part::Parts)],
        Rule::WordQuoted => &[Symbol::Do(Part::Quoted), Symbol::Do(Part::Parts)],
        // value
        Rule::NoValue => &[Symbol::Want(TokenKind::WordEnd)],
        Rule::ValueText => &[Symbol::Want(TokenKind::ValueText), Symbol::Do(Part::Parts)],
        Rule::ValueQuoted => &[Symbol::Do(Part::Quoted), Symbol::Do(Part::Parts)],
        // parts
        Rule::EndOfWord => &[Symbol::Want(TokenKind::WordEnd)],
        Rule::Text => &[Symbol::Want(TokenKind::Text), Symbol::Do(Part::Parts)],
        Rule::Quoted => &[Symbol::Do(Part::Quoted), Symbol::Do(Part::Parts)],
        // quoted
        Rule::Escape => &[Symbol::Want(TokenKind::Escape)],
        Rule::Single => &[Symbol::Want(TokenKind::Single)],
        Rule::Double => &[
            Symbol::Want(TokenKind::QuoteOpen),
            Symbol::Do(Part::QuotedParts),
        ],
        Rule::Braces => &[Symbol::Want(TokenKind::Brace), Symbol::Do(Part::BraceStart)],
        Rule::Expands => &[Symbol::Do(Part::Expansion)],
        // expansion
        Rule::Parameter => &[Symbol::Want(TokenKind::Parameter)],
        Rule::BracedParameter => &[Symbol::Want(TokenKind::Braced)],
        Rule::Substitution => &[
            Symbol::Want(TokenKind::Substitution),
            Symbol::Do(Part::OptList),
            Symbol::Want(TokenKind::RightParen),
        ],
        Rule::Dollar => &[Symbol::Want(TokenKind::Dollar)],
        Rule::PatternBraces => &[
            Symbol::Want(TokenKind::PatternBrace),
            Symbol::Do(Part::BraceStart),
        ],
        Rule::Arithmetic => &[
            Symbol::Want(TokenKind::Arithmetic),
            Symbol::Do(Part::Arithmetic),
        ],
        // quoted_parts
        Rule::QuoteEnd => &[Symbol::Want(TokenKind::QuoteClose)],
        Rule::QuotedText => &[
            Symbol::Want(TokenKind::QuotedText),
            Symbol::Do(Part::QuotedParts),
        ],
        Rule::QuotedEscape => &[
            Symbol::Want(TokenKind::QuotedEscape),
            Symbol::Do(Part::QuotedParts),
        ],
        Rule::QuotedBraces => &[
            Symbol::Want(TokenKind::QuotedBrace),
            Symbol::Do(Part::QuotedBraceParts),
            Symbol::Do(Part::QuotedParts),
        ],
        Rule::QuotedExpansion => &[Symbol::Do(Part::Expansion), Symbol::Do(Part::QuotedParts)],
        // brace_start
        Rule::BraceEmpty => &[Symbol::Want(TokenKind::BraceClose)],
        Rule::BraceStartText => &[
            Symbol::Want(TokenKind::BraceStartText),
            Symbol::Do(Part::BraceParts),
        ],
        Rule::BraceStartQuoted => &[Symbol::Do(Part::Quoted), Symbol::Do(Part::BraceParts)],
        // brace_parts
        Rule::BraceEnd => &[Symbol::Want(TokenKind::BraceClose)],
        Rule::BraceText => &[
            Symbol::Want(TokenKind::BraceText),
            Symbol::Do(Part::BraceParts),
        ],
        Rule::BraceQuoted => &[Symbol::Do(Part::Quoted), Symbol::Do(Part::BraceParts)],
        // quoted_brace_parts
        Rule::QuotedBraceEnd => &[Symbol::Want(TokenKind::BraceClose)],
        Rule::QuotedBraceText => &[
            Symbol::Want(TokenKind::QuotedBraceText),
            Symbol::Do(Part::QuotedBraceParts),
        ],
        Rule::QuotedBraceEscape => &[
            Symbol::Want(TokenKind::QuotedBraceEscape),
            Symbol::Do(Part::QuotedBraceParts),
        ],
        Rule::InnerQuoted => &[
            Symbol::Want(TokenKind::QuoteOpen),
            Symbol::Do(Part::QuotedParts),
            Symbol::Do(Part::QuotedBraceParts),
        ],
        Rule::InnerBraces => &[
            Symbol::Want(TokenKind::QuotedBrace),
            Symbol::Do(Part::QuotedBraceParts),
            Symbol::Do(Part::QuotedBraceParts),
        ],
        Rule::InnerExpansion => &[
            Symbol::Do(Part::Expansion),
            Symbol::Do(Part::QuotedBraceParts),
        ],
        // arithmetic
        Rule::ArithmeticEnd => &[Symbol::Want(TokenKind::ArithmeticClose)],
        Rule::ArithmeticText => &[
            Symbol::Want(TokenKind::ArithmeticText),
            Symbol::Do(Part::Arithmetic),
        ],
        Rule::ArithmeticEscape => &[
            Symbol::Want(TokenKind::ArithmeticEscape),
            Symbol::Do(Part::Arithmetic),
        ],
        Rule::ParenthesisOpen => &[
            Symbol::Want(TokenKind::ParenthesisOpen),
            Symbol::Do(Part::Arithmetic),
        ],
        Rule::ParenthesisClose => &[
            Symbol::Want(TokenKind::ParenthesisClose),
            Symbol::Do(Part::Arithmetic),
        ],
        Rule::ArithmeticBraces => &[
            Symbol::Want(TokenKind::QuotedBrace),
            Symbol::Do(Part::QuotedBraceParts),
            Symbol::Do(Part::Arithmetic),
        ],
        Rule::ArithmeticExpansion => &[Symbol::Do(Part::Expansion), Symbol::Do(Part::Arithmetic)],
    }
}
