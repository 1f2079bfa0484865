// What each rule makes of the values of its symbols.
ghost use Rattle.std.specs.Prelude.{◌≡◌, OnOk};
ghost use Rattle.sh_ast.specs.declared.word.Quoting.TheVariants.{Unquoted};
ghost use Rattle.sh_grammar.specs.Named.{rule_named};
ghost use Rattle.sh_tree.specs.Seen.{state};
ghost use Rattle.sh_script.specs.Acts as act;
ghost use Rattle.sh_script.specs.States.{less, with};
ghost use Rattle.sh_script.specs.Values.{nothing as nothing_value};

use crate::builder::Builder;
use crate::compounds::{
    branch, case_command, compound, for_command, function, group, if_command, item_open,
    item_quoted, item_text, loops, no_branches, no_items, no_patterns, otherwise, subshell,
};
use crate::lists::{alone, and_or, joined, more_commands, negated, no_commands, piped, plain};
use crate::parts::{
    arithmetic, braced, braces, command_substitution, dollar, double, escape, escape_part,
    inner_quoted, join_parts, no_parts, parameter, pattern_braces, quoted_braces, quoted_expansion,
    single, text_part,
};
use crate::simple::{
    argument, assigned, command_named, here, more_redirects, name_quoted, name_text, no_redirects,
    nothing_simple, redirected, simple_begun, to_file,
};
use crate::value::Value;
use crate::words::{
    body, body_end, end_of_word, literal_body, more_words, no_value, no_words, word_quoted,
    word_text,
};
use rk_base::NoMemory;
use sh_ast::{Connector, LoopKind, Quoting};
use sh_grammar::Rule;
use std::alloc::Global;

// Nothing, in place of no value, of one, and of two.
#[tactic(auto, unfolding(crate::specs::Seen::seen))]
fn nothing(b: &mut Builder) -> Result<(), NoMemory>
    ensures { OnOk result (state b.new ≡ with nothing_value (state b.old)) }
{
    b.put(Value::Nothing)
}

#[tactic(auto, unfolding(crate::specs::Seen::seen))]
fn nothing_for_one(b: &mut Builder) -> Result<(), NoMemory>
    ensures { OnOk result (state b.new ≡ with nothing_value (less (state b.old))) }
{
    b.skip();
    b.put(Value::Nothing)
}

#[tactic(auto, unfolding(crate::specs::Seen::seen))]
fn nothing_for_two(b: &mut Builder) -> Result<(), NoMemory>
    ensures { OnOk result (state b.new ≡ with nothing_value (less (less (state b.old)))) }
{
    b.skip();
    b.skip();
    b.put(Value::Nothing)
}

// The second of two values.
fn second(b: &mut Builder) -> Result<(), NoMemory>
    ensures { OnOk result (state b.new ≡ less (state b.old)) }
{
    b.skip();
    Ok(())
}

// Words behind a separator and line breaks: none.
fn words_end(b: &mut Builder, alloc: Global) -> Result<(), NoMemory>
    ensures { OnOk result (state b.new ≡ act.no_words (less (less (state b.old)))) }
{
    b.skip();
    b.skip();
    no_words(b, alloc)
}

fn more_patterns(b: &mut Builder, alloc: Global) -> Result<(), NoMemory>
    ensures { OnOk result (state b.new ≡ act.more_words (less (state b.old))) }
{
    b.skip();
    more_words(b, alloc)
}

fn assigned_command(b: &mut Builder, alloc: Global) -> Result<(), NoMemory>
    ensures { OnOk result (state b.new ≡ act.simple_begun (act.assigned (state b.old))) }
{
    assigned(b, alloc)?;
    simple_begun(b, alloc)
}

fn redirected_command(b: &mut Builder, alloc: Global) -> Result<(), NoMemory>
    ensures { OnOk result (state b.new ≡ act.simple_begun (act.redirected (state b.old))) }
{
    redirected(b, alloc)?;
    simple_begun(b, alloc)
}

fn named_command(b: &mut Builder, alloc: Global) -> Result<(), NoMemory>
    ensures { OnOk result (state b.new ≡ act.simple_begun (act.argument (act.word_begun (act.text_part Unquoted (state b.old))))) }
{
    word_text(b, alloc)?;
    command_named(b, alloc)
}

fn quoted_command(b: &mut Builder, alloc: Global) -> Result<(), NoMemory>
    ensures { OnOk result (state b.new ≡ act.simple_begun (act.argument (act.word_begun (act.join_parts (state b.old))))) }
{
    word_quoted(b, alloc)?;
    command_named(b, alloc)
}

/// Puts the value of a rule in place of those of its symbols.
pub fn act(b: &mut Builder, alloc: Global, rule: Rule) -> Result<(), NoMemory>
    ensures { OnOk result (state b.new ≡ act.acted (rule_named rule) (state b.old)) }
{
    match rule {
        Rule::NothingMore => no_commands(b, alloc),
        Rule::MoreLines => second(b),
        Rule::Commands => more_commands(b, alloc),
        Rule::Lines => second(b),
        Rule::Listed => more_commands(b, alloc),
        Rule::Last => no_commands(b, alloc),
        Rule::SemiList => second(b),
        Rule::LineList => second(b),
        Rule::Line => nothing_for_two(b),
        Rule::NoBody => nothing_for_one(b),
        Rule::LiteralBody => literal_body(b, alloc),
        Rule::Body => body(b, alloc),
        Rule::BodyEnd => body_end(b, alloc),
        Rule::BodyText => text_part(b, alloc, Quoting::Quoted),
        Rule::BodyEscape => escape_part(b, alloc),
        Rule::BodyBraced => quoted_braces(b, alloc),
        Rule::BodyExpansion => quoted_expansion(b, alloc),
        Rule::AndOr => and_or(b, alloc),
        Rule::Alone => alone(b, alloc),
        Rule::AndThen => joined(b, alloc, Connector::And),
        Rule::OrElse => joined(b, alloc, Connector::Or),
        Rule::NoBreak => nothing(b),
        Rule::Break => nothing_for_two(b),
        Rule::Negated => negated(b, alloc),
        Rule::Plain => plain(b, alloc),
        Rule::Unpiped => no_commands(b, alloc),
        Rule::Piped => piped(b, alloc),
        Rule::Compound => compound(b, alloc),
        Rule::Function => function(b, alloc),
        Rule::Assigned => assigned_command(b, alloc),
        Rule::Redirected => redirected_command(b, alloc),
        Rule::Named => named_command(b, alloc),
        Rule::QuotedName => quoted_command(b, alloc),
        Rule::Group => group(b, alloc),
        Rule::Subshell => subshell(b, alloc),
        Rule::If => if_command(b, alloc),
        Rule::While => loops(b, alloc, LoopKind::While),
        Rule::Until => loops(b, alloc, LoopKind::Until),
        Rule::For => for_command(b, alloc),
        Rule::Case => case_command(b, alloc),
        Rule::Fi => no_branches(b, alloc),
        Rule::Else => otherwise(b, alloc),
        Rule::Elif => branch(b, alloc),
        Rule::ForParameters => nothing(b),
        Rule::ForSemi => nothing_for_two(b),
        Rule::ForLine => second(b),
        Rule::ForWords => second(b),
        Rule::LaterParameters => nothing(b),
        Rule::LaterLine => second(b),
        Rule::LaterWords => second(b),
        Rule::WordsSemi => words_end(b, alloc),
        Rule::WordsLine => words_end(b, alloc),
        Rule::WordsMore => more_words(b, alloc),
        Rule::CaseIn => nothing_for_one(b),
        Rule::CaseLine => nothing_for_two(b),
        Rule::Esac => no_items(b, alloc),
        Rule::ItemLine => second(b),
        Rule::ItemOpen => item_open(b, alloc),
        Rule::ItemText => item_text(b, alloc),
        Rule::ItemQuoted => item_quoted(b, alloc),
        Rule::PatternEnd => no_patterns(b, alloc),
        Rule::PatternMore => more_patterns(b, alloc),
        Rule::ItemEsac => no_items(b, alloc),
        Rule::ItemNext => second(b),
        Rule::NoRedirects => no_redirects(b, alloc),
        Rule::Redirects => more_redirects(b, alloc),
        Rule::ToFile => to_file(b, alloc),
        Rule::Here => here(b, alloc),
        Rule::NoCommand => nothing_simple(b, alloc),
        Rule::MoreAssigned => assigned(b, alloc),
        Rule::MoreRedirected => redirected(b, alloc),
        Rule::CommandText => name_text(b, alloc),
        Rule::CommandQuoted => name_quoted(b, alloc),
        Rule::NoArguments => nothing_simple(b, alloc),
        Rule::ArgumentRedirect => redirected(b, alloc),
        Rule::Argument => argument(b, alloc),
        Rule::WordText => word_text(b, alloc),
        Rule::WordQuoted => word_quoted(b, alloc),
        Rule::NoValue => no_value(b, alloc),
        Rule::ValueText => word_text(b, alloc),
        Rule::ValueQuoted => word_quoted(b, alloc),
        Rule::EndOfWord => end_of_word(b, alloc),
        Rule::Text => text_part(b, alloc, Quoting::Unquoted),
        Rule::Quoted => join_parts(b, alloc),
        Rule::Escape => escape(b, alloc),
        Rule::Single => single(b, alloc),
        Rule::Double => double(b, alloc),
        Rule::Braces => braces(b, alloc),
        Rule::Expands => Ok(()),
        Rule::Parameter => parameter(b, alloc),
        Rule::BracedParameter => braced(b, alloc),
        Rule::Substitution => command_substitution(b, alloc),
        Rule::Dollar => dollar(b, alloc),
        Rule::PatternBraces => pattern_braces(b, alloc),
        Rule::Arithmetic => arithmetic(b, alloc),
        Rule::QuoteEnd => no_parts(b, alloc),
        Rule::QuotedText => text_part(b, alloc, Quoting::Quoted),
        Rule::QuotedEscape => escape_part(b, alloc),
        Rule::QuotedBraces => quoted_braces(b, alloc),
        Rule::QuotedExpansion => quoted_expansion(b, alloc),
        Rule::BraceEmpty => no_parts(b, alloc),
        Rule::BraceStartText => text_part(b, alloc, Quoting::Unquoted),
        Rule::BraceStartQuoted => join_parts(b, alloc),
        Rule::BraceEnd => no_parts(b, alloc),
        Rule::BraceText => text_part(b, alloc, Quoting::Unquoted),
        Rule::BraceQuoted => join_parts(b, alloc),
        Rule::QuotedBraceEnd => no_parts(b, alloc),
        Rule::QuotedBraceText => text_part(b, alloc, Quoting::Quoted),
        Rule::QuotedBraceEscape => escape_part(b, alloc),
        Rule::InnerQuoted => inner_quoted(b, alloc),
        Rule::InnerBraces => quoted_braces(b, alloc),
        Rule::InnerExpansion => quoted_expansion(b, alloc),
        Rule::ArithmeticEnd => no_parts(b, alloc),
        Rule::ArithmeticText => text_part(b, alloc, Quoting::Quoted),
        Rule::ArithmeticEscape => escape_part(b, alloc),
        Rule::ParenthesisOpen => text_part(b, alloc, Quoting::Quoted),
        Rule::ParenthesisClose => text_part(b, alloc, Quoting::Quoted),
        Rule::ArithmeticBraces => quoted_braces(b, alloc),
        Rule::ArithmeticExpansion => quoted_expansion(b, alloc),
    }
}
