// Reading, turn by turn: a part of the syntax gives way to the symbols of the rule that the token there chooses, a token is
// taken. Nothing calls itself, so no text overflows the stack.
ghost use Rattle.std.specs.Prelude.{◌≡◌, ◌∷◌, ◌++◌, [], List, MatchOption, MatchResult, OnOk, Some};
ghost use Rattle.sh_rules.specs.Grammar.{Symbol as Symbol', Want, Do, Blocked};
ghost use Rattle.sh_rules.specs.declared.token_kind.TokenKind as kinds;
ghost use Rattle.sh_rules.specs.Parts as parts;
ghost use Rattle.sh_rules.specs.Rules.{spelling as spelling_lem};
ghost use Rattle.sh_grammar.specs.Named.{part_named, rule_named, symbol_named};
ghost use Rattle.sh_grammar.specs.Marks.{node as node_mark, leaf as leaf_mark};
ghost use Rattle.sh_script.specs.TextReader.{StandsThere, NotOf, HaltsAt};
ghost use Rattle.sh_script.specs.Outcomes.{IsRead};
ghost use Rattle.sh_parse.specs.Finding.{Ahead};
ghost use Rattle.sh_parse.specs.Turns.{reached, Turns, StopsBy};

use crate::ahead::{Found, length_ahead, look_for};
use crate::source::{ParseErr, Source};
use crate::todo::Todo;
use rk_base::Bytes;
use sh_grammar::{Marks, Part, Rule, Symbol, choose, same_kind, spelling};
use sh_lex::mode_of;
use sh_rules::TokenKind;
use std::alloc::Global;

// How many bytes the token has that was found, where it is of a kind.
fn of_kind(kind: TokenKind, found: Option<(TokenKind, usize)>) -> Option<usize>
    ensures { MatchOption result (NotOf kind found) (λ n. found ≡ Some (kind, n)) }
{
    match found {
        Some((other, length)) => {
            if same_kind(other, kind) {
                Some(length)
            } else {
                None
            }
        }
        None => None,
    }
}

// How many bytes the token of a kind has that stands there, where one stands; `ahead` is what was found there before.
#[tactic(auto, using(crate::proofs::Turning::looked))]
fn length_of<S: Source>(s: &S, kind: TokenKind, ahead: Option<Found>) -> Option<usize>
    requires { Ahead ahead (S.place s.now) }
    ensures { MatchOption result (HaltsAt (Want kind) (S.place s.now) Blocked) (λ n. StandsThere kind n (S.place s.now)) }
{
    match length_ahead(kind, ahead) {
        Some(length) => Some(length),
        None => of_kind(kind, s.look(mode_of(kind))),
    }
}

// A token's mark.
fn put_leaf(marks: &mut Marks, text: Bytes) -> Result<(), ParseErr>
    ensures { MatchResult result (λ _. marks.new ≡ marks.old ++ (leaf_mark text ∷ [])) (λ e. e ≡ ParseErr.Memory) }
{
    match marks.push_leaf(text) {
        Err(_) => Err(ParseErr::Memory),
        Ok(()) => Ok(()),
    }
}

// A token is wanted.
#[tactic(auto, using(crate::proofs::Turning::turn_not_taken, crate::proofs::Turning::turn_taken))]
fn leaf<S: Source>(
    alloc: Global,
    s: &mut S,
    kind: TokenKind,
    ahead: Option<Found>,
    marks: &mut Marks,
) -> Result<(), ParseErr>
    requires { Ahead ahead (S.place s.old) }
    ensures { (rest : List (Symbol' kinds.TokenKind parts.Part)) → Turns (Want kind) (reached rest marks.old (S.place s.old)) (reached rest marks.new (S.place s.new)) result }
{
    match length_of(s, kind, ahead) {
        None => Err(ParseErr::Blocked),
        Some(length) => match s.take(alloc, kind, length) {
            Err(stop) => Err(stop),
            Ok(text) => put_leaf(marks, text),
        },
    }
}

// A rule's mark, and its symbols.
fn expand(rule: Rule, todo: &mut Todo, marks: &mut Marks) -> Result<(), ParseErr>
    ensures { MatchResult result (λ _. (marks.new ≡ marks.old ++ (node_mark (rule_named rule) ∷ [])) × (todo.new ≡ spelling_lem (rule_named rule) ++ todo.old)) (λ e. e ≡ ParseErr.Memory) }
{
    match marks.push_node(rule) {
        Err(_) => Err(ParseErr::Memory),
        Ok(()) => match todo.push_all(spelling(rule)) {
            Err(_) => Err(ParseErr::Memory),
            Ok(()) => Ok(()),
        },
    }
}

// A part of the syntax is wanted; the token that chose its rule stays ahead.
#[tactic(auto, using(crate::proofs::Turning::none_halts, crate::proofs::Turning::unwanted_halts, crate::proofs::Turning::turn_chosen))]
fn node<S: Source>(
    s: &S,
    part: Part,
    ahead: &mut Option<Found>,
    todo: &mut Todo,
    marks: &mut Marks,
) -> Result<(), ParseErr>
    requires { Ahead ahead.old (S.place s.now) }
    ensures turns { Turns (Do (part_named part)) (reached todo.old marks.old (S.place s.now)) (reached todo.new marks.new (S.place s.now)) result }
    ensures found { OnOk result (Ahead ahead.new (S.place s.now)) }
{
    match look_for(s, part, *ahead) {
        None => Err(ParseErr::Blocked),
        Some(found) => {
            *ahead = Some(found);
            match choose(part, found.kind) {
                None => Err(ParseErr::Blocked),
                Some(rule) => expand(rule, todo, marks),
            }
        }
    }
}

// One turn. `ahead` is what was found where the source stands, before it and after it.
#[tactic(auto, using(crate::proofs::Turning::turn_named))]
fn turn<S: Source>(
    alloc: Global,
    s: &mut S,
    symbol: Symbol,
    ahead: &mut Option<Found>,
    todo: &mut Todo,
    marks: &mut Marks,
) -> Result<(), ParseErr>
    requires { Ahead ahead.old (S.place s.old) }
    ensures turns { Turns (symbol_named symbol) (reached todo.old marks.old (S.place s.old)) (reached todo.new marks.new (S.place s.new)) result }
    ensures found { OnOk result (Ahead ahead.new (S.place s.new)) }
{
    match symbol {
        Symbol::Want(kind) => leaf(alloc, s, kind, ahead.take(), marks),
        Symbol::Do(part) => node(s, part, ahead, todo, marks),
    }
}

/// Reads a script from where the source stands to the end of the text: its marks. On an error the source stands where reading stopped.
#[tactic(auto, using(sh_script::proofs::Owed::owed_first, crate::proofs::Turning::owes_on, crate::proofs::Turning::stops_there, sh_script::proofs::Turning::whole_read))]
pub fn read_marks<S: Source>(alloc: Global, s: &mut S) -> Result<Marks, ParseErr>
    ensures { MatchResult result (λ marks. IsRead (S.place s.old) (S.place s.new) marks) (λ e. StopsBy (S.place s.old) (S.place s.new) e) }
{
    let mut todo = match Todo::script(alloc) {
        Err(_) => return Err(ParseErr::Memory),
        Ok(todo) => todo,
    };
    let mut marks = Marks::new(alloc);
    let mut ahead = None;
    'turns: while let Some(symbol) = todo.pop() {
        if let Err(stop) = turn(alloc, s, symbol, &mut ahead, &mut todo, &mut marks) {
            return Err(stop);
        }
    }
    Ok(marks)
}
