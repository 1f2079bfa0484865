// Redirections (XCU 2.7) and simple commands (XCU 2.9.1).
ghost use Rattle.std.specs.Prelude.{◌≡◌, ◌∷◌, [], OnOk, IfOk};
ghost use Rattle.sh_ast.specs.declared.word.Quoting.TheVariants.{Unquoted};
ghost use Rattle.sh_ast.specs.Commands as c;
ghost use Rattle.sh_script.specs.Values as v;
ghost use Rattle.sh_tree.specs.Seen.{state};
ghost use Rattle.sh_script.specs.States as st;
ghost use Rattle.sh_script.specs.Texts as t;
ghost use Rattle.sh_script.specs.Acts as act;

use crate::builder::Builder;
use crate::rows::{all_in_front, in_front};
use crate::taking::{redirects_in, simple_in, text_in, word_in};
use crate::value::Value;
use crate::words::{word_quoted, word_text};
use rk_base::NoMemory;
use sh_ast::{Assignment, Command, Redirect, RedirectOperator, Word};
use sh_nodes::{Row, word_of};
use sh_script::{byte_at, descriptor_of, without_last};
use std::alloc::Global;
use std::rc::Rc;

fn operator_of(operator: &[u8]) -> RedirectOperator
    ensures { result ≡ t.operator_of operator.now }
{
    let second = byte_at(operator, 1);
    if second == b'&' {
        RedirectOperator::Duplicate
    } else if byte_at(operator, 0) == b'<' {
        RedirectOperator::Input
    } else if second == b'>' {
        RedirectOperator::Append
    } else {
        RedirectOperator::Output
    }
}

#[tactic(auto, unfolding(crate::specs::Seen::seen))]
fn put_redirect(b: &mut Builder, alloc: Global, redirect: Redirect) -> Result<(), NoMemory>
    ensures { OnOk result (state b.new ≡ st.with (v.redirects (c.redirect redirect ∷ [])) (state b.old)) }
{
    let mut redirects = Row::new(alloc);
    redirects.add(redirect)?;
    b.put(Value::Redirects(redirects))
}

/// An operator and its operand.
pub fn to_file(b: &mut Builder, alloc: Global) -> Result<(), NoMemory>
    ensures { OnOk result (state b.new ≡ act.to_file (state b.old)) }
{
    let text = text_in(alloc, b.pop())?;
    let operand = b.pop_word(alloc)?;
    let (descriptor, operator) = descriptor_of(text.as_slice());
    let redirect = Redirect {
        descriptor,
        operator: operator_of(operator),
        operand,
    };
    put_redirect(b, alloc, redirect)
}

fn document(b: &mut Builder, alloc: Global) -> Result<Rc<Word>, NoMemory>
    ensures body { IfOk result (λ r. c.word r.value ≡ act.document (st.last (st.front (state b.old).documents))) }
    ensures left { OnOk result (state b.new ≡ st.without_document (state b.old)) }
{
    match b.take_document()? {
        Some(body) => Ok(body),
        None => word_of(alloc, Row::new(alloc), Vec::new(alloc)),
    }
}

/// A here-document: it has the last body behind it that no operator behind it has.
pub fn here(b: &mut Builder, alloc: Global) -> Result<(), NoMemory>
    ensures { OnOk result (state b.new ≡ act.here (state b.old)) }
{
    let text = text_in(alloc, b.pop())?;
    b.skip();
    let operand = document(b, alloc)?;
    let (descriptor, _) = descriptor_of(text.as_slice());
    let redirect = Redirect {
        descriptor,
        operator: RedirectOperator::HereDocument,
        operand,
    };
    put_redirect(b, alloc, redirect)
}

/// No redirections.
#[tactic(auto, unfolding(crate::specs::Seen::seen))]
pub fn no_redirects(b: &mut Builder, alloc: Global) -> Result<(), NoMemory>
    ensures { OnOk result (state b.new ≡ act.no_redirects (state b.old)) }
{
    b.put(Value::Redirects(Row::new(alloc)))
}

/// A redirection in front of redirections.
#[tactic(auto, unfolding(crate::specs::Seen::seen))]
pub fn more_redirects(b: &mut Builder, alloc: Global) -> Result<(), NoMemory>
    ensures { OnOk result (state b.new ≡ act.more_redirects (state b.old)) }
{
    let front = redirects_in(alloc, b.pop());
    let redirects = all_in_front(front, redirects_in(alloc, b.pop()))?;
    b.put(Value::Redirects(redirects))
}

/// Nothing more of a simple command.
#[tactic(auto, unfolding(crate::specs::Seen::seen))]
pub fn nothing_simple(b: &mut Builder, alloc: Global) -> Result<(), NoMemory>
    ensures { OnOk result (state b.new ≡ act.no_pieces (state b.old)) }
{
    b.put(Value::Simple(Row::new(alloc), Row::new(alloc), Row::new(alloc)))
}

/// An assignment in front.
#[tactic(auto, unfolding(crate::specs::Seen::seen))]
pub fn assigned(b: &mut Builder, alloc: Global) -> Result<(), NoMemory>
    ensures { OnOk result (state b.new ≡ act.assigned (state b.old)) }
{
    let text = text_in(alloc, b.pop())?;
    let value = b.pop_word(alloc)?;
    let (mut assignments, words, redirects) = simple_in(alloc, b.pop());
    let name = without_last(alloc, text.as_slice())?;
    let name = b.text(alloc, name)?;
    assignments.add(Assignment { name, value })?;
    b.put(Value::Simple(assignments, words, redirects))
}

/// A redirection in front.
#[tactic(auto, unfolding(crate::specs::Seen::seen))]
pub fn redirected(b: &mut Builder, alloc: Global) -> Result<(), NoMemory>
    ensures { OnOk result (state b.new ≡ act.redirected (state b.old)) }
{
    let front = redirects_in(alloc, b.pop());
    let (assignments, words, redirects) = simple_in(alloc, b.pop());
    let redirects = all_in_front(front, redirects)?;
    b.put(Value::Simple(assignments, words, redirects))
}

/// A word in front.
#[tactic(auto, unfolding(crate::specs::Seen::seen))]
pub fn argument(b: &mut Builder, alloc: Global) -> Result<(), NoMemory>
    ensures { OnOk result (state b.new ≡ act.argument (state b.old)) }
{
    let word = b.pop_word(alloc)?;
    let (assignments, words, redirects) = simple_in(alloc, b.pop());
    let words = in_front(word, words)?;
    b.put(Value::Simple(assignments, words, redirects))
}

/// A command's name that begins with text, in front.
pub fn name_text(b: &mut Builder, alloc: Global) -> Result<(), NoMemory>
    ensures { OnOk result (state b.new ≡ act.argument (act.word_begun (act.text_part Unquoted (state b.old)))) }
{
    word_text(b, alloc)?;
    argument(b, alloc)
}

/// An argument that is a word which begins with what quotes or expands.
pub fn name_quoted(b: &mut Builder, alloc: Global) -> Result<(), NoMemory>
    ensures { OnOk result (state b.new ≡ act.argument (act.word_begun (act.join_parts (state b.old)))) }
{
    word_quoted(b, alloc)?;
    argument(b, alloc)
}

/// The simple command that begins here.
pub fn simple_begun(b: &mut Builder, alloc: Global) -> Result<(), NoMemory>
    ensures { OnOk result (state b.new ≡ act.simple_begun (state b.old)) }
{
    let (assignments, words, redirects) = simple_in(alloc, b.pop());
    let command = b.shared.simple(alloc, assignments, words, redirects)?;
    b.put_command(alloc, Command::Simple(command))
}

// The simple command of the word in front and what stands behind it.
fn put_named(b: &mut Builder, alloc: Global) -> Result<(), NoMemory>
    ensures { OnOk result (state b.new ≡ st.for_two (st.one_command (c.simple (c.simply (c.assignments_of (v.assignments_in (st.second (state b.old)))) (c.words_of (v.word_in (st.top (state b.old)) ∷ v.arguments_in (st.second (state b.old)))) (c.redirects_of (v.redirections_in (st.second (state b.old))))))) (state b.old)) }
{
    let name = word_in(alloc, b.pop())?;
    let (assignments, words, redirects) = simple_in(alloc, b.pop());
    let command = b.named(alloc, name, assignments, words, redirects)?;
    b.put_command(alloc, Command::Simple(command))
}

/// The simple command whose name is in front.
#[tactic(auto, using(crate::proofs::MadeLemmas::named))]
pub fn command_named(b: &mut Builder, alloc: Global) -> Result<(), NoMemory>
    ensures { OnOk result (state b.new ≡ act.simple_begun (act.argument (state b.old))) }
{
    put_named(b, alloc)?;
    Ok(())
}
