// Words, and the bodies of here-documents.
ghost use Rattle.std.specs.Prelude.{◌≡◌, OnOk, IfOk};
ghost use Rattle.sh_ast.specs.declared.word.Quoting.TheVariants.{Unquoted};
ghost use Rattle.sh_ast.specs.Words as w;
ghost use Rattle.sh_ast.specs.Commands as c;
ghost use Rattle.sh_script.specs.Values as v;
ghost use Rattle.sh_script.specs.States as st;
ghost use Rattle.sh_nodes.specs.Nodes.{word_told};
ghost use Rattle.sh_tree.specs.Seen.{state};
ghost use Rattle.sh_script.specs.Acts as act;

use crate::builder::Builder;
use crate::parts::{join_parts, text_part};
use crate::taking::{parts_in, text_in, words_in};
use crate::value::Value;
use rk_base::NoMemory;
use sh_ast::{Part, Quoting};
use sh_nodes::{NewWord, Row, new_word, word_of};
use std::alloc::Global;

/// A word's end.
#[tactic(auto, unfolding(crate::specs::Seen::seen))]
pub fn end_of_word(b: &mut Builder, alloc: Global) -> Result<(), NoMemory>
    ensures { OnOk result (state b.new ≡ act.end_of_word (state b.old)) }
{
    b.skip();
    b.open_word(alloc)?;
    b.put(Value::Parts(Row::new(alloc)))
}

// The word that begins here.
fn begun(b: &mut Builder, alloc: Global) -> Result<NewWord, NoMemory>
    ensures word { IfOk result (λ x. word_told x ≡ c.word_of (w.parts_of (v.parts_in (st.top (state b.old)))) (c.bodies_of (st.front (state b.old).bodies))) }
    ensures left { OnOk result (state b.new ≡ st.word_closed (st.less (state b.old))) }
{
    let parts = parts_in(alloc, b.pop());
    let bodies = b.close_word(alloc);
    new_word(alloc, parts, bodies)
}

/// The word that begins with a token's text, or with what quotes or expands.
#[tactic(auto, unfolding(crate::specs::Seen::seen))]
pub fn word_begun(b: &mut Builder, alloc: Global) -> Result<(), NoMemory>
    ensures { OnOk result (state b.new ≡ act.word_begun (state b.old)) }
{
    let word = begun(b, alloc)?;
    b.put(Value::Word(word))
}

/// A word that begins with text.
pub fn word_text(b: &mut Builder, alloc: Global) -> Result<(), NoMemory>
    ensures { OnOk result (state b.new ≡ act.word_begun (act.text_part Unquoted (state b.old))) }
{
    text_part(b, alloc, Quoting::Unquoted)?;
    word_begun(b, alloc)
}

/// A word that begins with what quotes or expands.
pub fn word_quoted(b: &mut Builder, alloc: Global) -> Result<(), NoMemory>
    ensures { OnOk result (state b.new ≡ act.word_begun (act.join_parts (state b.old))) }
{
    join_parts(b, alloc)?;
    word_begun(b, alloc)
}

/// An empty value.
pub fn no_value(b: &mut Builder, alloc: Global) -> Result<(), NoMemory>
    ensures { OnOk result (state b.new ≡ act.word_begun (act.end_of_word (state b.old))) }
{
    end_of_word(b, alloc)?;
    word_begun(b, alloc)
}

/// No words.
#[tactic(auto, unfolding(crate::specs::Seen::seen))]
pub fn no_words(b: &mut Builder, alloc: Global) -> Result<(), NoMemory>
    ensures { OnOk result (state b.new ≡ act.no_words (state b.old)) }
{
    b.put(Value::Words(Row::new(alloc)))
}

/// A word in front of words.
#[tactic(auto, unfolding(crate::specs::Seen::seen))]
pub fn more_words(b: &mut Builder, alloc: Global) -> Result<(), NoMemory>
    ensures { OnOk result (state b.new ≡ act.more_words (state b.old)) }
{
    let word = b.pop_word(alloc)?;
    let mut words = words_in(alloc, b.pop());
    words.add(word)?;
    b.put(Value::Words(words))
}

/// The end of a here-document's body that is expanded.
#[tactic(auto, unfolding(crate::specs::Seen::seen))]
pub fn body_end(b: &mut Builder, alloc: Global) -> Result<(), NoMemory>
    ensures { OnOk result (state b.new ≡ act.body_end (state b.old)) }
{
    b.skip();
    b.open_body(alloc)?;
    b.put(Value::Parts(Row::new(alloc)))
}

/// A here-document's body that is expanded, in front of bodies.
#[tactic(auto, unfolding(crate::specs::Seen::seen))]
pub fn body(b: &mut Builder, alloc: Global) -> Result<(), NoMemory>
    ensures { OnOk result (state b.new ≡ act.body (state b.old)) }
{
    b.skip();
    let parts = parts_in(alloc, b.pop());
    b.skip();
    let bodies = b.close_body(alloc);
    let word = word_of(alloc, parts, bodies)?;
    b.add_document(word)?;
    b.put(Value::Nothing)
}

/// A literal one: one quoted literal.
#[tactic(auto, unfolding(crate::specs::Seen::seen))]
pub fn literal_body(b: &mut Builder, alloc: Global) -> Result<(), NoMemory>
    ensures { OnOk result (state b.new ≡ act.literal_body (state b.old)) }
{
    let text = text_in(alloc, b.pop())?;
    b.skip();
    let mut parts = Row::new(alloc);
    parts.add(Part::Literal(Quoting::Quoted, text))?;
    let word = word_of(alloc, parts, Vec::new(alloc))?;
    b.add_document(word)?;
    b.put(Value::Nothing)
}
