// Compound commands and functions (XCU 2.9.4, 2.9.5).
ghost use Rattle.std.specs.Prelude.{◌≡◌, OnOk, IfOk};
ghost use Rattle.sh_ast.specs.declared.word.Quoting.TheVariants.{Unquoted};
ghost use Rattle.sh_ast.specs.Commands as c;
ghost use Rattle.sh_tree.specs.Seen.{seen, for_words_seen, state};
ghost use Rattle.sh_script.specs.States.{less};
ghost use Rattle.sh_script.specs.Acts as act;

use crate::builder::Builder;
use crate::rows::in_front;
use crate::taking::{
    branches_in, commands_in, compound_in, items_in, list_in, redirects_in, text_in, words_in,
};
use crate::value::Value;
use crate::words::{word_quoted, word_text};
use rk_base::NoMemory;
use sh_ast::{Branch, CaseItem, Command, Compound, LoopKind, Words};
use sh_nodes::{Row, branches_of, case_items_of, commands_of, words_of};
use std::alloc::Global;
use std::rc::Rc;

/// A compound command and its redirections.
pub fn compound(b: &mut Builder, alloc: Global) -> Result<(), NoMemory>
    ensures { OnOk result (state b.new ≡ act.compound_command (state b.old)) }
{
    let body = compound_in(alloc, b.pop())?;
    let redirects = redirects_in(alloc, b.pop());
    let body = Rc::new(alloc, body)?;
    let redirects = b.shared.redirects(alloc, redirects)?;
    b.put_command(alloc, Command::Compound(body, redirects))
}

/// The definition of a function.
pub fn function(b: &mut Builder, alloc: Global) -> Result<(), NoMemory>
    ensures { OnOk result (state b.new ≡ act.function (state b.old)) }
{
    let name = text_in(alloc, b.pop())?;
    b.skip();
    b.skip();
    b.skip();
    let body = compound_in(alloc, b.pop())?;
    let redirects = redirects_in(alloc, b.pop());
    let body = Rc::new(alloc, body)?;
    let redirects = b.shared.redirects(alloc, redirects)?;
    b.put_command(alloc, Command::Function(name, body, redirects))
}

/// `{ list }`
#[tactic(auto, unfolding(crate::specs::Seen::seen))]
pub fn group(b: &mut Builder, alloc: Global) -> Result<(), NoMemory>
    ensures { OnOk result (state b.new ≡ act.group (state b.old)) }
{
    b.skip();
    let body = list_in(alloc, b.pop())?;
    b.skip();
    b.put(Value::Compound(Compound::Group(body)))
}

/// `( list )`
#[tactic(auto, unfolding(crate::specs::Seen::seen))]
pub fn subshell(b: &mut Builder, alloc: Global) -> Result<(), NoMemory>
    ensures { OnOk result (state b.new ≡ act.subshell (state b.old)) }
{
    b.skip();
    let body = list_in(alloc, b.pop())?;
    b.skip();
    b.put(Value::Compound(Compound::Subshell(body)))
}

/// `while` and `until`
#[tactic(auto, unfolding(crate::specs::Seen::seen))]
pub fn loops(b: &mut Builder, alloc: Global, kind: LoopKind) -> Result<(), NoMemory>
    ensures { OnOk result (state b.new ≡ act.loops kind (state b.old)) }
{
    b.skip();
    let condition = list_in(alloc, b.pop())?;
    b.skip();
    let body = list_in(alloc, b.pop())?;
    b.skip();
    b.put(Value::Compound(Compound::Loop(kind, condition, body)))
}

/// The last of an `if`'s branches: nothing stands behind `else`.
#[tactic(auto, unfolding(crate::specs::Seen::seen))]
pub fn no_branches(b: &mut Builder, alloc: Global) -> Result<(), NoMemory>
    ensures { OnOk result (state b.new ≡ act.no_branches (state b.old)) }
{
    b.skip();
    b.put(Value::Branches(Row::new(alloc), Row::new(alloc)))
}

/// `else list fi`
#[tactic(auto, unfolding(crate::specs::Seen::seen))]
pub fn otherwise(b: &mut Builder, alloc: Global) -> Result<(), NoMemory>
    ensures { OnOk result (state b.new ≡ act.otherwise (state b.old)) }
{
    b.skip();
    let commands = commands_in(alloc, b.pop());
    b.skip();
    b.put(Value::Branches(Row::new(alloc), commands))
}

/// `if list then list`, or with `elif`, in front of what follows.
#[tactic(auto, unfolding(crate::specs::Seen::seen))]
pub fn branch(b: &mut Builder, alloc: Global) -> Result<(), NoMemory>
    ensures { OnOk result (state b.new ≡ act.branch (state b.old)) }
{
    b.skip();
    let condition = list_in(alloc, b.pop())?;
    b.skip();
    let body = list_in(alloc, b.pop())?;
    let (branches, otherwise) = branches_in(alloc, b.pop());
    let branches = in_front(Branch { condition, body }, branches)?;
    b.put(Value::Branches(branches, otherwise))
}

/// An `if`.
#[tactic(auto, unfolding(crate::specs::Seen::seen))]
pub fn if_command(b: &mut Builder, alloc: Global) -> Result<(), NoMemory>
    ensures { OnOk result (state b.new ≡ act.if_begun (act.branch (state b.old))) }
{
    branch(b, alloc)?;
    let (branches, otherwise) = branches_in(alloc, b.pop());
    let branches = branches_of(alloc, branches)?;
    let otherwise = commands_of(alloc, otherwise)?;
    b.put(Value::Compound(Compound::If(branches, otherwise)))
}

// The words behind `in`, where it stands.
#[tactic(auto, unfolding(crate::specs::Seen::seen))]
fn for_words(alloc: Global, value: Value) -> Result<Option<Rc<Words>>, NoMemory>
    ensures { IfOk result (λ o. for_words_seen o ≡ act.for_words (seen value)) }
{
    match value {
        Value::Words(words) => {
            let words = words_of(alloc, words)?;
            Ok(Some(words))
        }
        other => {
            drop(other);
            Ok(None)
        }
    }
}

/// A `for`.
#[tactic(auto, unfolding(crate::specs::Seen::seen))]
pub fn for_command(b: &mut Builder, alloc: Global) -> Result<(), NoMemory>
    ensures { OnOk result (state b.new ≡ act.for_command (state b.old)) }
{
    b.skip();
    let name = text_in(alloc, b.pop())?;
    let words = for_words(alloc, b.pop())?;
    b.skip();
    let body = list_in(alloc, b.pop())?;
    b.skip();
    b.put(Value::Compound(Compound::For(name, words, body)))
}

/// A `case`.
#[tactic(auto, unfolding(crate::specs::Seen::seen))]
pub fn case_command(b: &mut Builder, alloc: Global) -> Result<(), NoMemory>
    ensures { OnOk result (state b.new ≡ act.case_command (state b.old)) }
{
    b.skip();
    let word = b.pop_word(alloc)?;
    b.skip();
    let items = items_in(alloc, b.pop());
    let items = case_items_of(alloc, items)?;
    b.put(Value::Compound(Compound::Case(word, items)))
}

/// No items of a `case`.
#[tactic(auto, unfolding(crate::specs::Seen::seen))]
pub fn no_items(b: &mut Builder, alloc: Global) -> Result<(), NoMemory>
    ensures { OnOk result (state b.new ≡ act.no_items (state b.old)) }
{
    b.skip();
    b.put(Value::Items(Row::new(alloc)))
}

/// No patterns more.
#[tactic(auto, unfolding(crate::specs::Seen::seen))]
pub fn no_patterns(b: &mut Builder, alloc: Global) -> Result<(), NoMemory>
    ensures { OnOk result (state b.new ≡ act.no_words (less (state b.old))) }
{
    b.skip();
    b.put(Value::Words(Row::new(alloc)))
}

/// An item in front of items: its first pattern, the others, and its commands.
#[tactic(auto, unfolding(crate::specs::Seen::seen))]
pub fn item(b: &mut Builder, alloc: Global) -> Result<(), NoMemory>
    ensures { OnOk result (state b.new ≡ act.item (state b.old)) }
{
    let pattern = b.pop_word(alloc)?;
    let patterns = in_front(pattern, words_in(alloc, b.pop()))?;
    let patterns = words_of(alloc, patterns)?;
    let body = list_in(alloc, b.pop())?;
    let item = CaseItem { patterns, body };
    let items = in_front(item, items_in(alloc, b.pop()))?;
    b.put(Value::Items(items))
}

/// An item in front of items, whose patterns stand behind an opening parenthesis.
pub fn item_open(b: &mut Builder, alloc: Global) -> Result<(), NoMemory>
    ensures { OnOk result (state b.new ≡ act.item (less (state b.old))) }
{
    b.skip();
    item(b, alloc)
}

/// An item in front of items, whose first pattern begins with text.
pub fn item_text(b: &mut Builder, alloc: Global) -> Result<(), NoMemory>
    ensures { OnOk result (state b.new ≡ act.item (act.word_begun (act.text_part Unquoted (state b.old)))) }
{
    word_text(b, alloc)?;
    item(b, alloc)
}

/// An item in front of items, whose first pattern begins with what quotes or expands.
pub fn item_quoted(b: &mut Builder, alloc: Global) -> Result<(), NoMemory>
    ensures { OnOk result (state b.new ≡ act.item (act.word_begun (act.join_parts (state b.old)))) }
{
    word_quoted(b, alloc)?;
    item(b, alloc)
}
