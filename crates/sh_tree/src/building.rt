// Scripts, out of marks.
ghost use Rattle.std.specs.Prelude.{◌≡◌, IfOk, OnOk};
ghost use Rattle.sh_ast.specs.Commands as c;
ghost use Rattle.sh_grammar.specs.Marks.{mark_named};
ghost use Rattle.sh_tree.specs.Seen.{state};
ghost use Rattle.sh_script.specs.Folds.{script_marked, marked};

use crate::act::act;
use crate::builder::Builder;
use crate::taking::list_in;
use crate::value::Value;
use rk_base::NoMemory;
use sh_ast::CommandList;
use sh_grammar::{Mark, Marks};
use std::alloc::Global;
use std::rc::Rc;

/// The commands of a script, by the marks that its reading leaves.
#[tactic(auto, unfolding(sh_script::specs::Folds::marked_all, sh_script::specs::Folds::script_marked), using(sh_script::proofs::FoldLemmas::marked_pushed))]
pub fn build(alloc: Global, mut marks: Marks) -> Result<Rc<CommandList>, NoMemory>
    ensures { IfOk result (λ r. c.commands r.value ≡ script_marked marks) }
{
    let mut b = Builder::new(alloc)?;
    'marks: while let Some(mark) = marks.pop() {
        add(&mut b, alloc, mark)?;
    }
    list_in(alloc, b.pop())
}

#[tactic(auto, unfolding(crate::specs::Seen::seen, sh_script::specs::Folds::marked))]
fn add(b: &mut Builder, alloc: Global, mark: Mark) -> Result<(), NoMemory>
    ensures { OnOk result (state b.new ≡ marked (mark_named mark) (state b.old)) }
{
    match mark {
        Mark::Leaf(text) => b.put(Value::Text(text)),
        Mark::Node(rule) => act(b, alloc, rule),
    }
}
