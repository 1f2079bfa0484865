// What reading leaves, mark by mark.
ghost use Rattle.std.specs.Prelude.{◌≡◌, ◌∷◌, ◌++◌, [], OnOk, MatchOption};
ghost use Rattle.sh_grammar.specs.Named.{rule_named};
ghost use Rattle.sh_grammar.specs.Marks.{node, leaf, mark_named};

use crate::rule::Rule;
use rk_base::{Bytes, NoMemory};
use std::alloc::Global;
use std::marker::Model;

/// In the order of the text: a rule in front of what its symbols are, or the text of a token.
#[derive(Drop)]
pub enum Mark {
    Node(Rule),
    Leaf(Bytes),
}

/// Marks, in the order of the text. The texts of tokens stand by themselves, so that a rule's mark takes no room for one.
#[derive(Drop)]
pub struct Marks {
    // The rule of each mark, or `None` for a token's.
    rules: Vec<Option<Rule>>,
    texts: Vec<Bytes>,
}

impl Model for Marks {
    ghost use Rattle.std.specs.Prelude.{List, reverse};
    ghost use Rattle.sh_grammar.specs.Marks.{Mark, gathered};

    ghost Value = { List Mark };

    ghost view = { λ m. reverse (gathered (reverse m.rules.items) (reverse m.texts.items)) };
}

// Takes the last item of a list, and gives back the list's room once half of it is free.
fn take_last<T>(items: &mut Vec<T>) -> Option<T>
    ensures { MatchOption result ((items.old.items ≡ []) × (items.new.items ≡ [])) (λ x. items.old.items ≡ items.new.items ++ x ∷ []) }
{
    let last = items.pop();
    if items.len() < items.capacity() / 2 {
        items.shrink_to_fit();
    }
    last
}

impl Marks {
    /// No marks.
    pub fn new(alloc: Global) -> Marks
        ensures { result ≡ [] }
    {
        Marks {
            rules: Vec::new(alloc),
            texts: Vec::new(alloc),
        }
    }

    /// A rule's mark more, at the end.
    #[tactic(auto, using(crate::proofs::Gathering::with_node))]
    pub fn push_node(&mut self, rule: Rule) -> Result<(), NoMemory>
        ensures { OnOk result (self.new ≡ self.old ++ (node (rule_named rule) ∷ [])) }
    {
        self.rules.push(Some(rule))?;
        Ok(())
    }

    /// A token's mark more, at the end: its text.
    #[tactic(auto, using(crate::proofs::Gathering::with_leaf))]
    pub fn push_leaf(&mut self, text: Bytes) -> Result<(), NoMemory>
        ensures { OnOk result (self.new ≡ self.old ++ (leaf text ∷ [])) }
    {
        self.texts.push(text)?;
        self.rules.push(None)?;
        Ok(())
    }

    /// Takes the last mark, and its room too; `None` exactly where there are none.
    #[tactic(auto, using(crate::proofs::Gathering::with_node, crate::proofs::Gathering::with_leaf, crate::proofs::Gathering::with_none))]
    pub fn pop(&mut self) -> Option<Mark>
        ensures { MatchOption result (self.old ≡ []) (λ mark. self.old ≡ self.new ++ (mark_named mark ∷ [])) }
    {
        match take_last(&mut self.rules) {
            None => None,
            Some(Some(rule)) => Some(Mark::Node(rule)),
            Some(None) => match take_last(&mut self.texts) {
                None => None,
                Some(text) => Some(Mark::Leaf(text)),
            },
        }
    }
}
