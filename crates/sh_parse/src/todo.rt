// Symbols that are still to be read.
ghost use Rattle.std.specs.Prelude.{◌≡◌, ◌∷◌, ◌++◌, [], OnOk, IfOk, MatchOption, map, reverse, option_to_list};
ghost use Rattle.sh_rules.specs.Rules.{script};
ghost use Rattle.sh_grammar.specs.Named.{symbol_named};

use rk_base::NoMemory;
use sh_grammar::{Part, Symbol};
use sh_rules::TokenKind;
use std::alloc::Global;
use std::marker::Model;

/// Symbols, the next one on top. It stands by itself, so that a rule's first symbol isn't put down to be taken up again at once.
#[derive(Drop)]
pub struct Todo {
    next: Option<Symbol>,
    // What stands under it, the uppermost last.
    under: Vec<Symbol>,
}

impl Model for Todo {
    ghost use Rattle.std.specs.Prelude.{List, ◌++◌, map, reverse, option_to_list};
    ghost use Rattle.sh_rules.specs.Grammar.{Symbol};
    ghost use Rattle.sh_rules.specs.declared.token_kind.TokenKind.{TokenKind};
    ghost use Rattle.sh_rules.specs.Parts.{Part};
    ghost use Rattle.sh_grammar.specs.Named.{symbol_named};

    ghost Value = { List (Symbol TokenKind Part) };

    ghost view = { λ t. map symbol_named (option_to_list t.next ++ reverse t.under.items) };
}

// Puts a symbol on top, where there is one.
fn put_one(under: &mut Vec<Symbol>, symbol: Option<Symbol>) -> Result<(), NoMemory>
    ensures { OnOk result (reverse under.new.items ≡ option_to_list symbol ++ reverse under.old.items) }
{
    if let Some(symbol) = symbol {
        under.push(symbol)?;
    }
    Ok(())
}

// Puts symbols on top, the first of them uppermost.
#[tactic(auto, using(crate::proofs::Pushed::last_pushed))]
fn put_all(under: &mut Vec<Symbol>, symbols: &[Symbol]) -> Result<(), NoMemory>
    ensures { OnOk result (reverse under.new.items ≡ symbols.now ++ reverse under.old.items) }
{
    let mut left = symbols;
    'symbols: while let Some((last, front)) = left.split_last() {
        under.push(*last)?;
        left = front;
    }
    Ok(())
}

impl Todo {
    /// A script: commands, and the end of the text.
    pub fn script(alloc: Global) -> Result<Todo, NoMemory>
        ensures { IfOk result (λ t. t ≡ script) }
    {
        let mut under = Vec::new(alloc);
        under.push(Symbol::Want(TokenKind::End))?;
        Ok(Todo {
            next: Some(Symbol::Do(Part::OptList)),
            under,
        })
    }

    /// Takes the symbol on top.
    pub fn pop(&mut self) -> Option<Symbol>
        ensures { MatchOption result ((self.old ≡ []) × (self.new ≡ [])) (λ s. self.old ≡ symbol_named s ∷ self.new) }
    {
        match self.next.take() {
            Some(symbol) => Some(symbol),
            None => self.under.pop(),
        }
    }

    /// Puts symbols on top, the first of them uppermost.
    #[tactic(auto, using(crate::proofs::Pushed::all_pushed))]
    pub fn push_all(&mut self, symbols: &[Symbol]) -> Result<(), NoMemory>
        ensures { OnOk result (self.new ≡ map symbol_named symbols.now ++ self.old) }
    {
        match symbols.split_first() {
            None => Ok(()),
            Some((first, behind)) => {
                put_one(&mut self.under, self.next.take())?;
                put_all(&mut self.under, behind)?;
                self.next = Some(*first);
                Ok(())
            }
        }
    }
}
