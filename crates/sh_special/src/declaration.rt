// Operands of `export` and `readonly`.
ghost use Rattle.std.specs.Prelude.{◌≡◌, ◌<◌, IfOk, IfSome, length, map, position};
ghost use Rattle.sh_special.specs.Orders.{is_equals, cut_at, declaration_of, declares_none};

use rk_base::{Bytes, NoMemory, is_variable};
use std::alloc::Global;
use std::marker::Model;

/// A variable, and the value that it takes, where one stands.
#[derive(Debug, Drop)]
pub struct Declaration {
    pub name: Bytes,
    pub value: Option<Bytes>,
}

/// Variables and values, in the order of the operands.
#[derive(Debug, Drop)]
pub struct DeclarationList {
    declarations: Vec<Declaration>,
}

impl Model for DeclarationList {
    ghost use Rattle.std.specs.Prelude.{List};
    ghost use Rattle.sh_special.specs.declared.declaration.Declaration.{Declaration};

    ghost Value = { List Declaration };

    ghost view = { λ l. l.declarations.items };
}

impl DeclarationList {
    /// The declarations, in their order.
    pub fn as_slice(&self) -> &[Declaration]
        ensures { result.now ≡ self.now }
    {
        self.declarations.as_slice()
    }
}

fn equals_at(word: &[u8]) -> Option<usize>
    ensures at { result ≡ position is_equals word.now }
    ensures within { IfSome result (λ i. i < length word.now) }
{
    word.iter().position(|b| *b == b'=')
}

// The name of a declaration.
fn name_in<'a>(word: &'a [u8]) -> &'a [u8]
    ensures { result.now ≡ (declaration_of word.now).name }
{
    match equals_at(word) {
        None => word,
        Some(at) => word.split_at(at).0,
    }
}

fn declaration_of(alloc: Global, word: &[u8]) -> Result<Declaration, NoMemory>
    ensures { IfOk result (λ d. d ≡ declaration_of word.now) }
{
    match equals_at(word) {
        None => {
            let name = Bytes::from_slice(alloc, word)?;
            Ok(Declaration { name, value: None })
        }
        Some(at) => {
            let name = Bytes::from_slice(alloc, word.split_at(at).0)?;
            let value = Bytes::from_slice(alloc, word.split_at(at + 1).1)?;
            Ok(Declaration {
                name,
                value: Some(value),
            })
        }
    }
}

/// Whether an operand names no variable.
pub(crate) fn declares_none(word: &[u8]) -> bool
    ensures { result ≡ declares_none word.now }
{
    !is_variable(name_in(word))
}

/// What operands declare.
pub(crate) fn declarations(alloc: Global, words: &[Bytes]) -> Result<DeclarationList, NoMemory>
    ensures { IfOk result (λ ds. ds ≡ map declaration_of words.now) }
{
    let mut declarations = Vec::new(alloc);
    'words: for word in words {
        let declaration = declaration_of(alloc, word.as_slice())?;
        declarations.push(declaration)?;
    }
    Ok(DeclarationList { declarations })
}
