// Keys of commands.
ghost use Rattle.std.specs.Prelude.{◌≡◌, ◌↔◌, ◌<◌, IsTrue, IfOk, Some, None, length, true, if◌then◌else◌};
ghost use Rattle.std.specs.List.{list_any};
ghost use Rattle.rk_base.specs.Text.{is_slash};
ghost use Rattle.rk_calls.specs.Keys.{key_of, takes_variables, is_key};

use rk_base::{Bytes, NoMemory, Path, Shared, VarList, WordList};
use std::alloc::Global;
use std::marker::Model;

// The parts of a key.
#[derive(Debug, Drop, PartialEq, Eq, Hash)]
struct KeyParts {
    argv: WordList,
    wd: Path,
    vars: VarList,
}

impl Model for KeyParts {
    ghost use Rattle.std.specs.Prelude.{◌≡◌, true};
    ghost use Rattle.rk_calls.specs.Keys.{KeyValue, is_key};

    ghost Value = { KeyValue };

    ghost view = { λ k. record { argv = k.argv; wd = k.wd; vars = k.vars } };

    ghost invariant = { λ k. is_key k.argv k.vars ≡ true };

    ghost inverse = { λ v. record { argv = v.argv; wd = v.wd; vars = v.vars } };
}

/// What a command is known by: its words, its working directory and, where the first word is `sh` or has a
/// slash, its exported variables. A copy shares them, so it takes no memory for them.
#[derive(Debug, Drop, Clone, PartialEq, Eq, Hash)]
pub struct Key {
    parts: Shared<KeyParts>,
}

impl Model for Key {
    ghost use Rattle.rk_calls.specs.Keys.{KeyValue};

    ghost Value = { KeyValue };

    ghost view = { λ k. k.parts };

    ghost inverse = { λ v. record { parts = v } };
}

fn has_slash(word: &[u8]) -> bool
    ensures { result ≡ list_any is_slash word.now }
{
    word.iter().any(|b| *b == b'/')
}

fn takes_variables(argv: &[Bytes]) -> bool
    ensures { result ≡ takes_variables argv.now }
{
    match argv {
        [] => false,
        [word, ..] => word.as_slice() == b"sh".as_slice() || has_slash(word.as_slice()),
    }
}

fn is_key(argv: &WordList, vars: &VarList) -> bool
    ensures { result ≡ is_key argv.now vars.now }
{
    argv.len() != 0 && (takes_variables(argv.as_slice()) || vars.is_empty())
}

impl Key {
    /// The key of a command of at least one word. The variables are dropped where the first word is neither
    /// `sh` nor has a slash.
    pub fn new(alloc: Global, argv: WordList, wd: Path, exported: VarList) -> Result<Key, NoMemory>
        requires { 0 < length argv }
        ensures { IfOk result (λ k. k ≡ key_of argv wd exported) }
    {
        let vars = if takes_variables(argv.as_slice()) {
            exported
        } else {
            exported.cleared()
        };
        let parts = Shared::new(alloc, KeyParts { argv, wd, vars })?;
        Ok(Key { parts })
    }

    /// The key of just these; `None` exactly where there is no word, or there are variables that don't count.
    pub fn from_parts(
        alloc: Global,
        argv: WordList,
        wd: Path,
        vars: VarList,
    ) -> Result<Option<Key>, NoMemory>
        ensures { IfOk result (λ k. k ≡ (if is_key argv vars then Some (record { argv = argv; wd = wd; vars = vars }) else None)) }
    {
        if is_key(&argv, &vars) {
            let parts = Shared::new(alloc, KeyParts { argv, wd, vars })?;
            Ok(Some(Key { parts }))
        } else {
            Ok(None)
        }
    }

    /// The words, of which there is one at least.
    pub fn argv(&self) -> &WordList
        ensures value { result.now ≡ self.now.argv }
        ensures key { is_key self.now.argv self.now.vars ≡ true }
    {
        let parts = self.parts.get();
        &parts.argv
    }

    /// The working directory.
    pub fn wd(&self) -> &Path
        ensures { result.now ≡ self.now.wd }
    {
        &self.parts.get().wd
    }

    /// The variables; only a shell has any.
    pub fn vars(&self) -> &VarList
        ensures { result.now ≡ self.now.vars }
    {
        &self.parts.get().vars
    }

    /// Whether both are one key.
    pub fn same(&self, other: &Key) -> bool
        ensures { IsTrue result ↔ (self.now ≡ other.now) }
    {
        self.argv().same(other.argv())
            && self.wd().same(other.wd())
            && self.vars().same(other.vars())
    }

    /// A copy of the key, which shares its parts.
    pub fn copy(&self) -> Result<Key, NoMemory>
        ensures { IfOk result (λ k. k ≡ self.now) }
    {
        let parts = self.parts.copy()?;
        Ok(Key { parts })
    }
}
