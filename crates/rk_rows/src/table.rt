// Names for arithmetic, in a map.
ghost use Rattle.std.specs.Prelude.{◌≡◌, OnOk, OnErr, IfOk, option_copied};
ghost use Rattle.std.specs.Fmt.{signed_decimal};
ghost use Rattle.std.specs.FinMap.{get, insert};
ghost use Rattle.rk_rows.specs.NameTable.{is_fixed, known_of};

use rk_base::{Bytes, NoMemory};
use rk_steps::push_shown;
use sh_arith::{Names, SetErr};
use std::alloc::Global;
use std::collections::BTreeMap;
use std::marker::Model;

/// Names with values; those that begin with `R` are readonly.
#[derive(Drop)]
pub(crate) struct NameTable {
    alloc: Global,
    rows: BTreeMap<Vec<u8>, Bytes>,
}

impl Model for NameTable {
    ghost use Rattle.std.specs.FinMap as map;
    ghost use Rattle.std.specs.Coded.{coded_list, coded_ℕ};
    ghost use Rattle.sh_vars.specs.Rows.{named, map_of};
    ghost use Rattle.rk_rows.specs.NameTable.{NameValues};

    ghost Value = { NameValues };

    ghost coded = { map.code (coded_list coded_ℕ) (coded_list coded_ℕ) };

    ghost view = { λ t. map_of (named t.rows.entries) };
}

fn is_fixed(name: &[u8]) -> bool
    ensures { result ≡ is_fixed name.now }
{
    match name {
        [] => false,
        [b, ..] => *b == b'R',
    }
}

impl NameTable {
    pub(crate) fn new(alloc: Global) -> NameTable {
        NameTable {
            alloc,
            rows: BTreeMap::new(alloc),
        }
    }

    fn value_of(&self, name: &[u8]) -> Option<&Bytes>
        ensures { option_copied result ≡ get self.now name.now }
    {
        self.rows.get(name)
    }

    pub(crate) fn put(&mut self, name: &[u8], value: Bytes) -> Result<(), NoMemory>
        ensures ok { OnOk result (self.new ≡ insert self.old name.now value) }
        ensures err { OnErr result (self.new ≡ self.old) }
    {
        let name = Vec::from_slice(self.alloc, name)?;
        self.rows.insert(name, value)?;
        Ok(())
    }

    /// Each name with its value, after a space.
    pub(crate) fn push_shown(&self, text: &mut String) -> Result<(), NoMemory> {
        let alloc = self.alloc;
        'names: for (name, value) in &self.rows {
            text.push(' ')?;
            push_shown(alloc, text, name.as_slice())?;
            text.push('=')?;
            push_shown(alloc, text, value.as_slice())?;
        }
        Ok(())
    }
}

fn decimal_of(alloc: Global, value: i64) -> Result<Bytes, NoMemory>
    ensures { IfOk result (λ text. text ≡ signed_decimal value) }
{
    let text = format!(in alloc; "{value}")?;
    Bytes::from_slice(alloc, text.as_bytes())
}

impl Names for NameTable {
    ghost known = { known_of };

    fn get(&self, name: &[u8]) -> Option<&[u8]> {
        match self.value_of(name) {
            Some(value) => Some(value.as_slice()),
            None => None,
        }
    }

    fn set(&mut self, name: &[u8], value: i64) -> Result<(), SetErr> {
        if is_fixed(name) {
            return Err(SetErr::Readonly);
        }
        let Ok(value) = decimal_of(self.alloc, value) else {
            return Err(SetErr::NoMemory);
        };
        match self.put(name, value) {
            Ok(()) => Ok(()),
            Err(_) => Err(SetErr::NoMemory),
        }
    }
}
