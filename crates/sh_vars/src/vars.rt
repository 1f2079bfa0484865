// The variables of a shell, and its positional parameters.
ghost use Rattle.std.specs.Prelude.{◌≡◌, ◌≤◌, drop, length, IfOk, OnOk, OnErr, not, if◌then◌else◌, option_copied};
ghost use Rattle.sh_vars.specs.Held.{nothing, value_at, is_readonly, assigned, given, kept, without, exported_of, with_variable, with_entry, variable_at};
ghost use Rattle.sh_vars.specs.Answers.{AnswersSet};

use crate::Variable;
use crate::positional::{Positional, Shared};
use crate::rows::Rows;
use crate::variable::{is_given, is_kept, value_of};
use rk_base::{Bytes, NoMemory as OutOfMemory, VarList, WordList};
use std::alloc::Global;
use std::marker::Model;

/// Why a variable isn't set: it is readonly, or there is no memory.
#[derive(Clone, Copy, Debug, Drop)]
pub enum VarErr {
    Readonly,
    NoMemory,
}

impl From<OutOfMemory> for VarErr {
    ghost use Rattle.std.specs.Prelude.{◌≡◌};
    ghost use Rattle.sh_vars.specs.declared.vars.VarErr.TheVariants.{NoMemory};

    ghost from_gives = { λ _ e. e ≡ NoMemory };

    fn from(_: OutOfMemory) -> VarErr {
        VarErr::NoMemory
    }
}

/// Variables by name, each with its value, if it is set, and its flags; and the positional parameters (XCU 2.5).
#[derive(Drop)]
pub struct Vars {
    alloc: Global,
    rows: Rows,
    positional: Positional,
}

impl Model for Vars {
    ghost use Rattle.sh_vars.specs.Held.{Held, held_code};
    ghost use Rattle.sh_vars.specs.contracts.variable.Variable as it;

    ghost Value = { Held };

    ghost coded = { held_code it.the_row.coded };

    ghost view = { λ v. record { variables = v.rows; positional = v.positional } };
}

/// A copy of all variables, their flags and the positional parameters. It shares them with what it was copied from, until
/// either is changed.
#[derive(Drop)]
pub struct Saved {
    rows: Rows,
    positional: Shared,
}

impl Model for Saved {
    ghost use Rattle.sh_vars.specs.Held.{Held, held_code};
    ghost use Rattle.sh_vars.specs.contracts.variable.Variable as it;

    ghost Value = { Held };

    ghost coded = { held_code it.the_row.coded };

    ghost view = { λ v. record { variables = v.rows; positional = v.positional } };
}

impl Vars {
    /// No variable is set, and there is no positional parameter.
    pub fn new(alloc: Global) -> Vars
        ensures { result ≡ nothing }
    {
        Vars {
            alloc,
            rows: Rows::new(),
            positional: Positional::new(WordList::new(Vec::new(alloc))),
        }
    }

    fn at(&self, name: &[u8]) -> Option<&Variable>
        ensures { option_copied result ≡ variable_at self.now name.now }
    {
        self.rows.get(name)
    }

    fn put(&mut self, name: &[u8], variable: Variable) -> Result<(), OutOfMemory>
        ensures ok { OnOk result (self.new ≡ with_variable name.now variable self.old) }
        ensures err { OnErr result (self.new ≡ self.old) }
    {
        self.rows.put(self.alloc, name, variable)
    }

    /// Whether a variable is readonly.
    pub fn is_readonly(&self, name: &[u8]) -> bool
        ensures { result ≡ is_readonly self.now name.now }
    {
        is_kept(self.at(name))
    }

    /// The value of a variable; `None` exactly where it is unset.
    pub fn get(&self, name: &[u8]) -> Option<&[u8]>
        ensures { option_copied result ≡ value_at self.now name.now }
    {
        match self.at(name) {
            None => None,
            Some(variable) => match &variable.value {
                None => None,
                Some(value) => Some(value.as_slice()),
            },
        }
    }

    /// Gives a variable a value; its flags stay. `Readonly` comes exactly where it is readonly, and after an error all is
    /// as it was.
    pub fn set(&mut self, name: &[u8], value: &[u8]) -> Result<(), VarErr>
        ensures ok { OnOk result (self.new ≡ assigned name.now value.now self.old) }
        ensures err { OnErr result (self.new ≡ self.old) }
        ensures readonly { AnswersSet (is_readonly self.old name.now) result }
    {
        let variable = self.at(name);
        if is_kept(variable) {
            return Err(VarErr::Readonly);
        }
        let exported = is_given(variable);
        let value = Bytes::from_slice(self.alloc, value)?;
        self.put(
            name,
            Variable {
                value: Some(value),
                exported,
                readonly: false,
            },
        )?;
        Ok(())
    }

    fn forget(&mut self, name: &[u8]) -> Result<(), OutOfMemory>
        ensures ok { OnOk result (self.new ≡ without name.now self.old) }
        ensures err { OnErr result (self.new ≡ self.old) }
    {
        self.rows.take(self.alloc, name)
    }

    /// Takes a variable away, with its flags. False, with nothing changed, exactly where it is readonly. Memory is for what
    /// copies share of the other variables; after want of it all is as it was.
    pub fn unset(&mut self, name: &[u8]) -> Result<bool, OutOfMemory>
        ensures answer { IfOk result (λ answer. answer ≡ not (is_readonly self.old name.now)) }
        ensures vars { OnOk result (self.new ≡ (if is_readonly self.old name.now then self.old else without name.now self.old)) }
        ensures err { OnErr result (self.new ≡ self.old) }
    {
        if self.is_readonly(name) {
            return Ok(false);
        }
        self.forget(name)?;
        Ok(true)
    }

    /// Marks a variable as exported; its value and its other flag stay. After want of memory all is as it was.
    pub fn export(&mut self, name: &[u8]) -> Result<(), OutOfMemory>
        ensures ok { OnOk result (self.new ≡ given name.now self.old) }
        ensures err { OnErr result (self.new ≡ self.old) }
    {
        let variable = self.at(name);
        let value = value_of(variable)?;
        let readonly = is_kept(variable);
        self.put(
            name,
            Variable {
                value,
                exported: true,
                readonly,
            },
        )?;
        Ok(())
    }

    /// Marks a variable as readonly; its value and its other flag stay. After want of memory all is as it was.
    pub fn readonly(&mut self, name: &[u8]) -> Result<(), OutOfMemory>
        ensures ok { OnOk result (self.new ≡ kept name.now self.old) }
        ensures err { OnErr result (self.new ≡ self.old) }
    {
        let variable = self.at(name);
        let value = value_of(variable)?;
        let exported = is_given(variable);
        self.put(
            name,
            Variable {
                value,
                exported,
                readonly: true,
            },
        )?;
        Ok(())
    }

    /// The variables that are exported and set, ascending by name, as a command is given them. A name that is none of a
    /// variable is left out.
    pub fn exported(&self) -> Result<VarList, OutOfMemory>
        ensures { IfOk result (λ vars. vars ≡ exported_of self.now.variables) }
    {
        self.rows.exported(self.alloc)
    }

    /// The positional parameters, `$1` first.
    pub fn positional(&self) -> &[Bytes]
        ensures { result.now ≡ self.now.positional }
    {
        self.positional.as_slice()
    }

    /// A copy of them.
    pub fn copy_positional(&self) -> Result<WordList, OutOfMemory>
        ensures { IfOk result (λ words. words ≡ self.now.positional) }
    {
        self.positional.copy(self.alloc)
    }

    /// These are the positional parameters from now on.
    pub fn set_positional(&mut self, words: WordList)
        ensures { self.new ≡ record self.old { positional = words } }
    {
        self.positional = Positional::new(words);
    }

    /// The first n positional parameters go (XCU `shift`); the others stay where they are in memory.
    pub fn shift(&mut self, n: usize)
        requires { n ≤ length self.old.positional }
        ensures { self.new ≡ record self.old { positional = drop n self.old.positional } }
    {
        self.positional.shift(n);
    }

    /// A copy of all of it. It takes no memory for a variable; for the positional parameters it does once, until they are set
    /// anew.
    pub fn save(&self) -> Result<Saved, OutOfMemory>
        ensures { IfOk result (λ saved. saved ≡ self.now) }
    {
        let rows = self.rows.copy()?;
        let positional = self.positional.shared(self.alloc)?;
        Ok(Saved { rows, positional })
    }

    /// A variable is as it was when the copy was made, its flags too. After want of memory all is as it was.
    pub fn put_back(&mut self, name: &[u8], saved: &Saved) -> Result<(), OutOfMemory>
        ensures ok { OnOk result (self.new ≡ with_entry name.now (variable_at saved.now name.now) self.old) }
        ensures err { OnErr result (self.new ≡ self.old) }
    {
        match saved.rows.get(name) {
            None => self.forget(name),
            Some(variable) => {
                let variable = variable.clone()?;
                self.put(name, variable)
            }
        }
    }

    /// All is as it was when the copy was made.
    pub fn restore(&mut self, saved: Saved)
        ensures { self.new ≡ saved }
    {
        let Saved { rows, positional } = saved;
        self.rows = rows;
        self.positional = Positional::sharing(positional);
    }
}
