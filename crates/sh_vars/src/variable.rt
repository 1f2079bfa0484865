// One variable.
ghost use Rattle.std.specs.Prelude.{◌≡◌, IfOk, None, option_copied};
ghost use Rattle.sh_vars.specs.Held.{exported_var, value_of, is_kept, is_given};

use rk_base::{Bytes, NoMemory, Var, is_variable};
use std::alloc::{AllocError, Global};

/// What is held of a variable: its value, if it is set, and whether it is exported and readonly (XCU 2.5.3).
#[derive(Debug, Drop)]
pub struct Variable {
    pub(crate) value: Option<Bytes>,
    pub(crate) exported: bool,
    pub(crate) readonly: bool,
}

impl Clone for Variable {
    ghost is_clone = { λ variable copy. copy ≡ variable };

    fn clone(&self) -> Result<Variable, AllocError> {
        let value = match &self.value {
            None => None,
            Some(value) => Some(value.clone()?),
        };
        Ok(Variable {
            value,
            exported: self.exported,
            readonly: self.readonly,
        })
    }
}

impl Variable {
    /// Its name and value, where it is exported and set under the name of a variable.
    pub(crate) fn exported_as(&self, alloc: Global, name: &[u8]) -> Result<Option<Var>, NoMemory>
        ensures { IfOk result (λ var. var ≡ exported_var (name.now, self.now)) }
    {
        if !self.exported || !is_variable(name) {
            return Ok(None);
        }
        match &self.value {
            None => Ok(None),
            Some(value) => {
                let name = Bytes::from_slice(alloc, name)?;
                let value = value.copy()?;
                Ok(Some(Var { name, value }))
            }
        }
    }
}

/// The value of a variable; `None` where it isn't set.
pub(crate) fn value_of(variable: Option<&Variable>) -> Result<Option<Bytes>, NoMemory>
    ensures { IfOk result (λ value. value ≡ value_of (option_copied variable.entry)) }
{
    match variable {
        None => Ok(None),
        Some(variable) => match &variable.value {
            None => Ok(None),
            Some(value) => {
                let copy = value.copy()?;
                Ok(Some(copy))
            }
        },
    }
}

pub(crate) fn is_given(variable: Option<&Variable>) -> bool
    ensures { result ≡ is_given (option_copied variable.entry) }
{
    match variable {
        None => false,
        Some(variable) => variable.exported,
    }
}

pub(crate) fn is_kept(variable: Option<&Variable>) -> bool
    ensures { result ≡ is_kept (option_copied variable.entry) }
{
    match variable {
        None => false,
        Some(variable) => variable.readonly,
    }
}
