// Lists of variables.
ghost use Rattle.std.specs.Prelude.{◌≡◌, ◌↔◌, IsTrue, [], IfOk, Some, None, true, if◌then◌else◌};
ghost use Rattle.rk_base.specs.Variables.{are_variables};

use crate::variables::are_variables;
use crate::{Bytes, NoMemory};
use std::alloc::Global;
use std::hash::{Hash, Hasher};
use std::marker::Model;

/// A variable: its name and its value.
#[derive(Debug, Drop, Clone, PartialEq, Eq, Hash)]
pub struct Var {
    pub name: Bytes,
    pub value: Bytes,
}

/// Variables, ascending by name, each name once. A name is a letter or `_`, then letters, digits and `_`.
#[derive(Debug, Drop, Clone)]
pub struct VarList {
    vars: Vec<Var>,
}

impl Model for VarList {
    ghost use Rattle.std.specs.Prelude.{◌≡◌, List, true};
    ghost use Rattle.rk_base.specs.declared.vars.Var.{Var};
    ghost use Rattle.rk_base.specs.Variables.{are_variables};

    ghost Value = { List Var };

    ghost view = { λ v. v.vars.items };

    ghost invariant = { λ v. are_variables v.vars.items ≡ true };
}

impl VarList {
    /// No variables.
    pub fn new(alloc: Global) -> VarList
        ensures { result ≡ [] }
    {
        VarList {
            vars: Vec::new(alloc),
        }
    }

    /// The list of these; `None` exactly where they aren't variables, ascending by name.
    pub fn from_vec(vars: Vec<Var>) -> Option<VarList>
        ensures { result ≡ (if are_variables vars.items then Some vars.items else None) }
    {
        if are_variables(&vars) {
            Some(VarList { vars })
        } else {
            None
        }
    }

    /// The variables, in their order.
    pub fn as_slice(&self) -> &[Var]
        ensures value { result.now ≡ self.now }
        ensures variables { are_variables self.now ≡ true }
    {
        self.vars.as_slice()
    }

    /// No variables, in the memory of these.
    pub fn cleared(self) -> VarList
        ensures { result ≡ [] }
    {
        let VarList { mut vars } = self;
        vars.clear();
        VarList { vars }
    }

    /// Whether there are none.
    pub fn is_empty(&self) -> bool
        ensures { IsTrue result ↔ (self.now ≡ []) }
    {
        self.vars.is_empty()
    }

    /// Whether both are the same variables.
    pub fn same(&self, other: &VarList) -> bool
        ensures { IsTrue result ↔ (self.now ≡ other.now) }
    {
        self.vars.as_slice() == other.vars.as_slice()
    }

    /// A copy of the variables, which shares their bytes.
    pub fn copy(&self) -> Result<VarList, NoMemory>
        ensures { IfOk result (λ v. v ≡ self.now) }
    {
        let vars = self.vars.clone()?;
        Ok(VarList { vars })
    }
}

impl PartialEq for VarList {
    ghost use Rattle.std.specs.Cmp.{partial_equiv_from_equiv};
    ghost use Rattle.std.specs.Cmp.Lexicographic.{pointwise, lists_equiv};
    ghost use Rattle.rk_base.specs.Vars.{var_eq, var_eq_equiv};

    ghost eq = { pointwise var_eq };

    ghost laws = { partial_equiv_from_equiv (lists_equiv var_eq_equiv) };

    fn eq(&self, other: &VarList) -> bool {
        self.vars.as_slice() == other.vars.as_slice()
    }
}

impl Eq for VarList {
    ghost use Rattle.std.specs.Cmp.Lexicographic.{lists_equiv};
    ghost use Rattle.rk_base.specs.Vars.{var_eq_equiv};

    ghost laws = { lists_equiv var_eq_equiv };
}

impl Hash for VarList {
    ghost use Rattle.std.specs.Hash as fed;
    ghost use Rattle.rk_base.specs.Vars.{var_writes, var_alike};

    ghost hash_input = { fed.slice var_writes };

    ghost respects_eq = { (fed.items_Alike var_alike).fed };

    fn hash<H: Hasher>(&self, state: &mut H) {
        self.vars.as_slice().hash(state);
    }
}
