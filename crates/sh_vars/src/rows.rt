// Variables by name.
ghost use Rattle.std.specs.Prelude.{◌≡◌, IfOk, OnOk, OnErr, option_copied};
ghost use Rattle.std.specs.FinMap.{empty, get, insert, remove};
ghost use Rattle.sh_vars.specs.Held.{exported_of};

use crate::Variable;
use crate::tree::Tree;
use rk_base::{NoMemory, VarList};
use std::alloc::Global;
use std::marker::Model;

/// The variables under their names. A look-up takes no memory; it and each change take as many steps as a balanced tree has
/// levels. A copy shares all, and goes on sharing what neither of the two changes.
#[derive(Drop)]
pub(crate) struct Rows {
    tree: Tree,
}

impl Model for Rows {
    ghost use Rattle.std.specs.FinMap as map;
    ghost use Rattle.std.specs.Coded.{coded_list, coded_ℕ};
    ghost use Rattle.sh_vars.specs.Held.{Variables};
    ghost use Rattle.sh_vars.specs.contracts.variable.Variable as it;

    ghost Value = { Variables };

    ghost coded = { map.code (coded_list coded_ℕ) it.the_row.coded };

    ghost use Rattle.sh_vars.specs.Rows.{map_of};

    ghost view = { λ r. map_of r.tree };
}

impl Rows {
    pub(crate) fn new() -> Rows
        ensures { result ≡ empty }
    {
        Rows { tree: Tree::new() }
    }

    pub(crate) fn get(&self, name: &[u8]) -> Option<&Variable>
        ensures { option_copied result ≡ get self.now name.now }
    {
        self.tree.get(name)
    }

    /// A name has this variable, in the place of what it had: in place where it had one that no copy shares.
    pub(crate) fn put(
        &mut self,
        alloc: Global,
        name: &[u8],
        variable: Variable,
    ) -> Result<(), NoMemory>
        ensures ok { OnOk result (self.new ≡ insert self.old name.now variable) }
        ensures err { OnErr result (self.new ≡ self.old) }
    {
        match self.tree.replace(name, variable) {
            None => Ok(()),
            Some(variable) => {
                let tree = self.tree.put(alloc, name, variable)?;
                self.tree = tree;
                Ok(())
            }
        }
    }

    pub(crate) fn take(&mut self, alloc: Global, name: &[u8]) -> Result<(), NoMemory>
        ensures ok { OnOk result (self.new ≡ remove self.old name.now) }
        ensures err { OnErr result (self.new ≡ self.old) }
    {
        let tree = self.tree.without(alloc, name)?;
        self.tree = tree;
        Ok(())
    }

    /// The variables, shared.
    pub(crate) fn copy(&self) -> Result<Rows, NoMemory>
        ensures { IfOk result (λ rows. rows ≡ self.now) }
    {
        let tree = self.tree.copy()?;
        Ok(Rows { tree })
    }

    /// Those that are exported and set, ascending by name.
    pub(crate) fn exported(&self, alloc: Global) -> Result<VarList, NoMemory>
        ensures { IfOk result (λ vars. vars ≡ exported_of self.now) }
    {
        let mut vars = Vec::new(alloc);
        self.tree.list_exported(alloc, &mut vars)?;
        match VarList::from_vec(vars) {
            Some(list) => Ok(list),
            None => unreachable!(),
        }
    }
}
