// The functions of a shell.
ghost use Rattle.std.specs.Prelude.{◌≡◌, OnOk, option_copied, option_map};
ghost use Rattle.std.specs.FinMap.{empty, get, insert};
ghost use Rattle.sh_means.specs.Views.{function_of, functions_of};

use crate::state::Callee;
use rk_base::NoMemory;
use std::alloc::{AllocError, Global};
use std::collections::BTreeMap;

/// The functions of a shell by their names (XCU 2.9.5). A look-up takes no memory, and as many comparisons as a search in a
/// B-tree; a copy shares the bodies.
#[derive(Drop)]
pub struct Functions {
    alloc: Global,
    rows: BTreeMap<Vec<u8>, Callee>,
}

impl Clone for Functions {
    ghost is_clone = { λ functions copy. functions_of copy ≡ functions_of functions };

    fn clone(&self) -> Result<Functions, AllocError> {
        let rows = self.rows.clone()?;
        Ok(Functions {
            alloc: self.alloc,
            rows,
        })
    }
}

impl Functions {
    /// None is defined.
    pub fn new(alloc: Global) -> Functions
        ensures { functions_of result ≡ empty }
    {
        Functions {
            alloc,
            rows: BTreeMap::new(alloc),
        }
    }

    /// The function of a name.
    pub fn get(&self, name: &[u8]) -> Option<&Callee>
        ensures { option_map function_of (option_copied result) ≡ get (functions_of self.now) name.now }
    {
        self.rows.get(name)
    }

    /// A name has this function, in the place of the one that it had.
    pub(crate) fn put(&mut self, name: &[u8], callee: Callee) -> Result<(), NoMemory>
        ensures { OnOk result (functions_of self.new ≡ insert (functions_of self.old) name.now (function_of callee)) }
    {
        let name = Vec::from_slice(self.alloc, name)?;
        self.rows.insert(name, callee)?;
        Ok(())
    }
}
