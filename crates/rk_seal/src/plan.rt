// Plans: the calls that are to change a folder.
ghost use Rattle.std.specs.Prelude.{◌≡◌};
ghost use Rattle.rk_base.specs.Canonical.{is_empty};
ghost use Rattle.rk_seal.specs.Plans.{plan_of};

use crate::ops::{InstallList, Op};

/// What is to be done to a folder.
#[derive(Debug, Drop)]
pub struct Plan {
    /// The calls that are to be made, one after another; `None` where there are none.
    pub calls: Option<InstallList>,
    /// Whether a list of calls stands that isn't sealed. Where there are no calls it is removed; else it is written anew.
    pub fresh_list: bool,
}

fn are_none(ops: &[Op]) -> bool
    ensures { result ≡ is_empty ops.now }
{
    match ops {
        [] => true,
        [_, ..] => false,
    }
}

impl Plan {
    /// The plan of these calls; `None` exactly where there are some that aren't such as a list has, in its order.
    pub fn new(ops: Vec<Op>, fresh_list: bool) -> Option<Plan>
        ensures { result ≡ plan_of ops.items fresh_list }
    {
        if are_none(&ops) {
            return Some(Plan {
                calls: None,
                fresh_list,
            });
        }
        match InstallList::from_vec(ops) {
            Some(list) => Some(Plan {
                calls: Some(list),
                fresh_list,
            }),
            None => None,
        }
    }
}
