// Descriptors and variables as they were before.
ghost use Rattle.std.specs.Prelude.{◌≡◌, OnOk};
ghost use Rattle.sh_redirect.specs.DescriptorTable.{put_back};
ghost use Rattle.sh_means.specs.State.{put_back_variables};
ghost use Rattle.sh_means.specs.Stack.{redirects_from, assigns_from};
ghost use Rattle.sh_means.specs.Words.{named, names};

use rk_base::NoMemory;
use sh_ast::{Assignments, Redirects};
use sh_redirect::DescriptorTable;
use sh_vars::{Saved, Vars};
use std::rc::Rc;

// The descriptors that redirections name are as they were before.
fn put_slots_back(redirects: &Redirects, before: &DescriptorTable, now: &mut DescriptorTable)
    ensures { now.new ≡ put_back (named (redirects_from redirects.now 0)) before.now now.old }
{
    'redirects: for r in &redirects.items {
        now.set(r.descriptor, before.at(r.descriptor));
    }
}

/// The descriptors that redirections name are as they were before. A map that other states share is copied first.
pub fn put_back(
    redirects: &Redirects,
    before: &DescriptorTable,
    now: &mut Rc<DescriptorTable>,
) -> Result<(), NoMemory>
    ensures { OnOk result (now.new.value ≡ put_back (named (redirects_from redirects.now 0)) before.now now.old.value) }
{
    let own = Rc::make_mut(now)?;
    put_slots_back(redirects, before, own);
    Ok(())
}

/// The variables that assignments name are as they were before.
pub fn put_back_variables(
    assignments: &Assignments,
    before: &Saved,
    now: &mut Vars,
) -> Result<(), NoMemory>
    ensures { OnOk result (now.new ≡ put_back_variables (names (assigns_from assignments.now 0)) before.now now.old) }
{
    'assignments: for a in &assignments.items {
        now.put_back(a.name.as_slice(), before)?;
    }
    Ok(())
}
