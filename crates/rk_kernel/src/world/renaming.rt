// Rename.
ghost use Rattle.std.specs.Prelude.{◌≡◌, ◌==◌, IfOk, if◌then◌else◌, true, false, Some};
ghost use Rattle.rk_calls.specs.declared.call.Call.TheVariants.{Rename};
ghost use Rattle.rk_calls.specs.declared.answer.Answer.TheVariants.{Done};
ghost use Rattle.rk_tree.specs.Hierarchy.{child};
ghost use Rattle.rk_tree.specs.Refusals.{lacks_w};
ghost use Rattle.rk_walk.specs.Places.{IsFreeName, IsNameOf};
ghost use Rattle.rk_walk.specs.declared.place.Place.TheVariants.{Found, Absent};
ghost use Rattle.rk_kernel.specs.Changes.{moved_at};
ghost use Rattle.rk_kernel.specs.Do as all;
ghost use Rattle.rk_kernel.specs.Rows.{giving};

use crate::World;
use crate::spot::{Spot, spot_at};
use rk_base::{Bytes, Errno, Name, NoMemory};
use rk_calls::{Answer, Refs};
use rk_tree::{NodeId, has_w};

impl World {
    // Whether names can't be changed in a directory.
    pub(super) fn lacks_w(&self, dir: NodeId) -> bool
        ensures { result ≡ lacks_w self.now.tree dir }
    {
        !has_w(self.tree.mode(dir))
    }

    // To a name that stands for nothing.
    fn rename_to(
        &mut self,
        refs: &Refs,
        n: NodeId,
        from: &(NodeId, Name),
        to: NodeId,
        name: &Name,
        slash: bool,
    ) -> Result<Answer, NoMemory>
        requires from { IsNameOf self.old.tree n from.now.0 from.now.1 }
        requires to { IsFreeName self.old.tree to name.now }
        ensures { IfOk result (λ a. record { answer = a; refs = refs.now; world = self.new } ≡ moved_at self.old refs.now (Found (record { node = n; up = Some from.now; slash = false })) (Absent to name.now slash)) }
    {
        if !slash {
            let answer = self.rename_node(refs, from, to, name)?;
            return Ok(answer);
        }
        if self.tree.is_dir(n) {
            let answer = self.rename_node(refs, from, to, name)?;
            return Ok(answer);
        }
        if self.lacks_w(from.0) || self.lacks_w(to) {
            return Ok(Answer::No(Errno::Denied));
        }
        Ok(Answer::No(Errno::NotDir))
    }

    // In the place of what stands there.
    fn rename_over(
        &mut self,
        refs: &Refs,
        n: NodeId,
        from: &(NodeId, Name),
        m: NodeId,
        to: &(NodeId, Name),
    ) -> Result<Answer, NoMemory>
        requires from { IsNameOf self.old.tree n from.now.0 from.now.1 }
        requires to { IsNameOf self.old.tree m to.now.0 to.now.1 }
        ensures { IfOk result (λ a. record { answer = a; refs = refs.now; world = self.new } ≡ (if n == m then giving self.old refs.now Done else moved_at self.old refs.now (Found (record { node = n; up = Some from.now; slash = false })) (Found (record { node = m; up = Some to.now; slash = false })))) }
    {
        let answer = self.rename_node(refs, from, to.0, &to.1)?;
        Ok(answer)
    }

    /// Gives what stands at the first path the second path, in the place of what stands there.
    pub(super) fn rename(&mut self, refs: &Refs, a: &Bytes, b: &Bytes) -> Result<Answer, NoMemory>
        ensures { IfOk result (λ x. record { answer = x; refs = refs.now; world = self.new } ≡ all.answered self.old refs.now (Rename a.now b.now)) }
    {
        let from = self.itself(a)?;
        let to = spot_at(self.allocator(), &self.tree, b.as_slice(), false)?;
        match &from {
            Spot::Fails(e) => Ok(Answer::No(*e)),
            Spot::Absent(_, _, _) => match &to {
                Spot::Fails(e) => Ok(Answer::No(*e)),
                Spot::Absent(_, _, _) => Ok(Answer::No(Errno::NoEntry)),
                Spot::Found(_, _, _) => Ok(Answer::No(Errno::NoEntry)),
            },
            Spot::Found(_, None, _) => match &to {
                Spot::Fails(e) => Ok(Answer::No(*e)),
                Spot::Absent(_, _, _) => Ok(Answer::No(Errno::Invalid)),
                Spot::Found(_, _, _) => Ok(Answer::No(Errno::Invalid)),
            },
            Spot::Found(n, Some(up), _) => match &to {
                Spot::Fails(e) => Ok(Answer::No(*e)),
                Spot::Absent(dir, name, slash) => self.rename_to(refs, *n, up, *dir, name, *slash),
                Spot::Found(_, None, _) => Ok(Answer::No(Errno::Invalid)),
                Spot::Found(m, Some(onto), _) => self.rename_over(refs, *n, up, *m, onto),
            },
        }
    }
}
