// Calls that change the tree at one path, or give a node a second name.
ghost use Rattle.std.specs.Prelude.{◌≡◌, ◌++◌, ◌∷◌, [], IfOk, true, false, Some};
ghost use Rattle.rk_base.specs.declared.errno.Errno.TheVariants.{Denied, NotEmpty};
ghost use Rattle.rk_calls.specs.declared.call.Call.TheVariants as call;
ghost use Rattle.rk_tree.specs.Entries.{is_dir, node_of};
ghost use Rattle.rk_tree.specs.Hierarchy.{node, child, added, linked, removed, set_mode};
ghost use Rattle.rk_tree.specs.Refusals.{entry_checks, has_names, is_there, lacks_w, mode_checks};
ghost use Rattle.rk_walk.specs.Places.{IsFreeName};
ghost use Rattle.rk_walk.specs.Walk.{resolve};
ghost use Rattle.rk_kernel.specs.Do as all;
ghost use Rattle.rk_kernel.specs.Rows.{done, strict, unless};
ghost use Rattle.rk_kernel.specs.Spot.{spot_means, IsSpotOf};

use crate::World;
use crate::spot::{Spot, spot_at, strict_spot_at};
use rk_base::{Bytes, Errno, Name, NoMemory, has_nul};
use rk_calls::{Answer, Refs};
use rk_tree::{Entry, NodeId};

impl World {
    // Where a path leads, its last link followed.
    pub(super) fn followed(&self, path: &Bytes) -> Result<Spot, NoMemory>
        ensures means { IfOk result (λ s. spot_means s ≡ strict (resolve self.now.tree path.now true)) }
        ensures stands { IfOk result (IsSpotOf self.now.tree) }
    {
        strict_spot_at(self.allocator(), &self.tree, path.as_slice(), true)
    }

    // Where a path leads, its last link not followed.
    pub(super) fn itself(&self, path: &Bytes) -> Result<Spot, NoMemory>
        ensures means { IfOk result (λ s. spot_means s ≡ strict (resolve self.now.tree path.now false)) }
        ensures stands { IfOk result (IsSpotOf self.now.tree) }
    {
        strict_spot_at(self.allocator(), &self.tree, path.as_slice(), false)
    }

    // A new node under a name that stands for nothing.
    fn make(&mut self, refs: &Refs, dir: NodeId, name: &Name, it: Entry) -> Result<Answer, NoMemory>
        requires { IsFreeName self.old.tree dir name.now }
        ensures { IfOk result (λ a. record { answer = a; refs = refs.now; world = self.new } ≡ unless self.old refs.now (entry_checks (node_of it) ++ (lacks_w self.old.tree dir, Denied) ∷ []) (done self.old refs.now (added self.old.tree dir name.now (node_of it)))) }
    {
        let answer = self.add_node(refs, dir, name, it)?;
        Ok(answer)
    }

    // A node under a name more, which stands for nothing.
    fn links(
        &mut self,
        refs: &Refs,
        dir: NodeId,
        name: &Name,
        n: NodeId,
    ) -> Result<Answer, NoMemory>
        requires there { is_there (node self.old.tree n) ≡ true }
        requires free { IsFreeName self.old.tree dir name.now }
        ensures { IfOk result (λ a. record { answer = a; refs = refs.now; world = self.new } ≡ unless self.old refs.now ((is_dir (node self.old.tree n), Denied) ∷ (lacks_w self.old.tree dir, Denied) ∷ []) (done self.old refs.now (linked self.old.tree dir name.now n))) }
    {
        let answer = self.link_node(refs, dir, name, n)?;
        Ok(answer)
    }

    // The name of a node stands for nothing.
    fn removes(&mut self, refs: &Refs, dir: NodeId, name: &Name, _n: NodeId) -> Answer
        requires { child self.old.tree dir name.now ≡ Some _n }
        ensures { record { answer = result; refs = refs.now; world = self.new } ≡ unless self.old refs.now ((has_names self.old.tree _n, NotEmpty) ∷ (lacks_w self.old.tree dir, Denied) ∷ []) (done self.old refs.now (removed self.old.tree dir name.now)) }
    {
        self.remove_name(refs, dir, name)
    }

    /// Makes a directory.
    pub(super) fn mkdir(&mut self, refs: &Refs, path: &Bytes, mode: u16) -> Result<Answer, NoMemory>
        ensures { IfOk result (λ a. record { answer = a; refs = refs.now; world = self.new } ≡ all.answered self.old refs.now (call.Mkdir path.now mode)) }
    {
        let spot = spot_at(self.allocator(), &self.tree, path.as_slice(), false)?;
        match spot {
            Spot::Fails(e) => Ok(Answer::No(e)),
            Spot::Absent(dir, name, _) => self.make(refs, dir, &name, Entry::Dir(mode)),
            Spot::Found(_, _, _) => {
                if 0o777 < mode {
                    return Ok(Answer::No(Errno::Invalid));
                }
                Ok(Answer::No(Errno::Exists))
            }
        }
    }

    /// Makes a symbolic link of this text.
    pub(super) fn symlink(
        &mut self,
        refs: &Refs,
        text: &Bytes,
        path: &Bytes,
    ) -> Result<Answer, NoMemory>
        ensures { IfOk result (λ a. record { answer = a; refs = refs.now; world = self.new } ≡ all.answered self.old refs.now (call.Symlink text.now path.now)) }
    {
        let spot = self.itself(path)?;
        match spot {
            Spot::Fails(e) => Ok(Answer::No(e)),
            Spot::Absent(dir, name, _) => {
                let text = text.copy()?;
                self.make(refs, dir, &name, Entry::Link(text))
            }
            Spot::Found(_, _, _) => {
                if text.as_slice().is_empty() {
                    return Ok(Answer::No(Errno::NoEntry));
                }
                if has_nul(text.as_slice()) {
                    return Ok(Answer::No(Errno::Invalid));
                }
                Ok(Answer::No(Errno::Exists))
            }
        }
    }

    /// Gives what stands at the first path a second name.
    pub(super) fn link(&mut self, refs: &Refs, a: &Bytes, b: &Bytes) -> Result<Answer, NoMemory>
        ensures { IfOk result (λ x. record { answer = x; refs = refs.now; world = self.new } ≡ all.answered self.old refs.now (call.Link a.now b.now)) }
    {
        let from = self.itself(a)?;
        let to = self.itself(b)?;
        match from {
            Spot::Fails(e) => Ok(Answer::No(e)),
            Spot::Absent(_, _, _) => match to {
                Spot::Fails(e) => Ok(Answer::No(e)),
                Spot::Absent(_, _, _) => Ok(Answer::No(Errno::NoEntry)),
                Spot::Found(_, _, _) => Ok(Answer::No(Errno::NoEntry)),
            },
            Spot::Found(n, _, _) => match to {
                Spot::Fails(e) => Ok(Answer::No(e)),
                Spot::Absent(dir, name, _) => self.links(refs, dir, &name, n),
                Spot::Found(_, _, _) => {
                    if self.tree.is_dir(n) {
                        return Ok(Answer::No(Errno::Denied));
                    }
                    Ok(Answer::No(Errno::Exists))
                }
            },
        }
    }

    /// Removes the name of a file or a link.
    pub(super) fn unlink(&mut self, refs: &Refs, path: &Bytes) -> Result<Answer, NoMemory>
        ensures { IfOk result (λ a. record { answer = a; refs = refs.now; world = self.new } ≡ all.answered self.old refs.now (call.Unlink path.now)) }
    {
        let spot = self.itself(path)?;
        match &spot {
            Spot::Fails(e) => Ok(Answer::No(*e)),
            Spot::Absent(_, _, _) => Ok(Answer::No(Errno::NoEntry)),
            Spot::Found(_, None, _) => Ok(Answer::No(Errno::IsDir)),
            Spot::Found(n, Some(up), _) => {
                if self.tree.is_dir(*n) {
                    return Ok(Answer::No(Errno::IsDir));
                }
                Ok(self.removes(refs, up.0, &up.1, *n))
            }
        }
    }

    /// Removes a directory in which nothing stands.
    pub(super) fn rmdir(&mut self, refs: &Refs, path: &Bytes) -> Result<Answer, NoMemory>
        ensures { IfOk result (λ a. record { answer = a; refs = refs.now; world = self.new } ≡ all.answered self.old refs.now (call.Rmdir path.now)) }
    {
        let spot = self.itself(path)?;
        match &spot {
            Spot::Fails(e) => Ok(Answer::No(*e)),
            Spot::Absent(_, _, _) => Ok(Answer::No(Errno::NoEntry)),
            Spot::Found(_, None, _) => Ok(Answer::No(Errno::Invalid)),
            Spot::Found(n, Some(up), _) => {
                if !self.tree.is_dir(*n) {
                    return Ok(Answer::No(Errno::NotDir));
                }
                Ok(self.removes(refs, up.0, &up.1, *n))
            }
        }
    }

    // A node with another mode.
    fn set_mode(&mut self, refs: &Refs, n: NodeId, mode: u16) -> Answer
        requires { is_there (node self.old.tree n) ≡ true }
        ensures { record { answer = result; refs = refs.now; world = self.new } ≡ unless self.old refs.now (mode_checks mode) (done self.old refs.now (set_mode self.old.tree n mode)) }
    {
        self.change_mode(refs, n, mode)
    }

    /// Gives a file or a directory another mode.
    pub(super) fn chmod(&mut self, refs: &Refs, path: &Bytes, mode: u16) -> Result<Answer, NoMemory>
        ensures { IfOk result (λ a. record { answer = a; refs = refs.now; world = self.new } ≡ all.answered self.old refs.now (call.Chmod path.now mode)) }
    {
        let spot = self.followed(path)?;
        match spot {
            Spot::Fails(e) => Ok(Answer::No(e)),
            Spot::Absent(_, _, _) => {
                if 0o777 < mode {
                    return Ok(Answer::No(Errno::Invalid));
                }
                Ok(Answer::No(Errno::NoEntry))
            }
            Spot::Found(n, _, _) => Ok(self.set_mode(refs, n, mode)),
        }
    }
}
