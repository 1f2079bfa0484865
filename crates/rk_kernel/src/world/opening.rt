// Open.
ghost use Rattle.std.specs.Prelude.{◌≡◌, IfOk, OnOk};
ghost use Rattle.rk_calls.specs.declared.call.Call.TheVariants.{Open};
ghost use Rattle.rk_tree.specs.Whole.{MayHold};
ghost use Rattle.rk_walk.specs.Places.{IsFreeName};
ghost use Rattle.rk_walk.specs.declared.place.Place.TheVariants.{Absent, Found};
ghost use Rattle.rk_kernel.specs.World.{with_tree};
ghost use Rattle.rk_kernel.specs.Opening as opening;
ghost use Rattle.rk_kernel.specs.Do as all;

use crate::spot::{Spot, strict_spot_at};
use crate::{Description, World};
use rk_base::{Bytes, Errno, Name, NoMemory};
use rk_calls::{Answer, How, Refs};
use rk_tree::{Content, Entry, NodeId, Refused, has_r, has_w};

pub(super) fn is_read(how: How) -> bool
    ensures { result ≡ opening.is_read how }
{
    match how {
        How::Read => true,
        How::Make => false,
        How::Append => false,
    }
}

pub(super) fn lacks(how: How, mode: u16) -> bool
    ensures { result ≡ opening.lacks how mode }
{
    match how {
        How::Read => !has_r(mode),
        How::Make => !has_w(mode),
        How::Append => !has_w(mode),
    }
}

impl World {
    // A description more, under the command's next number.
    fn opens(&mut self, refs: &mut Refs, how: How, node: NodeId) -> Result<Answer, NoMemory>
        ensures { IfOk result (λ a. record { answer = a; refs = refs.new; world = self.new } ≡ opening.opened self.old refs.old self.old.tree how node) }
    {
        let d = self.opens.len();
        self.opens.push(Description::of(how, node))?;
        refs.push(d)?;
        Ok(Answer::Opened)
    }

    // An empty file under a name that stands for nothing.
    fn make_file(&mut self, dir: NodeId, name: &Name) -> Result<Result<NodeId, Errno>, NoMemory>
        requires { MayHold self.old.tree dir name.now }
        ensures { IfOk result (opening.MakesFile self.old dir name.now self.new) }
    {
        let none = Bytes::from_slice(self.allocator(), b"")?;
        match self
            .tree
            .add(dir, name, Entry::File(0o644, Content::Own(none)))
        {
            Ok(n) => Ok(Ok(n)),
            Err(Refused::No(e)) => Ok(Err(e)),
            Err(Refused::NoMemory) => Err(NoMemory),
        }
    }

    #[tactic(auto, using(crate::proofs::RowLemmas::made))]
    fn open_absent(
        &mut self,
        refs: &mut Refs,
        how: How,
        dir: NodeId,
        name: Name,
        slash: bool,
    ) -> Result<Answer, NoMemory>
        requires { IsFreeName self.old.tree dir name }
        ensures { IfOk result (λ a. record { answer = a; refs = refs.new; world = self.new } ≡ opening.open_at self.old refs.old how (Absent dir name slash)) }
    {
        if is_read(how) {
            return Ok(Answer::No(Errno::NoEntry));
        }
        let made = self.make_file(dir, &name)?;
        match made {
            Ok(n) => {
                let answer = self.opens(refs, how, n)?;
                Ok(answer)
            }
            Err(e) => Ok(Answer::No(e)),
        }
    }

    // Make empties what is there.
    fn empties(&mut self, how: How, n: NodeId) -> Result<(), NoMemory>
        ensures { OnOk result (self.new ≡ with_tree self.old (opening.emptied how self.old.tree n)) }
    {
        match how {
            How::Read => Ok(()),
            How::Make => {
                let none = Bytes::from_slice(self.allocator(), b"")?;
                self.tree.set_bytes(n, none);
                Ok(())
            }
            How::Append => Ok(()),
        }
    }

    fn open_found(
        &mut self,
        refs: &mut Refs,
        how: How,
        n: NodeId,
        up: Option<(NodeId, Name)>,
        slash: bool,
    ) -> Result<Answer, NoMemory>
        ensures { IfOk result (λ a. record { answer = a; refs = refs.new; world = self.new } ≡ opening.open_at self.old refs.old how (Found (record { node = n; up = up; slash = slash }))) }
    {
        if self.tree.is_dir(n) {
            return Ok(Answer::No(Errno::IsDir));
        }
        if lacks(how, self.tree.mode(n)) {
            return Ok(Answer::No(Errno::Denied));
        }
        self.empties(how, n)?;
        self.opens(refs, how, n)
    }

    /// Opens a file.
    pub(super) fn open(
        &mut self,
        refs: &mut Refs,
        path: &Bytes,
        how: How,
    ) -> Result<Answer, NoMemory>
        ensures { IfOk result (λ a. record { answer = a; refs = refs.new; world = self.new } ≡ all.answered self.old refs.old (Open path.now how)) }
    {
        let spot = strict_spot_at(self.allocator(), &self.tree, path.as_slice(), true)?;
        match spot {
            Spot::Fails(e) => Ok(Answer::No(e)),
            Spot::Absent(dir, name, slash) => self.open_absent(refs, how, dir, name, slash),
            Spot::Found(n, up, slash) => self.open_found(refs, how, n, up, slash),
        }
    }
}
