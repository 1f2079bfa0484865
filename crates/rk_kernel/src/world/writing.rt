// Write.
ghost use Rattle.std.specs.Prelude.{◌≡◌, ◌++◌, IfOk, IsTrue, OnOk, if◌then◌else◌, length, slice_get, slice_set};
ghost use Rattle.rk_base.specs.Canonical.{is_empty};
ghost use Rattle.rk_calls.specs.declared.call.Call.TheVariants.{Write};
ghost use Rattle.rk_tree.specs.Hierarchy.{file_bytes, node, write};
ghost use Rattle.rk_kernel.specs.World.{after_write, text_of, with_tree};
ghost use Rattle.rk_kernel.specs.Do as all;
ghost use Rattle.rk_kernel.specs.declared.description.Source.TheVariants as source;

use crate::pipe::push_in;
use crate::{Description, Source, World};
use rk_base::{Bytes, Errno, NoMemory};
use rk_calls::{Answer, Refs};
use rk_tree::NodeId;

impl World {
    // Into a pipe.
    fn push(&mut self, p: usize, bytes: &Bytes) -> Result<(), NoMemory>
        ensures { OnOk result (self.new ≡ record self.old { pipes = slice_set self.old.pipes p (text_of (slice_get self.old.pipes p) ++ bytes.now) }) }
    {
        push_in(&mut self.pipes, p, bytes)?;
        Ok(())
    }

    // Whether a file that is written from this place on has no bytes, and the place is its first.
    fn begins(&self, n: usize, at: usize) -> bool
        ensures place { IsTrue result → at ≡ 0 }
        ensures none { IsTrue result → length (file_bytes (node self.now.tree n)) ≡ 0 }
    {
        at == 0 && self.file(n).is_empty()
    }

    // Into a file from a place on. One without bytes shares these.
    fn put(&mut self, n: usize, at: usize, bytes: &Bytes) -> Result<(), NoMemory>
        ensures { OnOk result (self.new ≡ with_tree self.old (write self.old.tree n at bytes.now)) }
    {
        if self.begins(n, at) {
            let bytes = bytes.copy()?;
            self.tree.set_bytes(NodeId::new(n), bytes);
            return Ok(());
        }
        self.tree.write(NodeId::new(n), at, bytes.as_slice())?;
        Ok(())
    }

    fn write_file(
        &mut self,
        k: usize,
        d: Description,
        n: usize,
        bytes: &Bytes,
    ) -> Result<(), NoMemory>
        ensures { OnOk result (self.new ≡ after_write self.old k d bytes.now (source.Node n)) }
    {
        let at = if d.append {
            self.file(n).len()
        } else {
            d.offset
        };
        let Some(end) = at.checked_add(bytes.len()) else {
            return Err(NoMemory);
        };
        self.put(n, at, bytes)?;
        self.set_offset(k, d, end);
        Ok(())
    }

    fn after_write(&mut self, k: usize, d: Description, bytes: &Bytes) -> Result<(), NoMemory>
        ensures { OnOk result (self.new ≡ after_write self.old k d bytes.now d.source) }
    {
        match d.source {
            Source::Node(n) => {
                self.write_file(k, d, n, bytes)?;
                Ok(())
            }
            Source::Pipe(p) => {
                self.push(p, bytes)?;
                Ok(())
            }
            Source::Output => {
                self.out.extend_from_slice(bytes.as_slice())?;
                Ok(())
            }
            Source::ErrorText => {
                self.err.extend_from_slice(bytes.as_slice())?;
                Ok(())
            }
            Source::Nothing => Ok(()),
        }
    }

    // No bytes change nothing.
    fn writes(&mut self, k: usize, d: Description, bytes: &Bytes) -> Result<(), NoMemory>
        ensures { OnOk result (self.new ≡ (if is_empty bytes.now then self.old else after_write self.old k d bytes.now d.source)) }
    {
        if bytes.as_slice().is_empty() {
            return Ok(());
        }
        self.after_write(k, d, bytes)?;
        Ok(())
    }

    /// Writes bytes.
    pub(super) fn write(&mut self, refs: &Refs, r: u64, bytes: &Bytes) -> Result<Answer, NoMemory>
        ensures { IfOk result (λ a. record { answer = a; refs = refs.now; world = self.new } ≡ all.answered self.old refs.now (Write r bytes.now)) }
    {
        match refs.at(r) {
            None => Ok(Answer::No(Errno::BadRef)),
            Some(k) => match self.description(k) {
                None => Ok(Answer::No(Errno::BadRef)),
                Some(d) => {
                    if !d.write {
                        return Ok(Answer::No(Errno::BadRef));
                    }
                    self.writes(k, d, bytes)?;
                    Ok(Answer::Done)
                }
            },
        }
    }
}
