// What a file holds.
ghost use Rattle.std.specs.Prelude.{◌≡◌, ◌↔◌, IsTrue, IfOk, OnOk, OnErr, option_copied};
ghost use Rattle.rk_base.specs.Text.{written};
ghost use Rattle.rk_tree.specs.Content.{bytes_of, import_path, known_bytes, with_known};
ghost use Rattle.rk_tree.specs.declared.content.Content.TheVariants.{Own};

use rk_base::{Bytes, NoMemory, Path};
use std::alloc::Global;

/// What a file holds: bytes of its own, once it was written or emptied; or what stands at its import path where it came from,
/// with those bytes once they are known.
#[derive(Clone, Debug, Drop)]
pub enum Content {
    Own(Bytes),
    /// Its bytes aren't known yet.
    Unread(Path),
    Read(Path, Bytes),
}

impl Content {
    /// The bytes; `None` exactly where they aren't known yet.
    pub fn bytes(&self) -> Option<&[u8]>
        ensures { option_copied result ≡ known_bytes self.now }
    {
        match self {
            Content::Own(bytes) => Some(bytes.as_slice()),
            Content::Unread(_) => None,
            Content::Read(_, bytes) => Some(bytes.as_slice()),
        }
    }

    /// The import path; `None` exactly where the bytes are its own.
    pub fn import_path(&self) -> Option<&Path>
        ensures { option_copied result ≡ import_path self.now }
    {
        match self {
            Content::Own(_) => None,
            Content::Unread(path) => Some(path),
            Content::Read(path, _) => Some(path),
        }
    }

    /// The bytes that are known, shared; none where they aren't.
    pub fn copy_bytes(&self, alloc: Global) -> Result<Bytes, NoMemory>
        ensures { IfOk result (λ b. b ≡ bytes_of self.now) }
    {
        match self {
            Content::Own(bytes) => bytes.copy(),
            Content::Unread(_) => Bytes::from_slice(alloc, b""),
            Content::Read(_, bytes) => bytes.copy(),
        }
    }

    /// Whether both are the same, import paths included.
    pub fn same(&self, other: &Content) -> bool
        ensures { IsTrue result ↔ (self.now ≡ other.now) }
    {
        match (self, other) {
            (Content::Own(bytes), Content::Own(others)) => bytes.same(others),
            (Content::Unread(path), Content::Unread(other)) => path.same(other),
            (Content::Read(path, bytes), Content::Read(other, others)) => {
                path.same(other) && bytes.same(others)
            }
            _ => false,
        }
    }

    /// Bytes that are known now stand beside the import path; where they are known already, nothing changes.
    pub(crate) fn know(&mut self, bytes: Bytes) -> Result<(), NoMemory>
        ensures ok { OnOk result (self.new ≡ with_known bytes self.old) }
        ensures err { OnErr result (self.new ≡ self.old) }
    {
        if let Content::Unread(path) = self {
            let path = path.copy()?;
            *self = Content::Read(path, bytes);
        }
        Ok(())
    }

    /// The bytes that are known become a text that is shared.
    pub(crate) fn share(&mut self, text: Bytes)
        requires { text ≡ bytes_of self.old }
        ensures { self.new ≡ self.old }
    {
        match self {
            Content::Own(bytes) => *bytes = text,
            Content::Unread(_) => {}
            Content::Read(_, bytes) => *bytes = text,
        }
    }

    // The bytes become its own.
    fn own(&mut self, alloc: Global) -> Result<(), NoMemory>
        ensures { OnOk result (self.new ≡ Own (bytes_of self.old)) }
    {
        let bytes = match self {
            Content::Own(_) => return Ok(()),
            Content::Unread(_) => Bytes::from_slice(alloc, b"")?,
            Content::Read(_, bytes) => bytes.copy()?,
        };
        *self = Content::Own(bytes);
        Ok(())
    }

    /// Writes bytes over those that are known, which become its own. After want of memory it may be anything.
    pub(crate) fn write(&mut self, alloc: Global, at: usize, bytes: &[u8]) -> Result<(), NoMemory>
        ensures { OnOk result (self.new ≡ Own (written (bytes_of self.old) at bytes.now)) }
    {
        self.own(alloc)?;
        match self {
            Content::Own(old) => old.write_at(at, bytes),
            Content::Unread(_) => unreachable!(),
            Content::Read(_, _) => unreachable!(),
        }
    }
}
