// The shell's map of descriptors.
ghost use Rattle.std.specs.Prelude.{◌≡◌, ◌++◌, ◌+◌, ◌≤◌, IfOk, OnOk, length};
ghost use Rattle.sh_redirect.specs.DescriptorTable.{slot, set_slot, own, put_back, numbered, refmap_of, digit};

use rk_base::NoMemory;
use rk_calls::RefMap;
use std::alloc::Global;

/// The local number that each descriptor from 0 to 9 stands for; none where it is closed.
#[derive(Clone, Copy)]
pub struct DescriptorTable {
    pub slots: [Option<u64>; 10],
}

impl DescriptorTable {
    /// Each stands for the command's own.
    pub fn own() -> DescriptorTable
        ensures { result ≡ own }
    {
        DescriptorTable {
            slots: [
                Some(0),
                Some(1),
                Some(2),
                Some(3),
                Some(4),
                Some(5),
                Some(6),
                Some(7),
                Some(8),
                Some(9),
            ],
        }
    }

    /// The number that a descriptor stands for.
    pub fn at(&self, d: u8) -> Option<u64>
        ensures { result ≡ slot self.now d }
    {
        match self.slots.get(d as usize) {
            Some(n) => *n,
            None => None,
        }
    }

    /// A descriptor stands for this from now on. Above 9 nothing changes.
    pub fn set(&mut self, d: u8, n: Option<u64>)
        ensures { self.new ≡ set_slot d n self.old }
    {
        if d < 10 {
            self.slots[d as usize] = n;
        }
    }

    /// Each of these descriptors is as it was before; the others stay.
    pub fn put_back(&mut self, named: &[u8], before: &DescriptorTable)
        ensures { self.new ≡ put_back named.now before.now self.old }
    {
        'named: for d in named {
            self.set(*d, before.at(*d));
        }
    }

    fn pairs(&self, alloc: Global) -> Result<Vec<(u8, u64)>, NoMemory>
        ensures { IfOk result (λ pairs. pairs.items ≡ refmap_of self.now) }
    {
        let mut pairs = Vec::new(alloc);
        push_numbered(&mut pairs, 0, &self.slots)?;
        Ok(pairs)
    }

    /// What a launched command's descriptors stand for.
    pub fn refmap(&self, alloc: Global) -> Result<RefMap, NoMemory>
        ensures { IfOk result (λ m. m ≡ refmap_of self.now) }
    {
        let pairs = self.pairs(alloc)?;
        match RefMap::from_vec(alloc, pairs)? {
            Some(map) => Ok(map),
            None => unreachable!(),
        }
    }
}

fn push_numbered(pairs: &mut Vec<(u8, u64)>, d: u8, slots: &[Option<u64>]) -> Result<(), NoMemory>
    requires { d + length slots.now ≤ 255 }
    ensures { OnOk result (pairs.new.items ≡ pairs.old.items ++ numbered d slots.now) }
{
    match slots {
        [] => Ok(()),
        [first, rest @ ..] => {
            match first {
                Some(n) => pairs.push((d, *n))?,
                None => {}
            }
            push_numbered(pairs, d + 1, rest)
        }
    }
}

/// A text of one digit.
pub(crate) fn digit(text: &[u8]) -> Option<u8>
    ensures { result ≡ digit text.now }
{
    match text {
        [] => None,
        [b] => {
            if *b >= b'0' && *b <= b'9' {
                Some(*b - b'0')
            } else {
                None
            }
        }
        [_, _, ..] => None,
    }
}
