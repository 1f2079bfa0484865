// The records of a group.
ghost use Rattle.std.specs.Prelude.{◌≡◌, ◌≢◌, ◌++◌, ◌∷◌, [], ◌+◌, IfOk, OnOk};
ghost use Rattle.std.specs.List.{AllByRecursion as Each};
ghost use Rattle.tr_matching.specs.Groups.{AreMembers, GoesOn, numbers_in};
ghost use Rattle.tr_matching.specs.Matching.{head_of};

use crate::Earlier;
use rk_base::NoMemory;
use std::alloc::Global;
use std::marker::Model;

/// The number of a record, and the number of its rest, behind the steps that it has in common with others.
#[derive(Clone, Copy, Debug)]
pub struct Member {
    pub number: usize,
    pub rest: usize,
}

/// Records with their rests, in the order of their numbers.
#[derive(Debug, Drop)]
pub struct MemberList {
    items: Vec<Member>,
}

impl Model for MemberList {
    ghost use Rattle.std.specs.Prelude.{List};
    ghost use Rattle.tr_matching.specs.declared.member.Member.{Member};

    ghost Value = { List Member };

    ghost view = { λ m. m.items.items };
}

// Each record takes its next step: its rest is the one behind it.
fn advance(earlier: &Earlier, members: &mut Vec<Member>, at: usize)
    requires { Each (GoesOn earlier.now at) members.old.items }
    ensures numbers { numbers_in members.new.items ≡ numbers_in members.old.items }
    ensures members { AreMembers earlier.now (at + 1) members.new.items }
{
    'members: for k in 0..members.len() {
        let member = members[k];
        match earlier.step(member.number, at, member.rest) {
            Some((_, rest)) => {
                members[k] = Member {
                    number: member.number,
                    rest,
                }
            }
            None => unreachable!(),
        }
    }
}

impl MemberList {
    /// No records.
    pub(crate) fn new(alloc: Global) -> MemberList
        ensures { result ≡ [] }
    {
        MemberList {
            items: Vec::new(alloc),
        }
    }

    /// One record.
    pub(crate) fn of(alloc: Global, member: Member) -> Result<MemberList, NoMemory>
        ensures { IfOk result (λ m. m ≡ member ∷ []) }
    {
        let mut items = Vec::new(alloc);
        items.push(member)?;
        Ok(MemberList { items })
    }

    /// One record more, behind the others.
    pub(crate) fn push(&mut self, member: Member) -> Result<(), NoMemory>
        ensures { OnOk result (self.new ≡ self.old ++ member ∷ []) }
    {
        self.items.push(member)?;
        Ok(())
    }

    /// The records, in their order.
    pub fn as_slice(&self) -> &[Member]
        ensures { result.now ≡ self.now }
    {
        self.items.as_slice()
    }

    /// The number of the first record.
    pub fn first(&self) -> usize
        requires { self.now ≢ [] }
        ensures { result ≡ head_of (numbers_in self.now) }
    {
        let first = self.items[0];
        first.number
    }

    /// Each record takes its next step.
    pub(crate) fn advance(&mut self, earlier: &Earlier, at: usize)
        requires { Each (GoesOn earlier.now at) self.old }
        ensures numbers { numbers_in self.new ≡ numbers_in self.old }
        ensures members { AreMembers earlier.now (at + 1) self.new }
    {
        advance(earlier, &mut self.items, at);
    }
}
