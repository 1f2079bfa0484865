// Records parted by what they were answered.
ghost use Rattle.std.specs.Prelude.{◌≡◌, ◌+◌, ◌<◌, ◌++◌, ◌∷◌, [], Some, length, take, slice_set, IfOk, OnOk, if◌then◌else◌};
ghost use Rattle.std.specs.List.{AllByRecursion as Each};
ghost use Rattle.rk_calls.specs.declared.answer.Answer.{Answer as AnswerValue};
ghost use Rattle.tr_matching.specs.Answers.{same_answer};
ghost use Rattle.tr_matching.specs.Groups.{GoesOn, alone, group_at, with_member};
ghost use Rattle.tr_matching.specs.Index.{part_of};
ghost use Rattle.tr_matching.specs.Parting.{AreParts};

use crate::answer_key::AnswerKey;
use crate::group::Group;
use crate::member::MemberList;
use crate::part_index::PartIndex;
use crate::{Earlier, Member};
use rk_base::NoMemory;
use std::alloc::Global;

/// Groups of records that were answered alike, with the number of each group under its answer.
#[derive(Debug, Drop)]
pub(crate) struct Parting {
    pub(crate) index: PartIndex,
    pub(crate) groups: Vec<Group>,
}

// A record more in a group.
fn join(parting: &mut Parting, c: usize, member: Member) -> Result<(), NoMemory>
    requires { c < length parting.old.groups.items }
    ensures index { parting.new.index ≡ parting.old.index }
    ensures groups { OnOk result (parting.new.groups.items
        ≡ slice_set parting.old.groups.items c (with_member (group_at c parting.old.groups.items) member)) }
{
    let group = &mut parting.groups[c];
    group.members.push(member)
}

// A group more, of this record, under its answer.
fn begin(
    alloc: Global,
    parting: &mut Parting,
    answer: AnswerKey,
    member: Member,
    alike: usize,
) -> Result<(), NoMemory>
    ensures index { OnOk result ((a : AnswerValue) → part_of parting.new.index a
        ≡ (if same_answer answer a then Some (length parting.old.groups.items) else part_of parting.old.index a)) }
    ensures groups { OnOk result (parting.new.groups.items ≡ parting.old.groups.items ++ alone alike member ∷ []) }
{
    let c = parting.groups.len();
    let members = MemberList::of(alloc, member)?;
    parting.groups.push(Group {
        members,
        alike,
        agreed: false,
        start: member.rest,
        from: 0,
        parted: false,
        parts: PartIndex::new(alloc),
    })?;
    parting.index.insert(answer, c)
}

// The next of the records is put to those that were answered alike.
fn put(
    alloc: Global,
    earlier: &Earlier,
    parting: &mut Parting,
    members: &[Member],
    k: usize,
    at: usize,
) -> Result<(), NoMemory>
    requires here { k < length members.now }
    requires go_on { Each (GoesOn earlier.now at) members.now }
    requires parts { AreParts earlier.now at (take k members.now) parting.old }
    ensures { OnOk result (AreParts earlier.now at (take (k + 1) members.now) parting.new) }
{
    let member = members[k];
    let Some((step, rest)) = earlier.step(member.number, at, member.rest) else {
        unreachable!()
    };
    let answer = AnswerKey::of(&step.answer)?;
    let next = Member {
        number: member.number,
        rest,
    };
    match parting.index.find(&answer) {
        Some(c) => join(parting, c, next),
        None => begin(alloc, parting, answer, next, at + 1),
    }
}

/// Records that go on behind so many steps, parted by what they were answered there.
pub(crate) fn part(
    alloc: Global,
    earlier: &Earlier,
    members: &[Member],
    at: usize,
) -> Result<Parting, NoMemory>
    requires { Each (GoesOn earlier.now at) members.now }
    ensures { IfOk result (AreParts earlier.now at members.now) }
{
    let mut parting = Parting {
        index: PartIndex::new(alloc),
        groups: Vec::new(alloc),
    };
    'members: for k in 0..members.len() {
        put(alloc, earlier, &mut parting, members, k, at)?;
    }
    Ok(parting)
}
