// Groups of records that have their first steps in common.
ghost use Rattle.std.specs.Prelude.{◌≡◌, ◌≤◌, false, IsTrue, IsFalse};
ghost use Rattle.tr_matching.specs.Groups.{IsCommon, IsKnown, numbers_of};
ghost use Rattle.tr_matching.specs.Matching.{AreTorn};

use crate::Earlier;
use crate::common::{have_alike, have_one};
use crate::member::MemberList;
use crate::part_index::PartIndex;

/// Records that have their first steps in common.
#[derive(Debug, Drop)]
pub struct Group {
    pub members: MemberList,
    /// How many steps they are known to have in common.
    pub alike: usize,
    /// Whether they are known to have one call or exit next behind these.
    pub agreed: bool,
    /// The number of the rest of the first record where the group begins: behind the answer that led to it.
    pub start: usize,
    /// The number of the first of its parts among all groups.
    pub from: usize,
    /// Whether it was parted by the answers behind the steps in common.
    pub parted: bool,
    /// Its parts by these answers; their numbers count from `from` on.
    pub parts: PartIndex,
}

/// What the records of a group have next behind their common steps is looked at: where they go on alike they have one step more in
/// common; else they have one next, unless they are torn.
pub(crate) fn look(earlier: &Earlier, group: &mut Group) -> bool
    requires common { IsCommon earlier.now group.old }
    requires unknown { group.old.agreed ≡ false }
    ensures common { IsCommon earlier.now group.new }
    ensures numbers { numbers_of group.new ≡ numbers_of group.old }
    ensures alike { group.old.alike ≤ group.new.alike }
    ensures start { group.new.start ≡ group.old.start }
    ensures parted { group.new.parted ≡ group.old.parted }
    ensures known { IsTrue result → IsKnown group.old.alike group.new }
    ensures torn { IsFalse result → AreTorn earlier.now.records group.old.alike (numbers_of group.old) }
{
    let at = group.alike;
    if let Some(more) = have_alike(earlier, group.members.as_slice(), at) {
        group.members.advance(earlier, at);
        group.alike = more;
        return true;
    }
    let one = have_one(earlier, group.members.as_slice(), at);
    group.agreed = one;
    one
}
