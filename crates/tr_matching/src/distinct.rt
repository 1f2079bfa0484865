// Records that count once.
ghost use Rattle.std.specs.Prelude.{◌≡◌, ◌<◌, [], IfOk, length};
ghost use Rattle.std.specs.List.{AllByRecursion as Each};
ghost use Rattle.tr_record.specs.Contents.{AreContents};
ghost use Rattle.tr_matching.specs.Earlier.{IsRest};
ghost use Rattle.tr_matching.specs.Once.{AreApart, IsOnce, talk_of};

use crate::Earlier;
use indexmap::IndexSet;
use rk_base::NoMemory;
use std::alloc::Global;

/// What a record's command did, by numbers: the number of all its steps, and how it exits.
#[derive(Clone, Copy, Debug, PartialEq, Eq, Hash)]
pub(crate) struct TalkId {
    head: usize,
    exit: u8,
    cost: u64,
}

// What the command of a record did, by numbers.
fn talk_of(earlier: &Earlier, number: usize) -> TalkId
    requires contents { AreContents earlier.now.contents earlier.now.records }
    requires in_old { number < length earlier.now.records }
    ensures talk { result ≡ talk_of earlier.now number }
    ensures head { IsRest earlier.now number 0 result.head }
{
    let head = earlier.head(number);
    let rec = earlier.at(number);
    TalkId {
        head,
        exit: rec.exit,
        cost: rec.exit_cost,
    }
}

/// Those of these records, in their order, before which none did the same. Whether two did is told by the numbers of their steps:
/// where all equal steps have one number, none that did what another one did is left.
pub fn distinct_talks(
    alloc: Global,
    earlier: &Earlier,
    numbers: &[usize],
) -> Result<Vec<usize>, NoMemory>
    requires contents { AreContents earlier.now.contents earlier.now.records }
    requires in_old { Each (λ i. i < length earlier.now.records) numbers.now }
    ensures once { IfOk result (λ kept. IsOnce earlier.now.records [] numbers.now kept.items) }
    ensures apart { IfOk result (λ kept. AreApart earlier.now kept.items) }
{
    let mut kept = Vec::new(alloc);
    let mut talks: IndexSet<TalkId> = IndexSet::new(alloc);
    'numbers: for k in 0..numbers.len() {
        let number = numbers[k];
        if talks.insert(talk_of(earlier, number))? {
            kept.push(number)?;
        }
    }
    Ok(kept)
}
