// What a build finds in a folder.
ghost use Rattle.std.specs.Prelude.{◌≡◌, IfOk, OnOk};
ghost use Rattle.rk_folder.specs.Looks.{LooksInOrder, looks};
ghost use Rattle.rk_tree.specs.Entries.{IsWholeSnapshot};
ghost use Rattle.tr_record.specs.Contents.{AreContents};
ghost use Rattle.tr_record.specs.Generations.{records};
ghost use Rattle.rk_request.specs.Asked.{is_fresh};
ghost use Rattle.rk_build.specs.Kept.{Spells};
ghost use Rattle.rk_build.specs.Stages.{FindsSo, ReadsCounted, Steadily};

use crate::kept::{KeptState, kept};
use crate::look::look;
use crate::options::is_fresh;
use crate::stop::BuildErr;
use rk_attrs::Attrs;
use rk_changes::Holding;
use rk_folder::Folder;
use rk_request::Request;
use std::alloc::Global;
use tr_record::{Kept, RecordedContents};

/// What the folder holds, and the rows of attributes and the tables of records that its state files keep, with the contents that the
/// answers of these are.
#[derive(Drop)]
pub(crate) struct Found {
    pub holding: Holding,
    pub attrs: Attrs,
    pub old: Kept,
    pub contents: RecordedContents,
}

/// Lists the folder, and reads what its state files keep; of a build that begins afresh the database is passed
/// over, and no tables are kept.
pub(crate) fn find<F: Folder>(
    alloc: Global,
    request: &Request,
    folder: &mut F,
) -> Result<Found, BuildErr>
    ensures held { F.told folder.new ≡ F.told folder.old }
    ensures writes { F.write_faults folder.new ≡ F.write_faults folder.old }
    ensures looks { LooksInOrder (F.told folder.old) (looks (is_fresh request.now) (F.reach folder.old)) (F.schedule folder.old) (F.schedule folder.new) }
    ensures reads { ReadsCounted (F.read_faults folder.old) (F.read_faults folder.new) result }
    ensures memory { OnOk result (F.memory_failures folder.new ≡ F.memory_failures folder.old) }
    ensures steady { Steadily (F.steady folder.old) (F.steady folder.new) result }
    ensures finds { FindsSo request.now (F.told folder.old) result }
    ensures whole { IfOk result (λ found. IsWholeSnapshot found.holding.entries) }
    // The bytes that were read are the spelling of the tables.
    ensures spells { IfOk result (λ found. Spells found.holding.state.db found.old) }
    ensures contents { IfOk result (λ found. AreContents found.contents (records found.old)) }
{
    let holding = look(alloc, folder, is_fresh(request))?;
    let KeptState {
        attrs,
        old,
        contents,
    } = kept(alloc, &holding.state)?;
    Ok(Found {
        holding,
        attrs,
        old,
        contents,
    })
}
