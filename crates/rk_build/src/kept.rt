// What the state files keep.
ghost use Rattle.std.specs.Prelude.{◌≡◌, IfOk};
ghost use Rattle.tr_record.specs.Contents.{AreContents};
ghost use Rattle.tr_record.specs.Generations.{records};
ghost use Rattle.rk_build.specs.Kept.{ReadsAttrs, ReadsDb, ReadsState};
ghost use Rattle.rk_build.specs.declared.stop.Refusal.TheVariants as refusal;
ghost use Rattle.rk_build.specs.declared.stop.BuildErr.TheVariants as stop;

use crate::outcome::StateFile;
use crate::stop::{BuildErr, Refusal};
use rk_attrs::Attrs;
use rk_base::Bytes;
use rk_folder::State;
use std::alloc::Global;
use tr_attrs::read_attrs;
use tr_kept::{ReadKept, read_kept};
use tr_parts::{CodecErr, Damage};
use tr_record::{Kept, RecordedContents};

/// The rows of attributes, the tables of records, and the contents that the answers of these are.
#[derive(Drop)]
pub(crate) struct KeptState {
    pub attrs: Attrs,
    pub old: Kept,
    pub contents: RecordedContents,
}

fn damaged(file: StateFile, damage: Damage) -> BuildErr
    ensures { result ≡ stop.Refused (refusal.Damaged file damage) }
{
    BuildErr::Refused(Refusal::Damaged(file, damage))
}

fn attrs_in(alloc: Global, attrs: &Option<Bytes>) -> Result<Attrs, BuildErr>
    ensures { ReadsAttrs attrs.now result }
{
    match attrs {
        None => Ok(Attrs::new(alloc)),
        Some(bytes) => match read_attrs(alloc, bytes.as_slice()) {
            Ok(attrs) => Ok(attrs),
            Err(CodecErr::Damaged(damage)) => Err(damaged(StateFile::Attrs, damage)),
            Err(CodecErr::NoMemory) => Err(BuildErr::NoMemory),
        },
    }
}

/// The tables of the database, the newest first; none where it is absent. It answers `Damaged` or `NoMemory`.
pub fn tables_in(alloc: Global, db: &Option<Bytes>) -> Result<ReadKept, BuildErr>
    ensures { ReadsDb db.now result }
{
    match db {
        None => {
            let kept = ReadKept::none(alloc)?;
            Ok(kept)
        }
        Some(bytes) => match read_kept(alloc, bytes.as_slice()) {
            Ok(kept) => Ok(kept),
            Err(CodecErr::Damaged(damage)) => Err(damaged(StateFile::Db, damage)),
            Err(CodecErr::NoMemory) => Err(BuildErr::NoMemory),
        },
    }
}

/// Decodes the state files that were read, attrs before the database, and gives what they keep.
pub(crate) fn kept(alloc: Global, state: &State) -> Result<KeptState, BuildErr>
    ensures reads { ReadsState state.now result }
    ensures contents { IfOk result (λ kept. AreContents kept.contents (records kept.old)) }
{
    let attrs = attrs_in(alloc, &state.attrs)?;
    let read = tables_in(alloc, &state.db)?;
    let (old, contents) = read.into_parts();
    Ok(KeptState {
        attrs,
        old,
        contents,
    })
}
