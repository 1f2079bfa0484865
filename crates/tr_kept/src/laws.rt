// Laws of the spelling.
ghost use Rattle.tr_parts.specs.Reads.{Finds};
ghost use Rattle.tr_kept.specs.KeptSpelling.{FitsKept};
ghost use Rattle.tr_kept.specs.Laws.{OneKept, ApartFromTable, ApartFromOld, EarlierApart};

use crate::kept_reading::read_kept;
use crate::kept_writing::write_kept;
use std::alloc::Global;
use tr_parts::CodecErr;
use tr_record::Kept;

/// No two lists of tables have one spelling, of whichever version, and no bytes are spellings of two versions. It does nothing.
pub fn one_kept()
    ensures one { OneKept }
    ensures table { ApartFromTable }
    ensures old { ApartFromOld }
    ensures earlier { EarlierApart }
{}

/// What is kept is read back as it was written.
pub fn kept_back(alloc: Global, kept: &Kept) -> Result<Kept, CodecErr>
    ensures { FitsKept kept.now → Finds result kept.now }
{
    match write_kept(alloc, kept) {
        Ok(bytes) => match read_kept(alloc, bytes.as_slice()) {
            Ok(kept) => Ok(kept.into_kept()),
            Err(e) => Err(e),
        },
        Err(_) => Err(CodecErr::NoMemory),
    }
}
