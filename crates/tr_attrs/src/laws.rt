// Laws of the spelling.
ghost use Rattle.tr_attrs.specs.Laws.{OneAttrs};
ghost use Rattle.tr_parts.specs.Reads.{Finds};

use crate::attrs::{read_attrs, write_attrs};
use rk_attrs::Attrs;
use std::alloc::Global;
use tr_parts::CodecErr;

/// No two lists of rows have one spelling. It does nothing.
pub fn one_attrs()
    ensures { OneAttrs }
{}

/// What is written is read back.
pub fn read_back_attrs(alloc: Global, attrs: &Attrs) -> Result<Attrs, CodecErr>
    ensures { Finds result attrs.now }
{
    match write_attrs(alloc, attrs) {
        Ok(bytes) => read_attrs(alloc, bytes.as_slice()),
        Err(_) => Err(CodecErr::NoMemory),
    }
}
