// The pieces of a table, put by a writer.
ghost use Rattle.std.specs.Prelude.{◌≡◌, List, OnOk, length, map};
ghost use Rattle.std.specs.List.{AllByRecursion};
ghost use Rattle.tr_nodes.specs.Tails.{Tail, head_in};
ghost use Rattle.tr_record.specs.declared.steps.Step.{Step as OneStep};
ghost use Rattle.tr_parts.specs.Piece.{◌⊕◌, byte, number, counted};
ghost use Rattle.tr_codec.specs.Puts.{Puts};
ghost use Rattle.tr_codec.specs.Same.{same_step};
ghost use Rattle.tr_codec.specs.Sound.{TypedEnds};
ghost use Rattle.tr_codec.specs.Spelling.{key_piece, record_piece, talks};

use crate::key_pieces::put_key;
use crate::writer::Writer;
use rk_base::NoMemory;
use tr_record::Record;

// A record whose steps have this number.
fn put_record(w: &mut Writer, rec: &Record, head: usize) -> Result<(), NoMemory>
    ensures puts { OnOk result (Puts (key_piece rec.now.key ⊕ number head ⊕ byte rec.now.exit ⊕ number rec.now.exit_cost) w.old w.new) }
    ensures typed { OnOk result (TypedEnds rec.now) }
{
    put_key(w, &rec.key)?;
    w.put_number(head as u64)?;
    w.put_byte(rec.exit)?;
    w.put_number(rec.exit_cost)?;
    Ok(())
}

/// The records, whose steps have these numbers.
pub fn put_records(w: &mut Writer, records: &[Record], heads: &[usize]) -> Result<(), NoMemory>
    requires { length heads.now ≡ length records.now }
    ensures puts { OnOk result ((tails : List (Tail OneStep)) → heads.now ≡ map (head_in same_step tails) (talks records.now) → Puts (counted (record_piece tails) records.now) w.old w.new) }
    ensures typed { OnOk result (AllByRecursion TypedEnds records.now) }
{
    w.put_number(records.len() as u64)?;
    'records: for (i, rec) in records.iter().enumerate() {
        put_record(w, rec, heads[i])?;
    }
    Ok(())
}
