// A row: from which places a part of an expression leads to the end, for all places of a match at once.
ghost use Rattle.std.specs.Prelude.{◌≡◌, ◌+◌, ◌*◌, ◌/◌, ◌%◌, ◌^◌, ◌==◌, ◌<◌, ◌∷◌, ◌++◌, [], IfOk, OnOk, if◌then◌else◌};
ghost use Rattle.ut_bre.specs.Rows.{is_open, lead, TellsWhere};

use crate::group::Span;
use crate::mark::Mark;
use rk_base::NoMemory;
use std::alloc::Global;
use std::marker::Model;

/// For each place, by how far before an end it lies, whether a part leads from there to the end, with what stands behind it:
/// one bit each.
#[derive(Drop)]
pub(crate) struct Row {
    /// Eight entries each, the first one in the highest bit.
    bytes: Vec<u8>,
    /// Those behind them, fewer than eight, the last one in the lowest bit.
    last: u8,
    count: usize,
}

impl Model for Row {
    ghost use Rattle.std.specs.Prelude.{◌<◌, ◌^◌, ◌++◌, List, Bool};
    ghost use Rattle.ut_bre.specs.Bits.{bits, all_bits};

    ghost Value = { List Bool };

    ghost view = { λ r. all_bits r.bytes.items ++ bits r.count r.last };

    ghost invariant = { λ r. (r.count < 8) × (r.last < 2 ^ r.count) };
}

// The bits of a byte, and one more below them.
fn with_bit(byte: u8, bit: bool) -> u8
    requires { byte < 128 }
    ensures { result ≡ 2 * byte + (if bit then 1 else 0) }
{
    if bit { 2 * byte + 1 } else { 2 * byte }
}

// Whether the bit above so many others is set.
fn is_bit(byte: u8, above: usize) -> bool
    requires { above < 8 }
    ensures { result ≡ (byte / 2 ^ above % 2 == 1) }
{
    (byte >> above) % 2 == 1
}

impl Row {
    pub(crate) fn allocator(&self) -> Global {
        *self.bytes.allocator()
    }

    pub(crate) fn new(alloc: Global) -> Row
        ensures { result ≡ [] }
    {
        Row {
            bytes: Vec::new(alloc),
            last: 0,
            count: 0,
        }
    }

    pub(crate) fn push(&mut self, leads: bool) -> Result<(), NoMemory>
        ensures { OnOk result (self.new ≡ self.old ++ leads ∷ []) }
    {
        let last = with_bit(self.last, leads);
        if self.count < 7 {
            self.last = last;
            self.count += 1;
            return Ok(());
        }
        self.bytes.push(last)?;
        self.last = 0;
        self.count = 0;
        Ok(())
    }

    /// The row of nothing: the end alone leads to it.
    pub(crate) fn of_end(alloc: Global, span: Span) -> Result<Row, NoMemory>
        ensures { IfOk result (λ r. TellsWhere (λ i. i ≡ span.end) span.start span.end r) }
    {
        let mut row = Row::new(alloc);
        row.push(true)?;
        Ok(row)
    }

    pub(crate) fn is_open(&self, far: usize) -> bool
        ensures { result ≡ is_open self.now far }
    {
        if far / 8 < self.bytes.len() {
            return is_bit(self.bytes[far / 8], 7 - far % 8);
        }
        let left = far - 8 * self.bytes.len();
        if left < self.count {
            return is_bit(self.last, self.count - 1 - left);
        }
        false
    }

    /// The mark that comes in so far before the end.
    pub(crate) fn lead(&self, far: usize) -> Mark
        ensures { result ≡ lead self.now far }
    {
        if self.is_open(far) { Some(0) } else { None }
    }
}
