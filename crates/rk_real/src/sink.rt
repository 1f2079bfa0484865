// A stream as a sink. It tells nothing of what it holds, and counts its faults.
ghost use Rattle.std.specs.Prelude.{None, false};

use rk_folder::{Sink, SinkErr};
use std::io::Write;

/// A sink over any writer. It tells nothing of what it holds.
#[derive(Drop)]
pub struct RealSink<W: Write + Drop> {
    writer: W,
    faults: u64,
}

impl<W: Write + Drop> RealSink<W> {
    /// A sink that puts its bytes in this writer.
    pub fn new(writer: W) -> RealSink<W> {
        RealSink { writer, faults: 0 }
    }
}

// Writes all of the bytes, in as many pieces as it takes. A write that takes nothing fails.
fn write_whole<W: Write>(writer: &mut W, bytes: &[u8]) -> bool {
    let mut rest = bytes;
    while !rest.is_empty() {
        match writer.write(rest) {
            Ok(0) | Err(_) => return false,
            Ok(n) => rest = &rest[n..],
        }
    }
    true
}

impl<W: Write + Drop> Sink for RealSink<W> {
    ghost so_far = { λ _. None };

    ghost faults = { λ s. s.faults };

    ghost memory_failures = { λ _. 0 };

    ghost steady = { λ _. false };

    ghost schedule = { λ _. None };

    fn put(&mut self, bytes: &[u8]) -> Result<(), SinkErr> {
        if write_whole(&mut self.writer, bytes) {
            return Ok(());
        }
        self.faults = self.faults.saturating_add(1);
        Err(SinkErr::Failed)
    }
}
