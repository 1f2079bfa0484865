// Where output goes, with a count of faults.
ghost use Rattle.std.specs.Prelude.{◌≡◌, ◌++◌, ◌∷◌, [], ℕ, List, Bool, true, false, Option, Some, None, OnOk, OnErr, take, option_copied};
ghost use Rattle.rk_base.specs.Canonical.{is_empty};
ghost use Rattle.rk_folder.specs.Counts.{one_more};
ghost use Rattle.rk_folder.specs.Sinks.{Puts, PutCaused, PutMemoryCaused, PutSteadily, PutSchedule, OnPutSchedule, failing_put, put_schedule_of};

use rk_base::NoMemory;
use std::alloc::Global;
use std::marker::Model;

/// Why bytes were not put.
#[derive(Clone, Copy, Debug, PartialEq, Eq)]
pub enum SinkErr {
    /// A fault.
    Failed,
    NoMemory,
}

/// Bytes that go out one piece after another.
pub trait Sink {
    /// The bytes so far, where it tells them.
    ghost so_far: { Self → Option (List ℕ) };

    /// How many puts were faults, up to 2^64 - 1.
    ghost faults: { Self → ℕ };

    /// How many puts had no memory, up to 2^64 - 1.
    ghost memory_failures: { Self → ℕ };

    /// Whether no put is a fault.
    ghost steady: { Self → Bool };

    /// Which puts are to be faults, where it tells that.
    ghost schedule: { Self → Option PutSchedule };

    /// Puts the bytes out. At an error a front of them went out.
    fn put(&mut self, bytes: &[u8]) -> Result<(), SinkErr>
        ensures put { Puts bytes.now (so_far self.old) (so_far self.new) result }
        ensures cause { PutCaused (faults self.old) (faults self.new) result }
        ensures memory { PutMemoryCaused (memory_failures self.old) (memory_failures self.new) result }
        ensures steady { PutSteadily (steady self.old) (steady self.new) result }
        ensures schedule { OnPutSchedule (schedule self.old) (schedule self.new) bytes.now (so_far self.old) (so_far self.new) result };
}

/// A sink in memory. Puts of given numbers fail.
#[derive(Drop)]
pub struct MemSink {
    bytes: Vec<u8>,
    // the numbers of the puts that are to fail, and how many bytes go out before
    failing: Vec<(u64, usize)>,
    puts: u64,
    faults: u64,
    memory_failures: u64,
}

impl Model for MemSink {
    ghost use Rattle.rk_folder.specs.Sinks.{MemSinkValue};

    ghost Value = { MemSinkValue };

    ghost view = { λ s. record { bytes = s.bytes.items; failing = s.failing.items; puts = s.puts; faults = s.faults; memory_failures = s.memory_failures } };
}

// Counts a put, and finds how it is to fail.
fn counted<'a>(puts: &mut u64, failing: &'a [(u64, usize)]) -> Option<&'a (u64, usize)>
    ensures puts { puts.new ≡ one_more puts.old }
    ensures fault { option_copied result ≡ failing_put failing.now (one_more puts.old) }
{
    *puts = puts.saturating_add(1);
    let put = *puts;
    for it in failing {
        if it.0 == put {
            return Some(it);
        }
    }
    None
}

fn front(bytes: &[u8], n: usize) -> &[u8]
    ensures { result.now ≡ take n bytes.now }
{
    if n < bytes.len() { &bytes[..n] } else { bytes }
}

impl MemSink {
    /// A sink that nothing was put in, and of which no put fails.
    pub fn new(alloc: Global) -> MemSink
        ensures { result ≡ record { bytes = []; failing = []; puts = 0; faults = 0; memory_failures = 0 } }
    {
        MemSink {
            bytes: Vec::new(alloc),
            failing: Vec::new(alloc),
            puts: 0,
            faults: 0,
            memory_failures: 0,
        }
    }

    /// Lets the put of this number, from 1 on, fail after so many bytes.
    pub fn fail_at(&mut self, put: u64, after: usize) -> Result<(), NoMemory>
        ensures ok { OnOk result (self.new ≡ record self.old { failing = self.old.failing ++ (put, after) ∷ [] }) }
        ensures err { OnErr result (self.new ≡ self.old) }
    {
        self.failing.push((put, after))?;
        Ok(())
    }

    /// The bytes so far.
    pub fn bytes(&self) -> &[u8]
        ensures { result.now ≡ self.now.bytes }
    {
        self.bytes.as_slice()
    }

    /// How many puts were faults.
    pub fn faults(&self) -> u64
        ensures { result ≡ self.now.faults }
    {
        self.faults
    }

    /// How many puts had no memory.
    pub fn memory_failures(&self) -> u64
        ensures { result ≡ self.now.memory_failures }
    {
        self.memory_failures
    }
}

impl Sink for MemSink {
    ghost so_far = { λ s. Some s.bytes };

    ghost faults = { λ s. s.faults };

    ghost memory_failures = { λ s. s.memory_failures };

    ghost steady = { λ s. is_empty s.failing };

    ghost schedule = { λ s. Some (put_schedule_of s) };

    fn put(&mut self, bytes: &[u8]) -> Result<(), SinkErr> {
        let fault = counted(&mut self.puts, &self.failing);
        match fault {
            None => {
                if self.bytes.extend_from_slice(bytes).is_err() {
                    self.memory_failures = self.memory_failures.saturating_add(1);
                    return Err(SinkErr::NoMemory);
                }
                Ok(())
            }
            Some(it) => {
                if self.bytes.extend_from_slice(front(bytes, it.1)).is_err() {
                    self.memory_failures = self.memory_failures.saturating_add(1);
                    return Err(SinkErr::NoMemory);
                }
                self.faults = self.faults.saturating_add(1);
                Err(SinkErr::Failed)
            }
        }
    }
}
