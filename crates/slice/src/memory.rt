//! A source and a sink in memory, for tests.
ghost use Rattle.std.specs.Prelude.{◌≡◌, ◌≤◌, drop, take, min, length, Some};

use crate::sink::{Sink, SinkError};
use crate::source::{Failed, Source};

/// Copies as many bytes as fit.
fn copy_front(from: &[u8], into: &mut [u8]) -> usize
    ensures count { result ≡ min (length from.now) (length into.old) }
    ensures front { take result into.new ≡ take result from.now }
{
    let count = from.len().min(into.len());
    into[..count].copy_from_slice(&from[..count]);
    count
}

/// Bytes, of which those from a place on are left. The reads whose numbers, from 1, are in a list fail.
#[derive(Drop)]
pub struct MemSource {
    pub bytes: Vec<u8>,
    pub place: usize,
    pub fails: Vec<u64>,
    pub calls: u64,
    pub faults: u64,
    ghost within: { place ≤ length bytes.items },
}

impl Source for MemSource {
    ghost left = { λ s. Some (drop s.place s.bytes.items) };

    ghost faults = { λ s. s.faults };

    fn read(&mut self, into: &mut [u8]) -> Result<usize, Failed> {
        self.calls = self.calls.saturating_add(1);
        if self.fails.contains(&self.calls) {
            self.faults = self.faults.saturating_add(1);
            return Err(Failed);
        }
        let count = copy_front(&self.bytes[self.place..], into);
        self.place += count;
        Ok(count)
    }
}

/// What was written. The writes whose numbers, from 1, are in a list fail after half of their bytes.
#[derive(Drop)]
pub struct MemSink {
    pub bytes: Vec<u8>,
    pub fails: Vec<u64>,
    pub calls: u64,
    pub faults: u64,
}

impl Sink for MemSink {
    ghost holds = { λ s. Some s.bytes.items };

    ghost faults = { λ s. s.faults };

    fn write(&mut self, bytes: &[u8]) -> Result<(), SinkError> {
        self.calls = self.calls.saturating_add(1);
        if self.fails.contains(&self.calls) {
            let (front, _) = bytes.split_at(bytes.len() / 2);
            if self.bytes.extend_from_slice(front).is_err() {
                return Err(SinkError::NoMemory);
            }
            self.faults = self.faults.saturating_add(1);
            return Err(SinkError::Failed);
        }
        match self.bytes.extend_from_slice(bytes) {
            Ok(()) => Ok(()),
            Err(_) => Err(SinkError::NoMemory),
        }
    }
}
