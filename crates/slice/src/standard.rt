//! The source and the sink of the program: any reader and any writer of std, of which nothing is trusted but that
//! they tell of their failures.
use crate::sink::{Sink, SinkError};
use crate::source::{Failed, Source};
use std::io::{Read, Write};

/// A reader as a source.
#[derive(Drop)]
pub struct StdSource<R: Read> {
    pub reader: R,
    pub faults: u64,
}

impl<R: Read> Source for StdSource<R> {
    ghost left = { λ s. R.remaining s.reader };

    ghost faults = { λ s. s.faults };

    fn read(&mut self, into: &mut [u8]) -> Result<usize, Failed> {
        match self.reader.read(into) {
            Ok(count) => Ok(count),
            Err(_) => {
                self.faults = self.faults.saturating_add(1);
                Err(Failed)
            }
        }
    }
}

/// A writer as a sink. A write that takes nothing is a fault.
#[derive(Drop)]
pub struct StdSink<W: Write> {
    pub writer: W,
    pub faults: u64,
}

impl<W: Write> Sink for StdSink<W> {
    ghost holds = { λ s. W.contents s.writer };

    ghost faults = { λ s. s.faults };

    fn write(&mut self, bytes: &[u8]) -> Result<(), SinkError> {
        let mut rest = bytes;
        while !rest.is_empty() {
            match self.writer.write(rest) {
                Ok(count) => {
                    if count == 0 {
                        self.faults = self.faults.saturating_add(1);
                        return Err(SinkError::Failed);
                    }
                    rest = &rest[count..];
                }
                Err(_) => {
                    self.faults = self.faults.saturating_add(1);
                    return Err(SinkError::Failed);
                }
            }
        }
        Ok(())
    }
}
