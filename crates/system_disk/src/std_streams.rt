//! The source and the sink over the program's streams.
ghost use Rattle.std.specs.Prelude.{◌≡◌};

use crate::retrying::{read_retrying, write_retrying};
use log_disk::{Failed, READ_ALLOWANCE, Sink, Source};
use std::io::{Read, Write};

/// A reader of the standard library as a source. It tells the bytes that the reader tells, of which the
/// standard input has none.
#[derive(Drop)]
pub struct StdSource<R: Read + Drop> {
    reader: R,
    read_allowance: u64,
    faults: u64,
}

impl<R: Read + Drop> StdSource<R> {
    pub fn make(reader: R) -> Self
        ensures allowance { result.read_allowance ≡ READ_ALLOWANCE }
        ensures faults { result.faults ≡ 0 }
    {
        StdSource {
            reader,
            read_allowance: READ_ALLOWANCE,
            faults: 0,
        }
    }

    /// How often a call has failed.
    pub fn faults(&self) -> u64
        ensures { result ≡ self.now.faults }
    {
        self.faults
    }
}

impl<R: Read + Drop> Source for StdSource<R> {
    ghost left = { λ source. R.remaining source.reader };

    ghost read_allowance = { λ source. source.read_allowance };

    ghost faults = { λ source. source.faults };

    fn read(&mut self, buf: &mut [u8]) -> Result<usize, Failed> {
        if self.read_allowance > 0 {
            if let Ok(count) = read_retrying(&mut self.reader, buf) {
                if count > 0 {
                    self.read_allowance -= 1;
                }
                return Ok(count);
            }
        }
        self.faults = self.faults.saturating_add(1);
        Err(Failed)
    }
}

/// A writer of the standard library as a sink. It tells the bytes that the writer tells, of which the
/// standard output has none.
#[derive(Drop)]
pub struct StdSink<W: Write + Drop> {
    writer: W,
    faults: u64,
}

impl<W: Write + Drop> StdSink<W> {
    pub fn make(writer: W) -> Self
        ensures { result.faults ≡ 0 }
    {
        StdSink { writer, faults: 0 }
    }

    /// How often a call has failed.
    pub fn faults(&self) -> u64
        ensures { result ≡ self.now.faults }
    {
        self.faults
    }
}

impl<W: Write + Drop> Sink for StdSink<W> {
    ghost held_bytes = { λ sink. W.contents sink.writer };

    ghost faults = { λ sink. sink.faults };

    // A write that takes nothing is a fault, or a caller would try it again without end.
    fn write(&mut self, piece: &[u8]) -> Result<usize, Failed> {
        match write_retrying(&mut self.writer, piece) {
            Ok(count) if count > 0 => Ok(count),
            _ => {
                self.faults = self.faults.saturating_add(1);
                Err(Failed)
            }
        }
    }
}
