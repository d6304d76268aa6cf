//! Readers and writers as sources and sinks.
ghost use Rattle.std.specs.Prelude.{◌≡◌, false, []};

use pass_outside::{Failed, Sink, Source};
use std::io::{Read, Write};

/// A reader as a source, as one of standard input is.
#[derive(Drop)]
pub struct HostSource<R> {
    reader: R,
    faults: u64,
}

/// A writer as a sink, as one of standard output is.
#[derive(Drop)]
pub struct HostSink<W> {
    writer: W,
    faults: u64,
}

impl<R: Read> HostSource<R> {
    ghost use Rattle.pass_host.specs.Host.{source_faults};

    pub fn new(reader: R) -> HostSource<R>
        ensures { source_faults result ≡ 0 }
    {
        HostSource { reader, faults: 0 }
    }
}

impl<W: Write> HostSink<W> {
    ghost use Rattle.pass_host.specs.Host.{sink_faults};

    pub fn new(writer: W) -> HostSink<W>
        ensures { sink_faults result ≡ 0 }
    {
        HostSink { writer, faults: 0 }
    }
}

impl<R: Read> Source for HostSource<R> {
    ghost use Rattle.pass_host.specs.Host.{source_faults};

    ghost tells = { false };

    ghost left = { λ s. [] };

    ghost fault_count = { source_faults };

    fn read(&mut self, into: &mut [u8]) -> Result<usize, Failed> {
        if self.faults == u64::MAX {
            return Err(Failed);
        }
        match self.reader.read(into) {
            Ok(count) => Ok(count),
            Err(_) => {
                self.faults += 1;
                Err(Failed)
            }
        }
    }
}

impl<W: Write> Sink for HostSink<W> {
    ghost use Rattle.pass_host.specs.Host.{sink_faults};

    ghost tells = { false };

    ghost taken = { λ s. [] };

    ghost fault_count = { sink_faults };

    // A writer that takes nothing of a piece that isn't empty has failed.
    fn write(&mut self, bytes: &[u8]) -> Result<usize, Failed> {
        if self.faults == u64::MAX {
            return Err(Failed);
        }
        match self.writer.write(bytes) {
            Ok(count) if count > 0 || bytes.is_empty() => Ok(count),
            _ => {
                self.faults += 1;
                Err(Failed)
            }
        }
    }
}
