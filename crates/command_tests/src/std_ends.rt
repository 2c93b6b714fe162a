//! Readers and writers of std that fail, as ends.

use std::io;
use wit_ends::{InputFault, SinkFailed, StdSink, StdSource, read_input, write_all};

/// A reader and a writer that always fail.
#[derive(Clone, Copy)]
struct Broken;

/// A writer that never takes a byte.
#[derive(Clone, Copy)]
struct Full;

impl io::Read for Broken {
    fn read(&mut self, _buf: &mut [u8]) -> io::Result<usize> {
        Err(io::Error::from(io::ErrorKind::Other))
    }
}

impl io::Write for Broken {
    fn write(&mut self, _piece: &[u8]) -> io::Result<usize> {
        Err(io::Error::from(io::ErrorKind::Other))
    }

    fn flush(&mut self) -> io::Result<()> {
        Ok(())
    }
}

impl io::Write for Full {
    fn write(&mut self, _piece: &[u8]) -> io::Result<usize> {
        Ok(0)
    }

    fn flush(&mut self) -> io::Result<()> {
        Ok(())
    }
}

#[test]
fn a_std_source_counts_faults(rt: HostRuntime) {
    let mut broken = StdSource::new(Broken);
    let read = read_input(rt.alloc(), &mut broken);
    assert!(rt; matches!(read, Err(InputFault::ReadFault)));
    assert!(rt; broken.faults() == 1);
}

#[test]
fn a_std_sink_counts_faults(rt: HostRuntime) {
    let mut broken = StdSink::new(Broken);
    let mut full = StdSink::new(Full);
    assert!(rt; write_all(&mut broken, b"0") == Err(SinkFailed));
    assert!(rt; write_all(&mut full, b"0") == Err(SinkFailed));
    assert!(rt; broken.faults() == 1 && full.faults() == 1);
}
