//! Streams that fail once, and the source and the sink over them.
use crate::calls::fails;
use std::io;
use std::io::{Read, Write};
use tee_base::{ReadAnswer, Sink, SinkFailed, Source, SourceFailed, StdSink, StdSource, read_all};

/// A stream of single bytes whose second call fails. It ends after three calls.
#[derive(Drop)]
struct FailsOnce {
    calls: u8,
}

impl FailsOnce {
    /// The number of this call, from 0, if it doesn't fail.
    fn call(&mut self) -> io::Result<u8> {
        let call = self.calls;
        self.calls = call.saturating_add(1);
        if fails(call) {
            return Err(io::ErrorKind::Other.into());
        }
        Ok(call)
    }
}

impl Read for FailsOnce {
    fn read(&mut self, buf: &mut [u8]) -> io::Result<usize> {
        let call = self.call()?;
        if call > 2 || buf.is_empty() {
            return Ok(0);
        }
        buf[0] = call;
        Ok(1)
    }
}

impl Write for FailsOnce {
    fn write(&mut self, buf: &[u8]) -> io::Result<usize> {
        if self.call()? > 2 {
            return Ok(0);
        }
        Ok(buf.len().min(1))
    }

    fn flush(&mut self) -> io::Result<()> {
        Ok(())
    }
}

#[test]
fn a_failed_read_is_not_the_end(rt: HostRuntime) {
    let mut source = StdSource::new(FailsOnce { calls: 0 });
    let mut into = [9; 4];
    assert!(rt; source.read(&mut into) == Ok(1));
    assert!(rt; source.faults() == 0);
    assert!(rt; source.read(&mut into) == Err(SourceFailed));
    assert!(rt; source.faults() == 1);
    assert!(rt; source.read(&mut into) == Ok(1));
    assert!(rt; source.read(&mut into) == Ok(0));
    assert!(rt; source.faults() == 1);
    assert!(rt; into == [2, 9, 9, 9]);
    let mut cut = StdSource::new(FailsOnce { calls: 0 });
    let answer = read_all(rt.alloc(), &mut cut, 100);
    assert!(rt; matches!(answer, Err(ReadAnswer::ReadFault)));
}

#[test]
fn a_failed_write_is_not_written(rt: HostRuntime) {
    let mut sink = StdSink::new(FailsOnce { calls: 0 });
    assert!(rt; sink.write(b"ab") == Ok(1));
    assert!(rt; sink.faults() == 0);
    assert!(rt; sink.write(b"b") == Err(SinkFailed));
    assert!(rt; sink.faults() == 1);
    assert!(rt; sink.write(b"b") == Ok(1));
    assert!(rt; sink.faults() == 1);
    assert!(rt; sink.write(b"c") == Err(SinkFailed), "it took nothing");
    assert!(rt; sink.faults() == 2);
    assert!(rt; sink.write(b"") == Ok(0));
}
