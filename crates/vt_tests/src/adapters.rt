//! Readers and writers that are interrupted or full.
use std::io::{self, ErrorKind, Read, Write};
use std::test::Fail;
use vt_io::adapters::{ReadSource, WriteSink};
use vt_io::input::{Source, SourceFailed};
use vt_io::output::{Sink, SinkFailed};

/// A reader and writer that is interrupted so many times, and then takes and gives one byte a call.
#[derive(Drop)]
struct Device {
    interruptions: u32,
}

impl Device {
    fn interrupt(&mut self) -> io::Result<()> {
        if self.interruptions > 0 {
            self.interruptions -= 1;
            return Err(io::Error::from(ErrorKind::Interrupted));
        }
        Ok(())
    }
}

impl Read for Device {
    fn read(&mut self, buf: &mut [u8]) -> io::Result<usize> {
        self.interrupt()?;
        Ok(buf.len().min(1))
    }
}

impl Write for Device {
    fn write(&mut self, buf: &[u8]) -> io::Result<usize> {
        self.interrupt()?;
        Ok(buf.len().min(1))
    }

    fn flush(&mut self) -> io::Result<()> {
        self.interrupt()
    }
}

/// A writer that takes no byte and cannot be flushed.
#[derive(Drop)]
struct Full;

impl Write for Full {
    fn write(&mut self, _buf: &[u8]) -> io::Result<usize> {
        Ok(0)
    }

    fn flush(&mut self) -> io::Result<()> {
        Err(io::Error::from(ErrorKind::StorageFull))
    }
}

#[test]
fn tries_again_when_interrupted(rt: HostRuntime) {
    let mut buffer = [0u8; 4];
    let failed = (Err(SourceFailed), Err(SinkFailed), Err(SinkFailed));
    for (interruptions, want) in [(100, (Ok(1), Ok(1), Ok(()))), (101, failed)] {
        let mut source = ReadSource::new(Device { interruptions });
        assert_eq!(rt; source.read(&mut buffer), want.0, "after {interruptions}");
        let mut sink = WriteSink::new(Device { interruptions });
        assert_eq!(rt; sink.write(b"ab"), want.1, "after {interruptions}");
        let mut sink = WriteSink::new(Device { interruptions });
        assert_eq!(rt; sink.flush(), want.2, "after {interruptions}");
    }
}

#[test]
fn fails_when_full(rt: HostRuntime) {
    let mut sink = WriteSink::new(Full);
    assert_eq!(rt; sink.write(b"ab"), Err(SinkFailed));
    assert_eq!(rt; sink.flush(), Err(SinkFailed));
}
