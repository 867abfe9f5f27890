//! Tests of sinks and sources over standard writers and readers: how often these are called.

use ltl_streams::{
    ByteSink, ByteSource, LentReader, OutputBuffer, ReaderSource, WriterSink, write_whole,
};
use std::io;
use std::io::{Read, Write};

/// What the call with a given number does, counted from 1. The other calls do all that is asked.
#[derive(Clone, Copy, PartialEq, Eq)]
enum Failing {
    Never,
    Fails(usize),
    TakesNone(usize),
}

/// A stream that counts its calls.
#[derive(Drop)]
struct Counting {
    calls: usize,
    way: Failing,
}

impl Counting {
    fn new(way: Failing) -> Counting {
        Counting { calls: 0, way }
    }

    /// The number of bytes that are transferred, of `len`.
    fn call(&mut self, len: usize) -> io::Result<usize> {
        self.calls = self.calls.saturating_add(1);
        if self.way == Failing::Fails(self.calls) {
            return Err(io::Error::from(io::ErrorKind::Other));
        }
        if self.way == Failing::TakesNone(self.calls) {
            return Ok(0);
        }
        Ok(len.min(3))
    }
}

impl Write for Counting {
    fn write(&mut self, buf: &[u8]) -> io::Result<usize> {
        Ok(self.call(buf.len())?.min(buf.len()))
    }

    fn flush(&mut self) -> io::Result<()> {
        self.call(0)?;
        Ok(())
    }
}

impl Read for Counting {
    fn read(&mut self, buf: &mut [u8]) -> io::Result<usize> {
        let count = self.call(buf.len())?.min(buf.len());
        buf[..count].fill(b'a');
        Ok(count)
    }
}

#[test]
fn failed_writes_are_the_last_ones(rt: HostRuntime) {
    for way in [Failing::Fails(2), Failing::TakesNone(2)] {
        let mut writer = Counting::new(way);
        let mut sink = WriterSink::new(&mut writer);
        assert!(rt; write_whole(&mut sink, b"abcde").is_err());
        assert!(rt; write_whole(&mut sink, b"abcde").is_err());
        assert!(rt; sink.flush().is_err());
        assert_eq!(rt; writer.calls, 2);
    }
}

#[test]
fn flushes_are_the_last_calls(rt: HostRuntime) {
    for way in [Failing::Never, Failing::Fails(3)] {
        let mut writer = Counting::new(way);
        let mut sink = WriterSink::new(&mut writer);
        let mut buffer = OutputBuffer::new();
        assert!(rt; buffer.put(b"ab", &mut sink).is_ok());
        assert!(rt; buffer.put(b"cd", &mut sink).is_ok());
        assert!(rt; buffer.send(&mut sink).is_ok());
        assert_eq!(rt; sink.flush().is_ok(), way == Failing::Never);
        assert!(rt; sink.flush().is_err());
        assert!(rt; sink.write(b"e").is_err());
        assert_eq!(rt; writer.calls, 3);
    }
}

#[test]
fn failed_reads_and_ends_are_the_last_reads(rt: HostRuntime) {
    for way in [Failing::Fails(2), Failing::TakesNone(2)] {
        let mut reader = Counting::new(way);
        let mut source = LentReader::new(&mut reader);
        let mut room = [0u8; 2];
        assert!(rt; matches!(source.read(&mut room), Ok(2)));
        assert_eq!(rt;
            source.read(&mut room).is_ok(),
            way == Failing::TakesNone(2)
        );
        assert!(rt; source.read(&mut room).is_err());
        assert_eq!(rt; reader.calls, 2);
    }
}

#[test]
fn empty_room_is_no_end(rt: HostRuntime) {
    let mut source = ReaderSource::new(Counting::new(Failing::Never));
    let mut room = [0u8; 2];
    assert!(rt; matches!(source.read(&mut []), Ok(0)));
    assert!(rt; matches!(source.read(&mut room), Ok(2)));
}
