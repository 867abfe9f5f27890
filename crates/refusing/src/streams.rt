//! Readers and writers that fail after a given number of bytes.

use std::alloc::Global;
use std::io;
use std::io::{Read, Write};

fn fault() -> io::Error {
    io::Error::from(io::ErrorKind::Other)
}

/// A reader that gives a text, a few bytes in each call, and fails after a number of bytes.
#[derive(Drop)]
pub struct Given<'t> {
    /// The bytes that aren't read yet.
    pub rest: &'t [u8],
    /// The number of bytes after which it fails.
    pub left: usize,
}

impl Read for Given<'_> {
    fn read(&mut self, buf: &mut [u8]) -> io::Result<usize> {
        if self.left == 0 {
            return Err(fault());
        }
        let count = self.rest.len().min(buf.len()).min(self.left).min(7);
        buf[..count].copy_from_slice(&self.rest[..count]);
        self.rest = &self.rest[count..];
        self.left -= count;
        Ok(count)
    }
}

/// A writer that takes a number of bytes, a few in each call, and counts flushes.
#[derive(Drop)]
pub struct Taken {
    /// The bytes that were written.
    pub held: Vec<u8>,
    /// The number of bytes after which it fails.
    pub room: usize,
    /// The number of flushes.
    pub flushes: usize,
    /// Whether a flush succeeds.
    pub stays: bool,
}

impl Taken {
    /// A writer that fails after so many bytes, and whose flushes succeed.
    pub fn new(alloc: Global, room: usize) -> Taken {
        Taken {
            held: Vec::new(alloc),
            room,
            flushes: 0,
            stays: true,
        }
    }
}

impl Write for Taken {
    fn write(&mut self, buf: &[u8]) -> io::Result<usize> {
        if self.room == 0 && !buf.is_empty() {
            return Err(fault());
        }
        let count = buf.len().min(self.room).min(11);
        self.held.extend_from_slice(&buf[..count])?;
        self.room -= count;
        Ok(count)
    }

    fn flush(&mut self) -> io::Result<()> {
        self.flushes = self.flushes.saturating_add(1);
        if self.stays { Ok(()) } else { Err(fault()) }
    }
}
