//! Readers and writers without allocations, which fail at a given place.

ghost use Rattle.std.specs.Prelude.{◌≤◌};

use std::io;
use std::io::{Read, Write};

/// What happens at the place where a stream fails.
#[derive(Clone, Copy, PartialEq, Eq)]
pub(crate) enum Failing {
    /// Each call fails.
    Always,
    /// The first call fails, and a later one would work.
    Once,
    /// A write takes nothing.
    TakesNone,
}

fn fault() -> io::Error {
    io::Error::from(io::ErrorKind::Other)
}

/// A reader of a text, which gives a limited number of bytes in a call.
#[derive(Drop)]
pub(crate) struct Given<'t> {
    rest: &'t [u8],
    size: usize,
    left: usize,
    way: Failing,
    failed: usize,
}

impl<'t> Given<'t> {
    pub(crate) fn of(text: &'t str) -> Given<'t> {
        Given::in_pieces(text, usize::MAX)
    }

    pub(crate) fn in_pieces(text: &'t str, size: usize) -> Given<'t> {
        Given {
            rest: text.as_bytes(),
            size,
            left: usize::MAX,
            way: Failing::Always,
            failed: 0,
        }
    }

    /// A reader that fails after `left` bytes.
    pub(crate) fn failing(text: &'t str, left: usize, way: Failing) -> Given<'t> {
        Given {
            rest: text.as_bytes(),
            size: 7,
            left,
            way,
            failed: 0,
        }
    }
}

impl Read for Given<'_> {
    fn read(&mut self, buf: &mut [u8]) -> io::Result<usize> {
        if self.left == 0 && (self.failed == 0 || self.way != Failing::Once) {
            self.failed = self.failed.saturating_add(1);
            return Err(fault());
        }
        let room = if self.failed == 0 {
            self.left
        } else {
            usize::MAX
        };
        let count = self.rest.len().min(buf.len()).min(self.size).min(room);
        buf[..count].copy_from_slice(&self.rest[..count]);
        self.rest = &self.rest[count..];
        self.left = self.left.saturating_sub(count);
        Ok(count)
    }
}

/// The largest number of bytes that a run writes.
pub(crate) const MOST_BYTES: usize = 1_024;

/// A writer that keeps what was written, up to a number of bytes.
#[derive(Drop)]
pub(crate) struct Taken {
    bytes: [u8; MOST_BYTES],
    len: usize,
    room: usize,
    way: Failing,
    flush_fails: bool,
    failed: usize,
    flushes: usize,
    is_late: bool,
    ghost within: { (len ≤ 1024) × (room ≤ 1024) },
}

impl Taken {
    pub(crate) fn new() -> Taken {
        Taken::with_room(MOST_BYTES, Failing::Always)
    }

    /// A writer that fails after `room` bytes.
    pub(crate) fn with_room(room: usize, way: Failing) -> Taken {
        Taken {
            bytes: [0; MOST_BYTES],
            len: 0,
            room: room.min(MOST_BYTES),
            way,
            flush_fails: false,
            failed: 0,
            flushes: 0,
            is_late: false,
        }
    }

    /// A writer that takes each byte, but whose flush fails.
    pub(crate) fn unflushed() -> Taken {
        let mut taken = Taken::new();
        taken.flush_fails = true;
        taken
    }

    pub(crate) fn bytes(&self) -> &[u8] {
        &self.bytes[..self.len]
    }

    pub(crate) fn flushes(&self) -> usize {
        self.flushes
    }

    /// Whether there was a write behind a failure or a flush, or a flush behind one of these.
    pub(crate) fn is_late(&self) -> bool {
        self.is_late
    }
}

impl Write for Taken {
    fn write(&mut self, buf: &[u8]) -> io::Result<usize> {
        self.is_late = self.is_late || 0 < self.failed || 0 < self.flushes;
        let is_open = 0 < self.failed && self.way == Failing::Once;
        let end = if is_open { MOST_BYTES } else { self.room };
        let count = buf.len().min(end.saturating_sub(self.len));
        if count == 0 && !buf.is_empty() {
            self.failed = self.failed.saturating_add(1);
            return if self.way == Failing::TakesNone {
                Ok(0)
            } else {
                Err(fault())
            };
        }
        let from = self.len;
        self.bytes[from..from + count].copy_from_slice(&buf[..count]);
        self.len = from + count;
        Ok(count)
    }

    fn flush(&mut self) -> io::Result<()> {
        self.is_late = self.is_late || 0 < self.failed || 0 < self.flushes;
        self.flushes = self.flushes.saturating_add(1);
        if self.flush_fails {
            Err(fault())
        } else {
            Ok(())
        }
    }
}
