//! An output buffer of 16 KiB.

ghost use Rattle.std.specs.Prelude.{◌≡◌, ◌↔◌, ◌+◌, ◌≤◌, [], ◌++◌, length, take, IsTrue, OnOk, OnErr};
ghost use Rattle.ltl_streams.specs.Streams.{Takes, Breaks};
ghost use Rattle.ltl_streams.specs.Sending.{Puts};

use crate::sink::{ByteSink, WriteFault};
use crate::writing::write_whole;
use std::marker::Model;

const SIZE: usize = 16_384;

/// An output buffer: the bytes that aren't written yet. After an error from `send` or `put` the buffer must not be used again; its content is then
/// unspecified.
#[derive(Drop)]
pub struct OutputBuffer {
    bytes: [u8; SIZE],
    len: usize,
}

impl Model for OutputBuffer {
    ghost use Rattle.std.specs.Prelude.{ℕ, List, take, ◌≤◌};

    ghost Value = { List ℕ };

    ghost view = { λ p. take p.len p.bytes };

    ghost invariant = { λ p. p.len ≤ 16384 };
}

impl OutputBuffer {
    /// An empty buffer.
    pub fn new() -> OutputBuffer
        ensures { result ≡ [] }
    {
        OutputBuffer {
            bytes: [0; SIZE],
            len: 0,
        }
    }

    /// Whether so many bytes still fit.
    #[inline(always)]
    fn fits(&self, count: usize) -> bool
        ensures { IsTrue result ↔ (count + length self.now ≤ 16384) }
    {
        count <= SIZE && self.len <= SIZE - count
    }

    /// Appends bytes that fit.
    #[inline(always)]
    fn hold(&mut self, bytes: &[u8])
        requires { length bytes.now + length self.old ≤ 16384 }
        ensures { self.new ≡ self.old ++ bytes.now }
    {
        let end = self.len + bytes.len();
        self.bytes[self.len..end].copy_from_slice(bytes);
        self.len = end;
    }

    /// Appends the first `count` bytes. All 16 are copied, which is faster; those behind `count` aren't content of the buffer.
    #[inline(always)]
    fn hold_first(&mut self, bytes: &[u8; 16], count: usize)
        requires first { count ≤ 16 }
        requires room { 16 + length self.old ≤ 16384 }
        ensures { self.new ≡ self.old ++ take count bytes.now }
    {
        let end = self.len + 16;
        self.bytes[self.len..end].copy_from_slice(bytes.as_slice());
        self.len += count;
    }

    /// Writes the buffered bytes and empties the buffer. An empty buffer causes no call of the sink.
    pub fn send<S: ByteSink>(&mut self, sink: &mut S) -> Result<(), WriteFault>
        ensures sent { OnOk result (Takes (S.state sink.old) (S.state sink.new) self.old) }
        ensures empty { OnOk result (self.new ≡ []) }
        ensures failed { OnErr result (Breaks (S.state sink.old) (S.state sink.new) self.old) }
    {
        write_whole(sink, &self.bytes[..self.len])?;
        self.len = 0;
        Ok(())
    }

    /// Appends the bytes. If they don't fit, the buffered bytes are written first. Bytes that don't fit into an empty buffer are written at once.
    #[inline(always)]
    pub fn put<S: ByteSink>(&mut self, bytes: &[u8], sink: &mut S) -> Result<(), WriteFault>
        ensures { Puts result (S.state sink.old) self.old (S.state sink.new) self.new bytes.now }
    {
        if self.fits(bytes.len()) {
            self.hold(bytes);
            return Ok(());
        }
        self.put_after_send(bytes, sink)
    }

    /// The same as `put` of the first `count` bytes. If all 16 fit, they are copied at once, which is faster.
    #[inline(always)]
    pub fn put_first<S: ByteSink>(
        &mut self,
        bytes: &[u8; 16],
        count: usize,
        sink: &mut S,
    ) -> Result<(), WriteFault>
        requires { count ≤ 16 }
        ensures { Puts result (S.state sink.old) self.old (S.state sink.new) self.new (take count bytes.now) }
    {
        if self.fits(16) {
            self.hold_first(bytes, count);
            return Ok(());
        }
        self.put(&bytes[..count], sink)
    }

    /// Writes the buffered bytes, and then appends the bytes to the empty buffer if they fit.
    #[cold]
    #[inline(never)]
    fn put_after_send<S: ByteSink>(&mut self, bytes: &[u8], sink: &mut S) -> Result<(), WriteFault>
        ensures { Puts result (S.state sink.old) self.old (S.state sink.new) self.new bytes.now }
    {
        self.send(sink)?;
        if self.fits(bytes.len()) {
            self.hold(bytes);
            return Ok(());
        }
        write_whole(sink, bytes)
    }
}
