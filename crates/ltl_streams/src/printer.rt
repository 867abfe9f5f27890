//! Buffered output that remembers a failed write.

ghost use Rattle.std.specs.Prelude.{◌≡◌, ◌≤◌, [], take, false, MatchResult};
ghost use Rattle.ltl_streams.specs.Printing.{EndsShort, EndsWhole, Prints};

use crate::output_buffer::OutputBuffer;
use crate::sink::{ByteSink, WriteFault};

/// A sink with a buffer of 16 KiB. After a failed write it writes nothing more, and `end` returns the error. So what prints needn't look at each write.
#[derive(Drop)]
pub struct Printer<'s, S> {
    buffer: OutputBuffer,
    sink: &'s mut S,
    failed: bool,
}

impl<'s, S: ByteSink> Printer<'s, S> {
    /// A printer with an empty buffer.
    pub fn new(sink: &'s mut S) -> Printer<'s, S>
        ensures same { result.sink.ghost_name ≡ sink.entry.ghost_name }
        ensures now { result.sink.now ≡ sink.old }
        ensures empty { result.buffer ≡ [] }
        ensures whole { result.failed ≡ false }
    {
        Printer {
            buffer: OutputBuffer::new(),
            sink,
            failed: false,
        }
    }

    /// Appends the bytes to the buffer, and writes what doesn't fit, as `put` of `OutputBuffer` does.
    #[inline(always)]
    pub fn put(&mut self, bytes: &[u8])
        ensures { Prints S.state self.old self.new bytes.now }
    {
        if !self.failed {
            self.failed = self.buffer.put(bytes, self.sink).is_err();
        }
    }

    /// The same as `put` of the first `count` bytes, as `put_first` of `OutputBuffer` does.
    #[inline(always)]
    pub fn put_first(&mut self, bytes: &[u8; 16], count: usize)
        requires { count ≤ 16 }
        ensures { Prints S.state self.old self.new (take count bytes.now) }
    {
        if !self.failed {
            self.failed = self.buffer.put_first(bytes, count, self.sink).is_err();
        }
    }

    /// Writes the buffered bytes. The error is that of this write or of an earlier one. It has to be the last call, since dropping the printer writes nothing.
    pub fn end(&mut self) -> Result<(), WriteFault>
        ensures same { self.new.sink.ghost_name ≡ self.old.sink.ghost_name }
        ensures ends { MatchResult result
            (λ _. EndsWhole self.old.failed (S.state self.old.sink.now) self.old.buffer (S.state self.new.sink.now))
            (λ _. EndsShort self.old.failed (S.state self.old.sink.now) self.old.buffer (S.state self.new.sink.now)) }
    {
        if self.failed {
            return Err(WriteFault);
        }
        self.buffer.send(self.sink)
    }
}
