//! Readers of which no contract speaks.

use std::io::{self, Read};

/// A reader that gives a text in pieces of one size, and fails after `left` calls.
#[derive(Drop)]
pub(crate) struct Pieces<'t> {
    pub(crate) rest: &'t [u8],
    pub(crate) size: usize,
    pub(crate) left: usize,
}

impl Read for Pieces<'_> {
    fn read(&mut self, buf: &mut [u8]) -> io::Result<usize> {
        if self.left == 0 {
            return Err(io::Error::from(io::ErrorKind::Other));
        }
        self.left -= 1;
        let n = self.size.min(buf.len()).min(self.rest.len());
        buf[..n].copy_from_slice(&self.rest[..n]);
        self.rest = &self.rest[n..];
        Ok(n)
    }
}

/// A reader that gives a text and then a number of spaces.
#[derive(Drop)]
pub(crate) struct Spaces<'t> {
    pub(crate) text: &'t [u8],
    pub(crate) left: usize,
}

impl Read for Spaces<'_> {
    fn read(&mut self, buf: &mut [u8]) -> io::Result<usize> {
        if !self.text.is_empty() {
            let n = self.text.len().min(buf.len());
            buf[..n].copy_from_slice(&self.text[..n]);
            self.text = &self.text[n..];
            return Ok(n);
        }
        let n = self.left.min(buf.len());
        buf[..n].fill(b' ');
        self.left -= n;
        Ok(n)
    }
}
