//! Devices that give and take few bytes at once.

ghost use Rattle.std.specs.Prelude.{Some};

use std::alloc::Global;
use std::io::{self, ErrorKind, Read, Write};

/// Gives one byte at once, and fails where it is asked for more behind its end.
#[derive(Drop)]
pub(super) struct Pieces<'a> {
    rest: &'a [u8],
    has_ended: bool,
}

/// An input that gives a text.
pub(super) fn giving(text: &str) -> Pieces<'_> {
    Pieces {
        rest: text.as_bytes(),
        has_ended: false,
    }
}

impl<'a> Read for Pieces<'a> {
    ghost remaining = { λ pieces. Some pieces.rest.now };

    fn read(&mut self, buffer: &mut [u8]) -> io::Result<usize> {
        if self.has_ended {
            return Err(io::Error::from(ErrorKind::Other));
        }
        self.has_ended = self.rest.is_empty();
        let n = self.rest.len().min(buffer.len()).min(1);
        let (front, rest) = self.rest.split_at(n);
        buffer[..n].copy_from_slice(front);
        self.rest = rest;
        Ok(n)
    }
}

/// Takes at most `chunk` bytes at once.
#[derive(Drop)]
pub(super) struct Chunks {
    pub(super) taken: Vec<u8>,
    /// How often it took some.
    pub(super) writes: usize,
    chunk: usize,
}

/// An output that takes at most so many bytes at once.
pub(super) fn taking(alloc: Global, chunk: usize) -> Chunks {
    Chunks {
        taken: Vec::new(alloc),
        writes: 0,
        chunk,
    }
}

impl Write for Chunks {
    ghost contents = { λ chunks. Some chunks.taken.items };

    fn write(&mut self, bytes: &[u8]) -> io::Result<usize> {
        let n = bytes.len().min(self.chunk);
        self.taken.extend_from_slice(&bytes[..n])?;
        self.writes = self.writes.saturating_add(1);
        Ok(n)
    }

    fn flush(&mut self) -> io::Result<()> {
        Ok(())
    }
}
