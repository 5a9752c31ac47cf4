//! Devices over the readers and writers of the standard library.

ghost use Rattle.std.specs.Prelude.{◌≡◌};

use crate::device::{Failed, Input, Output};
use std::io::{Read, Write};

/// A device over a reader or a writer. It tells what that tells: a file nothing, a slice its bytes. A write that takes
/// nothing counts as a failure.
#[derive(Drop)]
pub struct Counted<D> {
    inner: D,
    pub failures: u64,
}

impl<D> Counted<D> {
    /// A device over this reader or writer, which hasn't failed.
    pub fn new(inner: D) -> Counted<D>
        ensures inner { result.inner ≡ inner }
        ensures failures { result.failures ≡ 0 }
    {
        Counted { inner, failures: 0 }
    }

    /// The reader or the writer.
    pub fn into_inner(self) -> D
        ensures { result ≡ self.inner }
    {
        self.inner
    }
}

/// An input over a reader.
pub type InputReader<R> = Counted<R>;

/// An output over a writer.
pub type OutputWriter<W> = Counted<W>;

impl<R: Read> Input for Counted<R> {
    ghost left = { λ device. R.remaining device.inner };

    ghost failed = { λ device. device.failures };

    fn pull(&mut self, buffer: &mut [u8]) -> Result<usize, Failed> {
        match self.inner.read(buffer) {
            Ok(n) => Ok(n),
            Err(_) => {
                self.failures += 1;
                Err(Failed)
            }
        }
    }

    fn failures(&self) -> u64 {
        self.failures
    }
}

impl<W: Write> Output for Counted<W> {
    ghost held = { λ device. W.contents device.inner };

    ghost failed = { λ device. device.failures };

    fn push(&mut self, bytes: &[u8]) -> Result<usize, Failed> {
        match self.inner.write(bytes) {
            Ok(n) if n > 0 => Ok(n),
            _ => {
                self.failures += 1;
                Err(Failed)
            }
        }
    }

    fn failures(&self) -> u64 {
        self.failures
    }
}

/// No input has nothing in it, and never fails.
impl<I: Input> Input for Option<I> {
    ghost use Rattle.devices.specs.Runs.{left_of, failed_of};

    ghost left = { left_of I.left };

    ghost failed = { failed_of I.failed };

    fn pull(&mut self, buffer: &mut [u8]) -> Result<usize, Failed> {
        match self {
            Some(input) => input.pull(buffer),
            None => Ok(0),
        }
    }

    fn failures(&self) -> u64 {
        match self {
            Some(input) => input.failures(),
            None => 0,
        }
    }
}

/// No output takes all bytes and tells none, and never fails.
impl<O: Output> Output for Option<O> {
    ghost use Rattle.devices.specs.Runs.{held_of, failed_of};

    ghost held = { held_of O.held };

    ghost failed = { failed_of O.failed };

    fn push(&mut self, bytes: &[u8]) -> Result<usize, Failed> {
        match self {
            Some(output) => output.push(bytes),
            None => Ok(bytes.len()),
        }
    }

    fn failures(&self) -> u64 {
        match self {
            Some(output) => output.failures(),
            None => 0,
        }
    }
}
