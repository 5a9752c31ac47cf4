//! Devices that count their failures.

ghost use Rattle.std.specs.Prelude.{◌≡◌, ◌<◌, ◌+◌, ℕ, List, Option, IsErr, length, OnOk, OnErr, IfOk};
ghost use Rattle.std.specs.Io.{ReadsAtMost, WritesAtMost};
ghost use Rattle.std.specs.Io.KnownBytes.{ReadConsumes, WriteAppends};
ghost use Rattle.devices.specs.Runs.{span, FailedWhere, TookAll, TookFront};

/// A device failed, and counted it.
#[derive(Clone, Copy, Debug, PartialEq, Eq)]
pub struct Failed;

/// A device that gives bytes.
pub trait Input {
    /// The bytes that are left, where the device tells them.
    ghost left: { Self → Option (List ℕ) };

    /// How often it failed.
    ghost failed: { Self → ℕ };

    /// Fills the front of a buffer; 0 bytes into room are the end.
    fn pull(&mut self, buffer: &mut [u8]) -> Result<usize, Failed>
        requires { failed self.old < u64.MAX }
        ensures bound { ReadsAtMost result buffer.new }
        ensures told { ReadConsumes (left self.old) (left self.new) result buffer.new }
        ensures ok { OnOk result (failed self.new ≡ failed self.old) }
        ensures err { OnErr result (failed self.new ≡ failed self.old + 1) };

    /// How often it failed.
    fn failures(&self) -> u64
        ensures { result ≡ failed self.now };
}

/// A device that takes bytes.
pub trait Output {
    /// The bytes that it took, where the device tells them.
    ghost held: { Self → Option (List ℕ) };

    /// How often it failed.
    ghost failed: { Self → ℕ };

    /// Takes a front of some bytes, not an empty one.
    fn push(&mut self, bytes: &[u8]) -> Result<usize, Failed>
        requires count { failed self.old < u64.MAX }
        requires some { 0 < length bytes.now }
        ensures bound { WritesAtMost result bytes.now }
        ensures some { IfOk result (λ n. 0 < n) }
        ensures told { WriteAppends (held self.old) (held self.new) result bytes.now }
        ensures ok { OnOk result (failed self.new ≡ failed self.old) }
        ensures err { OnErr result (failed self.new ≡ failed self.old + 1) };

    /// How often it failed.
    fn failures(&self) -> u64
        ensures { result ≡ failed self.now };
}

/// Writes all the bytes, unless the device fails; it isn't called again after that.
pub fn write_all<O: Output>(output: &mut O, bytes: &[u8]) -> Result<(), Failed>
    requires { O.failed output.old < u64.MAX }
    ensures whole { OnOk result (TookAll (span O.held O.failed output.old output.new) bytes.now) }
    ensures front { TookFront (span O.held O.failed output.old output.new) bytes.now }
    ensures failed { FailedWhere (IsErr result) (span O.held O.failed output.old output.new) }
{
    let mut start = 0;
    while start < bytes.len() {
        let (_, rest) = bytes.split_at(start);
        start += output.push(rest)?;
    }
    Ok(())
}
