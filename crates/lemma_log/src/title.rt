//! The line that a log begins with.

ghost use Rattle.std.specs.Prelude.{◌≡◌, ◌⊎◌, ◌++◌, IfErr, OnOk, OnErr};
ghost use Rattle.lemma_log.specs.declared.fault.DecodeFault.TheVariants.{Form, Short};
ghost use Rattle.lemma_log.specs.Text.{title_text};
ghost use Rattle.lemma_log.specs.Reading.{title_in};

use crate::fault::DecodeFault;
use std::alloc::AllocError;

/// The line, and its LF.
const TITLE: &[u8] = b"record 3\n";

/// Writes the line that a log begins with.
pub fn put_title(bytes: &mut Vec<u8>) -> Result<(), AllocError>
    ensures ok { OnOk result (bytes.new.items ≡ bytes.old.items ++ title_text) }
    ensures err { OnErr result (bytes.new.items ≡ bytes.old.items) }
{
    bytes.extend_from_slice(TITLE)
}

/// How many bytes the line has that a log begins with, where these bytes begin with it.
pub fn read_title(bytes: &[u8]) -> Result<usize, DecodeFault>
    ensures read { result ≡ title_in bytes.now }
    ensures fault { IfErr result (λ fault. (fault ≡ Short) ⊎ (fault ≡ Form)) }
{
    if bytes.starts_with(TITLE) {
        Ok(TITLE.len())
    } else if TITLE.starts_with(bytes) {
        Err(DecodeFault::Short)
    } else {
        Err(DecodeFault::Form)
    }
}
