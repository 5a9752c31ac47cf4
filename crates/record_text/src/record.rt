//! A record, and its text.

ghost use Rattle.std.specs.Prelude.{◌≡◌, ◌≢◌, ◌≤◌, ◌++◌, length, IfOk, OnOk, IfErr, string_bytes};
ghost use Rattle.std.specs.List.{flat_map};
ghost use Rattle.record_text.specs.Kinds.{RecordOf, IsRecord, Spells, record_text, ended};
ghost use Rattle.record_text.specs.TextFaults.{RecordIsOne, FirstFaultIsOne, FaultIsNoRecord, IsFirstTextFault, IsReadAs};
ghost use Rattle.record_text.specs.declared.fault.RecordFaultKind.TheVariants.{Memory};

use crate::MAX_RECORD_BYTES;
use crate::fault::RecordFault;
use crate::kind::RecordLine;
use crate::read::read_lines;
use crate::text_rows::after_title;
use std::alloc::{AllocError, Global};
use std::marker::Model;

/// Laws over the definitions. A text is that of one record at most, or has one first fault at most, but not both.
pub fn text_law<C, L: RecordLine<C>>()
    ensures record { RecordIsOne L.kind }
    ensures fault { FirstFaultIsOne L.kind }
    ensures apart { FaultIsNoRecord L.kind }
{
    L::known();
}

/// Writes lines.
fn put_lines<C, L: RecordLine<C>>(out: &mut String, lines: &[L]) -> Result<(), AllocError>
    ensures { OnOk result
        (string_bytes out.new ≡ string_bytes out.old ++ flat_map (λ line. ended (L.kind.row_of line)) lines.now) }
{
    for line in lines {
        line.put(out)?;
        out.push_str("\n")?;
    }
    Ok(())
}

/// The text of a claim and of lines, whatever they are. It is read as a record exactly where they are one's.
pub fn text_of<C, L: RecordLine<C>>(
    alloc: Global,
    claim: &C,
    lines: &[L],
) -> Result<Vec<u8>, AllocError>
    ensures { IfOk result (λ text. text.items ≡ record_text L.kind (record { claim = claim.now; lines = lines.now })) }
{
    let mut out = String::new(alloc);
    out.push_str(L::title())?;
    out.push_str("\n")?;
    L::put_claim(&mut out, claim)?;
    put_lines::<C, L>(&mut out, lines)?;
    Ok(out.into_bytes())
}

/// A claim, and the lines that show it, in order.
#[derive(Drop, Debug)]
pub struct Recorded<C, L: RecordLine<C>> {
    claim: C,
    lines: Vec<L>,
}

impl<C, L: RecordLine<C>> Model for Recorded<C, L> {
    ghost use Rattle.record_text.specs.Kinds.{RecordOf, IsRecord, record_code};

    ghost Value = { RecordOf C L };

    ghost coded = { record_code C.code L.code };

    ghost view = { λ r. record { claim = r.claim; lines = r.lines.items } };

    ghost invariant = { λ r. IsRecord L.kind (record { claim = r.claim; lines = r.lines.items }) };
}

impl<C: Drop, L: RecordLine<C>> Recorded<C, L> {
    /// The record of a claim and lines.
    pub fn new(claim: C, lines: Vec<L>) -> Recorded<C, L>
        requires { IsRecord L.kind (record { claim = claim; lines = lines.items }) }
        ensures { result ≡ record { claim = claim; lines = lines.items } }
    {
        Recorded { claim, lines }
    }

    /// What the record says.
    pub fn claim(&self) -> &C
        ensures claim { result.now ≡ self.now.claim }
        ensures record { IsRecord L.kind self.now }
    {
        &self.claim
    }

    /// The lines, in order.
    pub fn lines(&self) -> &[L]
        ensures lines { result.now ≡ self.now.lines }
        ensures record { IsRecord L.kind self.now }
    {
        &self.lines
    }

    /// The text of the record.
    pub fn write(&self, alloc: Global) -> Result<Vec<u8>, AllocError>
        ensures text { IfOk result (λ text. text.items ≡ record_text L.kind self.now) }
        ensures record { OnOk result (IsRecord L.kind self.now) }
    {
        text_of(alloc, &self.claim, &self.lines)
    }

    /// The record of this text, or its first fault.
    fn read_text(alloc: Global, text: &[u8]) -> Result<Recorded<C, L>, RecordFault>
        ensures found { IfOk result (λ r. Spells L.kind text.now r) }
        ensures fault { IfErr result (λ fault. fault.kind ≢ Memory → IsFirstTextFault L.kind text.now fault) }
    {
        L::known();
        let rest = after_title(text, L::title().as_bytes())?;
        let (claim, rest) = L::read_claim(alloc, rest)?;
        let lines: Vec<L> = read_lines(alloc, &claim, rest)?;
        Ok(Recorded::new(claim, lines))
    }

    /// The record that this text is that of, or the text's first fault.
    pub fn read(alloc: Global, text: &[u8]) -> Result<Recorded<C, L>, RecordFault>
        ensures found { IfOk result (λ r. Spells L.kind text.now r) }
        ensures only { (r : RecordOf C L) → Spells L.kind text.now r → IsReadAs result r }
        ensures fault { IfErr result (λ fault. fault.kind ≢ Memory → IsFirstTextFault L.kind text.now fault) }
    {
        text_law::<C, L>();
        Recorded::read_text(alloc, text)
    }

    /// What the text of the record is read as: the record itself, where the text is within the limit. This
    /// is a law, as a function.
    #[tactic(auto, using(crate::proofs::KindLaws::spells_written))]
    pub fn read_written(&self, alloc: Global) -> Result<Recorded<C, L>, RecordFault>
        ensures { length (record_text L.kind self.now) ≤ MAX_RECORD_BYTES → IsReadAs result self.now }
    {
        let text = self.write(alloc)?;
        Recorded::read(alloc, &text)
    }
}
