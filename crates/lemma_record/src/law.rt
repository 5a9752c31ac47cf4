//! What holds of right logs.

ghost use Rattle.lemma_record.specs.Faults.{FaultIsWrong};
ghost use Rattle.lemma_record.specs.Right.{ClaimIsTrue};
ghost use Rattle.lemma_record.specs.Parts.{PartsMakeWhole};
ghost use Rattle.lemma_record.specs.SoFar.{SoFarIsTrue};

/// The theorem: what a right log claims is true of its project, and so is what a log proves that is cut off.
pub fn claim_law()
    ensures claim { ClaimIsTrue }
    ensures so_far { SoFarIsTrue }
{}

/// The theorem of parts: a log that is right in all parts is right.
pub fn parts_law()
    ensures { PartsMakeWhole }
{}

/// A law over the definitions: a text that has a first fault, or one in a part, is not that of a right log.
pub fn fault_law()
    ensures { FaultIsWrong }
{}
