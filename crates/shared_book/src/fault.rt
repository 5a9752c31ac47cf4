//! Why a worker ends before the search is over.

use book::CheckFault;

/// Why a worker ended before the search was over.
#[derive(Clone, Copy, Debug, PartialEq, Eq)]
pub enum WorkFault {
    /// Memory ran out.
    Memory,
    /// The book refused its report.
    Refused(CheckFault),
}
