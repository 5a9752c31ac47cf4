//! The greatest energy of one resource over all heads and tails: work fills slots between tails.

ghost use Rattle.std.specs.Prelude.{◌≡◌, ◌+◌, ◌<◌, ◌≤◌, length};
ghost use Rattle.std.specs.List.{All};
ghost use Rattle.std.specs.List.Sorted.{IsNonDecreasing};
ghost use Rattle.bounds.specs.Loads.{AreLoads, IsGreatestEnvelope, line_of, width_before, AreWidthsOf, IsFilled};

use crate::limits::{FAR_MARK, MAX_CAPACITY, MAX_END, MAX_ENVELOPE};
use crate::load::Load;

/// Replaces the marks by the capacity times each tail, and a last mark that no work reaches.
fn list_marks(line: &mut [u64], capacity: u64, tails: &[u64])
    requires long { length line.old ≡ length tails.now + 1 }
    requires capacity { capacity ≤ MAX_CAPACITY }
    requires tails { All (λ b. b ≤ MAX_END) tails.now }
    ensures { line.new ≡ line_of capacity tails.now }
{
    for place in 0..tails.len() {
        line[place] = capacity * tails[place];
    }
    line[tails.len()] = FAR_MARK;
}

/// Puts the width between each two marks in place of other widths.
fn list_widths(widths: &mut [u64], line: &[u64])
    requires long { length widths.old + 1 ≡ length line.now }
    requires rising { IsNonDecreasing line.now }
    ensures { AreWidthsOf line.now widths.new }
{
    for place in 0..widths.len() {
        widths[place] = line[place + 1] - line[place];
    }
}

/// Fills the slots from `start` on with the work. The last slot that it reaches, which isn't full.
fn fill(widths: &mut [u64], start: usize, work: u64) -> usize
    requires start { start < length widths.old }
    requires enough { width_before widths.old start + work < width_before widths.old (length widths.old) }
    ensures { IsFilled start work result widths.old widths.new }
{
    let mut place = start;
    let mut left = work;
    while widths[place] <= left {
        left -= widths[place];
        widths[place] = 0;
        place += 1;
    }
    widths[place] -= left;
    place
}

/// The greatest of `capacity * (head + tail) + work`, for the head of each load and each tail up to the load's: `work`
/// is that of the loads with at least this head and this tail.
///
/// The loads come by falling head. Slot q lies between the capacity times tail q and the capacity times the next tail.
/// The work of a load fills slots from that of its own tail on. Where the fill ends is the greatest of
/// `capacity * tail + work` so far.
pub(crate) fn greatest_envelope(
    loads: &[Load],
    capacity: u64,
    tails: &[u64],
    line: &mut [u64],
    widths: &mut [u64],
) -> u64
    requires line { length line.old ≡ length tails.now + 1 }
    requires widths { length widths.old ≡ length tails.now }
    requires loads { AreLoads tails.now loads.now }
    requires capacity { capacity ≤ MAX_CAPACITY }
    requires tails { All (λ b. b ≤ MAX_END) tails.now }
    requires rising { IsNonDecreasing tails.now }
    ensures greatest { IsGreatestEnvelope capacity tails.now loads.now result }
    ensures limit { result ≤ MAX_ENVELOPE }
{
    list_marks(line, capacity, tails);
    list_widths(widths, line);
    let mut filled = 0;
    let mut greatest = 0;
    for load in loads {
        let last = fill(widths, load.rank - 1, load.work);
        let end = line[last + 1] - widths[last];
        filled = filled.max(end);
        greatest = greatest.max(capacity * load.head + filled);
    }
    greatest
}
