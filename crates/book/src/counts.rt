//! How many nodes a book opened, checked in, cut, and handed out.

/// How many nodes of a book there are and were. Those opened are those checked in, cut, open and in hand.
#[derive(Clone, Copy, Debug)]
pub struct Counts {
    /// Nodes that were opened.
    pub opened: u64,
    /// Nodes that were checked in.
    pub checked: u64,
    /// Open nodes that were cut because none of them could lead to a schedule shorter than the best.
    pub cut: u64,
    /// How many times a node was taken.
    pub taken: u64,
    /// Nodes that are open.
    pub waiting: u64,
    /// Nodes in hand.
    pub hand: u64,
}
