//! The owners of the nodes that a book has left, to be dropped outside its lock.

use crate::hands::Hands;
use crate::open_nodes::OpenNodes;

/// The nodes that were open or in hand when their book was given up. To drop many of them takes a while. Another thread
/// can do it while somebody waits for the answer.
#[derive(Drop, Debug)]
pub struct NodesLeft {
    pub(crate) waiting: OpenNodes,
    pub(crate) hands: Hands,
}
