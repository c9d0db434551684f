//! The tree as a type.
ghost use Rattle.std.specs.Prelude.{◌≡◌, ◌<◌, ◌≤◌, length};

use crate::node::Node;

/// The records of the nodes, of which the first ones count.
#[derive(Clone, Copy, Debug, PartialEq, Eq, Hash)]
pub struct Table {
    pub(crate) records: [Node; 64],
}

/// The engagement tree: each engaged node but the root was engaged by a message of its parent, and leaves the tree once
/// it is passive and all its own messages are paid back. Once the root has left, all is over.
#[derive(Debug, PartialEq, Eq, Hash, Drop)]
pub struct Tree {
    pub(crate) nodes: u16,
    pub(crate) root: u16,
    pub(crate) announced: bool,
    pub(crate) table: Table,
    ghost few: { nodes ≤ 64 },
    ghost rooted: { root < nodes },
    ghost whole: { length table.records ≡ 64 },
}
