//! Links, and why one is refused.
ghost use Rattle.std.specs.Prelude.{Some};
ghost use Rattle.mesh.specs.Checks.{link_fault_text, mesh_fault_text};

use std::error::Error;
use std::fmt;

/// A directed link between two nodes.
#[derive(Clone, Copy, Debug, PartialEq, Eq, Hash)]
pub struct Link {
    pub from: u8,
    pub to: u8,
    pub cost: u16,
    pub width: u16,
}

/// Why a link can't join a mesh.
#[derive(Clone, Copy, Debug, PartialEq, Eq, Hash)]
pub enum LinkFault {
    /// The mesh has 512 links already.
    TooMany = 7,
    /// An end is no node, or the width is 0.
    OutOfRange = 4,
    /// The link leads to the node that it comes from.
    SameEnds = 5,
    /// A link with these ends is there already.
    PairRepeated = 6,
}

/// Why parts make no mesh.
#[derive(Clone, Copy, Debug, PartialEq, Eq, Hash)]
pub enum MeshFault {
    /// The number of nodes is not from 1 to 64.
    Nodes,
    /// The root is no node.
    Root,
    /// The link of this number, from 0, is refused.
    BadLink(usize, LinkFault),
}

impl fmt::Display for LinkFault {
    ghost output = { λ f. Some (link_fault_text f) };

    fn fmt<W: fmt::Write>(&self, f: &mut fmt::Formatter<W>) -> fmt::Result {
        f.write_str(match self {
            LinkFault::TooMany => "the mesh has 512 links already",
            LinkFault::OutOfRange => "an end is no node, or the width is 0",
            LinkFault::SameEnds => "both ends are the same node",
            LinkFault::PairRepeated => "a link with these ends is there already",
        })
    }
}

impl Error for LinkFault {}

impl fmt::Display for MeshFault {
    ghost output = { λ f. Some (mesh_fault_text f) };

    fn fmt<W: fmt::Write>(&self, f: &mut fmt::Formatter<W>) -> fmt::Result {
        match self {
            MeshFault::Nodes => f.write_str("the number of nodes is not from 1 to 64"),
            MeshFault::Root => f.write_str("the root is no node"),
            MeshFault::BadLink(number, fault) => write!(f, "link {number}: {fault}"),
        }
    }
}

impl Error for MeshFault {}
