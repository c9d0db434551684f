//! How many nodes a detector can have, and which numbers are nodes of it.
ghost use Rattle.detector.specs.Calls.{SizedFor, IsThere};

use crate::faults::DetectorFault;

/// The most nodes that a detector can have.
pub const MOST_NODES: u16 = 64;

/// Whether a detector can have that many nodes with that root: refused exactly if the number is outside 1 to 64 or the
/// root is no node.
pub fn check_size(nodes: u16, root: u16) -> Result<(), DetectorFault>
    ensures { SizedFor nodes root result }
{
    if nodes > MOST_NODES || root >= nodes {
        return Err(DetectorFault::Size);
    }
    Ok(())
}

/// Whether a detector of that many nodes has this one: refused exactly if it is not there.
pub fn check_node(nodes: u16, node: u16) -> Result<(), DetectorFault>
    ensures { IsThere nodes node result }
{
    if node >= nodes {
        return Err(DetectorFault::NoNode);
    }
    Ok(())
}
