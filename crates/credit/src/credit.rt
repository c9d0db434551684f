//! The state of the credit detector.
ghost use Rattle.std.specs.Prelude.{◌≡◌, ◌≤◌, length};

use crate::holders::Holders;
use crate::places::Places;

/// A termination detector that gives each active node and each message on its way a share of one credit, and announces
/// once it has recovered all of it. Exponent e stands for a credit of 1/2 to the power e.
#[derive(Debug, PartialEq, Eq, Hash, Drop)]
pub struct Credit {
    pub(crate) nodes: u16,
    pub(crate) holders: Holders,
    pub(crate) recovered: Places,
    ghost few: { nodes ≤ 64 },
    ghost room: { length holders.records ≡ 64 },
}
