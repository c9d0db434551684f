//! The trait of label kinds.
ghost use Rattle.std.specs.Prelude.{◌≡◌, ◌<◌, ◌↔◌, IsTrue};
ghost use Rattle.label.specs.Kinds.{Kind, Lawful};

use mesh::link::Link;

/// A label kind. Labels are compared and never ranked in code: a rank may be larger than any machine number.
pub trait Label: Copy {
    // what the labels mean
    ghost kind: { Kind Self };

    /// The label of a node that no path is known to reach.
    fn none() -> Self
        ensures { result ≡ kind.none };

    /// The label of the root.
    fn start() -> Self
        ensures { result ≡ kind.start };

    /// What a link makes of a label.
    fn extend(self, link: &Link) -> Self
        ensures { result ≡ kind.extend self link.now };

    /// Whether this label is better than another. This is no `Ord`: the better cost is the smaller, the better width the
    /// greater.
    fn better(&self, other: &Self) -> bool
        ensures { IsTrue result ↔ (kind.rank self.now < kind.rank other.now) };

    // the four laws, which each kind proves
    ghost lawful: { Lawful kind };
}
