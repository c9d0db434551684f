//! The trait of termination detectors.
ghost use Rattle.std.specs.Prelude.{◌≡◌};
ghost use Rattle.detector.specs.Meaning.{Meaning};
ghost use Rattle.detector.specs.Calls.{Opens, Sends, Receives, Idles, Controls};
ghost use Rattle.detector.specs.Laws.{Lawful};

use crate::faults::DetectorFault;

/// A termination detector: it is told what the nodes do, hands out the marks that messages carry and the control items
/// that travel beside them, and announces when no node is active and nothing is on its way.
///
/// A node is a number below `nodes`. Each call that changes the detector is refused exactly by the first of its checks
/// that fails, and then changes nothing; accepted, it makes exactly the change that the detector's rule says.
pub trait Detector: Sized {
    // what a detector means, and the rule of each call
    ghost meaning: { Meaning Self };

    /// A detector of that many nodes, of which only the root is active.
    fn open(nodes: u16, root: u16) -> Result<Self, DetectorFault>
        ensures { Opens meaning nodes root result };

    /// The node sends a message; the answer is the mark that the message carries.
    fn sent(&mut self, node: u16) -> Result<u16, DetectorFault>
        ensures { Sends meaning self.old node result self.new };

    /// A message with this mark arrives at the node; the answer is a control item to be sent, or nothing.
    fn received(&mut self, node: u16, mark: u16) -> Result<Option<u16>, DetectorFault>
        ensures { Receives meaning self.old node mark result self.new };

    /// The node has nothing more to do; the answer is a control item to be sent, or nothing.
    fn idled(&mut self, node: u16) -> Result<Option<u16>, DetectorFault>
        ensures { Idles meaning self.old node result self.new };

    /// A control item arrives; the answer is a control item to be sent, or nothing.
    fn control(&mut self, item: u16) -> Result<Option<u16>, DetectorFault>
        ensures { Controls meaning self.old item result self.new };

    /// Whether the node is active; one that is not there is not.
    fn is_active(&self, node: u16) -> bool
        ensures { result ≡ meaning.active self.now node };

    /// Whether the node can send no more; one that is not there is not spent.
    fn is_spent(&self, node: u16) -> bool
        ensures { result ≡ meaning.spent self.now node };

    /// Whether it has announced that all is over.
    fn has_announced(&self) -> bool
        ensures { result ≡ meaning.announced self.now };

    // what the rules do to the balance with the waiting marks and items, and why an announcement is right
    ghost lawful: { Lawful meaning };
}
