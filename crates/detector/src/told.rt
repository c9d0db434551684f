//! Calls of a detector as values, so that a list of them can be played.
ghost use Rattle.detector.specs.Calls.{Makes};

use crate::detector::Detector;
use crate::faults::DetectorFault;

/// What a detector can be told.
#[derive(Clone, Copy, Debug, PartialEq, Eq, Hash)]
pub enum Call {
    /// The node sends a message.
    Sent(u16),
    /// A message arrives at the node, with this mark.
    Received(u16, u16),
    /// The node has nothing more to do.
    Idled(u16),
    /// A control item arrives.
    Control(u16),
}

/// Makes a call; the answer is the mark or the item that it answers, or nothing.
pub fn make<D: Detector>(d: &mut D, call: Call) -> Result<Option<u16>, DetectorFault>
    ensures { Makes D.meaning d.old call result d.new }
{
    match call {
        Call::Sent(node) => d.sent(node).map(Some),
        Call::Received(node, mark) => d.received(node, mark),
        Call::Idled(node) => d.idled(node),
        Call::Control(item) => d.control(item),
    }
}
