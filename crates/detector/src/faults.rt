//! Why a detector refuses.
ghost use Rattle.std.specs.Prelude.{◌≡◌, Some};
ghost use Rattle.detector.specs.Faults.{detector_fault_number, detector_fault_text};

use std::error::Error;
use std::fmt;

/// Why a detector refuses a call.
#[derive(Clone, Copy, Debug, PartialEq, Eq, Hash)]
pub enum DetectorFault {
    /// Opened with a number of nodes outside 1 to 64, or with a root that is no node.
    Size = 20,
    /// The node is not there.
    NoNode = 21,
    /// The node is passive, so it can neither send nor become idle.
    Passive = 22,
    /// No message with this mark can be on its way.
    BadMark = 23,
    /// No such control item can be on its way.
    BadItem = 24,
    /// The node can send no more.
    Spent = 25,
}

impl DetectorFault {
    /// The number of the fault.
    pub fn number(self) -> u8
        ensures { result ≡ detector_fault_number self }
    {
        self as u8
    }
}

impl fmt::Display for DetectorFault {
    ghost output = { λ f. Some (detector_fault_text f) };

    fn fmt<W: fmt::Write>(&self, f: &mut fmt::Formatter<W>) -> fmt::Result {
        f.write_str(match self {
            DetectorFault::Size => "bad number of nodes or bad root",
            DetectorFault::NoNode => "no such node",
            DetectorFault::Passive => "the node is passive",
            DetectorFault::BadMark => "impossible mark",
            DetectorFault::BadItem => "impossible control item",
            DetectorFault::Spent => "the node is spent",
        })
    }
}

impl Error for DetectorFault {}
