//! What the tests of all detectors share: lists of calls with the answers that they have to get.
use detector::detector::Detector;
use detector::faults::DetectorFault;
use detector::over::is_over;
use detector::told::{Call, make};
use std::process::Abort;

/// A call and what it answers: a mark or an item, nothing, or the number of the fault.
pub(crate) type Row = (Call, Result<Option<u16>, u8>);

/// Makes the calls, and checks each answer.
pub(crate) fn play<D: Detector>(rt: &impl Abort, d: &mut D, rows: &[Row]) {
    for (call, expected) in rows {
        let answer = make(d, *call).map_err(DetectorFault::number);
        assert_eq!(rt; answer, *expected);
    }
}

/// Checks whether all is over, by both questions.
pub(crate) fn expect_over<D: Detector>(rt: &impl Abort, d: &D, expected: bool) {
    assert_eq!(rt; (is_over(d), d.has_announced()), (expected, expected));
}

/// What an opening answers, or the number of its refusal.
pub(crate) fn opened<D: Detector + Drop>(nodes: u16, root: u16) -> Result<(), u8> {
    D::open(nodes, root)
        .map(|_| ())
        .map_err(DetectorFault::number)
}
