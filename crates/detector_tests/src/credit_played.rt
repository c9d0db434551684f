//! Exchanges played by hand from the rules of credit recovery.
use crate::played::{Row, expect_over, opened, play};
use credit::credit::Credit;
use detector::detector::Detector;
use detector::told::Call::{Control, Idled, Received, Sent};
use std::test::Fail;

// The root sends to both others, and one of them to the other. Four items come back, a quarter each.
const THREE_NODES: [Row; 12] = [
    (Sent(0), Ok(Some(1))),
    (Sent(0), Ok(Some(2))),
    (Received(1, 1), Ok(None)),
    (Received(2, 2), Ok(None)),
    (Sent(1), Ok(Some(2))),
    (Received(2, 2), Ok(Some(2))),
    (Idled(0), Ok(Some(2))),
    (Idled(1), Ok(Some(2))),
    (Idled(2), Ok(Some(2))),
    (Control(2), Ok(None)),
    (Control(2), Ok(None)),
    (Control(2), Ok(None)),
];

#[test]
fn three_nodes(rt: HostRuntime) -> Result<(), Fail> {
    let mut d = Credit::open(3, 0)?;
    play(&rt, &mut d, &THREE_NODES);
    expect_over(&rt, &d, false);
    play(&rt, &mut d, &[(Control(2), Ok(None))]);
    expect_over(&rt, &d, true);
    Ok(())
}

// Of two nodes, where 1 is the root.
const FAULTS: [Row; 10] = [
    (Sent(2), Err(21)),
    (Received(2, 0), Err(21)),
    (Idled(2), Err(21)),
    (Sent(0), Err(22)),
    (Idled(0), Err(22)),
    (Received(0, 0), Err(23)),
    (Received(0, 1001), Err(23)),
    (Control(1001), Err(24)),
    (Control(1000), Ok(None)),
    (Control(0), Err(24)),
];

#[test]
fn faults(rt: HostRuntime) -> Result<(), Fail> {
    assert_eq!(rt;
        (
            opened::<Credit>(0, 0),
            opened::<Credit>(65, 0),
            opened::<Credit>(3, 3)
        ),
        (Err(20), Err(20), Err(20))
    );
    assert_eq!(rt;
        (opened::<Credit>(64, 63), opened::<Credit>(1, 0)),
        (Ok(()), Ok(()))
    );
    let mut d = Credit::open(2, 1)?;
    play(&rt, &mut d, &FAULTS);
    assert_eq!(rt; (d.held(0), d.held(1), d.held(2)), (None, Some(0), None));
    Ok(())
}

// A node halves its credit a thousand times, and no more.
#[test]
fn spent(rt: HostRuntime) -> Result<(), Fail> {
    let mut d = Credit::open(1, 0)?;
    for exponent in 1..1001 {
        assert!(rt; !d.is_spent(0));
        play(&rt, &mut d, &[(Sent(0), Ok(Some(exponent)))]);
    }
    assert!(rt; d.is_spent(0));
    play(&rt, &mut d, &[(Sent(0), Err(25))]);
    Ok(())
}

// Calls that no computation makes: one message twice, items that nobody sent, and more once it has announced.
const OUT_OF_BALANCE: [Row; 9] = [
    (Received(1, 1), Ok(None)),
    (Received(1, 1), Ok(Some(1))),
    (Control(1), Ok(None)),
    (Control(1), Ok(None)),
    (Control(1), Err(24)),
    (Control(1000), Err(24)),
    (Sent(0), Ok(Some(1))),
    (Received(0, 7), Ok(Some(7))),
    (Idled(0), Ok(Some(1))),
];

#[test]
fn out_of_balance(rt: HostRuntime) -> Result<(), Fail> {
    let mut d = Credit::open(2, 0)?;
    play(&rt, &mut d, &OUT_OF_BALANCE);
    assert_eq!(rt;
        (
            d.has_announced(),
            d.is_active(0),
            d.is_active(1),
            d.is_active(2),
        ),
        (true, false, true, false)
    );
    Ok(())
}

// An item, the answer, and which of the places 0 to 5 are recovered after it.
const CARRIES: [(u16, Result<Option<u16>, u8>, [bool; 6]); 9] = [
    (5, Ok(None), [false, false, false, false, false, true]),
    (3, Ok(None), [false, false, false, true, false, true]),
    (2, Ok(None), [false, false, true, true, false, true]),
    (3, Ok(None), [false, true, false, false, false, true]),
    (1, Err(24), [false, true, false, false, false, true]),
    (3, Ok(None), [false, true, false, true, false, true]),
    (2, Ok(None), [false, true, true, true, false, true]),
    (4, Ok(None), [false, true, true, true, true, true]),
    (5, Ok(None), [true, false, false, false, false, false]),
];

#[test]
fn carries(rt: HostRuntime) -> Result<(), Fail> {
    let mut d = Credit::open(1, 0)?;
    for (item, answer, recovered) in CARRIES {
        play(&rt, &mut d, &[(Control(item), answer)]);
        for (place, taken) in (0..6).zip(recovered) {
            assert_eq!(rt; d.is_recovered(place), taken);
        }
    }
    assert!(rt; !d.is_recovered(1000) && !d.is_recovered(1001));
    Ok(())
}
