//! Exchanges played by hand from the rules of the tree.
use crate::played::{Row, expect_over, opened, play};
use detector::detector::Detector;
use detector::told::Call::{Control, Idled, Received, Sent};
use std::test::Fail;
use tree::engagement::Tree;

// Three nodes: 0 sends to 1 and to 2, 1 sends to 2, which 0 has engaged already and which pays 1 back at once.
const EXCHANGE: [Row; 11] = [
    (Sent(0), Ok(Some(0))),
    (Sent(0), Ok(Some(0))),
    (Received(2, 0), Ok(None)),
    (Received(1, 0), Ok(None)),
    (Sent(1), Ok(Some(1))),
    (Received(2, 1), Ok(Some(1))),
    (Idled(1), Ok(None)),
    (Control(1), Ok(Some(0))),
    (Idled(0), Ok(None)),
    (Control(0), Ok(None)),
    (Idled(2), Ok(Some(0))),
];

#[test]
fn exchange(rt: HostRuntime) -> Result<(), Fail> {
    let mut t = Tree::open(3, 0)?;
    assert!(rt; t.is_active(0) && !t.is_active(1) && !t.is_active(3));
    play(&rt, &mut t, &EXCHANGE);
    expect_over(&rt, &t, false);
    assert_eq!(rt; t.engaged_by(2), Some(0));
    play(&rt, &mut t, &[(Control(0), Ok(None))]);
    expect_over(&rt, &t, true);
    assert!(rt; !t.is_active(2));
    Ok(())
}

// A node that left the tree is engaged again, by another node.
const AGAIN: [Row; 7] = [
    (Sent(2), Ok(Some(2))),
    (Sent(2), Ok(Some(2))),
    (Received(0, 2), Ok(None)),
    (Received(1, 2), Ok(None)),
    (Idled(1), Ok(Some(2))),
    (Sent(0), Ok(Some(0))),
    (Received(1, 0), Ok(None)),
];

#[test]
fn engaged_again(rt: HostRuntime) -> Result<(), Fail> {
    let mut t = Tree::open(3, 2)?;
    play(&rt, &mut t, &AGAIN);
    assert_eq!(rt;
        (t.engaged_by(0), t.engaged_by(1), t.engaged_by(2)),
        (Some(2), Some(0), None)
    );
    assert_eq!(rt; t.engaged_by(3), None);
    Ok(())
}

const FAULTS: [Row; 9] = [
    (Sent(2), Err(21)),
    (Received(2, 9), Err(21)),
    (Idled(2), Err(21)),
    (Sent(1), Err(22)),
    (Idled(1), Err(22)),
    (Received(1, 0), Err(23)),
    (Received(1, 2), Err(23)),
    (Control(0), Err(24)),
    (Control(2), Err(24)),
];

#[test]
fn faults(rt: HostRuntime) -> Result<(), Fail> {
    assert_eq!(rt;
        (
            opened::<Tree>(0, 0),
            opened::<Tree>(65, 0),
            opened::<Tree>(64, 64)
        ),
        (Err(20), Err(20), Err(20))
    );
    assert_eq!(rt;
        (opened::<Tree>(64, 63), opened::<Tree>(1, 0)),
        (Ok(()), Ok(()))
    );
    let mut t = Tree::open(2, 0)?;
    play(&rt, &mut t, &FAULTS);
    Ok(())
}

// 65,535 messages can be owed a signal, and no more.
#[test]
fn spent(rt: HostRuntime) -> Result<(), Fail> {
    let mut t = Tree::open(2, 1)?;
    for _ in 0..65535 {
        play(&rt, &mut t, &[(Sent(1), Ok(Some(1)))]);
    }
    assert!(rt; t.is_spent(1) && !t.is_spent(0));
    play(
        &rt,
        &mut t,
        &[
            (Sent(1), Err(25)),
            (Control(1), Ok(None)),
            (Sent(1), Ok(Some(1))),
        ],
    );
    Ok(())
}

// Calls that no computation makes get the answer of the rules too: a mark is received twice, so that the root leaves
// too soon, and then the root is engaged by a message.
const MISUSE: [Row; 8] = [
    (Sent(0), Ok(Some(0))),
    (Received(1, 0), Ok(None)),
    (Received(1, 0), Ok(Some(0))),
    (Sent(1), Ok(Some(1))),
    (Idled(0), Ok(None)),
    (Control(0), Ok(None)),
    (Received(0, 1), Ok(None)),
    (Idled(0), Ok(None)),
];

#[test]
fn misuse(rt: HostRuntime) -> Result<(), Fail> {
    let mut t = Tree::open(2, 0)?;
    play(&rt, &mut t, &MISUSE);
    assert_eq!(rt; t.engaged_by(0), Some(1));
    assert!(rt; t.has_announced() && t.is_active(1));
    Ok(())
}
