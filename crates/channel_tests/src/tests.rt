//! Short sequences whose answers follow from the rules by hand.
use channel::channel::Channel;
use channel::item::{ChannelFault, Item, Message};
use pile::picked::Picked;
use pile::stack::Stack;
use pile::uses::{picked_of_two, stack_of_two};
use ring::queue::Queue;
use ring::uses::queue_of_two;
use std::process::Abort;
use std::test::Fail;

// What a put answers, or the number of its refusal.
fn put<P: Copy, C: Channel<P>>(c: &mut C, parts: P) -> Result<(), u8> {
    c.put(parts).map_err(ChannelFault::number)
}

// What a take answers, or the number of its refusal.
fn taken<P: Copy, C: Channel<P>>(c: &mut C, pick: u16) -> Result<P, u8> {
    c.take(pick)
        .map(|item| item.parts)
        .map_err(ChannelFault::number)
}

// The refusals of a channel with room for one: of a take, of a second put, and of a take once more.
fn room_for_one<C: Channel<u16>>(rt: &impl Abort, c: &mut C) {
    assert_eq!(rt; taken(c, 0), Err(32));
    assert_eq!(rt; put(c, 5), Ok(()));
    assert_eq!(rt; put(c, 6), Err(31));
    assert_eq!(rt; (c.waiting(), c.capacity()), (1, 1));
    assert_eq!(rt; taken(c, 65535), Ok(5));
    assert_eq!(rt; taken(c, 65535), Err(32));
}

#[test]
fn one_slot(rt: HostRuntime) {
    let mut slots = [Item { parts: 0u16 }; 1];
    room_for_one(&rt, &mut Queue::new(&mut slots));
    room_for_one(&rt, &mut Stack::new(&mut slots));
    room_for_one(&rt, &mut Picked::new(&mut slots));
}

#[test]
fn no_slot(rt: HostRuntime) {
    let mut slots = [Item { parts: 0u16 }; 0];
    let mut queue = Queue::new(&mut slots);
    assert_eq!(rt; put(&mut queue, 1), Err(31));
    assert_eq!(rt; taken(&mut queue, 0), Err(32));
}

// Three slots; the puts after two takes go round the end.
#[test]
fn queue_goes_round(rt: HostRuntime) {
    let mut slots = [Item { parts: 0u16 }; 3];
    let mut queue = Queue::new(&mut slots);
    for parts in 1u16..4 {
        assert_eq!(rt; put(&mut queue, parts), Ok(()));
    }
    assert_eq!(rt; taken(&mut queue, 9), Ok(1));
    assert_eq!(rt; taken(&mut queue, 9), Ok(2));
    assert_eq!(rt; put(&mut queue, 4), Ok(()));
    assert_eq!(rt; put(&mut queue, 5), Ok(()));
    assert_eq!(rt; put(&mut queue, 6), Err(31));
    for parts in 3u16..6 {
        assert_eq!(rt; taken(&mut queue, parts), Ok(parts));
    }
    assert_eq!(rt; taken(&mut queue, 0), Err(32));
}

#[test]
fn stack_takes_the_newest(rt: HostRuntime) {
    let mut slots = [Item { parts: 0u16 }; 3];
    let mut stack = Stack::new(&mut slots);
    assert_eq!(rt; put(&mut stack, 1), Ok(()));
    assert_eq!(rt; put(&mut stack, 2), Ok(()));
    assert_eq!(rt; taken(&mut stack, 0), Ok(2));
    assert_eq!(rt; put(&mut stack, 3), Ok(()));
    assert_eq!(rt; taken(&mut stack, 1), Ok(3));
    assert_eq!(rt; taken(&mut stack, 0), Ok(1));
}

// Channels stand in an array like any other value.
#[test]
fn in_an_array(rt: HostRuntime) {
    let mut few = [Item { parts: 0u16 }; 1];
    let mut more = [Item { parts: 0u16 }; 2];
    let mut both = [Stack::new(&mut few), Stack::new(&mut more)];
    assert_eq!(rt; put(&mut both[0], 1), Ok(()));
    assert_eq!(rt; put(&mut both[0], 2), Err(31));
    assert_eq!(rt; put(&mut both[1], 3), Ok(()));
    assert_eq!(rt; (both[0].waiting(), both[1].waiting()), (1, 1));
    assert_eq!(rt; taken(&mut both[0], 0), Ok(1));
}

// Of 10 to 14: 65,535 leaves 0 by 5 and 3 by 4; 7 leaves 1 by 3; the rest stay in their order.
#[test]
fn picks(rt: HostRuntime) {
    let mut slots = [Item { parts: 0u16 }; 8];
    let mut picked = Picked::new(&mut slots);
    for parts in 10u16..15 {
        assert_eq!(rt; put(&mut picked, parts), Ok(()));
    }
    assert_eq!(rt; taken(&mut picked, 65535), Ok(10));
    assert_eq!(rt; taken(&mut picked, 65535), Ok(14));
    assert_eq!(rt; taken(&mut picked, 7), Ok(12));
    assert_eq!(rt; taken(&mut picked, 0), Ok(11));
    assert_eq!(rt; taken(&mut picked, 0), Ok(13));
}

#[test]
fn messages(rt: HostRuntime) {
    let none = Message {
        link: 0,
        label: 0u32,
        mark: 0,
    };
    let mut slots = [Item { parts: none }; 2];
    let mut stack = Stack::new(&mut slots);
    let message = Message {
        link: 3,
        label: 70000,
        mark: 1000,
    };
    assert_eq!(rt; put(&mut stack, message), Ok(()));
    assert_eq!(rt; taken(&mut stack, 0), Ok(message));
}

#[test]
fn of_two(rt: HostRuntime) {
    let mut slots = [Item { parts: 0u16 }; 2];
    assert_eq!(rt; queue_of_two(&mut slots, 7, 8, 1), Ok(7));
    assert_eq!(rt; stack_of_two(&mut slots, 7, 8, 0), Ok(8));
    assert_eq!(rt; picked_of_two(&mut slots, 7, 8, 2), Ok(7));
    assert_eq!(rt; picked_of_two(&mut slots, 7, 8, 65535), Ok(8));
    assert_eq!(rt;
        queue_of_two(&mut slots[..1], 7, 8, 1),
        Err(ChannelFault::Full)
    );
}

#[test]
fn refusals_as_text(rt: HostRuntime) -> Result<(), Fail> {
    let full = ChannelFault::Full.to_string(rt.alloc())?;
    let empty = ChannelFault::Empty.to_string(rt.alloc())?;
    assert_eq!(rt; full.as_str(), "no room is left");
    assert_eq!(rt; empty.as_str(), "no item waits");
    Ok(())
}
