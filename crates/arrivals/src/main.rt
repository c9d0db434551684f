//! Plays the calls of `arrivals.txt` on the three sorts of channel, at three capacities, and prints each answer.
//!
//! A line `put N` puts N, a line `take N` takes with the pick N. The answers of queue, stack and picked stand on one
//! line: `+` and the number waiting after a put, the item taken after a take, or `!` and the number of the refusal.
#![tactic(auto)]

use anyhow::anyhow;
use channel::channel::Channel;
use channel::item::{ChannelFault, Item};
use pile::picked::Picked;
use pile::stack::Stack;
use ring::queue::Queue;
use std::str::FromStr;
use std::{fmt, fs};
use text::number::{FieldFault, number};

#[derive(Clone, Copy, Debug, PartialEq, Eq, Hash)]
enum Call {
    Put(u16),
    Take(u16),
}

impl FromStr for Call {
    type Err = FieldFault;

    fn from_str(line: &str) -> Result<Call, FieldFault> {
        if let Some(parts) = line.strip_prefix("put ") {
            Ok(Call::Put(number(parts.as_bytes(), 0, u16::MAX)?))
        } else if let Some(pick) = line.strip_prefix("take ") {
            Ok(Call::Take(number(pick.as_bytes(), 0, u16::MAX)?))
        } else {
            Err(FieldFault)
        }
    }
}

// What a channel answers to a call.
#[derive(Clone, Copy, Debug, PartialEq, Eq, Hash)]
enum Answer {
    /// So many wait after a put.
    Waiting(usize),
    /// A take took this item.
    Taken(u16),
    Refused(ChannelFault),
}

impl fmt::Display for Answer {
    fn fmt<W: fmt::Write>(&self, f: &mut fmt::Formatter<W>) -> fmt::Result {
        match self {
            Answer::Waiting(count) => write!(f, "+{count}"),
            Answer::Taken(parts) => write!(f, "{parts}"),
            Answer::Refused(fault) => write!(f, "!{}", fault.number()),
        }
    }
}

// Makes a call on any channel.
fn accepted<C: Channel<u16>>(c: &mut C, call: Call) -> Result<Answer, ChannelFault> {
    match call {
        Call::Put(parts) => {
            c.put(parts)?;
            Ok(Answer::Waiting(c.waiting()))
        }
        Call::Take(pick) => Ok(Answer::Taken(c.take(pick)?.parts)),
    }
}

fn outcome<C: Channel<u16>>(c: &mut C, call: Call) -> Answer {
    accepted(c, call).unwrap_or_else(Answer::Refused)
}

// Plays all calls on a channel of each sort, of one capacity.
fn play(rt: &HostRuntime, calls: &str, capacity: usize) -> anyhow::Result<()> {
    let none = Item { parts: 0u16 };
    let mut oldest = vec![in rt.alloc(); none; capacity]?;
    let mut newest = vec![in rt.alloc(); none; capacity]?;
    let mut any = vec![in rt.alloc(); none; capacity]?;
    let mut queue = Queue::new(&mut oldest);
    let mut stack = Stack::new(&mut newest);
    let mut picked = Picked::new(&mut any);
    println!(rt; "capacity {capacity}")?;
    for line in calls.lines() {
        let call: Call = line.parse().map_err(|_| anyhow!(
            "a line of arrivals.txt is neither put nor take with a number"
        ))?;
        let first = outcome(&mut queue, call);
        let second = outcome(&mut stack, call);
        let third = outcome(&mut picked, call);
        println!(rt; "{first} {second} {third}")?;
    }
    Ok(())
}

fn run(rt: &HostRuntime) -> anyhow::Result<()> {
    let calls = fs::read_to_string(rt, "arrivals.txt")?;
    for capacity in [1usize, 5, 16] {
        play(rt, calls.as_str(), capacity)?;
    }
    Ok(())
}

fn main(rt: HostRuntime) -> anyhow::Result<()> {
    run(&rt)
}
