//! Channels in steady use, for `bench/channels`: some items wait, and then a few go in and as many come out, many times.
ghost use Rattle.std.specs.Prelude.{◌≡◌, ◌++◌, IfOk, OnOk};
ghost use Rattle.ring.specs.Queues.{queue_holds};
ghost use Rattle.pile.specs.Piles.{stack_holds, picked_holds};
ghost use Rattle.bench.specs.Rounds.{numbered, Took, Ran, SumOf};

use channel::channel::{Channel, OverSlots};
use channel::item::{ChannelFault, Item};
use pile::picked::Picked;
use pile::stack::Stack;
use ring::queue::Queue;

// Puts so many numbers, counting up from `first` and round the end.
fn fill<C: Channel<u32>>(c: &mut C, first: u32, count: u32) -> Result<(), ChannelFault>
    ensures { OnOk result (C.holds.waits c.new ≡ C.holds.waits c.old ++ numbered first count) }
{
    for k in 0..count {
        c.put(first.wrapping_add(k))?;
    }
    Ok(())
}

// Takes so many items, the first pick being 7 times `first`, and each next one 7 more; the sum of the items.
fn drain<C: Channel<u32>>(c: &mut C, first: u32, count: u32) -> Result<u64, ChannelFault>
    ensures { IfOk result (Took C.holds c.old first count c.new) }
{
    let mut sum: u64 = 0;
    for k in 0..count {
        let pick = (first.wrapping_add(k) % 65_536) as u16;
        let item = c.take(pick.wrapping_mul(7))?;
        sum = sum.wrapping_add(u64::from(item.parts));
    }
    Ok(sum)
}

// Puts `burst` items and takes as many, in each round; the sum of the items taken.
fn run<C: Channel<u32>>(c: &mut C, burst: u32, rounds: u32) -> Result<u64, ChannelFault>
    ensures { IfOk result (Ran C.holds c.old burst rounds c.new) }
{
    let mut sum: u64 = 0;
    for round in 0..rounds {
        fill(c, round, burst)?;
        sum = sum.wrapping_add(drain(c, round, burst)?);
    }
    Ok(sum)
}

// The sum of the items taken in so many rounds, after `waiting` were put into an empty channel; 0 where it refused.
fn sum_of<'a, C: OverSlots<'a, u32>>(
    slots: &'a mut [Item<u32>],
    waiting: u32,
    burst: u32,
    rounds: u32,
) -> u64
    ensures { SumOf C.holds waiting burst rounds result }
{
    let mut c = C::over(slots);
    if fill(&mut c, 0, waiting).is_err() {
        return 0;
    }
    run(&mut c, burst, rounds).unwrap_or(0)
}

/// Rounds with a queue of 1,024 slots, half full; the sum of what came out.
#[unsafe(no_mangle)]
pub extern "C" fn bench_queue(burst: u32, rounds: u32) -> u64
    ensures { SumOf queue_holds 512 burst rounds result }
{
    sum_of::<Queue<u32>>(&mut [Item { parts: 0 }; 1024], 512, burst, rounds)
}

/// Rounds with a stack of 1,024 slots, half full; the sum of what came out.
#[unsafe(no_mangle)]
pub extern "C" fn bench_stack(burst: u32, rounds: u32) -> u64
    ensures { SumOf stack_holds 512 burst rounds result }
{
    sum_of::<Stack<u32>>(&mut [Item { parts: 0 }; 1024], 512, burst, rounds)
}

/// Rounds with a picked channel of 1,024 slots in which 64 items wait; the sum of what came out.
#[unsafe(no_mangle)]
pub extern "C" fn bench_picked(burst: u32, rounds: u32) -> u64
    ensures { SumOf picked_holds 64 burst rounds result }
{
    sum_of::<Picked<u32>>(&mut [Item { parts: 0 }; 1024], 64, burst, rounds)
}
