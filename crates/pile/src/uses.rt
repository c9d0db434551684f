//! The stack and the picked channel in use.
ghost use Rattle.std.specs.Prelude.{◌%◌, length};
ghost use Rattle.channel.specs.Shown.{OfTwo};

use crate::picked::Picked;
use crate::stack::Stack;
use channel::item::{ChannelFault, Item};
use channel::uses::of_two;

/// Of two items put into a stack over these slots, the one that comes out: the second.
pub fn stack_of_two<P: Copy>(
    slots: &mut [Item<P>],
    a: P,
    b: P,
    pick: u16,
) -> Result<P, ChannelFault>
    ensures { OfTwo (length slots.old) a b 1 result }
{
    of_two::<P, Stack<P>>(slots, a, b, pick)
}

/// Of two items put into a picked channel over these slots, the one that comes out: an even pick's is the first.
pub fn picked_of_two<P: Copy>(
    slots: &mut [Item<P>],
    a: P,
    b: P,
    pick: u16,
) -> Result<P, ChannelFault>
    ensures { OfTwo (length slots.old) a b (pick % 2) result }
{
    of_two::<P, Picked<P>>(slots, a, b, pick)
}
