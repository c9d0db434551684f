//! The queue in use.
ghost use Rattle.std.specs.Prelude.{length};
ghost use Rattle.channel.specs.Shown.{OfTwo};

use crate::queue::Queue;
use channel::item::{ChannelFault, Item};
use channel::uses::of_two;

/// Of two items put into a queue over these slots, the one that comes out: the first.
pub fn queue_of_two<P: Copy>(
    slots: &mut [Item<P>],
    a: P,
    b: P,
    pick: u16,
) -> Result<P, ChannelFault>
    ensures { OfTwo (length slots.old) a b 0 result }
{
    of_two::<P, Queue<P>>(slots, a, b, pick)
}
