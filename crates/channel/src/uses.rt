//! Channels in use by code that knows only the traits.
ghost use Rattle.std.specs.Prelude.{◌≡◌, length};
ghost use Rattle.channel.specs.Shown.{Passed, OfTwoBy};

use crate::channel::{Channel, OverSlots};
use crate::item::{ChannelFault, Item};

/// Puts one item and takes one, through any channel.
pub fn pass<P: Copy, C: Channel<P>>(c: &mut C, parts: P, pick: u16) -> Result<Item<P>, ChannelFault>
    ensures passed { Passed C.holds c.old parts pick c.new result }
    ensures same { C.holds.capacity c.new ≡ C.holds.capacity c.old }
{
    c.put(parts)?;
    c.take(pick)
}

/// Of two items put into a channel over these slots, the one that comes out.
pub fn of_two<'a, P: Copy, C: OverSlots<'a, P>>(
    slots: &'a mut [Item<P>],
    a: P,
    b: P,
    pick: u16,
) -> Result<P, ChannelFault>
    ensures { OfTwoBy C.holds (length slots.old) a b pick result }
{
    let mut c = C::over(slots);
    c.put(a)?;
    c.put(b)?;
    Ok(c.take(pick)?.parts)
}
