//! The trait of channels.
ghost use Rattle.std.specs.Prelude.{◌≡◌, [], length};
ghost use Rattle.channel.specs.Holds.{Holding, Sound, Added, Taken};

use crate::item::{ChannelFault, Item};

/// A channel that carries items of one sort of parts.
pub trait Channel<P: Copy> {
    // which items wait, oldest first, the capacity, and which item a take takes
    ghost holds: { Holding Self P };

    /// Puts an item behind those that wait; refused exactly when the channel is full.
    fn put(&mut self, parts: P) -> Result<(), ChannelFault>
        ensures added { Added holds self.old parts self.new result }
        ensures same { holds.capacity self.new ≡ holds.capacity self.old };

    /// Takes one waiting item, chosen by the sort of channel and the pick; refused exactly when none waits.
    fn take(&mut self, pick: u16) -> Result<Item<P>, ChannelFault>
        ensures taken { Taken holds self.old pick self.new result }
        ensures same { holds.capacity self.new ≡ holds.capacity self.old };

    /// How many items wait.
    fn waiting(&self) -> usize
        ensures { result ≡ length (holds.waits self.now) };

    /// How many items can wait.
    fn capacity(&self) -> usize
        ensures { result ≡ holds.capacity self.now };

    // never more wait than the capacity, and a take takes one that waits
    ghost sound: { Sound holds };
}

/// A channel that lies over slots that its user lends.
pub trait OverSlots<'a, P: Copy>: Channel<P> + Drop {
    /// An empty channel over these slots.
    fn over(slots: &'a mut [Item<P>]) -> Self
        ensures none { Self.holds.waits result ≡ [] }
        ensures room { Self.holds.capacity result ≡ length slots.old };
}
