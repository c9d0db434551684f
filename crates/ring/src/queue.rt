//! The channel that takes the oldest item.
ghost use Rattle.std.specs.Prelude.{◌≡◌, [], length};

use channel::channel::{Channel, OverSlots};
use channel::item::{ChannelFault, Item};

/// A queue: the items lie in `count` slots from the slot `first` on, round the end.
#[derive(Debug, Drop)]
pub struct Queue<'a, P> {
    slots: &'a mut [Item<P>],
    first: usize,
    count: usize,
}

impl<'a, P> Queue<'a, P> {
    ghost use Rattle.ring.specs.Queues.{queue_holds};

    /// An empty queue over lent slots.
    pub fn new(slots: &'a mut [Item<P>]) -> Queue<'a, P>
        ensures none { queue_holds.waits result ≡ [] }
        ensures room { queue_holds.capacity result ≡ length slots.old }
    {
        Queue {
            slots,
            first: 0,
            count: 0,
        }
    }
}

impl<'a, P: Copy> Channel<P> for Queue<'a, P> {
    ghost use Rattle.ring.specs.Queues.{queue_holds, queue_sound};

    ghost holds = { queue_holds };

    ghost sound = { queue_sound };

    // The place is found without a division; `first + count` can pass the end of `usize` where slots have no size.
    fn put(&mut self, parts: P) -> Result<(), ChannelFault> {
        let size = self.slots.len();
        if self.count >= size {
            return Err(ChannelFault::Full);
        }
        let behind = size.saturating_sub(self.first);
        let place = if self.count < behind {
            self.first + self.count
        } else {
            self.count - behind
        };
        self.slots[place] = Item { parts };
        self.count += 1;
        Ok(())
    }

    fn take(&mut self, pick: u16) -> Result<Item<P>, ChannelFault> {
        let count = self.waiting();
        if count == 0 {
            return Err(ChannelFault::Empty);
        }
        let place = if self.first < self.slots.len() {
            self.first
        } else {
            0
        };
        let item = self.slots[place];
        self.first = place + 1;
        self.count = count - 1;
        Ok(item)
    }

    fn waiting(&self) -> usize {
        self.count.min(self.slots.len())
    }

    fn capacity(&self) -> usize {
        self.slots.len()
    }
}

impl<'a, P: Copy> OverSlots<'a, P> for Queue<'a, P> {
    fn over(slots: &'a mut [Item<P>]) -> Queue<'a, P> {
        Queue::new(slots)
    }
}
