//! A channel whose items lie in the first of the lent slots, and the rule of which of them a take takes.
ghost use Rattle.std.specs.Prelude.{◌≡◌, ℕ, ◌<◌, [], length};

use channel::channel::{Channel, OverSlots};
use channel::item::{ChannelFault, Item};
use std::marker::PhantomData;

/// A rule that says which of the waiting items a take takes.
pub trait Rule {
    // the place of that item, counted from the oldest, among so many and for this pick
    ghost place: { ℕ → ℕ → ℕ };

    /// The place of that item, counted from the oldest.
    fn place(waiting: usize, pick: u16) -> usize
        requires { 0 < waiting }
        ensures { result ≡ place waiting pick };

    // where some wait, one of them stands there
    ghost there: { (waiting pick : ℕ) → 0 < waiting → place waiting pick < waiting };
}

/// A channel by a rule: the items lie in the first `count` slots, the oldest in slot 0.
#[derive(Debug, Drop)]
pub struct Pile<'a, P, R> {
    slots: &'a mut [Item<P>],
    count: usize,
    rule: PhantomData<R>,
}

impl<'a, P, R> Pile<'a, P, R> {
    ghost use Rattle.pile.specs.Piles.{pile_waits, pile_capacity};

    /// An empty channel over lent slots.
    pub fn new(slots: &'a mut [Item<P>]) -> Pile<'a, P, R>
        ensures none { pile_waits result ≡ [] }
        ensures room { pile_capacity result ≡ length slots.old }
    {
        Pile {
            slots,
            count: 0,
            rule: PhantomData,
        }
    }
}

impl<'a, P: Copy, R: Rule> Channel<P> for Pile<'a, P, R> {
    ghost use Rattle.pile.specs.Piles.{pile_holds, pile_sound};

    ghost holds = { pile_holds R.place };

    ghost sound = { pile_sound R.place R.there };

    fn put(&mut self, parts: P) -> Result<(), ChannelFault> {
        if self.count >= self.slots.len() {
            return Err(ChannelFault::Full);
        }
        self.slots[self.count] = Item { parts };
        self.count += 1;
        Ok(())
    }

    // Those behind the item taken move one place down, with it to their end.
    fn take(&mut self, pick: u16) -> Result<Item<P>, ChannelFault> {
        let count = self.waiting();
        if count == 0 {
            return Err(ChannelFault::Empty);
        }
        let place = R::place(count, pick);
        let item = self.slots[place];
        self.slots[place..count].rotate_left(1);
        self.count = count - 1;
        Ok(item)
    }

    fn waiting(&self) -> usize {
        self.count.min(self.slots.len())
    }

    fn capacity(&self) -> usize {
        self.slots.len()
    }
}

impl<'a, P: Copy, R: Rule> OverSlots<'a, P> for Pile<'a, P, R> {
    fn over(slots: &'a mut [Item<P>]) -> Pile<'a, P, R> {
        Pile::new(slots)
    }
}
