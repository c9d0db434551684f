//! The channel whose pick chooses the item.
ghost use Rattle.pile.specs.Places.{chosen, chosen_there};

use crate::pile::{Pile, Rule};

/// The rule of the picked channel: the item that the pick chooses.
#[derive(Clone, Copy, Debug, PartialEq, Eq, Hash)]
pub struct Chosen;

impl Rule for Chosen {
    ghost place = { chosen };

    ghost there = { chosen_there };

    fn place(waiting: usize, pick: u16) -> usize {
        usize::from(pick) % waiting
    }
}

/// A picked channel: a take takes the item at the pick's place modulo the number waiting.
pub type Picked<'a, P> = Pile<'a, P, Chosen>;
