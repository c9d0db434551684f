//! The channel that takes the newest item.
ghost use Rattle.pile.specs.Places.{newest, newest_there};

use crate::pile::{Pile, Rule};

/// The rule of the stack: the newest item.
#[derive(Clone, Copy, Debug, PartialEq, Eq, Hash)]
pub struct Newest;

impl Rule for Newest {
    ghost place = { newest };

    ghost there = { newest_there };

    fn place(waiting: usize, pick: u16) -> usize {
        waiting - 1
    }
}

/// A stack: a take takes the newest item.
pub type Stack<'a, P> = Pile<'a, P, Newest>;
