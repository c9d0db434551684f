//! What a channel carries, and why it refuses.
ghost use Rattle.std.specs.Prelude.{◌≡◌, Some};
ghost use Rattle.channel.specs.Holds.{channel_fault_number, channel_fault_text};

use std::error::Error;
use std::fmt;

/// An item: a basic message or a control item, by its parts.
#[derive(Clone, Copy, Debug, PartialEq, Eq, Hash)]
pub struct Item<P> {
    pub parts: P,
}

/// The parts of a basic message: the link that it travels, its label and the sender's mark.
#[derive(Clone, Copy, Debug, PartialEq, Eq, Hash)]
pub struct Message<K> {
    pub link: u16,
    pub label: K,
    pub mark: u16,
}

/// Why a channel refuses.
#[derive(Clone, Copy, Debug, PartialEq, Eq, Hash)]
pub enum ChannelFault {
    /// As many items wait as there is room for.
    Full = 31,
    /// No item waits.
    Empty = 32,
}

impl ChannelFault {
    /// The number of the fault.
    pub fn number(self) -> u8
        ensures { result ≡ channel_fault_number self }
    {
        self as u8
    }
}

impl fmt::Display for ChannelFault {
    ghost output = { λ fault. Some (channel_fault_text fault) };

    fn fmt<W: fmt::Write>(&self, f: &mut fmt::Formatter<W>) -> fmt::Result {
        f.write_str(match self {
            ChannelFault::Full => "no room is left",
            ChannelFault::Empty => "no item waits",
        })
    }
}

impl Error for ChannelFault {}
