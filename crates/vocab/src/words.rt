//! The words of a session file.
ghost use Rattle.vocab.specs.Words.{kind_word, detector_word, channel_word, action_word};

use crate::kinds::{Action, Channel, Detector, Kind};
use text::word::Word;

impl Word for Kind {
    ghost word = { kind_word };

    fn word(self) -> &'static [u8] {
        match self {
            Kind::Cost => b"cost",
            Kind::Width => b"width",
        }
    }

    fn all() -> &'static [Kind] {
        &[Kind::Cost, Kind::Width]
    }
}

impl Word for Detector {
    ghost word = { detector_word };

    fn word(self) -> &'static [u8] {
        match self {
            Detector::Tree => b"tree",
            Detector::Credit => b"credit",
        }
    }

    fn all() -> &'static [Detector] {
        &[Detector::Tree, Detector::Credit]
    }
}

impl Word for Channel {
    ghost word = { channel_word };

    fn word(self) -> &'static [u8] {
        match self {
            Channel::Queue => b"queue",
            Channel::Stack => b"stack",
            Channel::Picked => b"picked",
        }
    }

    fn all() -> &'static [Channel] {
        &[Channel::Queue, Channel::Stack, Channel::Picked]
    }
}

impl Word for Action {
    ghost word = { action_word };

    fn word(self) -> &'static [u8] {
        match self {
            Action::Deliver => b"deliver",
            Action::Work => b"work",
            Action::Control => b"control",
        }
    }

    fn all() -> &'static [Action] {
        &[Action::Deliver, Action::Work, Action::Control]
    }
}
