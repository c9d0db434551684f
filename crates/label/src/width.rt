//! Widths of paths.
ghost use Rattle.std.specs.Prelude.{◌≡◌, ◌≤◌};

use crate::label::Label;
use crate::printed::{Printed, put_value};
use mesh::link::Link;
use text::output::Output;

// The metric that stands for no width.
const NO_WIDTH: u16 = 0;

/// The width of a path, 1 to 65,535, or none: 0, no width at all.
#[derive(Clone, Copy, Debug, PartialEq, Eq, Hash)]
pub struct Width {
    pub metric: u16,
    ghost fits: { metric ≤ 65535 },
}

impl From<u16> for Width {
    ghost from_gives = { λ metric w. w.metric ≡ metric };

    /// The label of a metric; 0 gives none.
    fn from(metric: u16) -> Width {
        Width { metric }
    }
}

impl Width {
    ghost use Rattle.label.specs.Widths.{width_value};

    /// The width; nothing for none.
    pub fn value(&self) -> Option<u16>
        ensures { result ≡ width_value self.now }
    {
        (self.metric != NO_WIDTH).then_some(self.metric)
    }
}

impl Label for Width {
    ghost use Rattle.label.specs.Widths.{width_kind};
    ghost use Rattle.label.specs.Laws.{width_lawful};

    ghost kind = { width_kind };

    ghost lawful = { width_lawful };

    fn none() -> Width {
        Width::from(NO_WIDTH)
    }

    fn start() -> Width {
        Width::from(u16::MAX)
    }

    fn extend(self, link: &Link) -> Width {
        Width::from(self.metric.min(link.width))
    }

    fn better(&self, other: &Width) -> bool {
        self.metric > other.metric
    }
}

impl Printed for Width {
    ghost use Rattle.label.specs.Widths.{width_text};

    ghost text = { width_text };

    fn put_text(&self, output: &mut Output<'_>) {
        put_value(self.value().map(u64::from), output);
    }
}
