//! Costs of paths.
ghost use Rattle.std.specs.Prelude.{◌≡◌, ◌≤◌};

use crate::label::Label;
use crate::printed::{Printed, put_value};
use mesh::link::Link;
use text::output::Output;

// The metric that stands for no cost.
const NO_COST: u32 = u32::MAX;

/// The cost of a path, 0 to 4,294,967,294, or none: the greatest metric, as routing protocols write infinity.
#[derive(Clone, Copy, Debug, PartialEq, Eq, Hash)]
pub struct Cost {
    pub metric: u32,
    ghost fits: { metric ≤ 4294967295 },
}

impl From<u32> for Cost {
    ghost from_gives = { λ metric c. c.metric ≡ metric };

    /// The label of a metric; 4,294,967,295 gives none.
    fn from(metric: u32) -> Cost {
        Cost { metric }
    }
}

impl Cost {
    ghost use Rattle.label.specs.Costs.{cost_value};

    /// The cost; nothing for none.
    pub fn value(&self) -> Option<u32>
        ensures { result ≡ cost_value self.now }
    {
        (self.metric != NO_COST).then_some(self.metric)
    }
}

impl Label for Cost {
    ghost use Rattle.label.specs.Costs.{cost_kind};
    ghost use Rattle.label.specs.Laws.{cost_lawful};

    ghost kind = { cost_kind };

    ghost lawful = { cost_lawful };

    fn none() -> Cost {
        Cost::from(NO_COST)
    }

    fn start() -> Cost {
        Cost::from(0)
    }

    fn extend(self, link: &Link) -> Cost {
        Cost::from(self.metric.saturating_add(u32::from(link.cost)))
    }

    fn better(&self, other: &Cost) -> bool {
        self.metric < other.metric
    }
}

impl Printed for Cost {
    ghost use Rattle.label.specs.Costs.{cost_text};

    ghost text = { cost_text };

    fn put_text(&self, output: &mut Output<'_>) {
        put_value(self.value().map(u64::from), output);
    }
}
