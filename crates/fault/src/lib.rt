//! What every fault of the engine has in common: the layer that it comes from, and checks that stand in an order.
#![tactic(auto)]

ghost use Rattle.std.specs.Prelude.{◌≡◌};
ghost use Rattle.fault.specs.Layers.{layer_word};

/// The layer that refused.
#[derive(Clone, Copy, Debug, PartialEq, Eq, Hash)]
pub enum Layer {
    Reader,
    Opening,
    Detector,
    Basic,
    Control,
    Run,
}

impl Layer {
    /// The word that names the layer where a fault is printed.
    pub fn word(self) -> &'static [u8]
        ensures { result.now ≡ layer_word self }
    {
        match self {
            Layer::Reader => b"reader",
            Layer::Opening => b"opening",
            Layer::Detector => b"detector",
            Layer::Basic => b"basic",
            Layer::Control => b"control",
            Layer::Run => b"run",
        }
    }
}
