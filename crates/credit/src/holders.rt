//! The exponents that the nodes hold.
ghost use Rattle.std.specs.Prelude.{◌≡◌, ◌<◌, replicate, None, slice_set};
ghost use Rattle.credit.specs.Holdings.{holding};

/// What a node holds: an exponent if it is active, nothing if it is passive.
#[derive(Clone, Copy, Debug, PartialEq, Eq, Hash)]
pub struct Holder {
    pub held: Option<u16>,
}

/// A record for each of the 64 nodes that there may be.
#[derive(Debug, PartialEq, Eq, Hash, Drop)]
pub struct Holders {
    pub records: [Holder; 64],
}

impl Holders {
    // Nobody holds anything.
    pub fn none() -> Holders
        ensures { result.records ≡ replicate 64 (holding None) }
    {
        Holders {
            records: [Holder { held: None }; 64],
        }
    }

    // The node holds this from now on.
    pub fn hold(&mut self, node: u16, held: Option<u16>)
        requires { node < 64 }
        ensures { self.new.records ≡ slice_set self.old.records node (holding held) }
    {
        self.records[usize::from(node)].held = held;
    }
}
