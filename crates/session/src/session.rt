//! The accepted session, as a type.
ghost use Rattle.std.specs.Prelude.{◌≡◌, ℕ, ◌<◌, ◌≤◌, length, vec_len, vec_capacity, slice_index_or};
ghost use Rattle.vocab.specs.declared.kinds.Step.{Step as AStep};
ghost use Rattle.format.specs.Content.{standard};

use mesh::mesh::{LinkRoom, Mesh};
use vocab::kinds::{Channel, Detector, Kind, Step};

/// An accepted session: a value of this type keeps all the rules of a session file, its length included.
// `short` writes out the content of the session, since the definition `content` names this type.
#[derive(Debug, PartialEq, Eq, Hash, Drop)]
pub struct Session {
    pub mesh: Mesh,
    pub kind: Kind,
    pub detector: Detector,
    pub channel: Channel,
    pub steps: Vec<Step>,
    ghost picks: { (k : ℕ) (d : AStep) → k < length steps.items → (slice_index_or steps.items k d).pick ≤ 65535 },
    ghost short: { length (standard (record { setting = record { nodes = mesh.nodes; root = mesh.root; kind = kind; detector = detector; channel = channel }; links = mesh.links.items; steps = steps.items })) ≤ 65536 },
}

/// Memory for what a file may hold, reserved before anything is read, so that the reader wants none.
#[derive(Debug, Drop)]
pub struct Room {
    pub links: LinkRoom,
    pub steps: Vec<Step>,
    ghost empty: { vec_len steps ≡ 0 },
    ghost enough: { 16384 ≤ vec_capacity steps },
}
