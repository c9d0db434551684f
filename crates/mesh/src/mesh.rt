//! The accepted mesh, as a type.
ghost use Rattle.std.specs.Prelude.{◌≡◌, ◌<◌, ◌≤◌, false, replicate, vec_len, vec_capacity};
ghost use Rattle.mesh.specs.Rules.{EndsIn, CostIn, WidthIn, EndsDiffer, EveryLink, PairsOnce, FreeKnown, UsedKnown};

use crate::link::Link;

/// Memory for the links of a mesh, reserved before anything is read, so that no later step wants any.
#[derive(Debug, Drop)]
pub struct LinkRoom {
    pub links: Vec<Link>,
    pub taken: Vec<bool>,
    ghost empty: { vec_len links ≡ 0 },
    ghost roomy: { 512 ≤ vec_capacity links },
    ghost clear: { taken.items ≡ replicate 4096 false },
}

/// An accepted mesh: a value of this type keeps all the rules. Links are numbered from 0 in the order they came.
#[derive(Debug, PartialEq, Eq, Hash, Drop)]
pub struct Mesh {
    pub nodes: u8,
    pub root: u8,
    pub links: Vec<Link>,
    /// Which ordered pairs of ends are taken, by 64 times the first plus the second.
    pub taken: Vec<bool>,
    ghost many: { nodes ≤ 64 },
    ghost rooted: { root < nodes },
    ghost few: { vec_len links ≤ 512 },
    ghost ends: { EveryLink (EndsIn nodes) links.items },
    ghost costs: { EveryLink CostIn links.items },
    ghost widths: { EveryLink WidthIn links.items },
    ghost apart: { EveryLink EndsDiffer links.items },
    ghost once: { PairsOnce links.items },
    ghost square: { vec_len taken ≡ 4096 },
    ghost free: { FreeKnown taken.items links.items },
    ghost used: { UsedKnown taken.items links.items },
    ghost roomy: { 512 ≤ vec_capacity links },
}
