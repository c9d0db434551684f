//! What holds of every label kind, and worked cases: each function's contract is a theorem.
ghost use Rattle.std.specs.Prelude.{◌≡◌};
ghost use Rattle.label.specs.Laws.{Worked};
ghost use Rattle.label.specs.Paths.{PathLaws};

use crate::label::Label;
use mesh::link::Link;

/// None extended by any link: none, whatever the kind.
#[tactic(auto, using(crate::proofs::Bests::none_stays))]
pub fn none_extended<K: Label>(link: &Link) -> K
    ensures { result ≡ K.Label.kind.none }
{
    K::none().extend(link)
}

/// The label of the root, by which the laws of paths hold: a node has one best label, the root's is start, a path's
/// label is never better than that of its front, and of two paths the better stays at least as good when both go on.
pub fn root_label<K: Label>() -> K
    ensures value { result ≡ K.Label.kind.start }
    ensures laws { PathLaws K.Label.kind }
{
    K::start()
}

// How many cases of extension are worked.
const WORKED: u8 = 3;

/// The worked cases of extension hold. Answers how many there are.
#[tactic(auto, using(crate::specs::Laws::cost_lawful, crate::specs::Laws::width_lawful))]
pub fn worked_extensions() -> u8
    ensures count { result ≡ 3 }
    ensures hold { Worked }
{
    WORKED
}
