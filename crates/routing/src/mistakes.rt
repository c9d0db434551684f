//! Two common mistakes, each with the case that refutes it.
ghost use Rattle.routing.specs.Mistakes.{CycleAfter, RestAfter, ThirdLawFails};

// After so many steps the parents form a cycle.
const STEPS: u8 = 6;

// With the right rule all nodes rest after so many.
const REST: u8 = 9;

// The width of both labels after the link.
const WIDTH: u16 = 5;

/// Adopting an equal label closes a cycle of parents, which never lead to the root. Answers after how many steps.
#[tactic(auto, using(crate::proofs::Cycle::cycle_after))]
pub fn equal_label_mistake() -> u8
    ensures { CycleAfter result }
{
    STEPS
}

/// With the right rule the same mesh comes to rest, and the node keeps the link from the root as its parent. Answers after
/// how many steps.
#[tactic(auto, using(crate::proofs::Cycle::rest_after))]
pub fn equal_label_declined() -> u8
    ensures { RestAfter result }
{
    REST
}

/// Ordering labels by width first and then by cost breaks the third law of label kinds. Answers the width that the link
/// of the counterexample makes of both labels.
pub fn widest_then_cheapest_mistake() -> u16
    ensures { ThirdLawFails result }
{
    WIDTH
}
