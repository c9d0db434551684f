//! What holds of the routes of every reached state, whatever the order of the steps.
ghost use Rattle.std.specs.Prelude.{◌≡◌};
ghost use Rattle.label.specs.Costs.{cost_kind};
ghost use Rattle.label.specs.Widths.{width_kind};
ghost use Rattle.routing.specs.Routes.{RoutingTheorem};

use label::cost::Cost;
use label::label::Label;
use label::width::Width;

/// Answers the label that the root keeps in every reached state. The contract has the theorem on routes for the kind: once
/// no node is active and no message waits, each node has the best label of all paths to it, and the parents lead from it
/// to the root along a path with that label; before, they lead along a path at least as good as the node's label; and any
/// two quiet states of one mesh agree in every label.
pub fn best_routes<K: Label>() -> K
    ensures root { result ≡ K.Label.kind.start }
    ensures theorem { RoutingTheorem K.Label.kind }
{
    K::start()
}

// The calls at the two kinds: a kind's laws are the premise of the theorem, and here it stands without one.

/// The cost that the root keeps, 0; the routes found are the cheapest.
pub fn cheapest_routes() -> Cost
    ensures root { result.metric ≡ 0 }
    ensures theorem { RoutingTheorem cost_kind }
{
    best_routes::<Cost>()
}

/// The width that the root keeps, 65,535; the routes found are the widest.
pub fn widest_routes() -> Width
    ensures root { result.metric ≡ 65535 }
    ensures theorem { RoutingTheorem width_kind }
{
    best_routes::<Width>()
}
