//! The order of a table's columns, as a type.
ghost use Rattle.format.specs.Columns.{Order};
ghost use Rattle.format.specs.OrdersOnce.{order_once};

/// The order in which the N columns of a table stand in a file: each of them once.
#[derive(Clone, Copy, Debug, PartialEq, Eq, Hash)]
pub struct Columns<const N: usize> {
    pub order: [usize; N],
    ghost once: { Order N order } by { order_once N order },
}
