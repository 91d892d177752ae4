// The plan of a change.
use matching::amendment::Amendment;
use orders::order::Order;

/// What an accepted change will do: the change, and the standing order with its position
/// (rules 13).
#[derive(Clone, Copy)]
pub struct AmendPlan {
    pub change: Amendment,
    pub at: usize,
    pub order: Order,
}
