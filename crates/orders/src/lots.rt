// Lots shown, lots taken off, and at what price an order may trade (rules 1, 3, 10).
ghost use Rattle.std.specs.Prelude.{◌≡◌};
ghost use Rattle.orders.specs.Rows.{order_of};
ghost use Rattle.orders.specs.Lots.{showing, with_lots, order_reduced, order_refilled, within_limit, same_investor};

use crate::order::Order;
use crate::price::Price;
use crate::row::OrderRow;
use crate::side::Side;

/// What an order shows of so many open lots: the smaller of the two, or all of them where nothing
/// is disclosed (rules 3).
pub fn showing(disclosed: u32, lots: u32) -> u32
    ensures { result ≡ showing disclosed lots }
{
    if disclosed == 0 {
        lots
    } else {
        disclosed.min(lots)
    }
}

/// Whether an order of a side and limit may trade at a price (rules 1).
pub fn within_limit(side: Side, limit: Price, price: Price) -> bool
    ensures { result ≡ within_limit side limit price }
{
    match side {
        Side::Buy => price <= limit,
        Side::Sell => limit <= price,
    }
}

impl Order {
    // The order under a turn, with other open and shown lots; where they are out of bounds, as such
    // a row reads (rules 3).
    fn with_lots(self, turn: u32, open_lots: u32, shown: u32) -> Order
        ensures { result ≡ order_of (with_lots turn open_lots shown self) }
    {
        Order::from(OrderRow {
            turn,
            open_lots,
            shown,
            ..OrderRow::from(self)
        })
    }

    /// What trading so many lots leaves of a resting order that keeps its turn (rules 10).
    pub fn reduced(self, lots: u32) -> Order
        ensures { result ≡ order_reduced lots self }
    {
        let open_lots = self.open_lots.saturating_sub(lots);
        let shown = self.shown.saturating_sub(lots);
        self.with_lots(self.turn, open_lots, shown)
    }

    /// A refill: what trading so many lots leaves of an order that then shows anew, under a new
    /// turn (rules 10).
    pub fn refilled(self, turn: u32, lots: u32) -> Order
        ensures { result ≡ order_refilled turn lots self }
    {
        let open_lots = self.open_lots.saturating_sub(lots);
        let shown = showing(self.disclosed, open_lots);
        self.with_lots(turn, open_lots, shown)
    }

    /// Whether the order may trade at a price (rules 1).
    pub fn may_trade_at(self, price: Price) -> bool
        ensures { result ≡ within_limit self.side self.price price }
    {
        within_limit(self.side, self.price, price)
    }

    /// Whether both orders have one investor, and not none.
    pub fn has_investor_of(self, other: Order) -> bool
        ensures { result ≡ same_investor self other }
    {
        self.investor != 0 && self.investor == other.investor
    }
}
