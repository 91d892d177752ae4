// The plain rows that strips and slots store (rules 3).
ghost use Rattle.std.specs.Prelude.{◌≡◌};
ghost use Rattle.orders.specs.Bounds.{in_bounds, keeps_bounds, InBounds};
ghost use Rattle.orders.specs.Rows.{row_of, sound_row, order_of, stop_row_of, stop_of};

use crate::order::{HIDDEN_PARTS, MOST_LOTS, Order, Stop};
use crate::price::Price;
use crate::side::{Side, Validity};

/// The fields of an order as stored. A row in a slice that a caller lends may be out of bounds, and
/// an `Order` cannot be.
#[derive(Clone, Copy)]
pub struct OrderRow {
    pub number: u32,
    pub turn: u32,
    pub firm: u16,
    pub client: u32,
    pub side: Side,
    pub price: Price,
    pub quantity: u32,
    pub open_lots: u32,
    pub shown: u32,
    pub disclosed: u32,
    pub validity: Validity,
    pub investor: u64,
    pub tag: u8,
}

impl OrderRow {
    /// Whether the row keeps the bounds of an order (rules 3).
    #[inline(always)]
    pub fn in_bounds(self) -> bool
        ensures { result ≡ in_bounds self }
    {
        if self.shown < 1
            || self.open_lots < self.shown
            || self.quantity < self.open_lots
            || MOST_LOTS < self.quantity
        {
            return false;
        }
        if self.disclosed == 0 {
            return self.shown == self.open_lots;
        }
        self.shown <= self.disclosed
            && u64::from(self.open_lots)
                <= u64::from(self.shown) + u64::from(HIDDEN_PARTS) * u64::from(self.disclosed)
    }

    // The row itself within the bounds; out of bounds one lot, all of it shown, and the rest as
    // stored.
    #[inline(always)]
    fn sound(self) -> OrderRow
        ensures value { result ≡ sound_row (keeps_bounds self) self }
        ensures in_bounds { InBounds result }
    {
        if self.in_bounds() {
            return self;
        }
        OrderRow {
            quantity: 1,
            open_lots: 1,
            shown: 1,
            disclosed: 0,
            ..self
        }
    }
}

/// The row of an order, which reads back as the order.
impl From<Order> for OrderRow {
    ghost from_gives = { λ order row. (row ≡ row_of order) × (order_of row ≡ order) };

    fn from(order: Order) -> OrderRow {
        OrderRow {
            number: order.number,
            turn: order.turn,
            firm: order.firm,
            client: order.client,
            side: order.side,
            price: order.price,
            quantity: order.quantity,
            open_lots: order.open_lots,
            shown: order.shown,
            disclosed: order.disclosed,
            validity: order.validity,
            investor: order.investor,
            tag: order.tag,
        }
    }
}

/// The order that a row is read as: of a row out of bounds, one with one lot, all of it shown
/// (rules 3).
impl From<OrderRow> for Order {
    ghost from_gives = { λ row order. order ≡ order_of row };

    #[inline(always)]
    fn from(row: OrderRow) -> Order {
        let row = row.sound();
        Order {
            number: row.number,
            turn: row.turn,
            firm: row.firm,
            client: row.client,
            side: row.side,
            price: row.price,
            quantity: row.quantity,
            open_lots: row.open_lots,
            shown: row.shown,
            disclosed: row.disclosed,
            validity: row.validity,
            investor: row.investor,
            tag: row.tag,
        }
    }
}

/// The fields of a stop as stored.
// Not one type with Stop: a `Stop<O>` would turn Stop into `Stop Order` in every definition that
// names it.
#[derive(Clone, Copy)]
pub struct StopRow {
    pub order: OrderRow,
    pub trigger: Price,
}

/// The row of a stop, which reads back as the stop.
impl From<Stop> for StopRow {
    ghost from_gives = { λ stop row. (row ≡ stop_row_of stop) × (stop_of row ≡ stop) };

    fn from(stop: Stop) -> StopRow {
        StopRow {
            order: OrderRow::from(stop.order),
            trigger: stop.trigger,
        }
    }
}

/// The stop that a row is read as: its order as that of an order's row, and its trigger.
impl From<StopRow> for Stop {
    ghost from_gives = { λ row stop. stop ≡ stop_of row };

    #[inline(always)]
    fn from(row: StopRow) -> Stop {
        Stop {
            order: Order::from(row.order),
            trigger: row.trigger,
        }
    }
}
