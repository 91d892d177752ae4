// What a change asks for, after its validation.
ghost use Rattle.std.specs.Prelude.{◌≡◌};
ghost use Rattle.matching.specs.Changing.{new_price, new_quantity, new_disclosed, new_open_lots, loses_turn, changed_order, amended_order, requeued_order};

use orders::lots::showing;
use orders::order::Order;
use orders::price::Price;
use orders::row::OrderRow;
use orders::side::Validity;

/// The new client number and the cells that may be blank: a blank one leaves the order's own value
/// (rules 13).
#[derive(Clone, Copy)]
pub struct Amendment {
    pub client: u32,
    pub price: Option<Price>,
    pub quantity: Option<u32>,
    pub disclosed: Option<u32>,
    pub validity: Option<Validity>,
}

impl Amendment {
    /// The price after the change.
    pub fn new_price(self, order: Order) -> Price
        ensures { result ≡ new_price self order }
    {
        self.price.unwrap_or(order.price)
    }

    /// The quantity after the change, in lots; it counts those already traded.
    pub fn new_quantity(self, order: Order) -> u32
        ensures { result ≡ new_quantity self order }
    {
        self.quantity.unwrap_or(order.quantity)
    }

    /// The disclosed lots after the change.
    pub fn new_disclosed(self, order: Order) -> u32
        ensures { result ≡ new_disclosed self order }
    {
        self.disclosed.unwrap_or(order.disclosed)
    }

    // The new quantity counts the lots already traded.
    fn new_open_lots(self, order: Order) -> u32
        ensures { result ≡ new_open_lots self order }
    {
        let traded = order.quantity - order.open_lots;
        self.new_quantity(order).saturating_sub(traded)
    }

    /// Whether the order loses its turn: for another price, a larger quantity or another disclosed
    /// (rules 13).
    pub fn loses_turn(self, order: Order) -> bool
        ensures { result ≡ loses_turn self order }
    {
        self.new_price(order) != order.price
            || order.quantity < self.new_quantity(order)
            || self.new_disclosed(order) != order.disclosed
    }

    fn changed_order(self, turn: u32, shown: u32, order: Order) -> Order
        ensures { result ≡ changed_order turn shown self order }
    {
        Order::from(OrderRow {
            turn,
            client: self.client,
            price: self.new_price(order),
            quantity: self.new_quantity(order),
            open_lots: self.new_open_lots(order),
            shown,
            disclosed: self.new_disclosed(order),
            validity: self.validity.unwrap_or(order.validity),
            ..OrderRow::from(order)
        })
    }

    /// The order that keeps its position and turn (rules 13).
    pub fn amended_order(self, order: Order) -> Order
        ensures { result ≡ amended_order self order }
    {
        let shown = order.shown.min(self.new_open_lots(order));
        self.changed_order(order.turn, shown, order)
    }

    /// The order that loses its turn, under a new one (rules 13).
    pub fn requeued_order(self, stamp: u32, order: Order) -> Order
        ensures { result ≡ requeued_order stamp self order }
    {
        let shown = showing(self.new_disclosed(order), self.new_open_lots(order));
        self.changed_order(stamp, shown, order)
    }
}
