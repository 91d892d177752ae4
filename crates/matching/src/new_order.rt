// What an entry asks for, after its validation.
ghost use Rattle.std.specs.Prelude.{◌≡◌};
ghost use Rattle.matching.specs.Entering.{entered_order};

use orders::lots::showing;
use orders::order::Order;
use orders::price::Price;
use orders::row::OrderRow;
use orders::side::{Side, Validity};

/// A limit order (2), a market order whose leftover is a limit order (K), or a stop limit order (4)
/// (rules 1).
#[derive(Clone, Copy, Debug, PartialEq, Eq)]
pub enum OrderType {
    Limit(Price),
    Market,
    StopLimit { limit: Price, trigger: Price },
}

/// An entry. Quantity, disclosed and minimum are in lots; disclosed, minimum and investor are 0 for
/// none (rules 1).
#[derive(Clone, Copy)]
pub struct NewOrder {
    pub firm: u16,
    pub client: u32,
    pub side: Side,
    pub order_type: OrderType,
    pub validity: Validity,
    pub quantity: u32,
    pub disclosed: u32,
    pub minimum: u32,
    pub investor: u64,
    pub tag: u8,
}

impl NewOrder {
    /// The order that is entered, wholly open; the stamp is its number and first turn (rules 8).
    pub fn order(self, price: Price, stamp: u32) -> Order
        ensures { result ≡ entered_order self price stamp }
    {
        Order::from(OrderRow {
            number: stamp,
            turn: stamp,
            firm: self.firm,
            client: self.client,
            side: self.side,
            price,
            quantity: self.quantity,
            open_lots: self.quantity,
            shown: showing(self.disclosed, self.quantity),
            disclosed: self.disclosed,
            validity: self.validity,
            investor: self.investor,
            tag: self.tag,
        })
    }
}
