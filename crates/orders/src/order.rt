// Orders and stops, whose bounds are part of their types (rules 3).
ghost use Rattle.std.specs.Prelude.{◌≡◌, ◌+◌, ◌*◌, ◌≤◌};
ghost use Rattle.orders.specs.declared.order.TheConstants.{MOST_LOTS, HIDDEN_PARTS};
ghost use Rattle.orders.specs.OrderLimits.{OrderLimits};

use crate::price::Price;
use crate::side::{Side, Validity};

/// The most lots that an order may ask for (rules 3).
pub const MOST_LOTS: u32 = 1_000_000;

/// The most parts, each of the disclosed lots, that an order hides behind the one that it shows
/// (rules 3).
pub const HIDDEN_PARTS: u32 = 15;

/// An order in force, or the order of a stop. Its facts are the bounds of rules 3; `Order::from`
/// makes one of a row.
// Investor 0 and disclosed 0 are none, as in the published cells: an Option would need a fact that
// bars Some(0).
#[derive(Clone, Copy)]
pub struct Order {
    /// The stamp that the order drew when it was accepted; it names the order for good.
    pub number: u32,
    /// The stamp that decides between equal prices: at first the number, later a newer one.
    pub turn: u32,
    pub firm: u16,
    /// The firm's own number for the order.
    pub client: u32,
    pub side: Side,
    /// The limit: the worst price at which the order may trade.
    pub price: Price,
    /// The lots asked for, those traded included.
    pub quantity: u32,
    /// The lots neither traded nor cancelled.
    pub open_lots: u32,
    /// The part of the open lots that others see and that can trade at once; the rest is hidden.
    pub shown: u32,
    /// The most lots that the order shows at a time; 0: it shows all of its open lots.
    pub disclosed: u32,
    pub validity: Validity,
    /// The one for whom the firm acts; 0: none.
    pub investor: u64,
    /// A small number by which a firm groups its orders.
    pub tag: u8,
    ghost some_shown: { 1 ≤ shown },
    ghost shown_within_open: { shown ≤ open_lots },
    ghost open_within_quantity: { open_lots ≤ quantity },
    ghost quantity_within_most: { quantity ≤ MOST_LOTS },
    ghost whole_shown: { (disclosed ≡ 0 → shown ≡ open_lots) },
    ghost part_within_disclosed: { (1 ≤ disclosed → shown ≤ disclosed) },
    ghost hidden_within_parts: { (1 ≤ disclosed → open_lots ≤ shown + HIDDEN_PARTS * disclosed) },
}

/// An order that is not yet in force, with the trigger: the price that brings it into force.
#[derive(Clone, Copy)]
pub struct Stop {
    pub order: Order,
    pub trigger: Price,
}

/// The limits of orders and prices are the published ones.
pub fn order_limits()
    ensures { OrderLimits }
{}
