// The lines of the tape.
use crate::cause::Cause;
use orders::price::Price;

/// A line: one entry of the tape, written as something happens to an order or stop (rules 16).
// Only a market order that found no opposite order has no limit.
#[derive(Clone, Copy)]
pub enum Line {
    /// A: an entry was accepted, as the order or stop of this number.
    Accepted {
        number: u32,
        limit: Option<Price>,
        quantity: u32,
    },
    /// R: a change was accepted, with the new limit and the new quantity.
    Replaced {
        number: u32,
        limit: Price,
        quantity: u32,
    },
    /// S: a stop triggered; it came into force with these open lots.
    Triggered {
        number: u32,
        limit: Price,
        lots: u32,
    },
    /// T: two orders traded, at the resting order's price.
    Traded {
        incoming: u32,
        resting: u32,
        price: Price,
        lots: u32,
    },
    /// C: lots of an order or stop were cancelled.
    Cancelled {
        number: u32,
        limit: Option<Price>,
        lots: u32,
        cause: Cause,
    },
}
