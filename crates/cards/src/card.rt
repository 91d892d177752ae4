// The front card: the book below, and for each queue at most one held row.
ghost use Rattle.std.specs.Prelude.{◌≡◌, true};
ghost use Rattle.orders.specs.declared.side.Side.TheVariants.{Buy, Sell};
ghost use Rattle.cards.specs.HeldSides.{order_on_side, stop_on_side};

pub mod book;
mod held;

use orders::row::{OrderRow, StopRow};

/// A front card: a book over another book. It holds back, for each queue, the latest rewrite of its first record, until a put into that queue. It
/// means the queues of the book below with the held records in place of first ones of their number and rank (rules 5).
#[derive(Drop)]
pub struct FrontCard<B> {
    below: B,
    bid: Option<OrderRow>,
    offer: Option<OrderRow>,
    buy: Option<StopRow>,
    sell: Option<StopRow>,
    ghost bid_side: { order_on_side Buy bid ≡ true },
    ghost offer_side: { order_on_side Sell offer ≡ true },
    ghost buy_side: { stop_on_side Buy buy ≡ true },
    ghost sell_side: { stop_on_side Sell sell ≡ true },
}
