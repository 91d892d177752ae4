// Reach: how many lots an incoming order could trade at once.
ghost use Rattle.std.specs.Prelude.{◌≡◌, ◌≤◌, length, if◌then◌else◌};
ghost use Rattle.orders.specs.Prices.{same_price};
ghost use Rattle.books.specs.declared.book.TheConstants.{MOST_RECORDS};
ghost use Rattle.books.specs.OrdersLeft.{orders_left};
ghost use Rattle.matching.specs.Reach.{better, own, own_price, counts, counted_open_lots, shown_ahead, opposite_orders, most_open_lots, reach};

use books::book::Book;
use books::orders_of::{OrdersOf, orders_in};
use books::queue::Queue;
use orders::order::Order;
use orders::price::Price;
use orders::side::Side;

fn is_better(side: Side, p: Price, q: Price) -> bool
    ensures { result ≡ better side p q }
{
    match side {
        Side::Buy => q < p,
        Side::Sell => p < q,
    }
}

fn is_own(order: Order, r: Order) -> bool
    ensures { result ≡ own order r }
{
    order.has_investor_of(r) && order.may_trade_at(r.price)
}

fn does_count(order: Order, price: Option<Price>, r: Order) -> bool
    ensures { result ≡ counts order price r }
{
    match price {
        Some(p) => is_better(order.side.opposite(), r.price, p),
        None => order.may_trade_at(r.price),
    }
}

fn counted(order: Order, price: Option<Price>, r: Order) -> u32
    ensures { result ≡ (if counts order price r then r.open_lots else 0) }
{
    if does_count(order, price, r) {
        r.open_lots
    } else {
        0
    }
}

fn shown_at(r: Order, price: Price) -> u32
    ensures { result ≡ (if same_price r.price price then r.shown else 0) }
{
    if r.price == price { r.shown } else { 0 }
}

// The orders that stand opposite, in rank order.
fn opposite_orders<B: Book>(book: &B, order: Order) -> OrdersOf<'_, B>
    ensures answer { orders_left B.queues result ≡ opposite_orders order (B.queues book.now) }
    ensures few { length (opposite_orders order (B.queues book.now)) ≤ MOST_RECORDS }
{
    orders_in(book, Queue::Orders(order.side.opposite()))
}

// The price of the first opposite order within the limit and of the same investor.
fn own_price<B: Book>(book: &B, order: Order) -> Option<Price>
    ensures { result ≡ own_price order (opposite_orders order (B.queues book.now)) }
{
    opposite_orders(book, order)
        .find(|r| is_own(order, *r))
        .map(|r| r.price)
}

// The open lots that count: all within the limit, or those at better prices than the own one.
fn counted_open_lots<B: Book>(book: &B, order: Order, price: Option<Price>) -> u64
    ensures small { result ≤ most_open_lots }
    ensures answer { result
        ≡ counted_open_lots order price (opposite_orders order (B.queues book.now)) }
{
    opposite_orders(book, order)
        .map(|r| u64::from(counted(order, price, r)))
        .sum()
}

// The shown lots at a price ahead of the first opposite order of the same investor.
fn shown_ahead<B: Book>(book: &B, order: Order, price: Price) -> u64
    ensures small { result ≤ most_open_lots }
    ensures answer { result
        ≡ shown_ahead order price (opposite_orders order (B.queues book.now)) }
{
    opposite_orders(book, order)
        .take_while(|r| !is_own(order, *r))
        .map(|r| u64::from(shown_at(r, price)))
        .sum()
}

/// The reach of an incoming order, in lots (rules 9).
pub fn reach<B: Book>(book: &B, order: Order) -> u64
    ensures { result ≡ reach order (opposite_orders order (B.queues book.now)) }
{
    let price = own_price(book, order);
    let open = counted_open_lots(book, order, price);
    match price {
        Some(p) => open + shown_ahead(book, order, p),
        None => open,
    }
}
