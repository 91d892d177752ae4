// The orders of a queue, one after another, by looks.
ghost use Rattle.std.specs.Prelude.{◌≡◌, ◌≤◌, length};
ghost use Rattle.std.specs.List.{slice_get};
ghost use Rattle.std.specs.Iterator.{YieldsFirst, item_count};
ghost use Rattle.books.specs.Model.{orders_in};
ghost use Rattle.books.specs.OrdersLeft.{orders_left};

use crate::book::{Book, MOST_RECORDS};
use crate::queue::Queue;
use orders::order::Order;

/// An iterator over the orders of a queue from a position on; of a stop, the order that it would
/// bring into force.
#[derive(Drop)]
pub struct OrdersOf<'a, B> {
    book: &'a B,
    queue: Queue,
    index: usize,
}

/// The orders of a queue in rank order, those of stops too.
pub fn orders_in<B: Book>(book: &B, queue: Queue) -> OrdersOf<'_, B>
    ensures rest { orders_left B.queues result ≡ orders_in queue (B.queues book.now) }
    ensures few { length (orders_in queue (B.queues book.now)) ≤ MOST_RECORDS }
{
    OrdersOf {
        book,
        queue,
        index: 0,
    }
}

// The order at a position of a queue, or that of the stop there.
#[inline(always)]
fn order_at<B: Book>(book: &B, queue: Queue, index: usize) -> Option<Order>
    ensures { result ≡ slice_get (orders_in queue (B.queues book.now)) index }
{
    book.look(queue, index).map(|record| record.order())
}

impl<'a, B: Book> Iterator for OrdersOf<'a, B> {
    type Item = Order;

    ghost next_gives = { YieldsFirst (orders_left B.queues) };

    ghost remaining = { item_count (orders_left B.queues) };

    #[inline(always)]
    fn next(&mut self) -> Option<Order> {
        let order = order_at(self.book, self.queue, self.index)?;
        self.index += 1;
        Some(order)
    }
}
