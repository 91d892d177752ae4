// The names of a book's queues, and the records in them (rules 5).
ghost use Rattle.std.specs.Prelude.{◌≡◌};
ghost use Rattle.orders.specs.Rows.{order_of, stop_of};
ghost use Rattle.books.specs.declared.queue.Record.TheVariants.{Standing, Waiting};
ghost use Rattle.books.specs.Model.{queue_of, number_of, order_of_record, record_rank};
ghost use Rattle.orders.specs.RanksLemmas.{ranks_ahead_irreflexive, ranks_ahead_transitive, ranks_ahead_connected};

use orders::order::{Order, Stop};
use orders::rank::Rank;
use orders::ranked::{Numbered, Ranked};
use orders::row::{OrderRow, StopRow};
use orders::side::Side;

/// A queue of a book, named by kind and side: bids and offers, buy stops and sell stops.
#[derive(Clone, Copy, Debug, PartialEq, Eq)]
pub enum Queue {
    Orders(Side),
    Stops(Side),
}

/// A record of a book: an order that stands, which is in force and rests in its queue, or a stop
/// that waits for its trigger.
#[derive(Clone, Copy)]
pub enum Record {
    Standing(Order),
    Waiting(Stop),
}

/// Why a put is refused: the record's queue is at its capacity, or else its number is in the book
/// already.
#[derive(Clone, Copy, Debug, PartialEq, Eq)]
pub enum PutError {
    Full,
    Twice,
}

impl Record {
    /// The queue of the record, by its kind and side.
    pub fn queue(self) -> Queue
        ensures { result ≡ queue_of self }
    {
        match self {
            Record::Standing(order) => Queue::Orders(order.side),
            Record::Waiting(stop) => Queue::Stops(stop.order.side),
        }
    }
}

/// The record that a row of an order is read as.
impl From<OrderRow> for Record {
    ghost from_gives = { λ row given. given ≡ Standing (order_of row) };

    fn from(row: OrderRow) -> Record {
        Record::Standing(Order::from(row))
    }
}

/// The record that a row of a stop is read as.
impl From<StopRow> for Record {
    ghost from_gives = { λ row given. given ≡ Waiting (stop_of row) };

    fn from(row: StopRow) -> Record {
        Record::Waiting(Stop::from(row))
    }
}

impl Numbered for Record {
    ghost number = { number_of };

    ghost firm = { λ r. (order_of_record r).firm };

    ghost client = { λ r. (order_of_record r).client };

    fn number(&self) -> u32 {
        match *self {
            Record::Standing(order) => order.number,
            Record::Waiting(stop) => stop.order.number,
        }
    }

    fn firm(&self) -> u16 {
        self.order().firm
    }

    fn client(&self) -> u32 {
        self.order().client
    }
}

/// A record ranks as its row does.
impl Ranked for Record {
    ghost rank = { record_rank };

    ghost irreflexive = { λ a. ranks_ahead_irreflexive (record_rank a) };

    ghost transitive = { λ a b c.
        ranks_ahead_transitive (record_rank a) (record_rank b) (record_rank c) };

    ghost connected = { λ a b. ranks_ahead_connected (record_rank a) (record_rank b) };

    fn rank(&self) -> Rank {
        match *self {
            Record::Standing(order) => OrderRow::from(order).rank(),
            Record::Waiting(stop) => StopRow::from(stop).rank(),
        }
    }
}
