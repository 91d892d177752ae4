// The rows that a front card holds, queue by queue.
ghost use Rattle.std.specs.Prelude.{◌≡◌, Some};
ghost use Rattle.orders.specs.Rows.{order_of, stop_of};
ghost use Rattle.books.specs.declared.queue.Record.{Record as RecordValue};
ghost use Rattle.books.specs.declared.queue.Record.TheVariants.{Standing, Waiting};
ghost use Rattle.books.specs.Model.{queue_of, record_rank};
ghost use Rattle.cards.specs.CardQueues.{held_by};
ghost use Rattle.cards.specs.Held.{held_at, held_with, held_without, none_held, over_first, one_is, record_has_client};

use super::FrontCard;
use books::queue::{Queue, Record};
use books::stored_row::ranks_as;
use orders::order::{Order, Stop};
use orders::ranked::Numbered;
use orders::row::{OrderRow, StopRow};
use orders::side::Side;

// The held record in place of a first one of its rank.
pub(super) fn over(held: Option<Record>, first: Option<Record>) -> Option<Record>
    ensures { result ≡ over_first record_rank held first }
{
    match held {
        Some(record) if ranks_as(first, record) => held,
        _ => first,
    }
}

// Whether a held record has a firm's client number.
pub(super) fn is_of(held: Option<Record>, firm: u16, client: u32) -> bool
    ensures { result ≡ one_is (record_has_client firm client) held }
{
    held.is_some_and(|record| record.firm() == firm && record.client() == client)
}

// Each call that writes a held row says that the book below is unchanged.
impl<B> FrontCard<B> {
    // The record that is held for a queue.
    pub(super) fn held(&self, queue: Queue) -> Option<Record>
        ensures answer { result ≡ held_at queue (held_by self.now) }
        ensures queue { (x : RecordValue) → result ≡ Some x → queue_of x ≡ queue }
    {
        match queue {
            Queue::Orders(Side::Buy) => self.bid.map(Record::from),
            Queue::Orders(Side::Sell) => self.offer.map(Record::from),
            Queue::Stops(Side::Buy) => self.buy.map(Record::from),
            Queue::Stops(Side::Sell) => self.sell.map(Record::from),
        }
    }

    // A record is held for its queue, in place of the one before.
    pub(super) fn hold(&mut self, record: Record)
        ensures state { held_by self.new ≡ held_with «record» (held_by self.old) }
        ensures unchanged { self.new.below ≡ self.old.below }
    {
        match record {
            Record::Standing(order) => match order.side {
                Side::Buy => self.bid = Some(OrderRow::from(order)),
                Side::Sell => self.offer = Some(OrderRow::from(order)),
            },
            Record::Waiting(stop) => match stop.order.side {
                Side::Buy => self.buy = Some(StopRow::from(stop)),
                Side::Sell => self.sell = Some(StopRow::from(stop)),
            },
        }
    }

    // Nothing is held for a queue any more.
    pub(super) fn discard(&mut self, queue: Queue)
        ensures state { held_by self.new ≡ held_without queue (held_by self.old) }
        ensures unchanged { self.new.below ≡ self.old.below }
    {
        match queue {
            Queue::Orders(Side::Buy) => self.bid = None,
            Queue::Orders(Side::Sell) => self.offer = None,
            Queue::Stops(Side::Buy) => self.buy = None,
            Queue::Stops(Side::Sell) => self.sell = None,
        }
    }

    // Nothing is held any more.
    pub(super) fn discard_all(&mut self)
        ensures state { held_by self.new ≡ none_held }
        ensures unchanged { self.new.below ≡ self.old.below }
    {
        self.bid = None;
        self.offer = None;
        self.buy = None;
        self.sell = None;
    }
}
