// Which order or stop a firm names, and whether a client number is taken.
ghost use Rattle.std.specs.Prelude.{◌≡◌};
ghost use Rattle.venue.specs.Known.{claims, claimed_in, client_claimed, client_free, firms_record, standing_in};

use books::book::Book;
use books::orders_of::orders_in;
use books::queue::{Queue, Record};
use forms::refusal::Refusal;
use orders::order::Order;
use orders::side::Side;

/// A record, with its queue and its position there, from 0.
#[derive(Clone, Copy)]
pub struct Found {
    pub queue: Queue,
    pub at: usize,
    pub record: Record,
}

/// A firm's claim to a client number: no other record of the firm may have it. `except` is the
/// number of the order that a change gives it to.
#[derive(Clone, Copy)]
pub struct ClientNumberClaim {
    pub firm: u16,
    pub client: u32,
    pub except: Option<u32>,
}

impl ClientNumberClaim {
    // Whether the order is the firm's, has the client number and is not the excepted one.
    fn is_claimed_by(self, order: Order) -> bool
        ensures { result ≡ claims self.firm self.client self.except order }
    {
        order.firm == self.firm
            && order.client == self.client
            && self.except.is_none_or(|own| own != order.number)
    }

    // Whether another record of a queue has the client number. The book may know that none has.
    fn is_claimed_in<B: Book>(self, book: &B, queue: Queue) -> bool
        ensures { result
            ≡ claimed_in self.firm self.client self.except queue (B.queues book.now) }
    {
        book.may_have_client(queue, self.firm, self.client)
            && orders_in(book, queue).any(|order| self.is_claimed_by(order))
    }

    // Whether another record of the book has the client number.
    fn is_claimed<B: Book>(self, book: &B) -> bool
        ensures { result ≡ client_claimed self.firm self.client self.except (B.queues book.now) }
    {
        self.is_claimed_in(book, Queue::Orders(Side::Buy))
            || self.is_claimed_in(book, Queue::Orders(Side::Sell))
            || self.is_claimed_in(book, Queue::Stops(Side::Buy))
            || self.is_claimed_in(book, Queue::Stops(Side::Sell))
    }

    /// Whether the client number is free, or `ClientNumberTaken` (rules 8, 13).
    pub fn check<B: Book>(self, book: &B) -> Result<(), Refusal>
        ensures { result ≡ client_free self.firm self.client self.except (B.queues book.now) }
    {
        if self.is_claimed(book) {
            Err(Refusal::ClientNumberTaken)
        } else {
            Ok(())
        }
    }
}

/// The firm's order or stop of a number, or `UnknownOrder`, also where it is another firm's
/// (rules 13, 14).
pub fn firms_record<B: Book>(book: &B, firm: u16, number: u32) -> Result<Found, Refusal>
    ensures { result ≡ firms_record firm number (B.queues book.now) }
{
    let (queue, at) = book.find(number).ok_or(Refusal::UnknownOrder)?;
    let record = book.look(queue, at).ok_or(Refusal::UnknownOrder)?;
    if record.order().firm != firm {
        return Err(Refusal::UnknownOrder);
    }
    Ok(Found { queue, at, record })
}

/// The order of a record that stands; `ChangeOfStop` for a stop (rules 13).
pub fn standing_in(record: Record) -> Result<Order, Refusal>
    ensures { result ≡ standing_in «record» }
{
    match record {
        Record::Standing(order) => Ok(order),
        Record::Waiting(_) => Err(Refusal::ChangeOfStop),
    }
}
