// The order, or the stop, of a record, and in the answer of a look.
ghost use Rattle.std.specs.Prelude.{◌≡◌};
ghost use Rattle.books.specs.Model.{standing_order, waiting_stop, order_of_record};

use crate::queue::Record;
use orders::order::{Order, Stop};

impl Record {
    /// The order that stands, or that the stop would bring into force.
    #[inline(always)]
    pub fn order(self) -> Order
        ensures { result ≡ order_of_record self }
    {
        match self {
            Record::Standing(order) => order,
            Record::Waiting(stop) => stop.order,
        }
    }
}

/// The order in the answer of a look; none for a stop.
#[inline(always)]
pub fn standing_order(answer: Option<Record>) -> Option<Order>
    ensures { result ≡ standing_order answer }
{
    match answer? {
        Record::Standing(order) => Some(order),
        Record::Waiting(_) => None,
    }
}

/// The stop in the answer of a look; none for an order.
#[inline(always)]
pub fn waiting_stop(answer: Option<Record>) -> Option<Stop>
    ensures { result ≡ waiting_stop answer }
{
    match answer? {
        Record::Standing(_) => None,
        Record::Waiting(stop) => Some(stop),
    }
}
