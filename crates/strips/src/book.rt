// The strip book: a book over four strips (rules 5).
ghost use Rattle.std.specs.Prelude.{◌≡◌};
ghost use Rattle.books.specs.StoredQueues.{empty_queues};
ghost use Rattle.strips.specs.Ranked.{strip_capacity};
ghost use Rattle.strips.specs.StripQueues.{strip_queues};

use crate::row::RankedRow;
use books::stored_book::StoredBook;
use orders::row::{OrderRow, StopRow};

/// A book whose four stores are strips: slices of rows that the caller lends. It allocates nothing.
pub type StripBook<'a> = StoredBook<RankedRow<'a, OrderRow>, RankedRow<'a, StopRow>>;

/// An empty book over four strips, whatever is in them. A strip's length, a million at most, is its
/// queue's capacity.
pub fn strip_book<'a>(
    bids: &'a mut [OrderRow],
    offers: &'a mut [OrderRow],
    buys: &'a mut [StopRow],
    sells: &'a mut [StopRow],
) -> StripBook<'a>
    ensures { strip_queues result ≡ empty_queues
        (strip_capacity bids.old) (strip_capacity offers.old)
        (strip_capacity buys.old) (strip_capacity sells.old) }
{
    StoredBook {
        bids: RankedRow::over(bids),
        offers: RankedRow::over(offers),
        buys: RankedRow::over(buys),
        sells: RankedRow::over(sells),
    }
}
