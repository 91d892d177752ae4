// The slot book: a book over four stores of slots (rules 5).
ghost use Rattle.std.specs.Prelude.{◌≡◌};
ghost use Rattle.books.specs.StoredQueues.{empty_queues};
ghost use Rattle.slots.specs.SlotQueues.{slot_queues};

use crate::store::{SLOTS, SlotStore};
use books::stored_book::StoredBook;
use orders::row::{OrderRow, StopRow};

/// A book whose four stores have 32 slots each. In which slot a row is stored is the program's own
/// choice.
pub type SlotBook = StoredBook<SlotStore<OrderRow>, SlotStore<StopRow>>;

/// An empty slot book.
pub fn slot_book() -> SlotBook
    ensures { slot_queues result ≡ empty_queues SLOTS SLOTS SLOTS SLOTS }
{
    StoredBook {
        bids: SlotStore::new(),
        offers: SlotStore::new(),
        buys: SlotStore::new(),
        sells: SlotStore::new(),
    }
}
