// What a book is: four queues, and seven functions over them (rules 5).
ghost use Rattle.std.specs.Prelude.{◌≡◌, ℕ, true};
ghost use Rattle.books.specs.Model.{Queues, Bounded, count, capacity, look_at, found, put_answer, after_put, rewrite_allowed, rewritten, taken, cleared, holds_client};
ghost use Rattle.books.specs.BookLimits.{BookLimits};

use crate::queue::{PutError, Queue, Record};

/// The most records that a queue can hold (rules 5).
pub const MOST_RECORDS: usize = 1_000_000;

/// A book: four queues of records, each in rank order and of fixed capacity (rules 5). Positions
/// count from 0.
pub trait Book {
    /// What the book means.
    ghost queues: { Self → Queues };

    /// A queue's count and capacity.
    fn size(&self, queue: Queue) -> (usize, usize)
        ensures { result ≡ (count queue (queues self.now), capacity queue (queues self.now)) };

    /// The record at a position, or none past the end.
    fn look(&self, queue: Queue, index: usize) -> Option<Record>
        ensures { result ≡ look_at queue index (queues self.now) };

    /// Queue and position of the first record with a number, looked for through the four queues in
    /// their order.
    fn find(&self, number: u32) -> Option<(Queue, usize)>
        ensures { result ≡ found number (queues self.now) };

    /// Put: the record joins its queue, before the first that ranks behind it, or last. Nothing
    /// changes where it is refused.
    fn put(&mut self, record: Record) -> Result<(), PutError>
        ensures answer { result ≡ put_answer «record» (queues self.old) }
        ensures state { queues self.new ≡ after_put result «record» (queues self.old) };

    /// Rewrite: the record at a position of its queue is swapped for one of the same number and
    /// rank; false where it is refused, and then nothing changes.
    // A bool: there is one reason to refuse.
    fn rewrite(&mut self, index: usize, record: Record) -> bool
        ensures answer { result ≡ rewrite_allowed index «record» (queues self.old) }
        ensures state { queues self.new ≡ rewritten index «record» (queues self.old) };

    /// Take: the record at a position leaves its queue and is the answer; none past the end.
    fn take(&mut self, queue: Queue, index: usize) -> Option<Record>
        ensures answer { result ≡ look_at queue index (queues self.old) }
        ensures state { queues self.new ≡ taken queue index (queues self.old) };

    /// All four queues are empty from then on; their capacities stay.
    fn clear(&mut self)
        ensures { queues self.new ≡ cleared (queues self.old) };

    /// Whether a queue may have a firm's client number. Not one of the seven functions: a book that
    /// keeps no account of them answers true.
    fn may_have_client(&self, queue: Queue, firm: u16, client: u32) -> bool
        ensures { holds_client firm client queue (queues self.now) ≡ true → result ≡ true }
    {
        true
    }

    /// No count passes its capacity, and no capacity a million.
    ghost bounded: { (book : Self) → Bounded (queues book) };
}

/// The most records of a queue are the published ones.
pub fn book_limits()
    ensures { BookLimits }
{}
