// The front card as a book (rules 5).
ghost use Rattle.std.specs.Prelude.{◌≡◌, None};
ghost use Rattle.books.specs.Model.{look_at, queue_of, put_answer, after_put, rewrite_allowed, rewritten};
ghost use Rattle.cards.specs.CardQueues.{card_queues, held_by};
ghost use Rattle.cards.specs.Held.{held_at};
ghost use Rattle.cards.specs.CardBounds.{covered_bounded};

use super::FrontCard;
use super::held::{is_of, over};
use books::book::Book;
use books::queue::{PutError, Queue, Record};
use books::stored_row::ranks_as;

impl<B: Book> FrontCard<B> {
    /// A front card above a book; it holds nothing yet.
    pub fn over(below: B) -> FrontCard<B>
        ensures { card_queues B.Book.queues result ≡ B.Book.queues below }
    {
        FrontCard {
            below,
            bid: None,
            offer: None,
            buy: None,
            sell: None,
        }
    }

    // The first record of a queue.
    fn first(&self, queue: Queue) -> Option<Record>
        ensures { result ≡ look_at queue 0 (card_queues B.Book.queues self.now) }
    {
        over(self.held(queue), self.below.look(queue, 0))
    }

    // The record that is held for a queue is written into the book below.
    fn flush(&mut self, queue: Queue)
        ensures state { card_queues B.Book.queues self.new ≡ card_queues B.Book.queues self.old }
        ensures none { held_at queue (held_by self.new) ≡ None }
    {
        if let Some(held) = self.held(queue) {
            let _ = self.below.rewrite(0, held);
            self.discard(queue);
        }
    }

    // A rewrite of a queue's first record is held back: the book below is unchanged.
    fn hold_back(&mut self, record: Record) -> bool
        ensures answer { result ≡
            rewrite_allowed 0 «record» (card_queues B.Book.queues self.old) }
        ensures state { card_queues B.Book.queues self.new ≡
            rewritten 0 «record» (card_queues B.Book.queues self.old) }
        ensures unchanged { self.new.below ≡ self.old.below }
    {
        let allowed = ranks_as(self.below.look(record.queue(), 0), record);
        if allowed {
            self.hold(record);
        }
        allowed
    }
}

impl<B: Book> Book for FrontCard<B> {
    ghost queues = { card_queues B.Book.queues };

    ghost bounded = { λ card.
        covered_bounded (held_by card) (B.Book.queues card.below) (B.Book.bounded card.below) };

    fn size(&self, queue: Queue) -> (usize, usize) {
        self.below.size(queue)
    }

    fn look(&self, queue: Queue, index: usize) -> Option<Record> {
        if index == 0 {
            return self.first(queue);
        }
        self.below.look(queue, index)
    }

    fn find(&self, number: u32) -> Option<(Queue, usize)> {
        self.below.find(number)
    }

    // Besides what the trait asks: after a put nothing is held for its queue.
    fn put(&mut self, record: Record) -> Result<(), PutError>
        ensures answer { result ≡ put_answer «record» (card_queues B.Book.queues self.old) }
        ensures state { card_queues B.Book.queues self.new ≡
            after_put result «record» (card_queues B.Book.queues self.old) }
        ensures none { held_at (queue_of «record») (held_by self.new) ≡ None }
    {
        self.flush(record.queue());
        self.below.put(record)
    }

    // Besides what the trait asks: a rewrite of a queue's first record leaves the book below
    // unchanged.
    fn rewrite(&mut self, index: usize, record: Record) -> bool
        ensures answer { result ≡
            rewrite_allowed index «record» (card_queues B.Book.queues self.old) }
        ensures state { card_queues B.Book.queues self.new ≡
            rewritten index «record» (card_queues B.Book.queues self.old) }
        ensures unchanged { index ≡ 0 → self.new.below ≡ self.old.below }
    {
        if index == 0 {
            return self.hold_back(record);
        }
        self.below.rewrite(index, record)
    }

    fn take(&mut self, queue: Queue, index: usize) -> Option<Record> {
        if index == 0 {
            let first = self.first(queue);
            let _ = self.below.take(queue, 0);
            self.discard(queue);
            return first;
        }
        self.below.take(queue, index)
    }

    fn may_have_client(&self, queue: Queue, firm: u16, client: u32) -> bool {
        is_of(self.held(queue), firm, client) || self.below.may_have_client(queue, firm, client)
    }

    fn clear(&mut self) {
        self.below.clear();
        self.discard_all();
    }
}
