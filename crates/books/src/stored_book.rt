// The book over four stores of plain rows.
ghost use Rattle.std.specs.Prelude.{◌≡◌};
ghost use Rattle.books.specs.StoredQueues.{stored_queues};
ghost use Rattle.books.specs.StoredBounds.{stored_bounded};

use crate::book::Book;
use crate::queue::{PutError, Queue, Record};
use crate::queue_store::QueueStore;
use crate::stored_row::{find_item, item_at, put_item, size_of, swap_item, take_item};
use orders::ranked::Numbered;
use orders::row::{OrderRow, StopRow};
use orders::side::Side;

/// Bids, offers, buy stops and sell stops, each in a store of its own. It means the orders and
/// stops that the stored rows are read as.
#[derive(Drop)]
pub struct StoredBook<O, S> {
    pub bids: O,
    pub offers: O,
    pub buys: S,
    pub sells: S,
}

// An arm for each queue: a function that picked the store would lend it, and would need a clause on
// what the loan leaves.
impl<O: QueueStore<Row = OrderRow>, S: QueueStore<Row = StopRow>> Book for StoredBook<O, S> {
    ghost queues = { stored_queues O.QueueStore.contents S.QueueStore.contents };

    ghost bounded = { stored_bounded O.QueueStore.contents S.QueueStore.contents };

    fn size(&self, queue: Queue) -> (usize, usize) {
        match queue {
            Queue::Orders(Side::Buy) => size_of(&self.bids),
            Queue::Orders(Side::Sell) => size_of(&self.offers),
            Queue::Stops(Side::Buy) => size_of(&self.buys),
            Queue::Stops(Side::Sell) => size_of(&self.sells),
        }
    }

    #[inline(always)]
    fn look(&self, queue: Queue, index: usize) -> Option<Record> {
        match queue {
            Queue::Orders(Side::Buy) => item_at(&self.bids, index).map(Record::Standing),
            Queue::Orders(Side::Sell) => item_at(&self.offers, index).map(Record::Standing),
            Queue::Stops(Side::Buy) => item_at(&self.buys, index).map(Record::Waiting),
            Queue::Stops(Side::Sell) => item_at(&self.sells, index).map(Record::Waiting),
        }
    }

    fn find(&self, number: u32) -> Option<(Queue, usize)> {
        find_item(&self.bids, number)
            .map(|index| (Queue::Orders(Side::Buy), index))
            .or_else(|| find_item(&self.offers, number).map(|index| (
                Queue::Orders(Side::Sell),
                index,
            )))
            .or_else(|| find_item(&self.buys, number).map(|index| (Queue::Stops(Side::Buy), index)))
            .or_else(|| find_item(&self.sells, number).map(|index| (
                Queue::Stops(Side::Sell),
                index,
            )))
    }

    fn put(&mut self, record: Record) -> Result<(), PutError> {
        let (count, capacity) = self.size(record.queue());
        if count >= capacity {
            return Err(PutError::Full);
        }
        if self.find(record.number()).is_some() {
            return Err(PutError::Twice);
        }
        match record {
            Record::Standing(order) => match order.side {
                Side::Buy => put_item(&mut self.bids, order),
                Side::Sell => put_item(&mut self.offers, order),
            },
            Record::Waiting(stop) => match stop.order.side {
                Side::Buy => put_item(&mut self.buys, stop),
                Side::Sell => put_item(&mut self.sells, stop),
            },
        };
        Ok(())
    }

    fn rewrite(&mut self, index: usize, record: Record) -> bool {
        match record {
            Record::Standing(order) => match order.side {
                Side::Buy => swap_item(&mut self.bids, index, order),
                Side::Sell => swap_item(&mut self.offers, index, order),
            },
            Record::Waiting(stop) => match stop.order.side {
                Side::Buy => swap_item(&mut self.buys, index, stop),
                Side::Sell => swap_item(&mut self.sells, index, stop),
            },
        }
    }

    fn take(&mut self, queue: Queue, index: usize) -> Option<Record> {
        match queue {
            Queue::Orders(Side::Buy) => take_item(&mut self.bids, index).map(Record::Standing),
            Queue::Orders(Side::Sell) => take_item(&mut self.offers, index).map(Record::Standing),
            Queue::Stops(Side::Buy) => take_item(&mut self.buys, index).map(Record::Waiting),
            Queue::Stops(Side::Sell) => take_item(&mut self.sells, index).map(Record::Waiting),
        }
    }

    #[tactic(auto, using(crate::proofs::MappedLists::any_map))]
    fn may_have_client(&self, queue: Queue, firm: u16, client: u32) -> bool {
        match queue {
            Queue::Orders(Side::Buy) => self.bids.may_have_client(firm, client),
            Queue::Orders(Side::Sell) => self.offers.may_have_client(firm, client),
            Queue::Stops(Side::Buy) => self.buys.may_have_client(firm, client),
            Queue::Stops(Side::Sell) => self.sells.may_have_client(firm, client),
        }
    }

    fn clear(&mut self) {
        self.bids.clear();
        self.offers.clear();
        self.buys.clear();
        self.sells.clear();
    }
}
