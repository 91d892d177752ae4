// A strip as a store.
ghost use Rattle.std.specs.Prelude.{◌≡◌, ◌≤◌, [], length, take, reverse};
ghost use Rattle.strips.specs.Ranked.{strip_capacity};
ghost use Rattle.strips.specs.StripContents.{slice_len, strip_contents};

use super::RankedRow;
use super::slices::{find_in, insert_in, look_in, remove_in, write_in};
use crate::highest::HighestNumbers;
use books::book::MOST_RECORDS;
use books::queue_store::QueueStore;
use orders::ranked::Ranked;

impl<'a, T: Ranked + Copy> RankedRow<'a, T> {
    /// An empty strip over a slice, whatever is in it.
    pub fn over(rows: &'a mut [T]) -> RankedRow<'a, T>
        ensures state { (strip_contents result).rows ≡ [] }
        ensures capacity { (strip_contents result).capacity ≡ strip_capacity rows.old }
    {
        RankedRow {
            rows,
            count: 0,
            highest: HighestNumbers::none(),
        }
    }

    // How many rows the strip can hold.
    fn capacity(&self) -> usize
        ensures answer { result ≡ (strip_contents self.now).capacity }
        ensures within { result ≤ slice_len self.now }
    {
        MOST_RECORDS.min(self.rows.len())
    }

    // How many rows the strip has: its count, cut to the capacity, so that the strip needs no fact
    // about the length of its slice.
    fn used(&self) -> usize
        ensures answer { result ≡ length (strip_contents self.now).rows }
        ensures within { result ≤ slice_len self.now }
        ensures front { (strip_contents self.now).rows ≡ reverse (take result self.now.rows.now) }
    {
        self.count.min(self.capacity())
    }
}

impl<'a, T: Ranked + Copy> QueueStore for RankedRow<'a, T> {
    type Row = T;

    ghost contents = { strip_contents };

    fn size(&self) -> (usize, usize) {
        (self.used(), self.capacity())
    }

    fn look(&self, index: usize) -> Option<T> {
        look_in(&self.rows[0..self.used()], index)
    }

    fn find(&self, number: u32) -> Option<usize> {
        if !self.highest.may_have(number) {
            return None;
        }
        find_in(&self.rows[0..self.used()], number)
    }

    fn put(&mut self, row: T) -> bool {
        let count = self.used();
        if count >= self.capacity() {
            return false;
        }
        self.highest = self.highest.with(&row);
        insert_in(self.rows, count, row);
        self.count = count + 1;
        true
    }

    fn replace(&mut self, index: usize, row: T) {
        let count = self.used();
        if index < count {
            self.highest = self.highest.with(&row);
            write_in(self.rows, count - 1 - index, row);
        }
    }

    fn take(&mut self, index: usize) -> Option<T> {
        let row = self.look(index);
        let count = self.used();
        if index < count {
            remove_in(self.rows, count, index);
            self.count = count - 1;
        }
        row
    }

    fn may_have_client(&self, firm: u16, client: u32) -> bool {
        self.highest.may_have_client(firm, client)
    }

    fn clear(&mut self) {
        self.count = 0;
        self.highest = HighestNumbers::none();
    }
}
