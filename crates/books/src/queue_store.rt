// What a queue store is: plain rows in rank order, and seven functions over them.
ghost use Rattle.std.specs.Prelude.{◌≡◌, true, [], length, if◌then◌else◌, nat_lt, slice_set};
ghost use Rattle.std.specs.List.{slice_get, remove, list_any};
ghost use Rattle.books.specs.RankedLists.{put_by_rank, index_of_number};
ghost use Rattle.books.specs.Model.{has_client};
ghost use Rattle.books.specs.Contents.{Contents};

use orders::ranked::Ranked;

/// A store of the rows of one queue, with a fixed capacity. Positions count from 0 (rules 1).
// Rows and capacity are two clauses: `Contents` holds proofs of its bounds, and one equation would
// have to equate these too.
pub trait QueueStore {
    /// A stored row: an order or a stop as plain fields.
    type Row: Ranked;

    /// What the store means.
    ghost contents: { Self → Contents Self.Row };

    /// Count and capacity.
    fn size(&self) -> (usize, usize)
        ensures { result ≡ (length (contents self.now).rows, (contents self.now).capacity) };

    /// The row at a position, or none past the end.
    fn look(&self, index: usize) -> Option<Self::Row>
        ensures { result ≡ slice_get (contents self.now).rows index };

    /// The position of the first row with a number.
    fn find(&self, number: u32) -> Option<usize>
        ensures { result ≡
            index_of_number Self.Row.Numbered.number number (contents self.now).rows };

    /// Puts a row before the first that ranks behind it, or last; false where the store is full,
    /// and nothing changes then.
    // A bool: there is one reason to refuse.
    fn put(&mut self, row: Self::Row) -> bool
        ensures answer { result ≡
            nat_lt (length (contents self.old).rows) (contents self.old).capacity }
        ensures state { (contents self.new).rows ≡
            (if result
            then put_by_rank Self.Row.Ranked.rank row (contents self.old).rows
            else (contents self.old).rows) }
        ensures unchanged { (contents self.new).capacity ≡ (contents self.old).capacity };

    /// Puts another row at a position, for the one there; past the end nothing changes.
    fn replace(&mut self, index: usize, row: Self::Row)
        ensures state { (contents self.new).rows ≡ slice_set (contents self.old).rows index row }
        ensures unchanged { (contents self.new).capacity ≡ (contents self.old).capacity };

    /// The row at a position leaves the store and is the answer; none past the end.
    fn take(&mut self, index: usize) -> Option<Self::Row>
        ensures answer { result ≡ slice_get (contents self.old).rows index }
        ensures state { (contents self.new).rows ≡ remove (contents self.old).rows index }
        ensures unchanged { (contents self.new).capacity ≡ (contents self.old).capacity };

    /// Whether a row may have a firm's client number; a store that keeps no account of them answers
    /// true.
    fn may_have_client(&self, firm: u16, client: u32) -> bool
        ensures { let has =
            has_client Self.Row.Numbered.firm Self.Row.Numbered.client firm client in
            list_any has (contents self.now).rows ≡ true → result ≡ true }
    {
        true
    }

    /// The store is empty from then on; its capacity stays.
    fn clear(&mut self)
        ensures state { (contents self.new).rows ≡ [] }
        ensures unchanged { (contents self.new).capacity ≡ (contents self.old).capacity };
}
