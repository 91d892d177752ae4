// Stored rows, each of which is read as an item: an order or a stop; and stores of them.
ghost use Rattle.std.specs.Prelude.{◌≡◌, ℕ, length, if◌then◌else◌, nat_lt, slice_set, refl};
ghost use Rattle.std.specs.List.{slice_get, remove};
ghost use Rattle.orders.specs.declared.rank.Rank.{Rank as RankValue};
ghost use Rattle.orders.specs.Rows.{order_of, row_of, stop_of, stop_row_of};
ghost use Rattle.books.specs.Contents.{stored_items};
ghost use Rattle.books.specs.RankedLists.{put_by_rank, ranks_as, swap_allowed, index_of_number};
ghost use Rattle.books.specs.Model.{rank_of, stop_rank_of};
ghost use Rattle.orders.proofs.RowRoundTrip.{order_of_its_row, stop_of_its_row};

use crate::queue_store::QueueStore;
use orders::order::{Order, Stop};
use orders::ranked::Ranked;
use orders::row::{OrderRow, StopRow};

/// A stored row, and the item that it is read as: an order or a stop. An item that is stored reads
/// back, and has its row's rank and number.
// Both ways are those of From; the trait has them so that its laws are about them.
pub trait StoredRow: Ranked {
    type Item;

    ghost item: { Self → Self.Item };

    ghost stored: { Self.Item → Self };

    ghost item_rank: { Self.Item → RankValue };

    ghost item_number: { Self.Item → ℕ };

    /// The item that the row is read as.
    fn item(self) -> Self::Item
        ensures { result ≡ item self };

    /// The row that an item is stored as.
    fn from_item(given: Self::Item) -> Self
        ensures { result ≡ stored given };

    ghost round_trip: { (given : Self.Item) → item (stored given) ≡ given };

    ghost same_rank_as_item: { (row : Self) → item_rank (item row) ≡ Self.Ranked.rank row };

    ghost numbers: { (row : Self) → item_number (item row) ≡ Self.Numbered.number row };
}

impl StoredRow for OrderRow {
    type Item = Order;

    ghost item = { order_of };

    ghost stored = { row_of };

    ghost item_rank = { rank_of };

    ghost item_number = { λ order. order.number };

    ghost round_trip = { order_of_its_row };

    ghost same_rank_as_item = { λ row. refl };

    ghost numbers = { λ row. refl };

    fn item(self) -> Order {
        Order::from(self)
    }

    fn from_item(order: Order) -> OrderRow {
        OrderRow::from(order)
    }
}

impl StoredRow for StopRow {
    type Item = Stop;

    ghost item = { stop_of };

    ghost stored = { stop_row_of };

    ghost item_rank = { stop_rank_of };

    ghost item_number = { λ stop. stop.order.number };

    ghost round_trip = { stop_of_its_row };

    ghost same_rank_as_item = { λ row. refl };

    ghost numbers = { λ row. refl };

    fn item(self) -> Stop {
        Stop::from(self)
    }

    fn from_item(stop: Stop) -> StopRow {
        StopRow::from(stop)
    }
}

/// Count and capacity of a store.
pub fn size_of<T: StoredRow, L: QueueStore<Row = T>>(store: &L) -> (usize, usize)
    ensures { let items = stored_items T.StoredRow.item L.QueueStore.contents store.now in
        result ≡ (length items, (L.QueueStore.contents store.now).capacity) }
{
    store.size()
}

/// The item at a position of a store.
#[inline(always)]
pub fn item_at<T: StoredRow, L: QueueStore<Row = T>>(store: &L, index: usize) -> Option<T::Item>
    ensures { let items = stored_items T.StoredRow.item L.QueueStore.contents store.now in
        result ≡ slice_get items index }
{
    store.look(index).map(|row| row.item())
}

/// The position of the first item of a store with a number.
pub fn find_item<T: StoredRow, L: QueueStore<Row = T>>(store: &L, number: u32) -> Option<usize>
    ensures { let items = stored_items T.StoredRow.item L.QueueStore.contents store.now in
        result ≡ index_of_number T.StoredRow.item_number number items }
{
    store.find(number)
}

/// Puts an item into a store, before the first that ranks behind it, or last; false where the store
/// is full.
pub fn put_item<T: StoredRow, L: QueueStore<Row = T>>(store: &mut L, item: T::Item) -> bool
    ensures answer { let before = stored_items T.StoredRow.item L.QueueStore.contents store.old in
        result ≡ nat_lt (length before) (L.QueueStore.contents store.old).capacity }
    ensures state { let before = stored_items T.StoredRow.item L.QueueStore.contents store.old in
        let after = stored_items T.StoredRow.item L.QueueStore.contents store.new in
        after ≡ (if result then put_by_rank T.StoredRow.item_rank item before else before) }
    ensures unchanged { (L.QueueStore.contents store.new).capacity ≡
        (L.QueueStore.contents store.old).capacity }
{
    store.put(T::from_item(item))
}

/// The item at a position leaves the store and is the answer.
pub fn take_item<T: StoredRow, L: QueueStore<Row = T>>(
    store: &mut L,
    index: usize,
) -> Option<T::Item>
    ensures answer { let before = stored_items T.StoredRow.item L.QueueStore.contents store.old in
        result ≡ slice_get before index }
    ensures state { let before = stored_items T.StoredRow.item L.QueueStore.contents store.old in
        stored_items T.StoredRow.item L.QueueStore.contents store.new ≡ remove before index }
    ensures unchanged { (L.QueueStore.contents store.new).capacity ≡
        (L.QueueStore.contents store.old).capacity }
{
    store.take(index).map(|row| row.item())
}

/// Whether the answer of a look has the rank of a row, and with it its number.
pub fn ranks_as<T: Ranked + Copy>(answer: Option<T>, row: T) -> bool
    ensures { result ≡ ranks_as T.Ranked.rank row answer }
{
    answer.is_some_and(|present| present.rank() == row.rank())
}

/// Swaps the item at a position for one of the same rank and number; false where another is there,
/// or none.
pub fn swap_item<T: StoredRow + Copy, L: QueueStore<Row = T>>(
    store: &mut L,
    index: usize,
    item: T::Item,
) -> bool
    ensures answer { let before = stored_items T.StoredRow.item L.QueueStore.contents store.old in
        result ≡ swap_allowed T.StoredRow.item_rank index item before }
    ensures state { let before = stored_items T.StoredRow.item L.QueueStore.contents store.old in
        let after = stored_items T.StoredRow.item L.QueueStore.contents store.new in
        after ≡ (if result then slice_set before index item else before) }
    ensures unchanged { (L.QueueStore.contents store.new).capacity ≡
        (L.QueueStore.contents store.old).capacity }
{
    let row = T::from_item(item);
    let allowed = ranks_as(store.look(index), row);
    if allowed {
        store.replace(index, row);
    }
    allowed
}
