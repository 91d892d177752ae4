// The store of 32 slots, with its rows in rank order and free slots between (rules 5).
#![tactic(auto, using(crate::proofs::SlotCalls::all_stored))]

ghost use Rattle.std.specs.Prelude.{◌≡◌, ◌<◌, ◌≤◌, [], ◌∷◌, ◌++◌, length, take, drop, None, slice_index_or};
ghost use Rattle.slots.specs.SlotContents.{slot_rows, slot_contents};
ghost use Rattle.slots.specs.SlotLimits.{SlotLimits};

use crate::slots::{count_in, find_in, free_near, gap_of, has_client_in, look_in, slot_of};
use books::queue_store::QueueStore;
use orders::ranked::Ranked;

/// How many slots a store has: the capacity of a queue of the slot book.
pub const SLOTS: usize = 32;

/// Slots, each free or taken by a stored row. A put takes a free slot near where the row belongs,
/// so that few rows move.
#[derive(Drop)]
pub struct SlotStore<T> {
    slots: [Option<T>; SLOTS],
}

impl<T: Copy> SlotStore<T> {
    /// A store with every slot free.
    pub fn new() -> SlotStore<T>
        ensures { slot_rows result.slots ≡ [] }
    {
        SlotStore {
            slots: [None; SLOTS],
        }
    }
}

impl<T: Ranked + Copy> QueueStore for SlotStore<T> {
    type Row = T;

    ghost contents = { λ store. slot_contents store.slots };

    fn size(&self) -> (usize, usize) {
        (count_in(&self.slots), SLOTS)
    }

    fn look(&self, index: usize) -> Option<T> {
        look_in(&self.slots, index)
    }

    fn find(&self, number: u32) -> Option<usize> {
        find_in(&self.slots, number)
    }

    fn put(&mut self, row: T) -> bool {
        let gap = gap_of(&self.slots, row.rank());
        let Some(free) = free_near(&self.slots, gap) else {
            return false;
        };
        put_at(&mut self.slots, gap, free, row);
        true
    }

    fn replace(&mut self, index: usize, row: T) {
        if let Some(slot) = slot_of(&self.slots, index) {
            self.slots[slot] = Some(row);
        }
    }

    fn take(&mut self, index: usize) -> Option<T> {
        let slot = slot_of(&self.slots, index)?;
        self.slots[slot].take()
    }

    fn may_have_client(&self, firm: u16, client: u32) -> bool {
        has_client_in(&self.slots, firm, client)
    }

    fn clear(&mut self) {
        *self = SlotStore::new();
    }
}

// A row goes in at the gap: it takes the free slot, and the rows between the two move by one slot.
fn put_at<T: Copy>(slots: &mut [Option<T>], gap: usize, free: usize, row: T)
    requires gap { gap ≤ length slots.old }
    requires within { free < length slots.old }
    requires free { slice_index_or slots.old free None ≡ None }
    ensures unchanged { length slots.new ≡ length slots.old }
    ensures state { slot_rows slots.new ≡
        slot_rows (take gap slots.old) ++ (row ∷ slot_rows (drop gap slots.old)) }
{
    slots[free] = Some(row);
    if free < gap {
        slots[free..gap].rotate_left(1);
    } else {
        slots[gap..=free].rotate_right(1);
    }
}

/// A queue has the published count of slots.
pub fn slot_limits()
    ensures { SlotLimits }
{}
