// The highest numbers of the rows of a strip: what is above them need not be looked for.
ghost use Rattle.std.specs.Prelude.{◌≡◌, ℕ, ◌<◌, ◌≤◌, ◌%◌, true, nat_le, slice_index};
ghost use Rattle.strips.specs.Highest.{not_above};

use orders::ranked::Numbered;

// Firms fall into classes by their number modulo 16, so that a few firms with client numbers of
// very different size do not share one highest.
const CLASSES: usize = 16;

// The highest order number, and for each class of firms the highest client number. A row that
// leaves lowers none of them.
#[derive(Clone, Copy)]
pub(crate) struct HighestNumbers {
    number: u32,
    clients: [u32; CLASSES],
}

fn class_of(firm: u16) -> usize
    ensures answer { result ≡ firm % CLASSES }
    ensures within { result < CLASSES }
{
    usize::from(firm) % CLASSES
}

impl HighestNumbers {
    // Those of no rows.
    pub(crate) fn none() -> HighestNumbers {
        HighestNumbers {
            number: 0,
            clients: [0; CLASSES],
        }
    }

    // Those with one row more.
    pub(crate) fn with<T: Numbered>(mut self, row: &T) -> HighestNumbers
        ensures covered { not_above T.Numbered.number T.Numbered.firm T.Numbered.client
            result row.now ≡ true }
        ensures others { (other : T) →
            not_above T.Numbered.number T.Numbered.firm T.Numbered.client self other ≡ true →
            not_above T.Numbered.number T.Numbered.firm T.Numbered.client result other ≡ true }
    {
        let class = class_of(row.firm());
        self.number = self.number.max(row.number());
        self.clients[class] = self.clients[class].max(row.client());
        self
    }

    // Whether a row may have a number.
    pub(crate) fn may_have(&self, number: u32) -> bool
        ensures { result ≡ nat_le number self.now.number }
    {
        number <= self.number
    }

    // Whether a row may have a firm's client number.
    pub(crate) fn may_have_client(&self, firm: u16, client: u32) -> bool
        ensures { result ≡ nat_le client (slice_index self.now.clients (firm % CLASSES)) }
    {
        client <= self.clients[class_of(firm)]
    }
}
