// A strip: the rows of one queue in rank order, in a slice that is lent.
ghost use Rattle.std.specs.Prelude.{◌≡◌, true};
ghost use Rattle.strips.specs.Ranked.{ranked};
ghost use Rattle.strips.specs.Highest.{all_not_above};

mod slices;
mod store;

use crate::highest::HighestNumbers;
use orders::ranked::Numbered;

/// A strip: the store of a queue whose rows are the first `count` of a lent slice, the first in
/// rank at their end (rules 5).
// The count is a field beside the slice, since who borrows a slice cannot make it shorter.
#[derive(Drop)]
pub struct RankedRow<'a, T: Numbered> {
    rows: &'a mut [T],
    count: usize,
    highest: HighestNumbers,
    ghost rows_not_above: { all_not_above T.Numbered.number T.Numbered.firm T.Numbered.client
        highest (ranked count rows.now) ≡ true },
}
