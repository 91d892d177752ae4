// Which records a removal names.
ghost use Rattle.std.specs.Prelude.{◌≡◌};
ghost use Rattle.matching.specs.Removing.{matches_cell, matches_filter, removes};

use orders::order::Order;
use orders::side::Side;

/// What a mass cancel names: a firm's records that match every filled cell (rules 14).
#[derive(Clone, Copy)]
pub struct CancelFilter {
    pub firm: u16,
    pub side: Option<Side>,
    pub tag: Option<u8>,
    pub investor: Option<u64>,
}

/// What a mass cancel or a closing removes (rules 14, 15). An enum and no closure, so that
/// contracts and laws can name it.
#[derive(Clone, Copy)]
pub enum Removal {
    Matching(CancelFilter),
    DayOrders,
}

fn matches_cell<T: PartialEq + Copy>(cell: Option<T>, value: T) -> bool
    ensures { result ≡ matches_cell T.eq cell value }
{
    cell.is_none_or(|wanted| wanted == value)
}

impl CancelFilter {
    /// Whether the order is the firm's and matches every filled cell.
    pub fn matches_filter(self, order: Order) -> bool
        ensures { result ≡ matches_filter self order }
    {
        self.firm == order.firm
            && matches_cell(self.side, order.side)
            && matches_cell(self.tag, order.tag)
            && matches_cell(self.investor, order.investor)
    }
}

impl Removal {
    /// Whether the removal names the order or stop.
    pub fn removes(self, order: Order) -> bool
        ensures { result ≡ removes self order }
    {
        match self {
            Removal::Matching(wanted) => wanted.matches_filter(order),
            Removal::DayOrders => order.validity.is_day(),
        }
    }
}
