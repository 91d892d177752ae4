// The orders of a stream, entered.
use crate::stream::Limit;
use books::book::Book;
use laws::calls::step;
use tapes::tape::Tape;
use venue::day::Day;

// One above the highest client number.
const CLIENTS_END: u64 = 1_000_000_000;

/// The client numbers of the orders: rising from 1, or falling from the highest.
#[derive(Clone, Copy)]
pub enum Numbering {
    Rising,
    Falling,
}

impl Numbering {
    // The client number of an order, by its position in the stream, from 1.
    fn client(self, place: u64) -> u64 {
        match self {
            Numbering::Rising => place,
            Numbering::Falling => CLIENTS_END.saturating_sub(place),
        }
    }
}

/// Enters orders that come after the first `before`; returns the day, and how many were accepted.
pub fn enter_all<B: Book>(
    mut day: Day,
    book: &mut B,
    tape: &mut Tape,
    numbering: Numbering,
    before: usize,
    orders: &[Limit],
) -> (Day, u64) {
    let mut accepted = 0_u64;
    let mut place = before as u64;
    for order in orders {
        place = place.wrapping_add(1);
        let (next, answer) = step(day, book, tape, order.form(numbering.client(place)));
        day = next;
        accepted = accepted.wrapping_add(u64::from(answer.is_ok()));
    }
    (day, accepted)
}
