// Setting up.
ghost use Rattle.std.specs.Prelude.{◌≡◌};
ghost use Rattle.venue.specs.Days.{state, set_up};
ghost use Rattle.venue.specs.declared.day.Day.TheVariants.{Open};

use crate::day::OpenDay;
use books::book::Book;
use matching::session::Session;
use tapes::tape::Tape;

/// Sets up a venue: book and tape are cleared and the day is open. A day of 0 counts as 1, and a
/// first stamp of 0 as 1 (rules 6).
pub fn set_up<B: Book>(book: &mut B, tape: &mut Tape, day: u16, stamp: u32) -> OpenDay
    ensures { state (B.queues book.new) tape.new (Open result)
        ≡ set_up day stamp (B.queues book.old) tape.old.limit }
{
    book.clear();
    tape.clear();
    OpenDay {
        day: day.max(1),
        session: Session::from_stamp(stamp),
    }
}
