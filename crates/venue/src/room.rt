// Room: whether the tape and the stamps suffice for a step.
ghost use Rattle.std.specs.Prelude.{◌≡◌, ◌*◌, ◌≤◌};
ghost use Rattle.books.specs.declared.book.TheConstants.{MOST_RECORDS};
ghost use Rattle.books.specs.Model.{count};
ghost use Rattle.venue.specs.Rooms.{needed, lines_free, stamps_free};
ghost use Rattle.venue.specs.RoomLimits.{RoomLimits};

use books::book::Book;
use books::queue::Queue;
use forms::refusal::Refusal;
use matching::session::Session;
use orders::side::Side;
use tapes::tape::Tape;

/// The lines that a step may write, and the stamps that it may draw, for each record and one more
/// (rules 7).
pub const ROOM_PER_RECORD: usize = 20;

// How many records a queue holds: few enough for the sum of four.
fn count<B: Book>(book: &B, queue: Queue) -> usize
    ensures answer { result ≡ count queue (B.queues book.now) }
    ensures small { result ≤ MOST_RECORDS }
{
    book.size(queue).0
}

// The lines or stamps that a step may need.
fn needed<B: Book>(book: &B) -> usize
    ensures { result ≡ needed (B.queues book.now) }
{
    let bids = count(book, Queue::Orders(Side::Buy));
    let offers = count(book, Queue::Orders(Side::Sell));
    let buy_stops = count(book, Queue::Stops(Side::Buy));
    let sell_stops = count(book, Queue::Stops(Side::Sell));
    ROOM_PER_RECORD * (bids + offers + buy_stops + sell_stops + 1)
}

/// Whether the tape has the free lines that a step may need, or `TapeFull` (rules 7).
pub fn lines_free<B: Book>(book: &B, tape: &Tape) -> Result<(), Refusal>
    ensures { result ≡ lines_free (B.queues book.now) tape.now }
{
    if tape.free_lines() < needed(book) {
        Err(Refusal::TapeFull)
    } else {
        Ok(())
    }
}

/// Whether as many stamps are undrawn as an entry or a change may need, or `NoStamps` (rules 7).
pub fn stamps_free<B: Book>(book: &B, session: Session) -> Result<(), Refusal>
    ensures { result ≡ stamps_free (B.queues book.now) session }
{
    if (session.undrawn_stamps() as usize) < needed(book) {
        Err(Refusal::NoStamps)
    } else {
        Ok(())
    }
}

/// A record needs the published count of lines and stamps.
pub fn room_limits()
    ensures { RoomLimits }
{}
