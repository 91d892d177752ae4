// Removals: one record, or all that a removal names, in the order of the four queues.
ghost use Rattle.std.specs.Prelude.{◌≡◌, Some, None};
ghost use Rattle.matching.specs.Model.{cancels_resting, apply};
ghost use Rattle.matching.specs.Removing.{swept, removals};
ghost use Rattle.matching.specs.MatchStates.{match_state};
ghost use Rattle.matching.specs.declared.session.Session.{Session as SessionValue};

use crate::removal::Removal;
use crate::trading::cancelled;
use books::book::Book;
use books::queue::{Queue, Record};
use orders::side::Side;
use tapes::cause::Cause;
use tapes::tape::Tape;

/// Cancels `record`, which is at position `at` of `queue` (rules 14).
pub fn cancel_resting<B: Book>(
    book: &mut B,
    tape: &mut Tape,
    cause: Cause,
    queue: Queue,
    at: usize,
    record: Record,
)
    ensures { (session : SessionValue) → match_state (B.queues book.new) tape.new session None
        ≡ apply (cancels_resting cause queue at «record»)
        (match_state (B.queues book.old) tape.old session None) }
{
    let _ = book.take(queue, at);
    tape.write(cancelled(record.order(), cause));
}

// Along a queue, what the removal names is cancelled and what it does not is passed.
// By position, not by an iterator: a cancel changes the queue, and the next record moves up.
fn sweep<B: Book>(book: &mut B, tape: &mut Tape, removal: Removal, cause: Cause, queue: Queue)
    ensures { (session : SessionValue) → match_state (B.queues book.new) tape.new session None
        ≡ swept removal cause queue (match_state (B.queues book.old) tape.old session None) }
{
    let mut at = 0;
    while let Some(record) = book.look(queue, at) {
        if removal.removes(record.order()) {
            cancel_resting(book, tape, cause, queue, at, record);
        } else {
            at += 1;
        }
    }
}

/// Cancels all that the removal names: bids, offers, buy stops and sell stops, by rank within each
/// (rules 14, 15).
pub fn remove<B: Book>(book: &mut B, tape: &mut Tape, removal: Removal, cause: Cause)
    ensures { (session : SessionValue) → match_state (B.queues book.new) tape.new session None
        ≡ removals removal cause (match_state (B.queues book.old) tape.old session None) }
{
    sweep(book, tape, removal, cause, Queue::Orders(Side::Buy));
    sweep(book, tape, removal, cause, Queue::Orders(Side::Sell));
    sweep(book, tape, removal, cause, Queue::Stops(Side::Buy));
    sweep(book, tape, removal, cause, Queue::Stops(Side::Sell));
}
