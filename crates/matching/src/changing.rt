// How a standing order is changed.
ghost use Rattle.std.specs.Prelude.{◌≡◌, Some, None};
ghost use Rattle.matching.specs.Model.{line_R, amends, requeues, apply};
ghost use Rattle.matching.specs.Changing.{amended_order, requeued_order, change_at};
ghost use Rattle.matching.specs.MatchStates.{match_state};
ghost use Rattle.matching.specs.declared.session.Session.{Session as SessionValue};

use crate::amendment::Amendment;
use crate::running::run_to_rest;
use crate::session::Session;
use books::book::Book;
use books::queue::{Queue, Record};
use orders::order::Order;
use orders::side::Side;
use tapes::line::Line;
use tapes::tape::Tape;

fn replaced(order: Order) -> Line
    ensures { result ≡ line_R order }
{
    Line::Replaced {
        number: order.number,
        limit: order.price,
        quantity: order.quantity,
    }
}

// The order is changed and keeps its position and turn.
fn amend<B: Book>(book: &mut B, tape: &mut Tape, at: usize, order: Order)
    ensures { (session : SessionValue) → match_state (B.queues book.new) tape.new session None
        ≡ apply (amends at order) (match_state (B.queues book.old) tape.old session None) }
{
    let _ = book.rewrite(at, Record::Standing(order));
    tape.write(replaced(order));
}

// The order is changed, loses its turn and leaves its queue. It is the incoming order from then on.
fn requeue<B: Book>(
    book: &mut B,
    tape: &mut Tape,
    session: &mut Session,
    side: Side,
    at: usize,
    order: Order,
)
    ensures { match_state (B.queues book.new) tape.new session.new (Some order)
        ≡ apply (requeues side at order)
        (match_state (B.queues book.old) tape.old session.old None) }
{
    let _ = book.take(Queue::Orders(side), at);
    tape.write(replaced(order));
    let _ = session.draw();
}

/// Changes a standing order: `order`, which is at position `at` on `side`. It keeps its position
/// and turn, or it loses its turn and trades as incoming, and then each ripe stop does (rules 13).
pub fn change<B: Book>(
    book: &mut B,
    tape: &mut Tape,
    session: &mut Session,
    amendment: Amendment,
    side: Side,
    at: usize,
    order: Order,
)
    ensures { match_state (B.queues book.new) tape.new session.new None
        ≡ change_at amendment side at order
        (match_state (B.queues book.old) tape.old session.old None) }
{
    if amendment.loses_turn(order) {
        let incoming = amendment.requeued_order(session.next_stamp, order);
        requeue(book, tape, session, side, at, incoming);
        run_to_rest(book, tape, session, Some(incoming));
        return;
    }
    amend(book, tape, at, amendment.amended_order(order));
}
