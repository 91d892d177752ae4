// How the incoming order trades with the first opposite one, and what becomes of its leftover.
ghost use Rattle.std.specs.Prelude.{◌≡◌, Some, None};
ghost use Rattle.orders.specs.Sides.{opposite};
ghost use Rattle.matching.specs.declared.session.Session.{Session as SessionValue};
ghost use Rattle.matching.specs.Model.{line_C, outcome, after_trade, put_back, session_after_trade, incoming_left, trades, apply};
ghost use Rattle.matching.specs.Running.{first_order, leftover};
ghost use Rattle.matching.specs.MatchStates.{match_state};

use crate::session::Session;
use books::book::Book;
use books::looks::standing_order;
use books::queue::{Queue, Record};
use orders::order::Order;
use orders::side::Side;
use tapes::cause::Cause;
use tapes::line::Line;
use tapes::tape::Tape;

/// The line C of a cancelled order or stop, with its open lots (rules 16).
pub fn cancelled(order: Order, cause: Cause) -> Line
    ensures { result ≡ line_C cause order }
{
    Line::Cancelled {
        number: order.number,
        limit: Some(order.price),
        lots: order.open_lots,
        cause,
    }
}

/// The order that stands first on a side.
#[inline(always)]
pub fn first_order<B: Book>(book: &B, side: Side) -> Option<Order>
    ensures { result ≡ first_order side (B.queues book.now) }
{
    standing_order(book.look(Queue::Orders(side), 0))
}

// What is left of the incoming order after a trade.
fn incoming_left(order: Order, lots: u32) -> Option<Order>
    ensures { result ≡ incoming_left lots order }
{
    if order.open_lots == lots {
        return None;
    }
    Some(order.refilled(order.turn, lots))
}

// A refilled order joins its queue again.
#[tactic(auto, unfolding(crate::specs::Model::put_back))]
fn put_back<B: Book>(book: &mut B, order: Order)
    ensures { B.queues book.new ≡ put_back order (B.queues book.old) }
{
    let _ = book.put(Record::Standing(order));
}

// The first order of a side after a trade: filled, it leaves; refilled, it goes behind its price;
// reduced, it stays first.
fn after_trade<B: Book>(book: &mut B, session: &mut Session, side: Side, resting: Order, lots: u32)
    ensures queues { B.queues book.new
        ≡ after_trade (outcome lots resting) side lots session.old.next_stamp resting
        (B.queues book.old) }
    ensures session { session.new ≡ session_after_trade (outcome lots resting) session.old }
{
    if resting.open_lots == lots {
        let _ = book.take(Queue::Orders(side), 0);
    } else if resting.shown == lots {
        let _ = book.take(Queue::Orders(side), 0);
        let turn = session.draw();
        put_back(book, resting.refilled(turn, lots));
    } else {
        let _ = book.rewrite(0, Record::Standing(resting.reduced(lots)));
    }
}

/// One trade of the incoming order with the first opposite one, `resting`. Answers what it leaves
/// of the incoming order (rules 10).
pub fn trade<B: Book>(
    book: &mut B,
    tape: &mut Tape,
    session: &mut Session,
    incoming: Order,
    resting: Order,
) -> Option<Order>
    ensures { match_state (B.queues book.new) tape.new session.new result
        ≡ apply (trades incoming resting)
        (match_state (B.queues book.old) tape.old session.old (Some incoming)) }
{
    let lots = incoming.open_lots.min(resting.shown);
    tape.write(Line::Traded {
        incoming: incoming.number,
        resting: resting.number,
        price: resting.price,
        lots,
    });
    after_trade(book, session, incoming.side.opposite(), resting, lots);
    session.last_price = Some(resting.price);
    incoming_left(incoming, lots)
}

/// What becomes of a leftover: that of an IOC order is cancelled, any other stands, or is cancelled
/// where put refuses it (rules 11).
pub fn rest_or_cancel<B: Book>(book: &mut B, tape: &mut Tape, order: Order)
    ensures { (session : SessionValue) → match_state (B.queues book.new) tape.new session None
        ≡ apply (leftover order (B.queues book.old))
        (match_state (B.queues book.old) tape.old session (Some order)) }
{
    if order.validity.is_immediate() {
        tape.write(cancelled(order, Cause::Leftover));
        return;
    }
    if book.put(Record::Standing(order)).is_err() {
        tape.write(cancelled(order, Cause::NotPut));
    }
}
