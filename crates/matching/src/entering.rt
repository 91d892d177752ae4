// How an entry is accepted.
ghost use Rattle.std.specs.Prelude.{◌≡◌, Some, None};
ghost use Rattle.matching.specs.Model.{line_A, accepts_unmatched, apply};
ghost use Rattle.matching.specs.MatchStates.{match_state};
ghost use Rattle.matching.specs.Entering.{falls_short, arrival_at, arrival_as, arrival, enter};
ghost use Rattle.books.specs.Model.{Queues as QueuesValue};
ghost use Rattle.matching.specs.declared.new_order.OrderType.TheVariants.{StopLimit};

use crate::new_order::{NewOrder, OrderType};
use crate::reaching::reach;
use crate::running::run_to_rest;
use crate::session::Session;
use crate::trading::{cancelled, first_order};
use books::book::Book;
use books::queue::Record;
use orders::order::{Order, Stop};
use orders::price::Price;
use orders::side::Validity;
use tapes::cause::Cause;
use tapes::line::Line;
use tapes::tape::Tape;

fn entered(order: Order) -> Line
    ensures { result ≡ line_A order }
{
    Line::Accepted {
        number: order.number,
        limit: Some(order.price),
        quantity: order.quantity,
    }
}

// Whether the reach is below the minimum, or that of a FOK below its quantity.
fn falls_short<B: Book>(book: &B, new_order: NewOrder, order: Order) -> bool
    ensures { result ≡ falls_short new_order order (B.queues book.now) }
{
    let all = new_order.validity == Validity::Fok;
    if new_order.minimum == 0 && !all {
        return false;
    }
    let lots = reach(book, order);
    lots < u64::from(new_order.minimum) || (all && lots < u64::from(new_order.quantity))
}

// An order that is no stop is accepted: it becomes the incoming one, or is cancelled whole.
fn accept<B: Book>(
    book: &B,
    tape: &mut Tape,
    session: &mut Session,
    new_order: NewOrder,
    price: Price,
) -> Option<Order>
    ensures { match_state (B.queues book.now) tape.new session.new result
        ≡ apply (arrival_at price new_order session.old.next_stamp (B.queues book.now))
        (match_state (B.queues book.now) tape.old session.old None) }
{
    let order = new_order.order(price, session.draw());
    tape.write(entered(order));
    if falls_short(book, new_order, order) {
        tape.write(cancelled(order, Cause::ShortReach));
        return None;
    }
    Some(order)
}

// A market order without an opposite one is accepted and cancelled.
fn accept_unmatched(tape: &mut Tape, session: &mut Session, quantity: u32)
    ensures { (queues : QueuesValue) → match_state queues tape.new session.new None
        ≡ apply (accepts_unmatched session.old.next_stamp quantity)
        (match_state queues tape.old session.old None) }
{
    let number = session.draw();
    tape.write(Line::Accepted {
        number,
        limit: None,
        quantity,
    });
    tape.write(Line::Cancelled {
        number,
        limit: None,
        lots: quantity,
        cause: Cause::NoOpposite,
    });
}

// A stop is accepted: it joins its queue, or is cancelled where put refuses it.
fn accept_stop<B: Book>(
    book: &mut B,
    tape: &mut Tape,
    session: &mut Session,
    new_order: NewOrder,
    limit: Price,
    trigger: Price,
)
    ensures { match_state (B.queues book.new) tape.new session.new None
        ≡ apply
        (arrival_as (StopLimit limit trigger) new_order session.old.next_stamp (B.queues book.old))
        (match_state (B.queues book.old) tape.old session.old None) }
{
    let order = new_order.order(limit, session.draw());
    tape.write(entered(order));
    if book.put(Record::Waiting(Stop { order, trigger })).is_err() {
        tape.write(cancelled(order, Cause::NotPut));
    }
}

// The entry is accepted, by its type. Answers the incoming order, if there is one.
fn arrive<B: Book>(
    book: &mut B,
    tape: &mut Tape,
    session: &mut Session,
    new_order: NewOrder,
) -> Option<Order>
    ensures { match_state (B.queues book.new) tape.new session.new result
        ≡ apply (arrival new_order session.old.next_stamp (B.queues book.old))
        (match_state (B.queues book.old) tape.old session.old None) }
{
    match new_order.order_type {
        OrderType::Limit(price) => accept(book, tape, session, new_order, price),
        OrderType::Market => match first_order(book, new_order.side.opposite()) {
            Some(first) => accept(book, tape, session, new_order, first.price),
            None => {
                accept_unmatched(tape, session, new_order.quantity);
                None
            }
        },
        OrderType::StopLimit { limit, trigger } => {
            accept_stop(book, tape, session, new_order, limit, trigger);
            None
        }
    }
}

/// An entry is accepted and trades, and then each ripe stop does (rules 8, 12).
pub fn enter<B: Book>(book: &mut B, tape: &mut Tape, session: &mut Session, new_order: NewOrder)
    ensures { match_state (B.queues book.new) tape.new session.new None
        ≡ enter new_order (match_state (B.queues book.old) tape.old session.old None) }
{
    let incoming = arrive(book, tape, session, new_order);
    run_to_rest(book, tape, session, incoming);
}
