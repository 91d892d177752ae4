// Stops that are triggered.
ghost use Rattle.std.specs.Prelude.{◌≡◌, Some, None};
ghost use Rattle.matching.specs.Model.{triggers, apply};
ghost use Rattle.matching.specs.Running.{ripe, if_ripe, first_stop, lower_turn, next_stop};
ghost use Rattle.matching.specs.MatchStates.{match_state};

use crate::session::Session;
use books::book::Book;
use books::looks::waiting_stop;
use books::queue::Queue;
use orders::lots::within_limit;
use orders::order::{Order, Stop};
use orders::price::Price;
use orders::side::Side;
use tapes::line::Line;
use tapes::tape::Tape;

/// Whether a stop is ripe: the last price has reached its trigger (rules 12).
pub fn is_ripe(side: Side, last: Option<Price>, trigger: Price) -> bool
    ensures { result ≡ ripe side last trigger }
{
    last.is_some_and(|price| within_limit(side, price, trigger))
}

// A side's first stop, if it is ripe.
#[inline(always)]
fn ripe_first<B: Book>(book: &B, side: Side, last: Option<Price>) -> Option<Stop>
    ensures { result ≡ if_ripe side last (first_stop side (B.queues book.now)) }
{
    waiting_stop(book.look(Queue::Stops(side), 0)).filter(|x| is_ripe(side, last, x.trigger))
}

/// The stop that is triggered next: of the first stops that are ripe, that of the lower turn
/// (rules 12).
pub fn next_ripe<B: Book>(book: &B, last: Option<Price>) -> Option<(Side, Stop)>
    ensures { result ≡ next_stop last (B.queues book.now) }
{
    let buy = ripe_first(book, Side::Buy, last);
    let sell = ripe_first(book, Side::Sell, last);
    match (buy, sell) {
        (Some(x), Some(y)) if y.order.turn < x.order.turn => Some((Side::Sell, y)),
        (Some(x), _) => Some((Side::Buy, x)),
        (None, Some(y)) => Some((Side::Sell, y)),
        (None, None) => None,
    }
}

/// Triggers the first stop of a side, `x`: it leaves its queue and draws a new turn. Answers the
/// incoming order (rules 12).
pub fn trigger_stop<B: Book>(
    book: &mut B,
    tape: &mut Tape,
    session: &mut Session,
    side: Side,
    x: Stop,
) -> Order
    ensures { match_state (B.queues book.new) tape.new session.new (Some result)
        ≡ apply (triggers side x) (match_state (B.queues book.old) tape.old session.old None) }
{
    let _ = book.take(Queue::Stops(side), 0);
    tape.write(Line::Triggered {
        number: x.order.number,
        limit: x.order.price,
        lots: x.order.open_lots,
    });
    let turn = session.draw();
    x.order.refilled(turn, 0)
}
