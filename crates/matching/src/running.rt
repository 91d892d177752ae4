// The incoming order trades, and then each ripe stop does, until nothing happens next.
ghost use Rattle.std.specs.Prelude.{◌≡◌, None};
ghost use Rattle.matching.specs.Running.{run_to_rest};
ghost use Rattle.matching.specs.MatchStates.{match_state};

use crate::session::Session;
use crate::stops::{next_ripe, trigger_stop};
use crate::trading::{cancelled, first_order, rest_or_cancel, trade};
use books::book::Book;
use orders::order::Order;
use tapes::cause::Cause;
use tapes::tape::Tape;

/// Runs to rest: the incoming order trades and its leftover stands or is cancelled, then each ripe
/// stop is triggered and trades as incoming (rules 10, 11, 12).
///
/// The inner loop ends when there is no incoming order left; each turn of it is one trade, or what
/// ends the incoming order. The outer loop ends when no stop is ripe; each turn of it triggers one.
/// Both end because every turn lowers the weight of the match state.
pub fn run_to_rest<B: Book>(
    book: &mut B,
    tape: &mut Tape,
    session: &mut Session,
    incoming: Option<Order>,
)
    ensures { match_state (B.queues book.new) tape.new session.new None
        ≡ run_to_rest (match_state (B.queues book.old) tape.old session.old incoming) }
{
    let mut incoming = incoming;
    'stops: loop {
        'trading: while let Some(order) = incoming {
            incoming = None;
            let Some(first) = first_order(book, order.side.opposite()) else {
                rest_or_cancel(book, tape, order);
                continue 'trading;
            };
            if !order.may_trade_at(first.price) {
                rest_or_cancel(book, tape, order);
                continue 'trading;
            }
            if order.has_investor_of(first) {
                tape.write(cancelled(order, Cause::OwnInvestor));
                continue 'stops;
            }
            incoming = trade(book, tape, session, order, first);
        }
        let Some(ripe) = next_ripe(book, session.last_price) else {
            return;
        };
        incoming = Some(trigger_stop(book, tape, session, ripe.0, ripe.1));
    }
}
