// Enters a stream of limit orders at a venue with a strip book, and prints the time that an order
// took. `order_bench FIRST` times the orders after the first FIRST, which stand or have traded when
// the clock starts; `order_bench FIRST falling` gives the orders client numbers that fall.
#![tactic(auto)]

mod entries;
mod stream;

use anyhow::anyhow;
use books::book::Book;
use books::queue::Queue;
use entries::{Numbering, enter_all};
use laws::calls::set_up;
use orders::price::Price;
use orders::row::OrderRow;
use orders::side::{Side, Validity};
use std::time::Instant;
use std::{env, io};
use stream::{Limit, read_orders};
use strips::book::strip_book;
use tapes::line::Line;
use tapes::tape::Tape;

// Lines of the tape for each order: those that it writes, and those that a step needs free.
const LINES_AN_ORDER: usize = 24;

// A row of a strip before any order is put there.
fn spare() -> OrderRow {
    OrderRow {
        number: 0,
        turn: 0,
        firm: 0,
        client: 0,
        side: Side::Buy,
        price: Price { hundredths: 1 },
        quantity: 0,
        open_lots: 0,
        shown: 0,
        disclosed: 0,
        validity: Validity::Day,
        investor: 0,
        tag: 0,
    }
}

fn main(rt: HostRuntime) -> anyhow::Result<()> {
    run(&rt)
}

fn run(rt: &HostRuntime) -> anyhow::Result<()> {
    let heap = rt.alloc();
    let text = io::read_to_string(heap, rt.stdin())?;
    let orders = read_orders(heap, text.as_str())?;
    let first = match env::args(rt)?.nth(1) {
        Some(word) => word.as_str().parse::<usize>()?,
        None => 0,
    };
    let numbering = match env::args(rt)?.nth(2) {
        Some(word) if word.as_str() == "falling" => Numbering::Falling,
        Some(_) => return Err(anyhow!("usage: order_bench [FIRST [falling]]")),
        None => Numbering::Rising,
    };
    time_orders(rt, numbering, first, orders.as_slice())
}

// Enters the first orders, and then times the others.
fn time_orders(
    rt: &HostRuntime,
    numbering: Numbering,
    first: usize,
    orders: &[Limit],
) -> anyhow::Result<()> {
    let heap = rt.alloc();
    let n = orders.len();
    let first = first.min(n);
    let mut bids = vec![in heap; spare(); n]?;
    let mut offers = vec![in heap; spare(); n]?;
    let mut tape = Tape::new(heap, n.saturating_add(1).saturating_mul(LINES_AN_ORDER))?;
    let mut book = strip_book(bids.as_mut_slice(), offers.as_mut_slice(), &mut [], &mut []);
    let day = set_up(&mut book, &mut tape, 1, 1);
    let (day, early) = enter_all(day, &mut book, &mut tape, numbering, 0, &orders[..first]);
    let start = Instant::now(rt);
    let (day, late) = enter_all(
        day,
        &mut book,
        &mut tape,
        numbering,
        first,
        &orders[first..],
    );
    // An error of the clock waits until the day has ended, since a day cannot be dropped.
    let took = start.and_then(|start| start.elapsed(rt));
    day.end();
    let nanos = took?.as_nanos() / ((n - first).max(1) as u128);
    let trades = count_trades(&tape);
    let (bidding, _) = book.size(Queue::Orders(Side::Buy));
    let (offering, _) = book.size(Queue::Orders(Side::Sell));
    let accepted = early.wrapping_add(late);
    println!(rt;
        "{n} orders, {accepted} accepted, {trades} trades, {bidding} bids and {offering} offers stand"
    )?;
    eprintln!(rt; "{nanos} ns an order")?;
    Ok(())
}

// How many lines of the tape are trades.
fn count_trades(tape: &Tape) -> usize {
    tape.all()
        .iter()
        .filter(|line| matches!(line, Line::Traded { .. }))
        .count()
}
