// Runs one list of forty steps on the strip book, the slot book and a front card above each, and
// prints whether they give the same lines.
#![tactic(auto)]

use books::book::Book;
use books::orders_of::orders_in;
use books::queue::Queue;
use cards::card::FrontCard;
use display::text::{LineText, StandingText};
use forms::form::Form;
use laws::calls::run;
use orders::price::Price;
use orders::row::{OrderRow, StopRow};
use orders::side::{Side, Validity};
use slots::book::slot_book;
use std::alloc::Global;
use std::fmt::Write;
use strips::book::strip_book;
use tapes::tape::Tape;

mod steps;

use books::queue_store::QueueStore;
use steps::{first_half, second_half};

// Runs the steps from day 1 and stamp 1; returns the lines of the tape and the orders left
// standing, as text.
fn run_steps<B: Book>(heap: Global, book: &mut B, forms: &[Form]) -> anyhow::Result<String> {
    let mut tape = Tape::new(heap, 3000)?;
    let day = run(book, &mut tape, 1, 1, forms);
    day.end();
    let mut text = String::new(heap);
    for line in tape.all() {
        let line = LineText(*line);
        writeln!(text, "{line}")?;
    }
    write_queue(&mut text, book, Side::Buy)?;
    write_queue(&mut text, book, Side::Sell)?;
    Ok(text)
}

// The standing orders of a side, by rank.
fn write_queue<B: Book>(text: &mut String, book: &B, side: Side) -> anyhow::Result<()> {
    for order in orders_in(book, Queue::Orders(side)) {
        let standing = StandingText(order);
        writeln!(text, "{standing}")?;
    }
    Ok(())
}

// A row of a strip before any order is put there.
fn spare() -> OrderRow {
    OrderRow {
        number: 9,
        turn: 9,
        firm: 9,
        client: 9,
        side: Side::Sell,
        price: Price { hundredths: 1 },
        quantity: 9,
        open_lots: 9,
        shown: 9,
        disclosed: 0,
        validity: Validity::Day,
        investor: 0,
        tag: 0,
    }
}

// Whether a book gave the same text as the first.
fn verdict(first: &str, text: &str) -> &'static str {
    if first == text { "same" } else { "differs" }
}

fn main(rt: HostRuntime) -> anyhow::Result<()> {
    let heap = rt.alloc();
    let mut list = Vec::with_capacity(heap, 40)?;
    list.extend_from_slice(&first_half())?;
    list.extend_from_slice(&second_half())?;
    let forms = list.as_slice();
    let stop = StopRow {
        order: spare(),
        trigger: Price { hundredths: 1 },
    };
    let mut bids = [spare(); 32];
    let mut offers = [spare(); 32];
    let mut buys = [stop; 32];
    let mut sells = [stop; 32];
    let first = run_steps(
        heap,
        &mut strip_book(&mut bids, &mut offers, &mut buys, &mut sells),
        forms,
    )?;
    print!(rt; "{first}")?;
    let text = run_steps(heap, &mut slot_book(), forms)?;
    println!(rt; "slots {}", verdict(&first, &text))?;
    let mut card = FrontCard::over(strip_book(&mut bids, &mut offers, &mut buys, &mut sells));
    let text = run_steps(heap, &mut card, forms)?;
    println!(rt; "card above strips {}", verdict(&first, &text))?;
    let mut card = FrontCard::over(slot_book());
    let text = run_steps(heap, &mut card, forms)?;
    println!(rt; "card above slots {}", verdict(&first, &text))?;
    Ok(())
}
