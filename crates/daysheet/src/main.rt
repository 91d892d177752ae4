// Reads a sheet from standard input, works it row by row, and prints the lines and the reply of
// each row, and the orders left standing (docs/RULES.md, section 17).
#![tactic(auto)]

use books::book::Book;
use books::orders_of::orders_in;
use books::queue::Queue;
use books::queue_store::QueueStore;
use cards::card::FrontCard;
use display::text::{LineText, ReplyText, StandingText};
use laws::calls::set_up;
use orders::side::Side;
use sheet_runner::row::work_row;
use sheet_runner::sheet::admit;
use sheets::replies::Replies;
use sheets::reply::Reply;
use sheets::sheet::{MOST_BYTES, Sheet};
use slots::book::slot_book;
use std::io::Read;
use tapes::tape::Tape;
use venue::day::Day;

// The most bytes that are read: one more than a sheet may have.
const INPUT_BYTES: u64 = MOST_BYTES as u64 + 1;

// The room of the tape, in lines.
const TAPE_LINES: usize = 3000;

// The most replies.
const REPLY_ROOM: usize = 512;

fn main(rt: HostRuntime) -> anyhow::Result<()> {
    run(&rt)
}

fn run(rt: &HostRuntime) -> anyhow::Result<()> {
    let heap = rt.alloc();
    let mut input = Vec::new(heap);
    rt.stdin().take(INPUT_BYTES).read_to_end(&mut input)?;
    let mut tape = Tape::new(heap, TAPE_LINES)?;
    let mut replies = Replies::new(heap, REPLY_ROOM)?;
    let mut book = FrontCard::over(slot_book());
    let day = set_up(&mut book, &mut tape, 1, 1);
    match admit(input.as_slice(), &replies) {
        Ok(sheet) => work_rows(rt, sheet, day, &mut book, &mut tape, &mut replies),
        Err(refusal) => {
            day.end();
            print_reply(rt, Reply::to_sheet(refusal))
        }
    }
}

// Works each row and prints its lines and its reply; last, the orders left standing, bids before
// offers.
fn work_rows<B: Book>(
    rt: &HostRuntime,
    mut sheet: Sheet,
    mut day: Day,
    book: &mut B,
    tape: &mut Tape,
    replies: &mut Replies,
) -> anyhow::Result<()> {
    // An error of printing waits until the day has ended, since a day cannot be dropped.
    let mut printed = Ok(());
    while let Some(drawn) = sheet.draw() {
        let before = tape.all().len();
        day = work_row(drawn, day, book, tape, replies);
        if printed.is_ok() {
            printed = print_row(rt, tape, before, replies);
        }
    }
    day.end();
    printed?;
    print_queue(rt, book, Side::Buy)?;
    print_queue(rt, book, Side::Sell)
}

// The lines that a row wrote, and its reply.
fn print_row(
    rt: &HostRuntime,
    tape: &Tape,
    before: usize,
    replies: &Replies,
) -> anyhow::Result<()> {
    for line in tape.all().iter().skip(before) {
        let line = LineText(*line);
        println!(rt; "{line}")?;
    }
    match replies.all().last() {
        Some(reply) => print_reply(rt, *reply),
        None => Ok(()),
    }
}

// A reply, on a line of its own.
fn print_reply(rt: &HostRuntime, reply: Reply) -> anyhow::Result<()> {
    let reply = ReplyText(reply);
    println!(rt; "{reply}")?;
    Ok(())
}

// The standing orders of a side, by rank.
fn print_queue<B: Book>(rt: &HostRuntime, book: &B, side: Side) -> anyhow::Result<()> {
    for order in orders_in(book, Queue::Orders(side)) {
        let order = StandingText(order);
        println!(rt; "{order}")?;
    }
    Ok(())
}
