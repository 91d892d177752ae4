// A case, run on a fresh venue.
use crate::case::Case;
use books::book::Book;
use books::orders_of::orders_in;
use books::queue::Queue;
use books::queue_store::QueueStore;
use cards::card::FrontCard;
use display::text::{AnswerText, LineText, StandingText};
use forms::refusal::Refusal;
use orders::side::Side;
use sheets::reply::Reply;
use slots::book::slot_book;
use std::alloc::{AllocError, Global};
use tapes::tape::Tape;
use venue::day::Day;
use venue::setup::set_up;

/// What a case gives, line by line: each row, the lines that it writes and its reply; last, the
/// orders that stand.
pub fn run_case(heap: Global, case: &Case) -> Result<Vec<String>, AllocError> {
    let mut got = Vec::new(heap);
    let mut tape = Tape::new(heap, case.tape)?;
    let mut book = FrontCard::over(slot_book());
    let mut day = Day::Open(set_up(&mut book, &mut tape, 1, case.stamp));
    // An error waits until the day has ended, since a day cannot be dropped.
    let mut written = Ok(());
    for row in case.rows.as_slice() {
        let before = tape.all().len();
        let (next, answer) = day.step(&mut book, &mut tape, row.form);
        day = next;
        if written.is_ok() {
            written = write_row(heap, &mut got, row.text, &tape, before, answer);
        }
    }
    day.end();
    written?;
    write_queue(heap, &mut got, &book, Side::Buy)?;
    write_queue(heap, &mut got, &book, Side::Sell)?;
    Ok(got)
}

// A row, the lines that it wrote, and its reply.
fn write_row(
    heap: Global,
    got: &mut Vec<String>,
    text: &str,
    tape: &Tape,
    before: usize,
    answer: Result<(), Refusal>,
) -> Result<(), AllocError> {
    got.push(String::from_str(heap, text)?)?;
    for line in tape.all().iter().skip(before) {
        let line = LineText(*line);
        got.push(format!(in heap; "{line}")?)?;
    }
    let answer = AnswerText(Reply::to_row(0, answer));
    got.push(format!(in heap; "reply {answer}")?)?;
    Ok(())
}

// The standing orders of a side, by rank.
fn write_queue<B: Book>(
    heap: Global,
    got: &mut Vec<String>,
    book: &B,
    side: Side,
) -> Result<(), AllocError> {
    for order in orders_in(book, Queue::Orders(side)) {
        let order = StandingText(order);
        got.push(format!(in heap; "end {order}")?)?;
    }
    Ok(())
}
