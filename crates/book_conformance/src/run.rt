// One book under the steps: the answer of each call, and the queues at the end, as text.
use crate::steps::{BIDS, BUYS, OFFERS, SELLS, STEPS, Step};
use books::book::Book;
use books::queue::{PutError, Queue, Record};
use orders::order::{Order, Stop};
use orders::price::Price;
use orders::row::{OrderRow, StopRow};
use orders::side::{Side, Validity};
use std::alloc::{AllocError, Global};

// A row of ten lots whose turn is its number.
pub fn row(number: u32, side: Side, hundredths: u32) -> OrderRow {
    OrderRow {
        number,
        turn: number,
        firm: 1,
        client: number,
        side,
        price: Price { hundredths },
        quantity: 10,
        open_lots: 10,
        shown: 10,
        disclosed: 0,
        validity: Validity::Gtc,
        investor: 0,
        tag: 0,
    }
}

fn order(number: u32, side: Side, hundredths: u32) -> Record {
    Record::from(row(number, side, hundredths))
}

fn stop(number: u32, side: Side, hundredths: u32) -> Record {
    Record::from(StopRow {
        order: row(number, side, hundredths),
        trigger: Price { hundredths },
    })
}

// The record with its order changed.
fn changed<F: FnOnce(Order) -> Order>(record: Record, change: F) -> Record
    requires { F.IsAlwaysCallable change }
{
    match record {
        Record::Standing(order) => Record::Standing(change(order)),
        Record::Waiting(stop) => Record::Waiting(Stop {
            order: change(stop.order),
            trigger: stop.trigger,
        }),
    }
}

fn put<B: Book>(book: &mut B, record: Record) -> &'static str {
    match book.put(record) {
        Ok(()) => "done",
        Err(PutError::Full) => "full",
        Err(PutError::Twice) => "twice",
    }
}

fn rewrite<B: Book, F: FnOnce(Order) -> Order>(
    book: &mut B,
    queue: Queue,
    index: usize,
    change: F,
) -> &'static str
    requires { F.IsAlwaysCallable change }
{
    let Some(record) = book.look(queue, index) else {
        return "none";
    };
    if book.rewrite(index, changed(record, change)) {
        "rewritten"
    } else {
        "refused"
    }
}

// The names of the queues as they are printed here; the crate `books` prints nothing.
fn name(queue: Queue) -> &'static str {
    match queue {
        Queue::Orders(Side::Buy) => "bid",
        Queue::Orders(Side::Sell) => "offer",
        Queue::Stops(Side::Buy) => "buy stop",
        Queue::Stops(Side::Sell) => "sell stop",
    }
}

// A record as text: its number, its price or trigger, and its open lots.
fn record_text(heap: Global, record: Option<Record>) -> Result<String, AllocError> {
    match record {
        Some(record) => {
            let order = record.order();
            let number = order.number;
            let lots = order.open_lots;
            let price = match record {
                Record::Standing(order) => order.price.level(),
                Record::Waiting(stop) => stop.trigger.level(),
            };
            format!(in heap; "{number} {price} {lots}")
        }
        None => format!(in heap; "none"),
    }
}

// The answer of find as text: a queue and a place.
fn found_text(heap: Global, answer: Option<(Queue, usize)>) -> Result<String, AllocError> {
    match answer {
        Some((queue, index)) => {
            let queue = name(queue);
            format!(in heap; "{queue} {index}")
        }
        None => format!(in heap; "none"),
    }
}

// The answer of a step as text.
fn answer<B: Book>(heap: Global, book: &mut B, step: Step) -> Result<String, AllocError> {
    match step {
        Step::Bid(n, p) => format!(in heap; "put {n}: {}", put(book, order(n, Side::Buy, p))),
        Step::Offer(n, p) => format!(in heap; "put {n}: {}", put(book, order(n, Side::Sell, p))),
        Step::BuyStop(n, p) => format!(in heap; "put {n}: {}", put(book, stop(n, Side::Buy, p))),
        Step::SellStop(n, p) => format!(in heap; "put {n}: {}", put(book, stop(n, Side::Sell, p))),
        Step::Lower(q, index) => format!(in heap;
            "lower {} {index}: {}",
            name(q),
            rewrite(book, q, index, |order| order.reduced(1))
        ),
        Step::Requeue(q, index) => format!(in heap;
            "requeue {} {index}: {}",
            name(q),
            rewrite(book, q, index, |order| order.refilled(900, 1))
        ),
        Step::Take(q, index) => {
            let taken = record_text(heap, book.take(q, index))?;
            format!(in heap; "take {} {index}: {taken}", name(q))
        }
        Step::Find(n) => {
            let place = found_text(heap, book.find(n))?;
            format!(in heap; "find {n}: {place}")
        }
    }
}

// A queue's records, a line each.
fn listed<B: Book>(
    heap: Global,
    text: &mut String,
    book: &B,
    queue: Queue,
) -> Result<(), AllocError> {
    let (count, capacity) = book.size(queue);
    let line = format!(in heap; "{} {count} of {capacity}\n", name(queue))?;
    text.push_str(&line)?;
    // By looks and not by the iterator of the orders, since a stop's order lacks its trigger.
    for index in 0..count {
        let record = record_text(heap, book.look(queue, index))?;
        let line = format!(in heap; "{} {record}\n", name(queue))?;
        text.push_str(&line)?;
    }
    Ok(())
}

// Every answer of a book under the steps, then its queues, and these again after a clear.
pub fn run<B: Book>(heap: Global, book: &mut B) -> Result<String, AllocError> {
    let mut text = String::new(heap);
    for step in STEPS {
        let line = answer(heap, book, step)?;
        text.push_str(&line)?;
        text.push_str("\n")?;
    }
    for queue in [BIDS, OFFERS, BUYS, SELLS] {
        listed(heap, &mut text, book, queue)?;
    }
    book.clear();
    for queue in [BIDS, OFFERS, BUYS, SELLS] {
        listed(heap, &mut text, book, queue)?;
    }
    Ok(text)
}
