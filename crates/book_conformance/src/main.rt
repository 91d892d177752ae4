// The strip book, the slot book, and front cards above them under the same steps: each call has the same answer (rules 5).
#![tactic(auto)]

ghost use Rattle.std.specs.Prelude.{◌≡◌};
ghost use Rattle.books.specs.StoredQueues.{empty_queues};
ghost use Rattle.cards.specs.CardQueues.{card_queues};
ghost use Rattle.slots.specs.SlotQueues.{slot_queues};

mod run;
mod steps;

use crate::run::{row, run};
use cards::card::FrontCard;
use orders::price::Price;
use orders::row::StopRow;
use orders::side::Side;
use slots::book::{SlotBook, slot_book};
use slots::store::SLOTS;
use std::io;
use strips::book::strip_book;

// An empty slot book under a front card: it means four empty queues.
fn slots_under_card() -> FrontCard<SlotBook>
    ensures { card_queues slot_queues result ≡ empty_queues SLOTS SLOTS SLOTS SLOTS }
{
    FrontCard::over(slot_book())
}

// The word that is printed for a book: whether its answers are those of the first one.
fn verdict(first: &str, text: &str) -> &'static str {
    if first == text { "same" } else { "differs" }
}

fn main(rt: HostRuntime) -> io::Result<()> {
    let heap = rt.alloc();
    let order = row(7, Side::Buy, 2000);
    let stop = StopRow {
        order,
        trigger: Price { hundredths: 2000 },
    };
    let mut bids = [order; SLOTS];
    let mut offers = [order; SLOTS];
    let mut buys = [stop; SLOTS];
    let mut sells = [stop; SLOTS];
    let strips = run(
        heap,
        &mut strip_book(&mut bids, &mut offers, &mut buys, &mut sells),
    )?;
    print!(rt; "{strips}")?;
    let text = run(heap, &mut slot_book())?;
    println!(rt; "slots {}", verdict(&strips, &text))?;
    let mut card = FrontCard::over(strip_book(&mut bids, &mut offers, &mut buys, &mut sells));
    let text = run(heap, &mut card)?;
    println!(rt; "card above strips {}", verdict(&strips, &text))?;
    let mut card = slots_under_card();
    let text = run(heap, &mut card)?;
    println!(rt; "card above slots {}", verdict(&strips, &text))?;
    let text = run(heap, &mut card)?;
    println!(rt; "card above slots again {}", verdict(&strips, &text))?;
    let text = run(heap, &mut FrontCard::over(FrontCard::over(slot_book())))?;
    println!(rt; "two cards above slots {}", verdict(&strips, &text))
}
