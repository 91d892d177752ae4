// The steps that every book is run through.
use books::queue::Queue;
use orders::side::Side;

// Puts have a number and a price in hundredths, of a stop its trigger; the others a queue and a place, or a number.
// A table of values, not of closures, since each step is printed by its name too.
#[derive(Clone, Copy)]
pub enum Step {
    Bid(u32, u32),
    Offer(u32, u32),
    BuyStop(u32, u32),
    SellStop(u32, u32),
    // The record at a place is rewritten with one lot less.
    Lower(Queue, usize),
    // The record at a place is rewritten under another turn, which is refused.
    Requeue(Queue, usize),
    Take(Queue, usize),
    Find(u32),
}

pub const BIDS: Queue = Queue::Orders(Side::Buy);

pub const OFFERS: Queue = Queue::Orders(Side::Sell);

pub const BUYS: Queue = Queue::Stops(Side::Buy);

pub const SELLS: Queue = Queue::Stops(Side::Sell);

pub const STEPS: [Step; 75] = [
    Step::Bid(8, 1990),
    Step::Bid(13, 2000),
    Step::Bid(16, 2005),
    Step::Bid(11, 1985),
    Step::Bid(5, 2000),
    Step::Bid(25, 2010),
    Step::Offer(41, 2020),
    Step::Offer(43, 2015),
    Step::Offer(42, 2015),
    Step::Offer(40, 2030),
    Step::BuyStop(51, 2040),
    Step::BuyStop(50, 2040),
    Step::BuyStop(52, 2035),
    Step::SellStop(61, 1970),
    Step::SellStop(60, 1975),
    Step::SellStop(62, 1975),
    Step::Lower(BIDS, 0),
    Step::Lower(BIDS, 0),
    Step::Find(16),
    Step::Bid(6, 1995),
    Step::Bid(15, 2005),
    Step::Bid(22, 1990),
    Step::Bid(33, 2000),
    Step::Bid(1, 2005),
    Step::Bid(31, 1985),
    Step::Bid(9, 2000),
    Step::Bid(20, 2010),
    Step::Lower(OFFERS, 0),
    Step::Offer(44, 2015),
    Step::Lower(OFFERS, 1),
    Step::Take(OFFERS, 0),
    Step::Lower(BUYS, 0),
    Step::Lower(SELLS, 0),
    Step::Take(SELLS, 0),
    Step::Lower(SELLS, 0),
    Step::SellStop(63, 1990),
    Step::Lower(SELLS, 0),
    Step::Bid(51, 2050),
    Step::Offer(8, 2000),
    Step::Bid(32, 1995),
    Step::Bid(24, 2005),
    Step::Bid(28, 1990),
    Step::Bid(14, 2000),
    Step::Bid(29, 2005),
    Step::Bid(23, 1985),
    Step::Bid(7, 2000),
    Step::Bid(17, 2010),
    Step::Bid(30, 1995),
    Step::Bid(19, 2005),
    Step::Bid(12, 1990),
    Step::Bid(4, 2000),
    Step::Bid(18, 2005),
    Step::Bid(27, 1985),
    Step::Bid(3, 2000),
    Step::Bid(2, 2010),
    Step::Bid(34, 1995),
    Step::Bid(26, 2005),
    Step::Lower(BIDS, 0),
    Step::Bid(10, 1990),
    Step::Bid(21, 2000),
    Step::Bid(51, 2000),
    Step::Requeue(BIDS, 0),
    Step::Requeue(OFFERS, 2),
    Step::Lower(BIDS, 32),
    Step::Take(BIDS, 7),
    Step::Take(BIDS, 0),
    Step::Lower(BIDS, 0),
    Step::Bid(21, 2000),
    Step::Find(51),
    Step::Find(44),
    Step::Find(62),
    Step::Find(99),
    Step::Take(BUYS, 9),
    Step::Lower(OFFERS, 0),
    Step::Take(OFFERS, 1),
];
