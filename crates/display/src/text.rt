// Prices, lines of the tape, replies and standing orders as text.
ghost use Rattle.std.specs.Prelude.{◌≡◌, Some};
ghost use Rattle.display.specs.PrintedTexts.{price_text, price_of, for_order, with_other, with_cause, fields, fields_text, answer_text, reply_text, side_text, standing_text};
ghost use Rattle.display.specs.PrintedKinds.{PrintedKinds};

use orders::order::Order;
use orders::price::Price;
use orders::side::Side;
use sheets::reply::Reply;
use std::fmt;
use tapes::cause::Cause;
use tapes::line::Line;

// The printed kinds of the lines.
const ACCEPTED: char = 'A';

const REPLACED: char = 'R';

const TRIGGERED: char = 'S';

const TRADED: char = 'T';

const CANCELLED: char = 'C';

/// A price with a comma and two digits, as 0,05 and 20,00.
#[derive(Clone, Copy)]
pub struct PriceText(pub Price);

impl fmt::Display for PriceText {
    ghost output = { λ x. Some (price_text x.0.hundredths) };

    fn fmt<W: fmt::Write>(&self, f: &mut fmt::Formatter<W>) -> fmt::Result {
        let whole = self.0.hundredths / 100;
        let tenths = self.0.hundredths % 100 / 10;
        let rest = self.0.hundredths % 10;
        write!(f, "{whole},{tenths}{rest}")
    }
}

/// A line by its six fields with a space between: kind, number, other, price, lots, cause; an
/// unused field is 0, a price 0,00.
#[derive(Clone, Copy)]
pub struct LineText(pub Line);

impl fmt::Display for LineText {
    ghost output = { λ x. Some (fields_text (fields x.0)) };

    fn fmt<W: fmt::Write>(&self, f: &mut fmt::Formatter<W>) -> fmt::Result {
        let Fields {
            kind,
            number,
            other,
            price,
            lots,
            cause,
        } = Fields::from(self.0);
        let price = PriceText(price);
        write!(f, "{kind} {number} {other} {price} {lots} {cause}")
    }
}

// The fields of a line of the tape, 0 where unused.
#[derive(Clone, Copy)]
struct Fields {
    kind: char,
    number: u32,
    other: u32,
    price: Price,
    lots: u32,
    cause: u8,
}

impl Fields {
    // A line that names one order and no cause.
    fn for_order(kind: char, number: u32, price: Price, lots: u32) -> Fields
        ensures { result ≡ for_order kind number price lots }
    {
        Fields {
            kind,
            number,
            other: 0,
            price,
            lots,
            cause: 0,
        }
    }

    // The same with the resting order of a trade.
    fn with_other(self, other: u32) -> Fields
        ensures { result ≡ with_other self other }
    {
        Fields { other, ..self }
    }

    // The same with the cause of a cancel.
    fn with_cause(self, cause: Cause) -> Fields
        ensures { result ≡ with_cause self cause }
    {
        Fields {
            cause: cause.number(),
            ..self
        }
    }
}

impl From<Line> for Fields {
    ghost from_gives = { λ line r. r ≡ fields line };

    fn from(line: Line) -> Fields {
        match line {
            Line::Accepted {
                number,
                limit,
                quantity,
            } => Fields::for_order(ACCEPTED, number, price_of(limit), quantity),
            Line::Replaced {
                number,
                limit,
                quantity,
            } => Fields::for_order(REPLACED, number, limit, quantity),
            Line::Triggered {
                number,
                limit,
                lots,
            } => Fields::for_order(TRIGGERED, number, limit, lots),
            Line::Traded {
                incoming,
                resting,
                price,
                lots,
            } => Fields::for_order(TRADED, incoming, price, lots).with_other(resting),
            Line::Cancelled {
                number,
                limit,
                lots,
                cause,
            } => Fields::for_order(CANCELLED, number, price_of(limit), lots).with_cause(cause),
        }
    }
}

// An absent limit prints as 0,00.
fn price_of(limit: Option<Price>) -> Price
    ensures { result ≡ price_of limit }
{
    limit.unwrap_or(Price { hundredths: 0 })
}

/// The answer to a row: number, cell, place.
#[derive(Clone, Copy)]
pub struct AnswerText(pub Reply);

impl fmt::Display for AnswerText {
    ghost output = { λ x. Some (answer_text x.0) };

    fn fmt<W: fmt::Write>(&self, f: &mut fmt::Formatter<W>) -> fmt::Result {
        let Reply {
            number,
            cell,
            place,
            ..
        } = self.0;
        write!(f, "{number} {cell} {place}")
    }
}

/// A reply: `reply`, the row, and the answer to it.
#[derive(Clone, Copy)]
pub struct ReplyText(pub Reply);

impl fmt::Display for ReplyText {
    ghost output = { λ x. Some (reply_text x.0) };

    fn fmt<W: fmt::Write>(&self, f: &mut fmt::Formatter<W>) -> fmt::Result {
        let row = self.0.row;
        let answer = AnswerText(self.0);
        write!(f, "reply {row} {answer}")
    }
}

// The printed name of a queue of orders, by its side.
fn side_text(side: Side) -> &'static str
    ensures { result.now ≡ side_text side }
{
    match side {
        Side::Buy => "bid",
        Side::Sell => "offer",
    }
}

/// A standing order: `bid` or `offer`, number, price, shown lots and open lots.
#[derive(Clone, Copy)]
pub struct StandingText(pub Order);

impl fmt::Display for StandingText {
    ghost output = { λ x. Some (standing_text x.0) };

    fn fmt<W: fmt::Write>(&self, f: &mut fmt::Formatter<W>) -> fmt::Result {
        let order = self.0;
        let name = side_text(order.side);
        let number = order.number;
        let price = PriceText(order.price);
        let shown = order.shown;
        let open = order.open_lots;
        write!(f, "{name} {number} {price} {shown} {open}")
    }
}

/// The letters of the lines are the published ones.
pub fn printed_kinds()
    ensures { PrintedKinds }
{}
