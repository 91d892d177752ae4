// A stream of limit orders: lines `side price lots`, as `buy 2005 30`; the price is in hundredths.
use anyhow::anyhow;
use forms::form::{EntryForm, Form};
use orders::price::Price;
use std::alloc::Global;

/// An order of the stream; its side is the number that the cell of an entry has.
#[derive(Clone, Copy)]
pub struct Limit {
    pub side: u64,
    pub price: Price,
    pub lots: u64,
}

impl Limit {
    /// The entry of the order: of firm 1, for the day.
    pub fn form(self, client: u64) -> Form {
        Form::Entry(EntryForm {
            firm: Some(1),
            client: Some(client),
            side: Some(self.side),
            order_type: Some(b'2'),
            validity: Some(0),
            price: Some(self.price),
            trigger: None,
            quantity: Some(self.lots),
            disclosed: None,
            minimum: None,
            investor: None,
            tag: None,
        })
    }
}

// The number of a side that is written as a word.
fn side_number(word: &str) -> Option<u64> {
    match word {
        "buy" => Some(1),
        "sell" => Some(2),
        _ => None,
    }
}

// An order of one line, or none where it is no order.
fn read_order(line: &str) -> Option<Limit> {
    let mut words = line.split(' ');
    let side = side_number(words.next()?)?;
    let hundredths = words.next()?.parse::<u32>().ok()?;
    let lots = words.next()?.parse::<u64>().ok()?;
    Some(Limit {
        side,
        price: Price { hundredths },
        lots,
    })
}

/// The orders of a text, one a line.
pub fn read_orders(heap: Global, text: &str) -> anyhow::Result<Vec<Limit>> {
    let mut orders = Vec::new(heap);
    for line in text.lines() {
        match read_order(line) {
            Some(order) => orders.push(order)?,
            None => return Err(anyhow!(format!(in heap; "no order: {line}")?)),
        }
    }
    Ok(orders)
}
