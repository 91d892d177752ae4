// Forty steps of all kinds, accepted and refused.
use forms::form::{CancelForm, ChangeForm, EntryForm, Form, MassCancelForm, OpeningForm};
use orders::price::Price;
use orders::side::{Side, Validity};

// The terms of an entry besides side, quantity and price.
#[derive(Clone, Copy)]
struct Terms {
    disclosed: u64,
    investor: u64,
    validity: Validity,
    minimum: u64,
}

const PLAIN: Terms = Terms {
    disclosed: 0,
    investor: 0,
    validity: Validity::Day,
    minimum: 0,
};

// The number of a side in its cell.
fn side_cell(side: Side) -> u64 {
    match side {
        Side::Buy => 1,
        Side::Sell => 2,
    }
}

// The number of a validity in its cell.
fn validity_cell(validity: Validity) -> u64 {
    match validity {
        Validity::Day => 0,
        Validity::Gtc => 1,
        Validity::Ioc => 3,
        Validity::Fok => 4,
    }
}

const BLANK: EntryForm = EntryForm {
    firm: None,
    client: None,
    side: None,
    order_type: None,
    validity: None,
    price: None,
    trigger: None,
    quantity: None,
    disclosed: None,
    minimum: None,
    investor: None,
    tag: None,
};

// An entry with the cells that every entry fills, but its type; the others are blank.
fn entry(firm: u64, client: u64, side: Side, quantity: u64, validity: Validity) -> EntryForm {
    EntryForm {
        firm: Some(firm),
        client: Some(client),
        side: Some(side_cell(side)),
        validity: Some(validity_cell(validity)),
        quantity: Some(quantity),
        ..BLANK
    }
}

// A limit order with these terms.
fn with(firm: u64, client: u64, side: Side, quantity: u64, hundredths: u32, terms: Terms) -> Form {
    Form::Entry(EntryForm {
        order_type: Some(b'2'),
        price: Some(Price { hundredths }),
        disclosed: Some(terms.disclosed),
        minimum: Some(terms.minimum),
        investor: Some(terms.investor),
        tag: Some(0),
        ..entry(firm, client, side, quantity, terms.validity)
    })
}

// A limit order for the day that shows all of its lots.
fn plain(firm: u64, client: u64, side: Side, quantity: u64, hundredths: u32) -> Form {
    with(firm, client, side, quantity, hundredths, PLAIN)
}

// A market order, whose leftover is a limit order.
fn market(firm: u64, client: u64, side: Side, quantity: u64) -> Form {
    Form::Entry(EntryForm {
        order_type: Some(b'K'),
        ..entry(firm, client, side, quantity, Validity::Day)
    })
}

// A stop that lasts until it is cancelled.
fn stop(firm: u64, client: u64, side: Side, quantity: u64, trigger: u32, hundredths: u32) -> Form {
    Form::Entry(EntryForm {
        order_type: Some(b'4'),
        price: Some(Price { hundredths }),
        trigger: Some(Price {
            hundredths: trigger,
        }),
        ..entry(firm, client, side, quantity, Validity::Gtc)
    })
}

fn change(
    firm: u64,
    client: u64,
    number: u64,
    price: Option<u32>,
    quantity: Option<u64>,
    disclosed: Option<u64>,
) -> Form {
    Form::Change(ChangeForm {
        firm: Some(firm),
        client: Some(client),
        number: Some(number),
        price: price.map(|hundredths| Price { hundredths }),
        quantity,
        disclosed,
        validity: None,
    })
}

fn cancel(firm: u64, number: u64) -> Form {
    Form::Cancel(CancelForm {
        firm: Some(firm),
        number: Some(number),
    })
}

fn mass_cancel(firm: u64, side: Option<Side>) -> Form {
    Form::MassCancel(MassCancelForm {
        firm: Some(firm),
        side: side.map(side_cell),
        tag: None,
        investor: None,
    })
}

fn opening(day: u64) -> Form {
    Form::Opening(OpeningForm { day: Some(day) })
}

/// The first twenty steps.
pub fn first_half() -> [Form; 20] {
    [
        plain(1, 1, Side::Buy, 200, 2000),
        plain(2, 1, Side::Sell, 100, 2000),
        change(1, 1, 1, Some(2100), Some(300), None),
        plain(2, 1, Side::Sell, 100, 2100),
        cancel(1, 1),
        with(
            3,
            1,
            Side::Sell,
            300,
            1000,
            Terms {
                disclosed: 100,
                ..PLAIN
            },
        ),
        plain(4, 1, Side::Sell, 100, 1000),
        plain(5, 1, Side::Buy, 250, 1000),
        with(
            4,
            2,
            Side::Sell,
            50,
            1000,
            Terms {
                investor: 7,
                ..PLAIN
            },
        ),
        with(
            6,
            1,
            Side::Buy,
            200,
            1000,
            Terms {
                investor: 7,
                validity: Validity::Fok,
                ..PLAIN
            },
        ),
        with(
            6,
            1,
            Side::Buy,
            200,
            1000,
            Terms {
                investor: 7,
                ..PLAIN
            },
        ),
        stop(7, 1, Side::Buy, 200, 2520, 2530),
        stop(7, 2, Side::Sell, 80, 990, 980),
        plain(2, 5, Side::Sell, 100, 2520),
        plain(2, 6, Side::Sell, 100, 2530),
        plain(8, 1, Side::Buy, 150, 1200),
        plain(8, 2, Side::Buy, 40, 2520),
        market(9, 1, Side::Sell, 120),
        market(9, 2, Side::Buy, 30),
        plain(8, 2, Side::Buy, 10, 900),
    ]
}

/// The last twenty steps.
pub fn second_half() -> [Form; 20] {
    [
        plain(8, 2, Side::Buy, 10, 900),
        change(8, 3, 22, None, Some(5), None),
        change(8, 3, 22, None, None, Some(2)),
        change(7, 9, 14, Some(2600), None, None),
        cancel(3, 9),
        with(
            9,
            7,
            Side::Sell,
            60,
            900,
            Terms {
                validity: Validity::Ioc,
                minimum: 20,
                ..PLAIN
            },
        ),
        with(
            9,
            8,
            Side::Sell,
            60,
            890,
            Terms {
                validity: Validity::Ioc,
                ..PLAIN
            },
        ),
        stop(1, 4, Side::Sell, 25, 880, 870),
        plain(1, 5, Side::Buy, 10, 880),
        plain(2, 9, Side::Sell, 5, 880),
        mass_cancel(8, Some(Side::Buy)),
        Form::Closing,
        plain(1, 9, Side::Buy, 1, 100),
        opening(1),
        opening(2),
        with(
            1,
            9,
            Side::Buy,
            1600,
            100,
            Terms {
                disclosed: 100,
                ..PLAIN
            },
        ),
        plain(2, 9, Side::Sell, 1650, 100),
        mass_cancel(7, None),
        plain(3, 5, Side::Buy, 7, 95),
        Form::Closing,
    ]
}
