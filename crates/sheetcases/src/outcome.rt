// The answers to a sheet.
use forms::form::{EntryForm, Form};
use orders::price::Price;
use sheets::replies::Replies;
use sheets::reply::Reply;
use sheets::row::read_form;
use sheets::sheet::{Drawn, Sheet};
use std::alloc::{AllocError, Global};

/// A refused sheet has one answer; any other has its replies, and the values in the cells of its
/// accepted rows.
#[derive(Drop, PartialEq)]
pub enum Outcome {
    Refused(Reply),
    Worked {
        replies: Vec<Reply>,
        values: Vec<Option<u64>>,
    },
}

impl Outcome {
    /// Reads a sheet, and accepts every row that can be read.
    pub fn of(heap: Global, bytes: &[u8]) -> Result<Outcome, AllocError> {
        match Sheet::read(bytes) {
            Ok(sheet) => read_rows(heap, sheet),
            Err(refusal) => Ok(Outcome::Refused(Reply::to_sheet(refusal))),
        }
    }
}

// Reads the rows one after another, and posts a reply to each.
fn read_rows(heap: Global, mut sheet: Sheet) -> Result<Outcome, AllocError> {
    let mut posted = Replies::new(heap, usize::from(sheet.rows()))?;
    let mut values = Vec::new(heap);
    while let Some(drawn) = sheet.draw() {
        let Drawn { slip, bytes } = drawn;
        match read_form(bytes) {
            Ok(form) => {
                slip.post(&mut posted, Ok(()));
                push_values(&mut values, form)?;
            }
            Err(refusal) => slip.post(&mut posted, Err(refusal)),
        }
    }
    Ok(Outcome::Worked {
        replies: posted.all().to_vec(heap)?,
        values,
    })
}

// The value of each cell of a form, in the order of its row.
fn push_values(values: &mut Vec<Option<u64>>, form: Form) -> Result<(), AllocError> {
    match form {
        Form::Entry(e) => push_entry(values, e),
        Form::Change(c) => values.extend_from_slice(&[
            c.firm,
            c.client,
            c.number,
            hundredths(c.price),
            c.quantity,
            c.disclosed,
            c.validity,
        ]),
        Form::Cancel(c) => values.extend_from_slice(&[c.firm, c.number]),
        Form::MassCancel(m) => values.extend_from_slice(&[m.firm, m.side, m.tag, m.investor]),
        Form::Closing => Ok(()),
        Form::Opening(o) => values.extend_from_slice(&[o.day]),
    }
}

// The value of each cell of an entry; a type counts as its byte.
fn push_entry(values: &mut Vec<Option<u64>>, e: EntryForm) -> Result<(), AllocError> {
    values.extend_from_slice(&[
        e.firm,
        e.client,
        e.side,
        e.order_type.map(u64::from),
        e.validity,
        hundredths(e.price),
        hundredths(e.trigger),
    ])?;
    values.extend_from_slice(&[e.quantity, e.disclosed, e.minimum, e.investor, e.tag])
}

// A price as its hundredths.
fn hundredths(price: Option<Price>) -> Option<u64> {
    price.map(|p| u64::from(p.hundredths))
}
