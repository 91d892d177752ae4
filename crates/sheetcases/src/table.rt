// The lines of the table.
use crate::outcome::Outcome;
use anyhow::Context;
use sheets::reply::Reply;
use std::alloc::Global;

/// A line of the table: a name, the bytes of the sheet, and the answers that are expected: its
/// replies, and the values in the cells of its accepted rows. Bars stand between. Nothing is
/// expected where the line names what no sheet is answered with.
#[derive(Drop)]
pub struct Case<'a> {
    pub name: &'a str,
    pub sheet: Vec<u8>,
    pub expected: Option<Outcome>,
}

impl<'a> Case<'a> {
    /// Reads a line of the table.
    pub fn read(heap: Global, line: &'a str) -> anyhow::Result<Case<'a>> {
        let (name, rest) = column(line)?;
        let (sheet, rest) = column(rest)?;
        let (replies, values) = column(rest)?;
        Ok(Case {
            name,
            sheet: read_bytes(heap, sheet)?,
            expected: read_outcome(heap, replies, values)?,
        })
    }
}

// The text before the next bar, and the text after it.
fn column<'a>(line: &'a str) -> anyhow::Result<(&'a str, &'a str)> {
    line.split_once('|').context("a column is missing")
}

// The expected answers. Where the sheet is refused, the column of replies has the word `sheet`; a
// refused sheet has one answer and no values, so that none is answered with others.
fn read_outcome(heap: Global, replies: &str, values: &str) -> anyhow::Result<Option<Outcome>> {
    let listed = read_replies(heap, replies)?;
    let values = read_values(heap, values)?;
    if !replies.contains("sheet") {
        return Ok(Some(Outcome::Worked {
            replies: listed,
            values,
        }));
    }
    match (listed.as_slice(), values.as_slice()) {
        ([reply], []) => Ok(Some(Outcome::Refused(*reply))),
        _ => Ok(None),
    }
}

// Bytes, written as words: `7` is a byte, `w7` two bytes, `'text` the bytes of a text, and `9*w7,0`
// nine times those words.
fn read_bytes(heap: Global, text: &str) -> anyhow::Result<Vec<u8>> {
    let mut sheet = Vec::new(heap);
    for word in text.split(' ') {
        match word.split_once('*') {
            Some((times, words)) => push_often(&mut sheet, times.parse::<u16>()?, words)?,
            None => push_word(&mut sheet, word)?,
        }
    }
    Ok(sheet)
}

// The words between commas, so many times.
fn push_often(sheet: &mut Vec<u8>, times: u16, words: &str) -> anyhow::Result<()> {
    for _ in 0..times {
        for word in words.split(',') {
            push_word(sheet, word)?;
        }
    }
    Ok(())
}

// The bytes of one word.
fn push_word(sheet: &mut Vec<u8>, word: &str) -> anyhow::Result<()> {
    if word.is_empty() {
        return Ok(());
    }
    if let Some(text) = word.strip_prefix('\'') {
        sheet.extend_from_slice(text.as_bytes())?;
    } else if let Some(number) = word.strip_prefix('w') {
        sheet.extend_from_slice(&number.parse::<u16>()?.to_be_bytes())?;
    } else {
        sheet.push(word.parse::<u8>()?)?;
    }
    Ok(())
}

// Replies, written as words: `2.6.4.1` is a reply, `1-3.0.0.0` one for each of three rows; `sheet`
// stands before the answer to a refused sheet.
fn read_replies(heap: Global, text: &str) -> anyhow::Result<Vec<Reply>> {
    let mut replies = Vec::new(heap);
    for word in text.split(' ') {
        if let Some((rows, answer)) = word.split_once('.') {
            push_replies(&mut replies, rows, answer)?;
        }
    }
    Ok(replies)
}

// The same answer for each row from the first to the last.
fn push_replies(replies: &mut Vec<Reply>, rows: &str, answer: &str) -> anyhow::Result<()> {
    let (first, last) = rows.split_once('-').unwrap_or((rows, rows));
    for row in first.parse::<u16>()?..=last.parse::<u16>()? {
        replies.push(read_reply(row, answer)?)?;
    }
    Ok(())
}

// A reply by its number, cell and place.
fn read_reply(row: u16, answer: &str) -> anyhow::Result<Reply> {
    let (number, rest) = answer.split_once('.').context("a reply has four fields")?;
    let (cell, place) = rest.split_once('.').context("a reply has four fields")?;
    Ok(Reply {
        row,
        number: number.parse::<u8>()?,
        cell: cell.parse::<u8>()?,
        place: place.parse::<u8>()?,
    })
}

// Values, written as words: `7` is a value, and `-` a blank cell.
fn read_values(heap: Global, text: &str) -> anyhow::Result<Vec<Option<u64>>> {
    let mut values = Vec::new(heap);
    for word in text.split(' ') {
        match word {
            "" => {}
            "-" => values.push(None)?,
            _ => values.push(Some(word.parse::<u64>()?))?,
        }
    }
    Ok(values)
}
