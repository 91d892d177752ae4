// Cases: their rows, and what these should give.
use anyhow::anyhow;
use forms::form::Form;
use line_format::line::read_line;
use std::alloc::Global;

// The room of the tape, in lines, unless a case gives another.
const TAPE_LINES: usize = 3000;

/// A row: its text, and the form that it names.
#[derive(Clone, Copy)]
pub struct Row<'a> {
    pub text: &'a str,
    pub form: Form,
}

/// A case: its name, the room of its tape, its first stamp, its rows, and the lines that are
/// expected: each row, what it writes and its reply, and last the orders that stand.
#[derive(Drop)]
pub struct Case<'a> {
    pub name: &'a str,
    pub tape: usize,
    pub stamp: u32,
    pub rows: Vec<Row<'a>>,
    pub expected: Vec<&'a str>,
}

impl<'a> Case<'a> {
    /// A case without rows, on a tape of the usual room and from stamp 1.
    pub fn new(heap: Global, name: &'a str) -> Case<'a> {
        Case {
            name,
            tape: TAPE_LINES,
            stamp: 1,
            rows: Vec::new(heap),
            expected: Vec::new(heap),
        }
    }

    /// Takes a line of the file: an expected line, the room of the tape, the first stamp, a row, or
    /// none of these.
    pub fn take_line(&mut self, heap: Global, line: &'a str) -> anyhow::Result<()> {
        if let Some(text) = line.strip_prefix("> ") {
            self.expected.push(text)?;
            return Ok(());
        }
        if let Some(size) = line.strip_prefix("tape ") {
            self.tape = size.parse::<usize>()?;
            return Ok(());
        }
        if let Some(stamp) = line.strip_prefix("stamp ") {
            self.stamp = stamp.parse::<u32>()?;
            return Ok(());
        }
        match read_line(line.as_bytes()) {
            Ok(Some(form)) => self.take_row(line, form),
            Ok(None) => Ok(()),
            Err(bad) => {
                let place = bad.place;
                Err(anyhow!(format!(in heap; "the word at {place} spoils: {line}")?))
            }
        }
    }

    // A row, which is expected in the output too.
    fn take_row(&mut self, text: &'a str, form: Form) -> anyhow::Result<()> {
        self.rows.push(Row { text, form })?;
        self.expected.push(text)?;
        Ok(())
    }
}
