// A sheet: its directory is checked once, and then its rows are drawn one by one.
ghost use Rattle.std.specs.Prelude.{◌≡◌, ◌+◌, IfOk, MatchOption};
ghost use Rattle.std.specs.Result.{result_err};
ghost use Rattle.sheets.specs.Sheets.{row_count, sheet_refusal, JustRead, next_row, IsDrawn, after_draw, rows_left};
ghost use Rattle.sheets.specs.SheetLimits.{SheetLimits};

use super::bytes::word_at;
use super::directory::Directory;
use super::slip::Slip;
use forms::refusal::Refusal;

/// The most rows that a sheet may have.
pub const MOST_ROWS: u16 = 512;

/// The most bytes that a sheet may have.
pub const MOST_BYTES: usize = 65_535;

/// A sheet: one input of a directory and rows. It keeps the bytes, how many rows there are, and how
/// many of them were drawn. It is no Iterator, since what an iterator gives could be dropped
/// without a reply.
#[derive(Drop)]
pub struct Sheet<'a> {
    bytes: &'a [u8],
    count: u16,
    done: u16,
}

/// A row that was drawn: its bytes, and the slip for its reply.
pub struct Drawn<'a> {
    pub slip: Slip,
    pub bytes: &'a [u8],
}

// The count of rows, where the sheet has the bytes of its count and directory, and no more bytes
// and rows than it may have.
fn row_count(bytes: &[u8]) -> Result<u16, Refusal>
    ensures { result ≡ row_count bytes.now }
{
    let rows = word_at(bytes, 0);
    if bytes.len() < 2
        || bytes.len() > MOST_BYTES
        || rows > MOST_ROWS
        || bytes.len() < Directory::Rows.end(rows)
    {
        Err(Refusal::ShortSheet)
    } else {
        Ok(rows)
    }
}

impl<'a> Sheet<'a> {
    /// Reads the count of rows and checks each pair of the directory; a sheet may be refused as
    /// `ShortSheet` or `RowMisplaced`.
    pub fn read(bytes: &'a [u8]) -> Result<Sheet<'a>, Refusal>
        ensures ok { IfOk result (JustRead bytes.now) }
        ensures err { result_err result ≡ sheet_refusal bytes.now }
    {
        let count = row_count(bytes)?;
        if let Some(row) = Directory::Rows.first_misplaced(bytes, count) {
            return Err(Refusal::RowMisplaced { row });
        }
        Ok(Sheet {
            bytes,
            count,
            done: 0,
        })
    }

    /// How many rows the sheet has.
    pub fn rows(&self) -> u16
        ensures { result ≡ self.now.count }
    {
        self.count
    }

    /// The next row with its slip, or none after the last.
    pub fn draw(&mut self) -> Option<Drawn<'a>>
        ensures answer { IsDrawn (next_row self.old) result }
        ensures state { self.new ≡ after_draw self.old }
        ensures rows { MatchOption result (rows_left self.old ≡ 0)
            (λ _. rows_left self.new + 1 ≡ rows_left self.old) }
    {
        if self.done >= self.rows() {
            return None;
        }
        let bytes = Directory::Rows.part(self.bytes, self.done);
        self.done += 1;
        Some(Drawn {
            slip: Slip::draw(self.done),
            bytes,
        })
    }
}

/// The limits and letters of a sheet are the published ones.
pub fn sheet_limits()
    ensures { SheetLimits }
{}
