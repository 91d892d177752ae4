// The answer to a row, or to a refused sheet.
ghost use Rattle.std.specs.Prelude.{◌≡◌};
ghost use Rattle.sheets.specs.Replies.{reply_of, sheet_reply};

use forms::refusal::Refusal;

/// A reply: the answer to one row. Row, cell and place count from 1; number is that of the refusal,
/// 0 where the row was accepted; cell and place are 0 where the refusal names none (sheets 6).
#[derive(Clone, Copy, Debug, PartialEq, Eq)]
pub struct Reply {
    pub row: u16,
    pub number: u8,
    pub cell: u8,
    pub place: u8,
}

impl Reply {
    /// The reply to a row.
    pub fn to_row(row: u16, answer: Result<(), Refusal>) -> Reply
        ensures { result ≡ reply_of row answer }
    {
        match answer {
            Ok(()) => Reply {
                row,
                number: 0,
                cell: 0,
                place: 0,
            },
            Err(refusal) => Reply {
                row,
                number: refusal.number(),
                cell: refusal.cell(),
                place: refusal.place(),
            },
        }
    }

    /// The answer to a sheet that is refused before any row. It is not posted.
    pub fn to_sheet(refusal: Refusal) -> Reply
        ensures { result ≡ sheet_reply refusal }
    {
        let row = match refusal {
            Refusal::RowMisplaced { row } => row,
            _ => 0,
        };
        Reply {
            row,
            number: refusal.number(),
            cell: 0,
            place: 0,
        }
    }
}
