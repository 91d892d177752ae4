// Every refusal, and what a reply says of it (numbers 1 to 4).
ghost use Rattle.std.specs.Prelude.{◌≡◌};
ghost use Rattle.forms.specs.Refusals.{refusal_number, refusal_cell, refusal_place};

/// Why a sheet or a row is refused. Rows and cells count from 1, and so do places in a cell.
#[derive(Clone, Copy)]
pub enum Refusal {
    /// The sheet is shorter than its directory, or has too many rows or bytes (1).
    ShortSheet,
    /// This row's pair starts too early, or ends outside the sheet (2).
    RowMisplaced { row: u16 },
    /// The row has fewer than two bytes, or an unknown letter (3).
    UnknownRow,
    /// The cell count is not the letter's, or the row is shorter than its directory (4).
    WrongCells,
    /// This cell's pair starts too early, or ends outside the row (5).
    CellMisplaced { cell: u8 },
    /// This filled cell cannot be read; the place is that of the first byte that cannot stand there
    /// (6).
    Unreadable { cell: u8, place: u8 },
    /// This cell is blank and must be filled, or the other way round (7).
    WrongBlank { cell: u8 },
    /// The value of this filled cell is out of its range (8).
    OutOfRange { cell: u8 },
    /// The values do not go together (9).
    Barred,
    /// Fewer replies are free than the sheet has rows (20).
    NoReplies,
    /// The day is closed; for an opening: it is open (21).
    WrongDay,
    /// The tape has too few free lines (22, rules 7).
    TapeFull,
    /// Too few stamps are undrawn (23, rules 7).
    NoStamps,
    /// No order or stop of the firm has the number (24).
    UnknownOrder,
    /// Another order or stop of the firm has the client number (25).
    ClientNumberTaken,
    /// A stop is to be changed (27).
    ChangeOfStop,
    /// The new quantity is not above the lots already traded (28).
    QuantityTraded,
    /// After the change disclosed and quantity would not go together (29).
    DisclosedBarred,
    /// The opening's day is not later than the present one (30).
    DayNotLater,
}

impl Refusal {
    /// The published number.
    // A variant with fields has no `as u8`, so they are listed.
    pub fn number(self) -> u8
        ensures { result ≡ refusal_number self }
    {
        match self {
            Refusal::ShortSheet => 1,
            Refusal::RowMisplaced { .. } => 2,
            Refusal::UnknownRow => 3,
            Refusal::WrongCells => 4,
            Refusal::CellMisplaced { .. } => 5,
            Refusal::Unreadable { .. } => 6,
            Refusal::WrongBlank { .. } => 7,
            Refusal::OutOfRange { .. } => 8,
            Refusal::Barred => 9,
            Refusal::NoReplies => 20,
            Refusal::WrongDay => 21,
            Refusal::TapeFull => 22,
            Refusal::NoStamps => 23,
            Refusal::UnknownOrder => 24,
            Refusal::ClientNumberTaken => 25,
            Refusal::ChangeOfStop => 27,
            Refusal::QuantityTraded => 28,
            Refusal::DisclosedBarred => 29,
            Refusal::DayNotLater => 30,
        }
    }

    /// The cell that it names, from 1, or 0 where none is to blame.
    pub fn cell(self) -> u8
        ensures { result ≡ refusal_cell self }
    {
        match self {
            Refusal::CellMisplaced { cell }
            | Refusal::Unreadable { cell, .. }
            | Refusal::WrongBlank { cell }
            | Refusal::OutOfRange { cell } => cell,
            _ => 0,
        }
    }

    /// The place in that cell, from 1, or 0.
    pub fn place(self) -> u8
        ensures { result ≡ refusal_place self }
    {
        match self {
            Refusal::Unreadable { place, .. } => place,
            _ => 0,
        }
    }
}
