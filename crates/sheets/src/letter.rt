// The letters that rows begin with.
ghost use Rattle.std.specs.Prelude.{◌≡◌, ok_or};
ghost use Rattle.forms.specs.declared.refusal.Refusal.TheVariants.{UnknownRow};
ghost use Rattle.sheets.specs.Letters.{letter_of, cells_of};

use forms::refusal::Refusal;

/// The first byte of the row of an entry.
pub const ENTRY_BYTE: u8 = b'E';

/// The first byte of the row of a change.
pub const CHANGE_BYTE: u8 = b'M';

/// The first byte of the row of a cancel.
pub const CANCEL_BYTE: u8 = b'X';

/// The first byte of the row of a mass cancel.
pub const MASS_CANCEL_BYTE: u8 = b'A';

/// The first byte of the row of a closing.
pub const CLOSING_BYTE: u8 = b'Z';

/// The first byte of the row of an opening.
pub const OPENING_BYTE: u8 = b'O';

/// The most cells that a row has: those of an entry.
pub const MOST_CELLS: usize = 12;

/// The letter of a row: the step that it asks for.
#[derive(Clone, Copy, Debug, PartialEq, Eq)]
pub enum Letter {
    Entry,
    Change,
    Cancel,
    MassCancel,
    Closing,
    Opening,
}

// The error of any other byte is `UnknownRow`.
impl TryFrom<u8> for Letter {
    type Error = Refusal;

    ghost try_from_gives = { λ byte answer. answer ≡ ok_or (letter_of byte) UnknownRow };

    fn try_from(byte: u8) -> Result<Letter, Refusal> {
        match byte {
            ENTRY_BYTE => Ok(Letter::Entry),
            CHANGE_BYTE => Ok(Letter::Change),
            CANCEL_BYTE => Ok(Letter::Cancel),
            MASS_CANCEL_BYTE => Ok(Letter::MassCancel),
            CLOSING_BYTE => Ok(Letter::Closing),
            OPENING_BYTE => Ok(Letter::Opening),
            _ => Err(Refusal::UnknownRow),
        }
    }
}

impl Letter {
    /// How many cells a row of the letter has.
    pub fn cells(self) -> u8
        ensures { result ≡ cells_of self }
    {
        match self {
            Letter::Entry => 12,
            Letter::Change => 7,
            Letter::Cancel => 2,
            Letter::MassCancel => 4,
            Letter::Closing => 0,
            Letter::Opening => 1,
        }
    }
}
