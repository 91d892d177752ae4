// Cells, read from their bytes. The error of an unreadable cell is its place, from 1, as the reply
// has it: that of the first byte that cannot stand there.
ghost use Rattle.std.specs.Char.{is_ascii_digit};
ghost use Rattle.std.specs.Prelude.{◌≡◌, ◌≤◌, length, take};
ghost use Rattle.std.specs.Str.Parse.{AllDigits, digits_value};
ghost use Rattle.std.specs.List.{prefix_len};
ghost use Rattle.sheets.specs.Cells.{digits, read_number, read_price, read_type};

use super::bytes::{byte_at, bytes_from, part_of};
use orders::price::Price;

// The most digits of a number cell.
const NUMBER_DIGITS: usize = 12;

// The most digits before the comma of a price cell.
const WHOLE_DIGITS: usize = 6;

// The digits after the comma.
const CENT_DIGITS: usize = 2;

// The comma of a price cell.
const COMMA: u8 = b',';

/// The first number that a number cell has no room for.
pub const CELL_NUMBERS_END: u64 = 1_000_000_000_000;

/// The first price, in hundredths, that a price cell has no room for.
pub const CELL_PRICES_END: u32 = 100_000_000;

// How many digits stand at the front.
fn digit_count(bytes: &[u8]) -> usize
    ensures { result ≡ prefix_len is_ascii_digit bytes.now }
{
    bytes.iter().take_while(|b| b.is_ascii_digit()).count()
}

// The digits that a cell begins with, `most` at the most.
fn digits_of(cell: &[u8], most: usize) -> &[u8]
    ensures answer { result.now ≡ take (digits most cell.now) cell.now }
    ensures counted { length result.now ≡ digits most cell.now }
    ensures few { length result.now ≤ most }
    ensures all { AllDigits 10 result.now }
{
    let start = part_of(cell, 0, most);
    &start[..digit_count(start)]
}

// The number that digits write.
fn number_of(digits: &[u8]) -> u64
    requires few { length digits.now ≤ NUMBER_DIGITS }
    requires all { AllDigits 10 digits.now }
    ensures { result ≡ digits_value 10 digits.now }
{
    let mut number = 0;
    for b in digits {
        number = number * 10 + u64::from(*b - b'0');
    }
    number
}

/// A number cell: 1 to 12 digits, or none where it is blank. The error is the place, from 1, of the
/// first byte that cannot stand there (sheets 4).
pub fn read_number(cell: &[u8]) -> Result<Option<u64>, u8>
    ensures { result ≡ read_number cell.now }
{
    if cell.is_empty() {
        return Ok(None);
    }
    let digits = digits_of(cell, NUMBER_DIGITS);
    if digits.len() == cell.len() {
        Ok(Some(number_of(digits)))
    } else {
        Err((digits.len() + 1) as u8)
    }
}

/// A price cell: 1 to 6 digits, a comma and two digits; errors as for a number cell.
pub fn read_price(cell: &[u8]) -> Result<Option<Price>, u8>
    ensures { result ≡ read_price cell.now }
{
    if cell.is_empty() {
        return Ok(None);
    }
    let whole = digits_of(cell, WHOLE_DIGITS);
    if whole.is_empty() || byte_at(cell, whole.len()) != COMMA {
        return Err((whole.len() + 1) as u8);
    }
    let behind = bytes_from(cell, whole.len() + 1);
    let cents = digits_of(behind, CENT_DIGITS);
    if cents.len() != CENT_DIGITS || behind.len() != CENT_DIGITS {
        return Err((whole.len() + 1 + cents.len() + 1) as u8);
    }
    Ok(Some(Price {
        hundredths: (number_of(whole) * 100 + number_of(cents)) as u32,
    }))
}

/// A type cell: any one byte; errors as for a number cell.
pub fn read_type(cell: &[u8]) -> Result<Option<u8>, u8>
    ensures { result ≡ read_type cell.now }
{
    match cell {
        [] => Ok(None),
        [byte] => Ok(Some(*byte)),
        _ => Err(2),
    }
}
