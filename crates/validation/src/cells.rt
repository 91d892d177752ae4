// What a cell reads as, and when it is out of range.
ghost use Rattle.std.specs.Prelude.{◌≡◌};
ghost use Rattle.std.specs.Option.{ok_or};
ghost use Rattle.std.specs.Result.{result_ok};
ghost use Rattle.orders.specs.Sides.{unknown_code};
ghost use Rattle.forms.specs.declared.refusal.Refusal.TheVariants.{WrongBlank};
ghost use Rattle.forms.specs.Results.{and_then};
ghost use Rattle.validation.specs.Cells.{in_range, number_in, side_in, validity_in, type_of, price_in, if_filled};
ghost use Rattle.validation.specs.CellRanges.{CellRanges};

use forms::refusal::Refusal;
use orders::order::MOST_LOTS;
use orders::price::Price;
use orders::side::{Side, UnknownCode, Validity};
use std::num::TryFromIntError;

/// The order types as the type cell names them: 2, 4 and K (rules 1).
#[derive(Clone, Copy, Debug, PartialEq, Eq)]
pub enum TypeCode {
    Limit,
    StopLimit,
    Market,
}

// The lowest and the highest number that a cell takes. Not a RangeInclusive, which is not Copy.
#[derive(Clone, Copy)]
pub(crate) struct Bounds(u64, u64);

const HIGHEST_FIRM: u64 = 65_535;

pub(crate) const FIRMS: Bounds = Bounds(1, HIGHEST_FIRM);

const HIGHEST_DAY: u64 = 65_535;

pub(crate) const DAYS: Bounds = Bounds(1, HIGHEST_DAY);

const HIGHEST_IDENTIFIER: u64 = 999_999_999;

// Client numbers and order numbers.
pub(crate) const IDENTIFIERS: Bounds = Bounds(1, HIGHEST_IDENTIFIER);

pub(crate) const LOTS: Bounds = Bounds(1, MOST_LOTS as u64);

pub(crate) const LOTS_OR_NONE: Bounds = Bounds(0, MOST_LOTS as u64);

const HIGHEST_INVESTOR: u64 = 999_999_999_999;

pub(crate) const INVESTORS: Bounds = Bounds(0, HIGHEST_INVESTOR);

const HIGHEST_TAG: u64 = 255;

pub(crate) const TAGS: Bounds = Bounds(0, HIGHEST_TAG);

impl Bounds {
    // The number as the type that is wanted, or cell `at` is out of range.
    pub(crate) fn read<T: Drop + TryFrom<u64, Error = TryFromIntError>>(
        self,
        at: u8,
        value: u64,
    ) -> Result<T, Refusal>
        ensures { (typed : _) × T.try_from_gives value typed
            × (result
            ≡ and_then (number_in self.0 self.1 at value) (λ _. in_range at (result_ok typed))) }
    {
        let Bounds(low, high) = self;
        match T::try_from(value) {
            Ok(number) if (low..=high).contains(&value) => Ok(number),
            _ => Err(Refusal::OutOfRange { cell: at }),
        }
    }
}

// A cell that must not be blank.
pub(crate) fn filled<C>(at: u8, cell: Option<C>) -> Result<C, Refusal>
    ensures { result ≡ ok_or cell (WrongBlank at) }
{
    cell.ok_or(Refusal::WrongBlank { cell: at })
}

/// The side of a code, or cell `at` is out of range.
pub fn side_in(at: u8, value: u64) -> Result<Side, Refusal>
    ensures { result ≡ side_in at value }
{
    Side::try_from(value).map_err(|_| Refusal::OutOfRange { cell: at })
}

/// The validity of a code, or cell `at` is out of range.
pub fn validity_in(at: u8, value: u64) -> Result<Validity, Refusal>
    ensures { result ≡ validity_in at value }
{
    Validity::try_from(value).map_err(|_| Refusal::OutOfRange { cell: at })
}

impl TryFrom<u8> for TypeCode {
    type Error = UnknownCode;

    ghost try_from_gives = { λ byte answer. answer ≡ ok_or (type_of byte) (unknown_code byte) };

    fn try_from(byte: u8) -> Result<TypeCode, UnknownCode> {
        match byte {
            b'2' => Ok(TypeCode::Limit),
            b'4' => Ok(TypeCode::StopLimit),
            b'K' => Ok(TypeCode::Market),
            _ => Err(UnknownCode(u64::from(byte))),
        }
    }
}

/// A price that may be blank; cell `at` is out of range where its price is.
pub fn price_if_filled(at: u8, cell: Option<Price>) -> Result<Option<Price>, Refusal>
    ensures { result ≡ if_filled (price_in at) cell }
{
    match cell {
        Some(price) if !price.is_in_range() => Err(Refusal::OutOfRange { cell: at }),
        _ => Ok(cell),
    }
}

/// The ranges of cells are the published ones.
pub fn cell_ranges()
    ensures { CellRanges }
{}
