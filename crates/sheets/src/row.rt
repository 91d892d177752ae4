// Rows, read into forms: the letter, the cell count, the pairs and the cells, from the left.
ghost use Rattle.std.specs.Prelude.{◌≡◌, ◌<◌};
ghost use Rattle.std.specs.Fn.{FnOnceReturnsAt};
ghost use Rattle.sheets.specs.Rows.{in_cell, check_cells, read_cells, read_lettered, read_form};
ghost use Rattle.sheets.specs.Layout.{part_at};
ghost use Rattle.sheets.specs.declared.directory.Directory.TheVariants.{Cells};
ghost use Rattle.sheets.specs.OwnBytes.{RowAlone, CellAlone};
ghost use Rattle.sheets.specs.PairRule.{PairRule};
ghost use Rattle.sheets.specs.GoodCells.{CellsReadByFormat};
ghost use Rattle.sheets.specs.Letters.{letter_of};
ghost use Rattle.sheets.specs.Rows.{read_entry, read_change, read_cancel, read_mass_cancel, read_opening};

use super::cells::{read_number, read_price, read_type};
use super::directory::Directory;
use super::letter::Letter;
use forms::form::{CancelForm, ChangeForm, EntryForm, Form, MassCancelForm, OpeningForm};
use forms::refusal::Refusal;

// Cell k, from 0, as its reader answers; a refusal counts it from 1.
fn cell<T, F: FnOnce(&[u8]) -> Result<T, u8>>(row: &[u8], k: u8, read: F) -> Result<T, Refusal>
    requires small { k < u8.MAX }
    requires callable { F.IsAlwaysCallable read }
    ensures { (value : _) × FnOnceReturnsAt F.FnOnce read (part_at Cells row.now k) value
        × (result ≡ in_cell k value) }
{
    read(Directory::Cells.part(row, u16::from(k))).map_err(|place| Refusal::Unreadable {
        cell: k + 1,
        place,
    })
}

fn read_entry(row: &[u8]) -> Result<EntryForm, Refusal>
    ensures { result ≡ read_entry row.now }
{
    Ok(EntryForm {
        firm: cell(row, 0, read_number)?,
        client: cell(row, 1, read_number)?,
        side: cell(row, 2, read_number)?,
        order_type: cell(row, 3, read_type)?,
        validity: cell(row, 4, read_number)?,
        price: cell(row, 5, read_price)?,
        trigger: cell(row, 6, read_price)?,
        quantity: cell(row, 7, read_number)?,
        disclosed: cell(row, 8, read_number)?,
        minimum: cell(row, 9, read_number)?,
        investor: cell(row, 10, read_number)?,
        tag: cell(row, 11, read_number)?,
    })
}

fn read_change(row: &[u8]) -> Result<ChangeForm, Refusal>
    ensures { result ≡ read_change row.now }
{
    Ok(ChangeForm {
        firm: cell(row, 0, read_number)?,
        client: cell(row, 1, read_number)?,
        number: cell(row, 2, read_number)?,
        price: cell(row, 3, read_price)?,
        quantity: cell(row, 4, read_number)?,
        disclosed: cell(row, 5, read_number)?,
        validity: cell(row, 6, read_number)?,
    })
}

fn read_cancel(row: &[u8]) -> Result<CancelForm, Refusal>
    ensures { result ≡ read_cancel row.now }
{
    Ok(CancelForm {
        firm: cell(row, 0, read_number)?,
        number: cell(row, 1, read_number)?,
    })
}

fn read_mass_cancel(row: &[u8]) -> Result<MassCancelForm, Refusal>
    ensures { result ≡ read_mass_cancel row.now }
{
    Ok(MassCancelForm {
        firm: cell(row, 0, read_number)?,
        side: cell(row, 1, read_number)?,
        tag: cell(row, 2, read_number)?,
        investor: cell(row, 3, read_number)?,
    })
}

fn read_opening(row: &[u8]) -> Result<OpeningForm, Refusal>
    ensures { result ≡ read_opening row.now }
{
    Ok(OpeningForm {
        day: cell(row, 0, read_number)?,
    })
}

// The form of a row by its letter: its cells, from the left.
fn read_cells(letter: Letter, row: &[u8]) -> Result<Form, Refusal>
    ensures { result ≡ read_cells letter row.now }
{
    match letter {
        Letter::Entry => read_entry(row).map(Form::Entry),
        Letter::Change => read_change(row).map(Form::Change),
        Letter::Cancel => read_cancel(row).map(Form::Cancel),
        Letter::MassCancel => read_mass_cancel(row).map(Form::MassCancel),
        Letter::Closing => Ok(Form::Closing),
        Letter::Opening => read_opening(row).map(Form::Opening),
    }
}

// Refuses a row whose count is not its letter's, that has no room for its pairs, or one of whose
// pairs is misplaced.
fn check_cells(letter: Letter, count: u8, rest: &[u8], row: &[u8]) -> Result<(), Refusal>
    ensures { result ≡ check_cells letter count rest.now row.now }
{
    if count != letter.cells() || rest.len() < 2 * usize::from(count) {
        return Err(Refusal::WrongCells);
    }
    if let Some(cell) = Directory::Cells.first_misplaced(row, u16::from(count)) {
        return Err(Refusal::CellMisplaced { cell: cell as u8 });
    }
    Ok(())
}

// A row by its two first bytes and the rest: its letter, then its pairs, then its cells.
fn read_lettered(byte: u8, count: u8, rest: &[u8], row: &[u8]) -> Result<Form, Refusal>
    ensures { result ≡ read_lettered (letter_of byte) count rest.now row.now }
{
    let letter = Letter::try_from(byte)?;
    check_cells(letter, count, rest, row)?;
    read_cells(letter, row)
}

/// The form of a row, or why it cannot be read: `UnknownRow`, `WrongCells`, `CellMisplaced` or
/// `Unreadable`. Four laws are proved with it: a row is read from its own bytes alone, and a cell
/// from its own; a directory is refused for its first pair that breaks the pair rule, and a cell
/// for its first byte that cannot stand there (sheets 2, 3, 4).
pub fn read_form(row: &[u8]) -> Result<Form, Refusal>
    ensures answer { result ≡ read_form row.now }
    ensures rows { RowAlone }
    ensures cells { CellAlone }
    ensures pairs { PairRule }
    ensures places { CellsReadByFormat }
{
    match row {
        [letter, count, rest @ ..] => read_lettered(*letter, *count, rest, row),
        _ => Err(Refusal::UnknownRow),
    }
}
