// Forms, written as rows.
ghost use Rattle.std.specs.Prelude.{◌≡◌, ◌≤◌, true, length, map, Ok, IfOk, IfSome, vec_items};
ghost use Rattle.std.specs.List.{list_all};
ghost use Rattle.std.specs.Option.{option_map};
ghost use Rattle.forms.specs.declared.form.Form.TheVariants.{Entry, Change, MassCancel};
ghost use Rattle.sheets.specs.Rows.{read_form};
ghost use Rattle.sheets.specs.declared.directory.Directory.TheVariants.{Cells};
ghost use Rattle.sheet_writer.specs.CellTexts.{letter, letter_byte, cells, text, has_room};
ghost use Rattle.sheet_writer.specs.PartLists.{Packs};
ghost use Rattle.sheet_writer.specs.WorkedSheet.{WorkedSheet};
ghost use Rattle.sheet_writer.specs.WrittenRows.{row_if_room};
ghost use Rattle.sheet_writer.specs.RowLimits.{RowLimits};

use crate::cell::Cell;
use crate::parts::Parts;
use forms::form::{ChangeForm, EntryForm, Form, MassCancelForm};
use sheets::directory::Directory;
use sheets::letter::{
    CANCEL_BYTE, CHANGE_BYTE, CLOSING_BYTE, ENTRY_BYTE, Letter, MASS_CANCEL_BYTE, MOST_CELLS,
    OPENING_BYTE,
};
use std::alloc::{AllocError, Global};

// The letter of a form's row.
fn letter(form: Form) -> Letter
    ensures { result ≡ letter form }
{
    match form {
        Form::Entry(_) => Letter::Entry,
        Form::Change(_) => Letter::Change,
        Form::Cancel(_) => Letter::Cancel,
        Form::MassCancel(_) => Letter::MassCancel,
        Form::Closing => Letter::Closing,
        Form::Opening(_) => Letter::Opening,
    }
}

// The first byte of a row of the letter.
fn letter_byte(letter: Letter) -> u8
    ensures { result ≡ letter_byte letter }
{
    match letter {
        Letter::Entry => ENTRY_BYTE,
        Letter::Change => CHANGE_BYTE,
        Letter::Cancel => CANCEL_BYTE,
        Letter::MassCancel => MASS_CANCEL_BYTE,
        Letter::Closing => CLOSING_BYTE,
        Letter::Opening => OPENING_BYTE,
    }
}

// The cells of an entry, in the order of its row.
fn entry_cells(f: EntryForm) -> [Cell; 12]
    ensures { result ≡ cells (Entry f) }
{
    [
        Cell::Number(f.firm),
        Cell::Number(f.client),
        Cell::Number(f.side),
        Cell::OneByte(f.order_type),
        Cell::Number(f.validity),
        Cell::Price(f.price),
        Cell::Price(f.trigger),
        Cell::Number(f.quantity),
        Cell::Number(f.disclosed),
        Cell::Number(f.minimum),
        Cell::Number(f.investor),
        Cell::Number(f.tag),
    ]
}

// The cells of a change.
fn change_cells(f: ChangeForm) -> [Cell; 7]
    ensures { result ≡ cells (Change f) }
{
    [
        Cell::Number(f.firm),
        Cell::Number(f.client),
        Cell::Number(f.number),
        Cell::Price(f.price),
        Cell::Number(f.quantity),
        Cell::Number(f.disclosed),
        Cell::Number(f.validity),
    ]
}

// The cells of a mass cancel.
fn mass_cancel_cells(f: MassCancelForm) -> [Cell; 4]
    ensures { result ≡ cells (MassCancel f) }
{
    [
        Cell::Number(f.firm),
        Cell::Number(f.side),
        Cell::Number(f.tag),
        Cell::Number(f.investor),
    ]
}

// The cells of a form, in the order of its row.
fn cells(heap: Global, form: Form) -> Result<Vec<Cell>, AllocError>
    ensures { IfOk result (λ list. vec_items list ≡ cells form) }
{
    match form {
        Form::Entry(f) => Vec::from_slice(heap, &entry_cells(f)),
        Form::Change(f) => Vec::from_slice(heap, &change_cells(f)),
        Form::Cancel(f) => Vec::from_slice(heap, &[Cell::Number(f.firm), Cell::Number(f.number)]),
        Form::MassCancel(f) => Vec::from_slice(heap, &mass_cancel_cells(f)),
        Form::Closing => Ok(Vec::new(heap)),
        Form::Opening(f) => Vec::from_slice(heap, &[Cell::Number(f.day)]),
    }
}

// Whether each cell has room for its value.
fn all_have_room(cells: &[Cell]) -> bool
    ensures { result ≡ list_all has_room cells.now }
{
    cells.iter().all(|c| c.has_room())
}

// The cells as the parts of a row.
fn parts_of(heap: Global, cells: &[Cell]) -> Result<Parts, AllocError>
    requires room { list_all has_room cells.now ≡ true }
    requires few { length cells.now ≤ MOST_CELLS }
    ensures { IfOk result (Packs Cells (map text cells.now)) }
{
    let mut parts = Parts::none(heap, Directory::Cells);
    for cell in cells {
        parts.add(cell.text(heap)?.as_slice())?;
    }
    Ok(parts)
}

/// The bytes of a form's row, which read as the form; none where a cell has no room for its value.
#[tactic(auto, using(crate::proofs::RowReadsBack::fits_by_cells))]
pub fn write_row(heap: Global, form: Form) -> Result<Option<Vec<u8>>, AllocError>
    ensures answer { IfOk result (λ row. option_map vec_items row ≡ row_if_room form) }
    ensures back { IfOk result (λ row. IfSome row (λ v. read_form (vec_items v) ≡ Ok form)) }
{
    let cells = cells(heap, form)?;
    if !all_have_room(cells.as_slice()) {
        return Ok(None);
    }
    let parts = parts_of(heap, cells.as_slice())?;
    let head = [letter_byte(letter(form)), cells.len() as u8];
    Ok(Some(parts.packed(heap, &head)?))
}

/// The worked sheet of specs/WorkedSheet.antt is written as it says. It does nothing when it runs.
pub fn worked_sheet()
    ensures { WorkedSheet }
{}

/// A row has at most as many bytes as its directory can name.
pub fn row_limits()
    ensures { RowLimits }
{}
