// Columns: the cells of a letter's rows by name.
ghost use Rattle.std.specs.Prelude.{◌≡◌, ◌<◌, map, position, IfSome};
ghost use Rattle.std.specs.Str.{bytes_eq};
ghost use Rattle.line_format.specs.Columns.{columns, column_of, letter_word};

use sheets::letter::{Letter, MOST_CELLS};

// How the value of a cell is written.
#[derive(Clone, Copy)]
pub(crate) enum CellKind {
    Number,
    Side,
    OneByte,
    Validity,
    Price,
}

// A column: which cell of the row it is, from 0, and how the value is written.
#[derive(Clone, Copy)]
pub(crate) struct Column {
    pub(crate) index: usize,
    pub(crate) kind: CellKind,
}

// The columns of an entry.
const ENTRY: [(&[u8], CellKind); MOST_CELLS] = [
    (b"firm", CellKind::Number),
    (b"client", CellKind::Number),
    (b"side", CellKind::Side),
    (b"type", CellKind::OneByte),
    (b"validity", CellKind::Validity),
    (b"price", CellKind::Price),
    (b"trigger", CellKind::Price),
    (b"quantity", CellKind::Number),
    (b"disclosed", CellKind::Number),
    (b"minimum", CellKind::Number),
    (b"investor", CellKind::Number),
    (b"tag", CellKind::Number),
];

// The columns of a change.
const CHANGE: [(&[u8], CellKind); 7] = [
    (b"firm", CellKind::Number),
    (b"client", CellKind::Number),
    (b"number", CellKind::Number),
    (b"price", CellKind::Price),
    (b"quantity", CellKind::Number),
    (b"disclosed", CellKind::Number),
    (b"validity", CellKind::Validity),
];

// The columns of a cancel.
const CANCEL: [(&[u8], CellKind); 2] = [(b"firm", CellKind::Number), (b"number", CellKind::Number)];

// The columns of a mass cancel.
const MASS_CANCEL: [(&[u8], CellKind); 4] = [
    (b"firm", CellKind::Number),
    (b"side", CellKind::Side),
    (b"tag", CellKind::Number),
    (b"investor", CellKind::Number),
];

// The column of an opening.
const OPENING: [(&[u8], CellKind); 1] = [(b"day", CellKind::Number)];

// The columns of a letter in the order of its cells: the name, and how the value is written.
fn columns(letter: Letter) -> &'static [(&'static [u8], CellKind)]
    ensures { map (λ c. (c.0.now, c.1)) result.now ≡ columns letter }
{
    match letter {
        Letter::Entry => &ENTRY,
        Letter::Change => &CHANGE,
        Letter::Cancel => &CANCEL,
        Letter::MassCancel => &MASS_CANCEL,
        Letter::Closing => &[],
        Letter::Opening => &OPENING,
    }
}

// The index of a name among columns.
fn index_of(columns: &[(&[u8], CellKind)], name: &[u8]) -> Option<usize>
    ensures { result ≡ position (λ c. bytes_eq name.now c.0.now) columns.now }
{
    columns.iter().position(|c| name == c.0)
}

// The column of a name; none where the letter has no such cell.
pub(crate) fn column_of(letter: Letter, name: &[u8]) -> Option<Column>
    ensures answer { result ≡ column_of letter name.now }
    ensures within { IfSome result (λ column. column.index < MOST_CELLS) }
{
    let columns = columns(letter);
    let index = index_of(columns, name)?;
    let kind = columns[index].1;
    Some(Column { index, kind })
}

// The letter that a word is, where it is one byte that is a letter.
pub(crate) fn letter_word(word: &[u8]) -> Option<Letter>
    ensures { result ≡ letter_word word.now }
{
    match word {
        [byte] => Letter::try_from(*byte).ok(),
        _ => None,
    }
}
