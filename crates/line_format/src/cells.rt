// The cells of a line, filled word by word.
ghost use Rattle.std.specs.Prelude.{◌≡◌, None, slice_index_or};
ghost use Rattle.std.specs.Option.{option_map};
ghost use Rattle.line_format.specs.LineCells.{blank_cells, with_word};

use crate::columns::column_of;
use crate::values::{Value, read_value};
use crate::words::ByteRun;
use sheets::bytes::{bytes_from, part_of};
use sheets::letter::{Letter, MOST_CELLS};

// As many cells as any letter has, in the order of its columns; blank where no word named them.
#[derive(Clone, Copy)]
pub(crate) struct Cells {
    values: [Option<Value>; MOST_CELLS],
}

impl Cells {
    pub(crate) fn blank() -> Cells
        ensures { result.values ≡ blank_cells }
    {
        Cells {
            values: [None; MOST_CELLS],
        }
    }

    pub(crate) fn at(self, index: usize) -> Option<Value>
        ensures { result ≡ slice_index_or self.values index None }
    {
        self.values.get(index).copied().flatten()
    }

    // The cells with that filled which a word names; none where the word has no name of the
    // letter's, names a cell that is filled already, or has a value that cannot be read.
    pub(crate) fn with_word(mut self, letter: Letter, word: &[u8]) -> Option<Cells>
        ensures { option_map (λ cells. cells.values) result
            ≡ with_word letter self.values word.now }
    {
        let name = ByteRun::Name.count(word);
        let column = column_of(letter, part_of(word, 0, name))?;
        if self.at(column.index).is_some() {
            return None;
        }
        let value = read_value(column.kind, bytes_from(word, name + 1))?;
        self.values[column.index] = Some(value);
        Some(self)
    }
}
