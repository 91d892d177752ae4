// The cells of a form's row, and the bytes that each is written as.
ghost use Rattle.std.specs.Prelude.{◌≡◌, IfOk, vec_items};
ghost use Rattle.sheet_writer.specs.CellTexts.{text, has_room};

use display::text::PriceText;
use orders::price::Price;
use sheets::cells::{CELL_NUMBERS_END, CELL_PRICES_END};
use std::alloc::{AllocError, Global};

// A cell of a kind, with its value, or blank.
#[derive(Clone, Copy)]
pub(crate) enum Cell {
    Number(Option<u64>),
    OneByte(Option<u8>),
    Price(Option<Price>),
}

impl Cell {
    // Whether the cell has room for its value.
    pub(crate) fn has_room(self) -> bool
        ensures { result ≡ has_room self }
    {
        match self {
            Cell::Number(Some(n)) => n < CELL_NUMBERS_END,
            Cell::Price(Some(p)) => p.hundredths < CELL_PRICES_END,
            _ => true,
        }
    }

    // The bytes that the cell is written as.
    pub(crate) fn text(self, heap: Global) -> Result<Vec<u8>, AllocError>
        ensures { IfOk result (λ bytes. vec_items bytes ≡ text self) }
    {
        match self {
            Cell::Number(Some(n)) => Ok(format!(in heap; "{n}")?.into_bytes()),
            Cell::OneByte(Some(b)) => Ok(vec![in heap; b]?),
            Cell::Price(Some(p)) => {
                let p = PriceText(p);
                Ok(format!(in heap; "{p}")?.into_bytes())
            }
            _ => Ok(Vec::new(heap)),
        }
    }
}
