// A sheet that is being written.
ghost use Rattle.std.specs.Prelude.{◌≡◌, ◌≤◌, vec_len};
ghost use Rattle.sheets.specs.declared.directory.Directory.TheVariants.{Rows};
ghost use Rattle.sheets.specs.declared.sheet.TheConstants.{MOST_ROWS};

use crate::parts::Parts;

/// A draft: the rows that were written so far, no more than a sheet may have.
#[derive(Drop)]
pub struct Draft {
    pub(crate) rows: Parts,
    ghost sheet: { rows.directory ≡ Rows },
    ghost few: { vec_len rows.lengths ≤ MOST_ROWS },
}

/// Why a form cannot be added to a draft: a value has no room in its cell, or the sheet would have
/// too many rows or bytes.
#[derive(Clone, Copy, Debug, PartialEq, Eq)]
pub enum Excess {
    Value,
    Rows,
    Bytes,
}
