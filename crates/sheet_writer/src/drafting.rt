// Drafts: forms are added, and the bytes of the sheet are written.
ghost use Rattle.std.specs.Prelude.{◌≡◌, [], List, IfOk, OnErr, vec_items};
ghost use Rattle.forms.specs.declared.form.Form.{Form};
ghost use Rattle.sheet_writer.specs.WrittenRows.{sheet_of, ReadsAs};
ghost use Rattle.sheet_writer.specs.Drafts.{rows, Joined, DraftHolds};

use crate::draft::{Draft, Excess};
use crate::parts::Parts;
use crate::row::write_row;
use forms::form::Form;
use sheets::directory::Directory;
use sheets::sheet::MOST_ROWS;
use std::alloc::{AllocError, Global};

impl Draft {
    /// A draft without rows.
    pub fn new(heap: Global) -> Draft
        ensures { rows result ≡ [] }
    {
        Draft {
            rows: Parts::none(heap, Directory::Rows),
        }
    }

    /// Adds the row of a form, unless a value has no room in its cell, or the sheet would have too
    /// many rows or bytes; these are looked for in this order. After either error the draft is as
    /// it was.
    pub fn add(&mut self, heap: Global, form: Form) -> Result<Result<(), Excess>, AllocError>
        ensures ok { IfOk result (Joined (rows self.old) form (rows self.new)) }
        ensures err { OnErr result (rows self.new ≡ rows self.old) }
    {
        let Some(row) = write_row(heap, form)? else {
            return Ok(Err(Excess::Value));
        };
        if self.rows.lengths.len() >= usize::from(MOST_ROWS) {
            return Ok(Err(Excess::Rows));
        }
        if !self.rows.takes(row.as_slice()) {
            return Ok(Err(Excess::Bytes));
        }
        self.rows.add(row.as_slice())?;
        Ok(Ok(()))
    }

    /// The bytes of the sheet. Read back, its rows are the forms that were added.
    pub fn bytes(&self, heap: Global) -> Result<Vec<u8>, AllocError>
        ensures answer { IfOk result (λ bytes. vec_items bytes ≡ sheet_of (rows self.now)) }
        ensures back { (forms : List Form) → DraftHolds self.now forms
            → IfOk result (λ bytes. ReadsAs forms (vec_items bytes)) }
    {
        let count = self.rows.lengths.len();
        let head = [(count / 256) as u8, (count % 256) as u8];
        self.rows.packed(heap, &head)
    }
}
