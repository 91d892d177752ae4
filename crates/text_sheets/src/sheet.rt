// Sheets are made of texts, line by line.
ghost use Rattle.std.specs.Prelude.{List, length, IfOk, IfErr, vec_items};
ghost use Rattle.forms.specs.declared.form.Form.{Form};
ghost use Rattle.sheet_writer.specs.Drafts.{DraftHolds};
ghost use Rattle.text_sheets.specs.FormsOfLines.{RefusedInLine, LineAdded, SheetMade, TextRefused};

use crate::refused::{Refused, Why};
use line_format::line::read_line;
use line_format::words::first_word;
use sheet_writer::draft::{Draft, Excess};
use std::alloc::{AllocError, Global};

// Adds the row of a line, where it has one. The values of a form that is read have room in their
// cells, so `Excess::Value` cannot be the answer.
fn add_line(
    heap: Global,
    draft: &mut Draft,
    number: usize,
    line: &[u8],
) -> Result<Result<(), Refused>, AllocError>
    ensures added { (forms : List Form) → DraftHolds draft.old forms
        → IfOk result (LineAdded number line.now forms draft.new) }
    ensures refused { let size = length line.now in
        IfOk result (λ answer. IfErr answer (RefusedInLine number size)) }
{
    let form = match read_line(line) {
        Ok(Some(form)) => form,
        Ok(None) => return Ok(Ok(())),
        Err(word) => return Ok(Err(Refused::at(number, word, Why::Word))),
    };
    let why = match draft.add(heap, form)? {
        Ok(()) => return Ok(Ok(())),
        Err(Excess::Value) => Why::Word,
        Err(Excess::Rows) => Why::Rows,
        Err(Excess::Bytes) => Why::Bytes,
    };
    Ok(Err(Refused::at(number, first_word(line), why)))
}

/// The bytes of the sheet of a text, whose rows read as the forms that its lines name, in their
/// order; or the refusal of the first line that cannot be taken (lines 2). The
/// outer error is that memory failed.
pub fn make_sheet(heap: Global, text: &[u8]) -> Result<Result<Vec<u8>, Refused>, AllocError>
    ensures made { IfOk result (λ answer. IfOk answer (λ v. SheetMade text.now (vec_items v))) }
    ensures refused { IfOk result (λ answer. IfErr answer (TextRefused text.now)) }
{
    let mut draft = Draft::new(heap);
    let mut number = 0;
    for line in text.split(|b| *b == b'\n') {
        number += 1;
        if let Err(refused) = add_line(heap, &mut draft, number, line)? {
            return Ok(Err(refused));
        }
    }
    Ok(Ok(draft.bytes(heap)?))
}
