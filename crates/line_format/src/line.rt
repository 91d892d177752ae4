// Whole lines.
ghost use Rattle.std.specs.Prelude.{◌≡◌, ◌≤◌, length, true, IfOk, IfErr, IfSome, Ok, Err};
ghost use Rattle.sheets.specs.FormBounds.{form_in_bounds};
ghost use Rattle.line_format.specs.Lines.{cells_from, read_line};
ghost use Rattle.line_format.specs.Words.{InsideLine};
ghost use Rattle.line_format.specs.WorkedLines.{WorkedLines};

use crate::cells::Cells;
use crate::columns::letter_word;
use crate::words::{BadWord, next_word};
use forms::form::Form;
use sheets::letter::Letter;

// The cells that the words from an offset on fill, or the word that the line is refused for.
fn read_words(letter: Letter, line: &[u8], from: usize) -> Result<Cells, BadWord>
    requires { from ≤ length line.now }
    ensures ok { IfOk result (λ cells. cells_from letter line.now from ≡ Ok cells.values) }
    ensures err { IfErr result (λ word. cells_from letter line.now from ≡ Err word) }
    ensures within { IfErr result (InsideLine (length line.now)) }
{
    let mut cells = Cells::blank();
    let mut at = from;
    while let Some(word) = next_word(line, at) {
        cells = cells
            .with_word(letter, word.bytes(line))
            .ok_or(word.as_bad_word())?;
        at = word.start + word.size;
    }
    Ok(cells)
}

/// The form that a line asks for, whose values have room in the cells of a row; none where it has
/// no words; or the word that it is refused for (lines 1).
pub fn read_line(line: &[u8]) -> Result<Option<Form>, BadWord>
    ensures answer { result ≡ read_line line.now }
    ensures within { IfErr result (InsideLine (length line.now)) }
    ensures form_in_bounds { IfOk result (λ form. IfSome form (λ f. form_in_bounds f ≡ true)) }
{
    let Some(first) = next_word(line, 0) else {
        return Ok(None);
    };
    let letter = letter_word(first.bytes(line)).ok_or(first.as_bad_word())?;
    let cells = read_words(letter, line, first.start + first.size)?;
    Ok(Some(cells.form(letter)))
}

/// The worked lines of specs/WorkedLines.antt read as it says. It does nothing when it runs.
#[tactic(auto, unfolding(crate::specs::Lines::read_words))]
pub fn worked_lines()
    ensures { WorkedLines }
{}
