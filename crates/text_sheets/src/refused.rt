// Refusals of a text.
ghost use Rattle.std.specs.Prelude.{◌≡◌};
ghost use Rattle.text_sheets.specs.FormsOfLines.{refused, word_blamed};

use line_format::words::BadWord;
use sheets::bytes::part_of;

/// Why a text is refused: a word that its line is refused for, a row too many, or a row that would
/// make the sheet too long.
#[derive(Clone, Copy, Debug, PartialEq, Eq)]
pub enum Why {
    Word,
    Rows,
    Bytes,
}

/// A refusal of a text: the line, the place in it where the word to blame begins, both from 1, how
/// many bytes that word has, and why.
#[derive(Clone, Copy)]
pub struct Refused {
    pub line: usize,
    pub place: usize,
    pub length: usize,
    pub why: Why,
}

impl Refused {
    // The refusal of a line for a word.
    pub(crate) fn at(line: usize, word: BadWord, why: Why) -> Refused
        ensures { result ≡ refused line word why }
    {
        Refused {
            line,
            place: word.place,
            length: word.length,
            why,
        }
    }

    /// The word of the text that is to blame.
    pub fn word(self, text: &[u8]) -> &[u8]
        ensures { result.now ≡ word_blamed text.now self }
    {
        let line = text
            .split(|b| *b == b'\n')
            .nth(self.line.saturating_sub(1))
            .unwrap_or(&[]);
        part_of(line, self.place.saturating_sub(1), self.length)
    }
}
