// The words of a line: runs of bytes with blanks between, up to a comment.
ghost use Rattle.std.specs.Prelude.{◌≡◌, ◌+◌, ◌<◌, ◌≤◌, length, IfSome, IfNone};
ghost use Rattle.std.specs.List.{prefix_len};
ghost use Rattle.sheets.specs.Layout.{part};
ghost use Rattle.line_format.specs.Words.{is_space, takes, next_word, bad_word, WordInLine};

use sheets::bytes::{bytes_from, part_of};

// The bytes that are blanks.
const SPACE: u8 = b' ';

const TAB: u8 = b'\t';

const RETURN: u8 = b'\r';

// The byte that begins a comment.
const HASH: u8 = b'#';

// The byte between a name and its value.
const EQUALS: u8 = b'=';

// Runs of bytes: the blanks before a word, a word, the name of a word.
#[derive(Clone, Copy)]
pub(crate) enum ByteRun {
    Blanks,
    Word,
    Name,
}

// A word: where it starts in its line, from 0, and how many bytes it has.
#[derive(Clone, Copy)]
pub(crate) struct Word {
    pub(crate) start: usize,
    pub(crate) size: usize,
}

/// The word that a line is refused for: where it begins in the line, from 1, and how many bytes it
/// has.
#[derive(Clone, Copy)]
pub struct BadWord {
    pub place: usize,
    pub length: usize,
}

// A space, a tab or a carriage return.
fn is_space(b: u8) -> bool
    ensures { result ≡ is_space b }
{
    b == SPACE || b == TAB || b == RETURN
}

impl ByteRun {
    // Whether the run takes a byte.
    fn takes(self, b: u8) -> bool
        ensures { result ≡ takes self b }
    {
        match self {
            ByteRun::Blanks => is_space(b),
            ByteRun::Word => !is_space(b) && b != HASH,
            ByteRun::Name => b != EQUALS,
        }
    }

    // How many bytes at the front belong to the run.
    pub(crate) fn count(self, bytes: &[u8]) -> usize
        ensures answer { result ≡ prefix_len (takes self) bytes.now }
        ensures within { result ≤ length bytes.now }
    {
        bytes.iter().take_while(|b| self.takes(**b)).count()
    }
}

// The word that follows the blanks at an offset of the line. It has no bytes at the end of the
// line, and at a comment.
fn word_behind(line: &[u8], at: usize) -> Word
    requires { at ≤ length line.now }
    ensures answer { result ≡ next_word line.now at }
    ensures within { result.start + result.size ≤ length line.now }
{
    let start = at + ByteRun::Blanks.count(bytes_from(line, at));
    let size = ByteRun::Word.count(bytes_from(line, start));
    Word { start, size }
}

// The next word from an offset of the line on; none at the end of the line, and at a comment.
pub(crate) fn next_word(line: &[u8], at: usize) -> Option<Word>
    requires { at ≤ length line.now }
    ensures some { IfSome result (λ word. word ≡ next_word line.now at) }
    ensures none { IfNone result ((next_word line.now at).size ≡ 0) }
    ensures within { IfSome result (WordInLine (length line.now)) }
{
    let word = word_behind(line, at);
    (word.size > 0).then_some(word)
}

/// The first word of a line as the one that it is refused for; its length is 0 where the line has
/// no words.
pub fn first_word(line: &[u8]) -> BadWord
    ensures answer { result ≡ bad_word (next_word line.now 0) }
    ensures within { result.place + result.length ≤ length line.now + 1 }
{
    word_behind(line, 0).as_bad_word()
}

impl Word {
    // The bytes of the word.
    pub(crate) fn bytes(self, line: &[u8]) -> &[u8]
        ensures { result.now ≡ part line.now self.start self.size }
    {
        part_of(line, self.start, self.size)
    }

    // The word as the one that its line is refused for.
    pub(crate) fn as_bad_word(self) -> BadWord
        requires { self.start < usize.MAX }
        ensures { result ≡ bad_word self }
    {
        BadWord {
            place: self.start + 1,
            length: self.size,
        }
    }
}
