// One row of a sheet.
ghost use Rattle.std.specs.Prelude.{◌≡◌};
ghost use Rattle.venue.specs.Days.{state};
ghost use Rattle.sheet_runner.specs.SheetRuns.{sheet_run, after_row};

use books::book::Book;
use laws::calls::step;
use sheets::replies::Replies;
use sheets::row::read_form;
use sheets::sheet::Drawn;
use tapes::tape::Tape;
use venue::day::Day;

/// Works a row that was drawn: the step that it asks for, or none where it cannot be read. Its
/// reply is posted either way (sheets 6).
pub fn work_row<B: Book>(
    drawn: Drawn,
    day: Day,
    book: &mut B,
    tape: &mut Tape,
    replies: &mut Replies,
) -> Day
    ensures { let before = sheet_run (state (B.queues book.old) tape.old day) replies.old in
        sheet_run (state (B.queues book.new) tape.new result) replies.new
        ≡ after_row drawn.entry.slip.row drawn.entry.bytes.now before }
{
    let Drawn { slip, bytes } = drawn;
    let (day, answer) = match read_form(bytes) {
        Ok(form) => step(day, book, tape, form),
        Err(refusal) => (day, Err(refusal)),
    };
    slip.post(replies, answer);
    day
}
