// Whole sheets.
ghost use Rattle.std.specs.Prelude.{◌≡◌, IfOk};
ghost use Rattle.std.specs.Option.{option_map};
ghost use Rattle.std.specs.Result.{result_err};
ghost use Rattle.venue.specs.Days.{state};
ghost use Rattle.sheets.specs.Replies.{sheet_reply, free_replies};
ghost use Rattle.sheets.specs.Sheets.{JustRead};
ghost use Rattle.sheet_runner.specs.SheetRuns.{sheet_run, refusal_before_rows, sheet_answer, after_sheet};

use crate::row::work_row;
use books::book::Book;
use forms::refusal::Refusal;
use sheets::replies::Replies;
use sheets::reply::Reply;
use sheets::sheet::Sheet;
use tapes::tape::Tape;
use venue::day::Day;

/// The sheet before its first row, or the refusal that it gets before any row is worked:
/// `ShortSheet`, `RowMisplaced`, or `NoReplies` where it has more rows than the list has replies
/// free (numbers 1).
pub fn admit<'a>(bytes: &'a [u8], replies: &Replies) -> Result<Sheet<'a>, Refusal>
    ensures ok { IfOk result (JustRead bytes.now) }
    ensures err { result_err result ≡ refusal_before_rows bytes.now (free_replies replies.now) }
{
    let sheet = Sheet::read(bytes)?;
    if replies.free() < usize::from(sheet.rows()) {
        return Err(Refusal::NoReplies);
    }
    Ok(sheet)
}

/// Works a whole sheet, row by row. A refused sheet has no row worked; its one answer is returned,
/// and not posted.
pub fn work_sheet<B: Book>(
    bytes: &[u8],
    mut day: Day,
    book: &mut B,
    tape: &mut Tape,
    replies: &mut Replies,
) -> (Day, Option<Reply>)
    ensures answer { let before = sheet_run (state (B.queues book.old) tape.old day) replies.old in
        result.1 ≡ option_map sheet_reply (sheet_answer bytes.now before) }
    ensures state { let before = sheet_run (state (B.queues book.old) tape.old day) replies.old in
        sheet_run (state (B.queues book.new) tape.new result.0) replies.new
        ≡ after_sheet bytes.now before }
{
    let mut sheet = match admit(bytes, replies) {
        Ok(sheet) => sheet,
        Err(refusal) => return (day, Some(Reply::to_sheet(refusal))),
    };
    while let Some(drawn) = sheet.draw() {
        day = work_row(drawn, day, book, tape, replies);
    }
    (day, None)
}
