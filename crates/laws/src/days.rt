// The steps of a day whose state is in its type, with the laws in their contracts.
ghost use Rattle.std.specs.Prelude.{◌≡◌};
ghost use Rattle.forms.specs.declared.form.Form.TheVariants.{Entry, Change, Cancel, MassCancel, Closing, Opening};
ghost use Rattle.venue.specs.Days.{state, answer, step, Closes, Opens};
ghost use Rattle.venue.specs.declared.day.Day.TheVariants.{Open, Closed};
ghost use Rattle.laws.specs.Runs.{HoldsAfter};

use books::book::Book;
use forms::form::{CancelForm, ChangeForm, EntryForm, MassCancelForm, OpeningForm};
use forms::refusal::Refusal;
use tapes::tape::Tape;
use venue::day::{ClosedDay, OpenDay};

/// Enters an order or a stop (rules 8). `Err` is why it was refused, and then all is as it was.
pub fn enter<B: Book>(
    day: OpenDay,
    book: &mut B,
    tape: &mut Tape,
    form: EntryForm,
) -> (OpenDay, Result<(), Refusal>)
    ensures answer { result.1
        ≡ answer (Entry form) (state (B.queues book.old) tape.old (Open day)) }
    ensures state { state (B.queues book.new) tape.new (Open result.0)
        ≡ step (Entry form) (state (B.queues book.old) tape.old (Open day)) }
    ensures holds_after { HoldsAfter (Entry form) (state (B.queues book.old) tape.old (Open day)) }
{
    day.enter(book, tape, form)
}

/// Changes a standing order (rules 13). `Err` is why it was refused, and then all is as it was.
pub fn change<B: Book>(
    day: OpenDay,
    book: &mut B,
    tape: &mut Tape,
    form: ChangeForm,
) -> (OpenDay, Result<(), Refusal>)
    ensures answer { result.1
        ≡ answer (Change form) (state (B.queues book.old) tape.old (Open day)) }
    ensures state { state (B.queues book.new) tape.new (Open result.0)
        ≡ step (Change form) (state (B.queues book.old) tape.old (Open day)) }
    ensures holds_after { HoldsAfter (Change form) (state (B.queues book.old) tape.old (Open day)) }
{
    day.change(book, tape, form)
}

/// Removes the firm's order or stop of a number (rules 14). `Err` is why it was refused, and then
/// all is as it was.
pub fn cancel<B: Book>(
    day: OpenDay,
    book: &mut B,
    tape: &mut Tape,
    form: CancelForm,
) -> (OpenDay, Result<(), Refusal>)
    ensures answer { result.1
        ≡ answer (Cancel form) (state (B.queues book.old) tape.old (Open day)) }
    ensures state { state (B.queues book.new) tape.new (Open result.0)
        ≡ step (Cancel form) (state (B.queues book.old) tape.old (Open day)) }
    ensures holds_after { HoldsAfter (Cancel form) (state (B.queues book.old) tape.old (Open day)) }
{
    day.cancel(book, tape, form)
}

/// Removes all of the firm's orders and stops that match every filled cell (rules 14). `Err` is why
/// it was refused, and then all is as it was.
pub fn mass_cancel<B: Book>(
    day: OpenDay,
    book: &mut B,
    tape: &mut Tape,
    form: MassCancelForm,
) -> (OpenDay, Result<(), Refusal>)
    ensures answer { result.1
        ≡ answer (MassCancel form) (state (B.queues book.old) tape.old (Open day)) }
    ensures state { state (B.queues book.new) tape.new (Open result.0)
        ≡ step (MassCancel form) (state (B.queues book.old) tape.old (Open day)) }
    ensures holds_after { HoldsAfter (MassCancel form)
        (state (B.queues book.old) tape.old (Open day)) }
{
    day.mass_cancel(book, tape, form)
}

/// Removes the orders and stops of validity Day and closes the day (rules 15). `Err` has the open
/// day as it was, and why it was refused.
pub fn close<B: Book>(
    day: OpenDay,
    book: &mut B,
    tape: &mut Tape,
) -> Result<ClosedDay, (OpenDay, Refusal)>
    ensures answer { Closes day (B.queues book.old) tape.old result (B.queues book.new) tape.new }
    ensures holds_after { HoldsAfter Closing (state (B.queues book.old) tape.old (Open day)) }
{
    day.close(book, tape)
}

/// Opens a later day (rules 15). `Err` has the closed day as it was, and why it was refused.
pub fn open<B: Book>(
    day: ClosedDay,
    book: &B,
    tape: &Tape,
    form: OpeningForm,
) -> Result<OpenDay, (ClosedDay, Refusal)>
    ensures answer { Opens form day (B.queues book.now) tape.now result }
    ensures holds_after { HoldsAfter (Opening form)
        (state (B.queues book.now) tape.now (Closed day)) }
{
    day.open(book, tape, form)
}
