// Closing and opening.
ghost use Rattle.std.specs.Prelude.{◌≡◌, Ok, Err, MatchResult};
ghost use Rattle.forms.specs.declared.form.Form.TheVariants.{Closing, Opening};
ghost use Rattle.venue.specs.Steps.{opening_result};
ghost use Rattle.venue.specs.Days.{state, answer, step, Closes, Opens};

use crate::day::{ClosedDay, OpenDay};
use crate::room::lines_free;
use books::book::Book;
use forms::form::OpeningForm;
use forms::refusal::Refusal;
use matching::removal::Removal;
use matching::removing::remove;
use tapes::cause::Cause;
use tapes::tape::Tape;
use validation::removals::validate_opening;

impl OpenDay {
    /// Closes the day: every order and stop of validity Day is removed. A refused closing answers
    /// the open day again, and why (rules 15).
    pub fn close<B: Book>(
        self,
        book: &mut B,
        tape: &mut Tape,
    ) -> Result<ClosedDay, (OpenDay, Refusal)>
        ensures { Closes self (B.queues book.old) tape.old result (B.queues book.new) tape.new }
    {
        if let Err(refusal) = lines_free(book, tape) {
            return Err((self, refusal));
        }
        remove(book, tape, Removal::DayOrders, Cause::DayClosed);
        let OpenDay { day, session } = self;
        Ok(ClosedDay { day, session })
    }
}

// The day that the form names, or the first refusal that applies, by rising number.
fn opening_result<B: Book>(
    book: &B,
    tape: &Tape,
    day: u16,
    form: OpeningForm,
) -> Result<u16, Refusal>
    ensures { result ≡ opening_result form day (B.queues book.now) tape.now }
{
    let next = validate_opening(form)?;
    lines_free(book, tape)?;
    if day < next {
        Ok(next)
    } else {
        Err(Refusal::DayNotLater)
    }
}

impl ClosedDay {
    /// Opens a later day. A refused opening answers the closed day again, and why (rules 15).
    pub fn open<B: Book>(
        self,
        book: &B,
        tape: &Tape,
        form: OpeningForm,
    ) -> Result<OpenDay, (ClosedDay, Refusal)>
        ensures { Opens form self (B.queues book.now) tape.now result }
    {
        match opening_result(book, tape, self.day, form) {
            Ok(day) => {
                let ClosedDay { day: _, session } = self;
                Ok(OpenDay { day, session })
            }
            Err(refusal) => Err((self, refusal)),
        }
    }
}
