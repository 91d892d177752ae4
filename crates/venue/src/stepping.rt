// One step of a day that may be open or closed, by its form.
ghost use Rattle.std.specs.Prelude.{◌≡◌};
ghost use Rattle.validation.specs.Removals.{validate_opening};
ghost use Rattle.venue.specs.Days.{state, wrong_day, closed_refusal, answer, step};
ghost use Rattle.venue.specs.declared.day.Day.TheVariants.{Open, Closed};

use crate::day::{ClosedDay, Day, OpenDay};
use books::book::Book;
use forms::form::{Form, OpeningForm};
use forms::refusal::Refusal;
use tapes::tape::Tape;
use validation::changes::validate_change;
use validation::entries::validate_entry;
use validation::removals::{validate_cancel, validate_mass_cancel, validate_opening};

fn step_open<B: Book>(
    open: OpenDay,
    book: &mut B,
    tape: &mut Tape,
    form: Form,
) -> (Day, Result<(), Refusal>)
    ensures answer { result.1
        ≡ answer form (state (B.queues book.old) tape.old (Open «open»)) }
    ensures state { state (B.queues book.new) tape.new result.0
        ≡ step form (state (B.queues book.old) tape.old (Open «open»)) }
{
    match form {
        Form::Entry(form) => {
            let (open, answer) = open.enter(book, tape, form);
            (Day::Open(open), answer)
        }
        Form::Change(form) => {
            let (open, answer) = open.change(book, tape, form);
            (Day::Open(open), answer)
        }
        Form::Cancel(form) => {
            let (open, answer) = open.cancel(book, tape, form);
            (Day::Open(open), answer)
        }
        Form::MassCancel(form) => {
            let (open, answer) = open.mass_cancel(book, tape, form);
            (Day::Open(open), answer)
        }
        Form::Closing => match open.close(book, tape) {
            Ok(closed) => (Day::Closed(closed), Ok(())),
            Err((open, refusal)) => (Day::Open(open), Err(refusal)),
        },
        Form::Opening(form) => (Day::Open(open), opening_on_open(form)),
    }
}

// An opening on an open day. Cells are checked before the day.
fn opening_on_open(form: OpeningForm) -> Result<(), Refusal>
    ensures { result ≡ wrong_day (validate_opening form) }
{
    validate_opening(form)?;
    Err(Refusal::WrongDay)
}

// Any other form on a closed day. Cells are checked before the day.
fn refused_closed(form: Form) -> Result<(), Refusal>
    ensures { result ≡ closed_refusal form }
{
    match form {
        Form::Entry(form) => {
            validate_entry(form)?;
        }
        Form::Change(form) => {
            validate_change(form)?;
        }
        Form::Cancel(form) => {
            validate_cancel(form)?;
        }
        Form::MassCancel(form) => {
            validate_mass_cancel(form)?;
        }
        Form::Closing | Form::Opening(_) => {}
    }
    Err(Refusal::WrongDay)
}

fn step_closed<B: Book>(
    closed: ClosedDay,
    book: &B,
    tape: &Tape,
    form: Form,
) -> (Day, Result<(), Refusal>)
    ensures answer { result.1
        ≡ answer form (state (B.queues book.now) tape.now (Closed closed)) }
    ensures state { state (B.queues book.now) tape.now result.0
        ≡ step form (state (B.queues book.now) tape.now (Closed closed)) }
{
    match form {
        Form::Opening(form) => match closed.open(book, tape, form) {
            Ok(open) => (Day::Open(open), Ok(())),
            Err((closed, refusal)) => (Day::Closed(closed), Err(refusal)),
        },
        Form::Entry(_) | Form::Change(_) | Form::Cancel(_) | Form::MassCancel(_) | Form::Closing =>
            (Day::Closed(closed), refused_closed(form)),
    }
}

impl Day {
    /// Takes the step that a form asks for. Answers the day that it leaves, and whether it was
    /// accepted, or why not; a refused step leaves book, tape and day as they were (rules 7).
    pub fn step<B: Book>(
        self,
        book: &mut B,
        tape: &mut Tape,
        form: Form,
    ) -> (Day, Result<(), Refusal>)
        ensures answer { result.1 ≡ answer form (state (B.queues book.old) tape.old self) }
        ensures state { state (B.queues book.new) tape.new result.0
            ≡ step form (state (B.queues book.old) tape.old self) }
    {
        match self {
            Day::Open(open) => step_open(open, book, tape, form),
            Day::Closed(closed) => step_closed(closed, book, tape, form),
        }
    }
}
