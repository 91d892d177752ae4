// Cancel and mass cancel.
ghost use Rattle.std.specs.Prelude.{◌≡◌};
ghost use Rattle.forms.specs.declared.form.Form.TheVariants.{Cancel, MassCancel};
ghost use Rattle.venue.specs.Steps.{cancel_answer, mass_cancel_answer};
ghost use Rattle.venue.specs.Days.{state, answer, step};
ghost use Rattle.venue.specs.declared.day.Day.TheVariants.{Open};

use crate::day::OpenDay;
use crate::lookup::{Found, firms_record};
use crate::room::lines_free;
use books::book::Book;
use forms::form::{CancelForm, MassCancelForm};
use forms::refusal::Refusal;
use matching::removal::{CancelFilter, Removal};
use matching::removing::{cancel_resting, remove};
use tapes::cause::Cause;
use tapes::tape::Tape;
use validation::removals::{validate_cancel, validate_mass_cancel};

fn cancel_answer<B: Book>(book: &B, tape: &Tape, form: CancelForm) -> Result<Found, Refusal>
    ensures { result ≡ cancel_answer form (B.queues book.now) tape.now }
{
    let request = validate_cancel(form)?;
    lines_free(book, tape)?;
    firms_record(book, request.firm, request.number)
}

fn mass_cancel_answer<B: Book>(
    book: &B,
    tape: &Tape,
    form: MassCancelForm,
) -> Result<CancelFilter, Refusal>
    ensures { result ≡ mass_cancel_answer form (B.queues book.now) tape.now }
{
    let filter = validate_mass_cancel(form)?;
    lines_free(book, tape)?;
    Ok(filter)
}

impl OpenDay {
    /// A cancel of the firm's order or stop of a number: answers whether it was accepted, or why
    /// not (rules 14).
    pub fn cancel<B: Book>(
        self,
        book: &mut B,
        tape: &mut Tape,
        form: CancelForm,
    ) -> (OpenDay, Result<(), Refusal>)
        ensures answer { result.1
            ≡ answer (Cancel form) (state (B.queues book.old) tape.old (Open self)) }
        ensures state { state (B.queues book.new) tape.new (Open result.0)
            ≡ step (Cancel form) (state (B.queues book.old) tape.old (Open self)) }
    {
        match cancel_answer(book, tape, form) {
            Ok(found) => {
                cancel_resting(
                    book,
                    tape,
                    Cause::Requested,
                    found.queue,
                    found.at,
                    found.record,
                );
                (self, Ok(()))
            }
            Err(refusal) => (self, Err(refusal)),
        }
    }

    /// A mass cancel of the firm's orders and stops that match every filled cell. It is accepted
    /// where nothing matches too (rules 14).
    pub fn mass_cancel<B: Book>(
        self,
        book: &mut B,
        tape: &mut Tape,
        form: MassCancelForm,
    ) -> (OpenDay, Result<(), Refusal>)
        ensures answer { result.1
            ≡ answer (MassCancel form) (state (B.queues book.old) tape.old (Open self)) }
        ensures state { state (B.queues book.new) tape.new (Open result.0)
            ≡ step (MassCancel form) (state (B.queues book.old) tape.old (Open self)) }
    {
        match mass_cancel_answer(book, tape, form) {
            Ok(filter) => {
                remove(book, tape, Removal::Matching(filter), Cause::Requested);
                (self, Ok(()))
            }
            Err(refusal) => (self, Err(refusal)),
        }
    }
}
