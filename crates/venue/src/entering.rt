// Entry.
ghost use Rattle.std.specs.Prelude.{◌≡◌, None};
ghost use Rattle.forms.specs.declared.form.Form.TheVariants.{Entry};
ghost use Rattle.matching.specs.MatchStates.{match_state};
ghost use Rattle.venue.specs.Steps.{entry_answer};
ghost use Rattle.venue.specs.Days.{state, answer, step};
ghost use Rattle.venue.specs.declared.day.Day.TheVariants.{Open};

use crate::day::OpenDay;
use crate::lookup::ClientNumberClaim;
use crate::room::{lines_free, stamps_free};
use books::book::Book;
use forms::form::EntryForm;
use forms::refusal::Refusal;
use matching::entering::enter;
use matching::new_order::NewOrder;
use matching::session::Session;
use tapes::tape::Tape;
use validation::entries::validate_entry;

// What the form asks for, or the first refusal that applies, by rising number.
fn entry_answer<B: Book>(
    book: &B,
    tape: &Tape,
    session: Session,
    form: EntryForm,
) -> Result<NewOrder, Refusal>
    ensures { result ≡ entry_answer form (match_state (B.queues book.now) tape.now session None) }
{
    let new_order = validate_entry(form)?;
    lines_free(book, tape)?;
    stamps_free(book, session)?;
    let claim = ClientNumberClaim {
        firm: new_order.firm,
        client: new_order.client,
        except: None,
    };
    claim.check(book)?;
    Ok(new_order)
}

impl OpenDay {
    /// An entry of an order or stop: answers whether it was accepted, or why not (rules 8).
    pub fn enter<B: Book>(
        self,
        book: &mut B,
        tape: &mut Tape,
        form: EntryForm,
    ) -> (OpenDay, Result<(), Refusal>)
        ensures answer { result.1
            ≡ answer (Entry form) (state (B.queues book.old) tape.old (Open self)) }
        ensures state { state (B.queues book.new) tape.new (Open result.0)
            ≡ step (Entry form) (state (B.queues book.old) tape.old (Open self)) }
    {
        let OpenDay { day, mut session } = self;
        match entry_answer(book, tape, session, form) {
            Ok(new_order) => {
                enter(book, tape, &mut session, new_order);
                (OpenDay { day, session }, Ok(()))
            }
            Err(refusal) => (OpenDay { day, session }, Err(refusal)),
        }
    }
}
