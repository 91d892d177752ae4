// Change.
ghost use Rattle.std.specs.Prelude.{◌≡◌, None};
ghost use Rattle.forms.specs.declared.form.Form.TheVariants.{Change as ChangeRow};
ghost use Rattle.matching.specs.MatchStates.{match_state};
ghost use Rattle.venue.specs.Steps.{check_quantity, check_disclosed, plan_for, change_answer};
ghost use Rattle.venue.specs.Days.{state, answer, step};
ghost use Rattle.venue.specs.declared.day.Day.TheVariants.{Open};

use crate::day::OpenDay;
use crate::lookup::{ClientNumberClaim, Found, firms_record, standing_in};
use crate::plan::AmendPlan;
use crate::room::{lines_free, stamps_free};
use books::book::Book;
use forms::form::ChangeForm;
use forms::refusal::Refusal;
use matching::amendment::Amendment;
use matching::changing::change;
use matching::session::Session;
use orders::order::Order;
use tapes::tape::Tape;
use validation::changes::{AmendRequest, validate_change};
use validation::combinations::is_disclosed_barred;

// The new quantity must be above the lots already traded.
fn check_quantity(request: Amendment, order: Order) -> Result<(), Refusal>
    ensures { result ≡ check_quantity request order }
{
    if request.new_quantity(order) <= order.quantity - order.open_lots {
        Err(Refusal::QuantityTraded)
    } else {
        Ok(())
    }
}

// The disclosed after the change must fit the quantity.
fn check_disclosed(request: Amendment, order: Order) -> Result<(), Refusal>
    ensures { result ≡ check_disclosed request order }
{
    if is_disclosed_barred(request.new_quantity(order), request.new_disclosed(order)) {
        Err(Refusal::DisclosedBarred)
    } else {
        Ok(())
    }
}

// What the change will do to the record that was found.
fn plan_for(request: AmendRequest, found: Found) -> Result<AmendPlan, Refusal>
    ensures { result ≡ plan_for request found }
{
    let order = standing_in(found.record)?;
    check_quantity(request.change, order)?;
    check_disclosed(request.change, order)?;
    Ok(AmendPlan {
        change: request.change,
        at: found.at,
        order,
    })
}

// What the change will do, or the first refusal that applies, by rising number.
fn change_answer<B: Book>(
    book: &B,
    tape: &Tape,
    session: Session,
    form: ChangeForm,
) -> Result<AmendPlan, Refusal>
    ensures { result
        ≡ change_answer form (match_state (B.queues book.now) tape.now session None) }
{
    let request = validate_change(form)?;
    lines_free(book, tape)?;
    stamps_free(book, session)?;
    let found = firms_record(book, request.firm, request.number)?;
    let claim = ClientNumberClaim {
        firm: request.firm,
        client: request.change.client,
        except: Some(request.number),
    };
    claim.check(book)?;
    plan_for(request, found)
}

impl OpenDay {
    /// A change of a standing order: answers whether it was accepted, or why not (rules 13).
    pub fn change<B: Book>(
        self,
        book: &mut B,
        tape: &mut Tape,
        form: ChangeForm,
    ) -> (OpenDay, Result<(), Refusal>)
        ensures answer { result.1
            ≡ answer (ChangeRow form) (state (B.queues book.old) tape.old (Open self)) }
        ensures state { state (B.queues book.new) tape.new (Open result.0)
            ≡ step (ChangeRow form) (state (B.queues book.old) tape.old (Open self)) }
    {
        let OpenDay { day, mut session } = self;
        match change_answer(book, tape, session, form) {
            Ok(plan) => {
                change(
                    book,
                    tape,
                    &mut session,
                    plan.change,
                    plan.order.side,
                    plan.at,
                    plan.order,
                );
                (OpenDay { day, session }, Ok(()))
            }
            Err(refusal) => (OpenDay { day, session }, Err(refusal)),
        }
    }
}
