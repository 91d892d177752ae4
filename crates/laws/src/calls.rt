// Setting up, a step and a whole run, with the laws in their contracts: the calls that the programs
// make.
ghost use Rattle.std.specs.Prelude.{◌≡◌};
ghost use Rattle.venue.specs.Days.{state, set_up, at_least_1, answer, step};
ghost use Rattle.venue.specs.declared.day.Day.TheVariants.{Open};
ghost use Rattle.laws.specs.Tally.{starting};
ghost use Rattle.laws.specs.OneStep.{StepWithinRoom, StepFilled};
ghost use Rattle.laws.specs.Runs.{Lawful, Throughout, FairThroughout, HoldsAfter, after};

use books::book::Book;
use forms::form::Form;
use forms::refusal::Refusal;
use tapes::tape::Tape;
use venue::day::Day;
use venue::setup;

/// Clears book and tape, and opens a day (rules 6). A `day` or a first `stamp` of 0 counts as 1.
pub fn set_up<B: Book>(book: &mut B, tape: &mut Tape, day: u16, stamp: u32) -> Day
    ensures state { state (B.queues book.new) tape.new result
        ≡ set_up day stamp (B.queues book.old) tape.old.limit }
    ensures lawful { Lawful (state (B.queues book.new) tape.new result) }
{
    let open = setup::set_up(book, tape, day, stamp);
    Day::Open(open)
}

/// Takes the step that a form asks for (rules 7 to 15): `Err` is why it was refused, and then book,
/// tape and day are as they were. Whatever setting up and steps led here, the laws hold after it
/// too.
pub fn step<B: Book>(
    day: Day,
    book: &mut B,
    tape: &mut Tape,
    form: Form,
) -> (Day, Result<(), Refusal>)
    ensures answer { result.1 ≡ answer form (state (B.queues book.old) tape.old day) }
    ensures state { state (B.queues book.new) tape.new result.0
        ≡ step form (state (B.queues book.old) tape.old day) }
    ensures holds_after { HoldsAfter form (state (B.queues book.old) tape.old day) }
    ensures within_room { StepWithinRoom form (state (B.queues book.old) tape.old day) }
    ensures filled { StepFilled form (state (B.queues book.old) tape.old day) }
{
    day.step(book, tape, form)
}

/// Sets up and takes a whole list of steps, the refused ones too; the laws hold after setting up
/// and after each of them.
pub fn run<B: Book>(book: &mut B, tape: &mut Tape, day: u16, stamp: u32, forms: &[Form]) -> Day
    ensures state { state (B.queues book.new) tape.new result
        ≡ after forms.now (set_up day stamp (B.queues book.old) tape.old.limit) }
    ensures lawful { Throughout Lawful forms.now
        (set_up day stamp (B.queues book.old) tape.old.limit) }
    ensures fair { FairThroughout forms.now (set_up day stamp (B.queues book.old) tape.old.limit)
        (starting (at_least_1 stamp)) }
{
    let mut current = set_up(book, tape, day, stamp);
    for form in forms {
        let (next, _answer) = step(current, book, tape, *form);
        current = next;
    }
    current
}
