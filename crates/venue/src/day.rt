// Open and closed days. A day is neither Copy nor Clone: a step uses it up, and answers the day
// that it leaves. They are two types of the same fields, so that no step of an open day is taken
// on a closed one.
// Book and tape are arguments of each step, and no part of the day.
use matching::session::Session;

/// An open day: its number, and the session (rules 1).
pub struct OpenDay {
    pub(crate) day: u16,
    pub(crate) session: Session,
}

/// A closed day: its number, and the session, which outlives closing (rules 15).
pub struct ClosedDay {
    pub(crate) day: u16,
    pub(crate) session: Session,
}

/// A day that may be open or closed, as the program runs.
pub enum Day {
    Open(OpenDay),
    Closed(ClosedDay),
}

impl Day {
    /// Ends the day, which no further step is taken on.
    pub fn end(self) {
        match self {
            Day::Open(OpenDay { day: _, session: _ }) => {}
            Day::Closed(ClosedDay { day: _, session: _ }) => {}
        }
    }
}
