// Why lots of an order or stop were cancelled.
ghost use Rattle.std.specs.Prelude.{◌≡◌};
ghost use Rattle.tapes.specs.Causes.{cause_number};

/// Why lots were cancelled, each with its published number (numbers 7).
#[derive(Clone, Copy, Debug, PartialEq, Eq)]
pub enum Cause {
    /// The firm cancelled the order or stop, alone or by a mass cancel.
    Requested = 1,
    /// An IOC order had a leftover: lots that did not trade at once.
    Leftover = 2,
    /// The reach was below the quantity of a FOK order, or below a minimum.
    ShortReach = 3,
    /// The incoming order met an order of its own investor.
    OwnInvestor = 4,
    /// The put was refused: the queue was full, or the number in the book already.
    NotPut = 5,
    /// A market order (type K) found no opposite order.
    NoOpposite = 6,
    /// Closing removed a Day order or stop.
    DayClosed = 7,
}

impl Cause {
    /// The published number.
    pub fn number(self) -> u8
        ensures { result ≡ cause_number self }
    {
        self as u8
    }
}
