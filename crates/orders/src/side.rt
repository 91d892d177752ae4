// Sides, and validities: how long an order is in force (rules 1).
ghost use Rattle.std.specs.Prelude.{◌≡◌};
ghost use Rattle.std.specs.Option.{ok_or};
ghost use Rattle.orders.specs.Sides.{opposite, is_immediate, is_day, side_of, validity_of, unknown_code};

/// The side of an order: it buys (1) or sells (2).
#[derive(Clone, Copy, Debug, PartialEq, Eq)]
pub enum Side {
    Buy,
    Sell,
}

/// How long an order is in force: until closing (Day, 0), until it is cancelled (GTC, 1), only for
/// what trades at once (IOC, 3), or only where the whole of it trades at once (FOK, 4).
#[derive(Clone, Copy, Debug, PartialEq, Eq)]
pub enum Validity {
    Day,
    Gtc,
    Ioc,
    Fok,
}

/// A number that names no side, or no validity: the number itself.
#[derive(Clone, Copy, Debug, PartialEq, Eq)]
pub struct UnknownCode(pub u64);

impl TryFrom<u64> for Side {
    type Error = UnknownCode;

    ghost try_from_gives = { λ code answer. answer ≡ ok_or (side_of code) (unknown_code code) };

    fn try_from(code: u64) -> Result<Side, UnknownCode> {
        match code {
            1 => Ok(Side::Buy),
            2 => Ok(Side::Sell),
            _ => Err(UnknownCode(code)),
        }
    }
}

impl TryFrom<u64> for Validity {
    type Error = UnknownCode;

    ghost try_from_gives = { λ code answer. answer ≡ ok_or (validity_of code) (unknown_code code) };

    fn try_from(code: u64) -> Result<Validity, UnknownCode> {
        match code {
            0 => Ok(Validity::Day),
            1 => Ok(Validity::Gtc),
            3 => Ok(Validity::Ioc),
            4 => Ok(Validity::Fok),
            _ => Err(UnknownCode(code)),
        }
    }
}

impl Side {
    /// The other side.
    pub fn opposite(self) -> Side
        ensures { result ≡ opposite self }
    {
        match self {
            Side::Buy => Side::Sell,
            Side::Sell => Side::Buy,
        }
    }
}

impl Validity {
    /// Whether what does not trade at once is cancelled (rules 11).
    pub fn is_immediate(self) -> bool
        ensures { result ≡ is_immediate self }
    {
        match self {
            Validity::Day | Validity::Gtc => false,
            Validity::Ioc | Validity::Fok => true,
        }
    }

    /// Whether closing removes the order (rules 15).
    pub fn is_day(self) -> bool
        ensures { result ≡ is_day self }
    {
        match self {
            Validity::Day => true,
            Validity::Gtc | Validity::Ioc | Validity::Fok => false,
        }
    }
}
