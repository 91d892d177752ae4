// The session of a venue, which outlives closing and opening.
ghost use Rattle.std.specs.Prelude.{◌≡◌};
ghost use Rattle.matching.specs.Sessions.{stamp_drawn, undrawn_stamps, session_from};
ghost use Rattle.matching.specs.StampLimits.{StampLimits};

use orders::price::Price;

/// The next stamp, and the price of the latest trade, if there was one (rules 1, 2, 10).
#[derive(Clone, Copy)]
pub struct Session {
    pub next_stamp: u32,
    pub last_price: Option<Price>,
}

// One past the last stamp.
pub const STAMPS_END: u32 = 1_000_000_000;

impl Session {
    /// A session before any trade; a first stamp of 0 counts as 1 (rules 6).
    pub fn from_stamp(stamp: u32) -> Session
        ensures { result ≡ session_from stamp }
    {
        Session {
            next_stamp: stamp.max(1),
            last_price: None,
        }
    }

    /// Draws the next stamp (rules 2).
    pub fn draw(&mut self) -> u32
        ensures answer { result ≡ self.old.next_stamp }
        ensures state { self.new ≡ stamp_drawn self.old }
    {
        let stamp = self.next_stamp;
        if stamp < STAMPS_END {
            self.next_stamp = stamp + 1;
        }
        stamp
    }

    /// How many stamps are undrawn (rules 2).
    pub fn undrawn_stamps(self) -> u32
        ensures { result ≡ undrawn_stamps self }
    {
        STAMPS_END.saturating_sub(self.next_stamp)
    }
}

/// The stamps end where it is published.
pub fn stamp_limits()
    ensures { StampLimits }
{}
